//! The command `Require`.
ghost use Rattle.std.specs.Prelude.{◌≡◌, ◌≤◌, ◌<◌, [], ◌∷◌, length, map, Some, None};
ghost use Rattle.std.specs.Option.{option_map};
ghost use Rattle.gal_lexer.specs.declared.token.Mark.TheVariants as M;
ghost use Rattle.gal_grammar.specs.Commands.{plain};
ghost use Rattle.gal_grammar.specs.Tests.{ident, qualid};
ghost use Rattle.gal_grammar.specs.Values.{quals, flag, maybe_name, commands};
ghost use Rattle.gal_grammar.specs.Actions.{push, add_qual, set_name, say_require};
ghost use Rattle.gal_grammar.specs.Kinds.{tok, act, nt, k_required, k_quals};
ghost use Rattle.gal_grammar.specs.Rules.{m, w};
ghost use Rattle.gal_raw.specs.Commands as C;
ghost use Rattle.gal_raw.specs.Denotes as V;
ghost use Rattle.gal_term_parser.specs.Left.{left};
ghost use Rattle.gal_term_parser.specs.calls.Steps.{Takes};
ghost use Rattle.gal_file_parser.specs.calls.Steps.{TakesFlag};

use crate::identifiers::read_some_qualified_names;
use crate::words::{Word, read_word, take_word};
use gal_lexer::Mark;
use gal_raw::{Command, Commands, Flag, Identifier, QualifiedName};
use gal_term_parser::{Fault, Parser};

// The word `Import` or `Export`, if it is there.
#[tactic(auto, using(gal_grammar::proofs::Complete::act_runs, crate::proofs::Rows::import_row, crate::proofs::Rows::export_row, crate::proofs::Rows::required_plain))]
fn read_flag(parser: &mut Parser<'_>) -> Flag
    ensures reads { TakesFlag result (left parser.old) (left parser.new) }
    ensures on { length (left parser.new) ≤ length (left parser.old) }
{
    if take_word(parser, Word::Import) {
        return Flag::Import;
    }
    if take_word(parser, Word::Export) {
        return Flag::Export;
    }
    Flag::Plain
}

// What is required, and whether it is imported or exported.
#[tactic(auto, using(gal_grammar::proofs::Complete::act_runs))]
fn read_required<'a>(parser: &mut Parser<'a>) -> Result<(Flag, Vec<QualifiedName<'a>>), Fault>
    ensures reads { Takes (λ vs. flag plain ∷ vs) (λ p vs. quals (map V.qualified p.1.items) ∷ flag (C.flag p.0) ∷ vs) result (nt 0 k_required ∷ []) (left parser.old) (left parser.new) }
    ensures on { length (left parser.new) ≤ length (left parser.old) }
{
    let flag = read_flag(parser);
    let names = read_some_qualified_names(parser)?;
    Ok((flag, names))
}

// Behind the word `Require`.
#[tactic(auto, using(gal_grammar::proofs::Complete::act_runs))]
pub(crate) fn read_require<'a>(
    parser: &mut Parser<'a>,
    from: Option<Identifier<'a>>,
    list: &mut Commands<'a>,
) -> Result<(), Fault>
    ensures reads { Takes (λ vs. maybe_name (option_map V.identifier from.entry) ∷ commands (C.commands list.old) ∷ vs) (λ _ vs. commands (C.commands list.new) ∷ vs) result (act (push (flag plain)) ∷ nt 0 k_required ∷ m M.Stop ∷ act say_require ∷ []) (left parser.old) (left parser.new) }
    ensures on { length (left parser.new) ≤ length (left parser.old) }
{
    let (flag, names) = read_required(parser)?;
    parser.mark(Mark::Stop)?;
    list.push(Command::Require { from, flag, names })?;
    Ok(())
}

// Behind the word `From`.
#[tactic(auto, using(gal_grammar::proofs::Complete::act_runs))]
pub(crate) fn read_from_require<'a>(
    parser: &mut Parser<'a>,
    list: &mut Commands<'a>,
) -> Result<(), Fault>
    ensures reads { Takes (λ vs. commands (C.commands list.old) ∷ vs) (λ _ vs. commands (C.commands list.new) ∷ vs) result (act (push (maybe_name None)) ∷ tok ident ∷ act set_name ∷ w "Require" ∷ act (push (flag plain)) ∷ nt 0 k_required ∷ m M.Stop ∷ act say_require ∷ []) (left parser.old) (left parser.new) }
    ensures on { length (left parser.new) ≤ length (left parser.old) }
{
    let from = parser.identifier()?;
    read_word(parser, Word::Require)?;
    read_require(parser, Some(from), list)?;
    Ok(())
}
