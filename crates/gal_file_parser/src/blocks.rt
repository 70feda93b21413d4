//! The commands `Fixpoint`, `Section` and `End`.
ghost use Rattle.std.specs.Prelude.{◌≡◌, ◌≤◌, ◌<◌, [], ◌∷◌, length, true};
ghost use Rattle.gal_lexer.specs.declared.token.Mark.TheVariants as M;
ghost use Rattle.gal_grammar.specs.Terms as S;
ghost use Rattle.gal_grammar.specs.Tests.{ident};
ghost use Rattle.gal_grammar.specs.Values.{functions, commands};
ghost use Rattle.gal_grammar.specs.Actions.{push, say_fixpoint, say_section, say_finish};
ghost use Rattle.gal_grammar.specs.Kinds.{tok, act, nt, k_function, k_fixpoints};
ghost use Rattle.gal_grammar.specs.Rules.{m};
ghost use Rattle.gal_raw.specs.Commands as C;
ghost use Rattle.gal_raw.specs.Denotes as V;
ghost use Rattle.gal_term_parser.specs.Left.{left};
ghost use Rattle.gal_term_parser.specs.calls.Steps.{Takes};

use gal_lexer::Mark;
use gal_raw::{Command, Commands, Functions};
use gal_term_parser::{Fault, Parser};

// A function of the command `Fixpoint` and those behind it.
#[tactic(auto, using(gal_grammar::proofs::Complete::act_runs, crate::proofs::Absent::fixpoints_end))]
fn read_fixpoints<'a>(parser: &mut Parser<'a>, block: &mut Functions<'a>) -> Result<(), Fault>
    ensures reads { Takes (λ vs. functions (V.functions block.old) ∷ vs) (λ _ vs. functions (V.functions block.new) ∷ vs) result (nt 0 k_function ∷ nt 0 k_fixpoints ∷ []) (left parser.old) (left parser.new) }
    ensures on { length (left parser.new) ≤ length (left parser.old) }
{
    parser.function(0, true, block)?;
    'more: while parser.take(Mark::With) {
        parser.function(0, true, block)?;
    }
    Ok(())
}

// Behind the word `Fixpoint`.
#[tactic(auto, using(gal_grammar::proofs::Complete::act_runs))]
pub(crate) fn read_fixpoint<'a>(
    parser: &mut Parser<'a>,
    list: &mut Commands<'a>,
) -> Result<(), Fault>
    ensures reads { Takes (λ vs. commands (C.commands list.old) ∷ vs) (λ _ vs. commands (C.commands list.new) ∷ vs) result (act (push (functions S.no_functions)) ∷ nt 0 k_function ∷ nt 0 k_fixpoints ∷ m M.Stop ∷ act say_fixpoint ∷ []) (left parser.old) (left parser.new) }
    ensures on { length (left parser.new) ≤ length (left parser.old) }
{
    let mut block = Functions::new(parser.alloc);
    read_fixpoints(parser, &mut block)?;
    parser.mark(Mark::Stop)?;
    list.push(Command::Fixpoint(block))?;
    Ok(())
}

// Behind the word `Section`.
#[tactic(auto, using(gal_grammar::proofs::Complete::act_runs))]
pub(crate) fn read_section<'a>(
    parser: &mut Parser<'a>,
    list: &mut Commands<'a>,
) -> Result<(), Fault>
    ensures reads { Takes (λ vs. commands (C.commands list.old) ∷ vs) (λ _ vs. commands (C.commands list.new) ∷ vs) result (tok ident ∷ m M.Stop ∷ act say_section ∷ []) (left parser.old) (left parser.new) }
    ensures on { length (left parser.new) ≤ length (left parser.old) }
{
    let name = parser.identifier()?;
    parser.mark(Mark::Stop)?;
    list.push(Command::Section(name))?;
    Ok(())
}

// Behind the word `End`.
#[tactic(auto, using(gal_grammar::proofs::Complete::act_runs))]
pub(crate) fn read_end<'a>(parser: &mut Parser<'a>, list: &mut Commands<'a>) -> Result<(), Fault>
    ensures reads { Takes (λ vs. commands (C.commands list.old) ∷ vs) (λ _ vs. commands (C.commands list.new) ∷ vs) result (tok ident ∷ m M.Stop ∷ act say_finish ∷ []) (left parser.old) (left parser.new) }
    ensures on { length (left parser.new) ≤ length (left parser.old) }
{
    let name = parser.identifier()?;
    parser.mark(Mark::Stop)?;
    list.push(Command::End(name))?;
    Ok(())
}
