//! The commands of assumptions.
ghost use Rattle.std.specs.Prelude.{◌≡◌, ◌≤◌, ◌<◌, [], ◌∷◌, length, false};
ghost use Rattle.gal_lexer.specs.declared.token.Mark.TheVariants as M;
ghost use Rattle.gal_grammar.specs.Terms as S;
ghost use Rattle.gal_grammar.specs.Tests.{ident};
ghost use Rattle.gal_grammar.specs.Values.{binders, groups, commands};
ghost use Rattle.gal_grammar.specs.Actions.{push, bind, add_binder, add_group, say_axiom, say_variable};
ghost use Rattle.gal_grammar.specs.Kinds.{tok, act, nt, k_assums, k_bounds, k_bound_groups};
ghost use Rattle.gal_grammar.specs.Rules.{m, a_term, in_bound_group};
ghost use Rattle.gal_raw.specs.Commands as C;
ghost use Rattle.gal_raw.specs.Denotes as V;
ghost use Rattle.gal_term_parser.specs.Left.{left};
ghost use Rattle.gal_term_parser.specs.calls.Steps.{Takes, TakesAt};

use crate::identifiers::read_some_bounds;
use gal_lexer::Mark;
use gal_raw::{Command, Commands, Groups};
use gal_term_parser::{Fault, Parser};

// A group of identifiers behind its parenthesis.
#[tactic(auto, using(gal_grammar::proofs::Complete::act_runs))]
fn read_bound_group<'a>(parser: &mut Parser<'a>, among: &mut Groups<'a>) -> Result<(), Fault>
    ensures reads { Takes (λ vs. groups (V.groups among.old) ∷ vs) (λ _ vs. groups (V.groups among.new) ∷ vs) result (in_bound_group 0) (left parser.old) (left parser.new) }
    ensures on { length (left parser.new) ≤ length (left parser.old) }
{
    let names = read_some_bounds(parser)?;
    parser.mark(Mark::Colon)?;
    let ty = parser.term(1, false)?;
    parser.mark(Mark::Close)?;
    among.push(names, ty)?;
    Ok(())
}

// Further groups of identifiers.
#[tactic(auto, using(gal_grammar::proofs::Complete::act_runs, crate::proofs::Absent::bound_groups_end))]
fn read_bound_groups<'a>(parser: &mut Parser<'a>, among: &mut Groups<'a>) -> Result<(), Fault>
    ensures reads { Takes (λ vs. groups (V.groups among.old) ∷ vs) (λ _ vs. groups (V.groups among.new) ∷ vs) result (nt 0 k_bound_groups ∷ []) (left parser.old) (left parser.new) }
    ensures on { length (left parser.new) ≤ length (left parser.old) }
{
    'more: while parser.take(Mark::Open) {
        read_bound_group(parser, among)?;
    }
    Ok(())
}

// Identifiers and their type without parentheses.
#[tactic(auto, using(gal_grammar::proofs::Complete::act_runs))]
fn read_bare_bounds<'a>(parser: &mut Parser<'a>, among: &mut Groups<'a>) -> Result<(), Fault>
    ensures reads { TakesAt false (λ vs. groups (V.groups among.old) ∷ vs) (λ _ vs. groups (V.groups among.new) ∷ vs) result (act (push (binders [])) ∷ tok ident ∷ act bind ∷ act add_binder ∷ nt 0 k_bounds ∷ m M.Colon ∷ a_term 0 ∷ act add_group ∷ []) (left parser.old) (left parser.new) }
    ensures on { length (left parser.new) ≤ length (left parser.old) }
{
    let names = read_some_bounds(parser)?;
    parser.mark(Mark::Colon)?;
    let ty = parser.term(1, false)?;
    among.push(names, ty)?;
    Ok(())
}

// What is assumed: groups in parentheses, or one group without them.
#[tactic(auto, using(gal_grammar::proofs::Complete::act_runs, crate::proofs::Absent::bare_assumptions))]
fn read_assumed<'a>(parser: &mut Parser<'a>) -> Result<Groups<'a>, Fault>
    ensures reads { TakesAt false (λ vs. vs) (λ g vs. groups (V.groups g) ∷ vs) result (act (push (groups S.no_groups)) ∷ nt 0 k_assums ∷ []) (left parser.old) (left parser.new) }
    ensures on { length (left parser.new) ≤ length (left parser.old) }
{
    let mut among = Groups::new(parser.alloc);
    if parser.take(Mark::Open) {
        read_bound_group(parser, &mut among)?;
        read_bound_groups(parser, &mut among)?;
    } else {
        read_bare_bounds(parser, &mut among)?;
    }
    Ok(among)
}

// Behind the word `Axiom`.
#[tactic(auto, using(gal_grammar::proofs::Complete::act_runs))]
pub(crate) fn read_axiom<'a>(parser: &mut Parser<'a>, list: &mut Commands<'a>) -> Result<(), Fault>
    ensures reads { Takes (λ vs. commands (C.commands list.old) ∷ vs) (λ _ vs. commands (C.commands list.new) ∷ vs) result (act (push (groups S.no_groups)) ∷ nt 0 k_assums ∷ m M.Stop ∷ act say_axiom ∷ []) (left parser.old) (left parser.new) }
    ensures on { length (left parser.new) ≤ length (left parser.old) }
{
    let among = read_assumed(parser)?;
    parser.mark(Mark::Stop)?;
    list.push(Command::Axiom(among))?;
    Ok(())
}

// Behind the word `Variable`.
#[tactic(auto, using(gal_grammar::proofs::Complete::act_runs))]
pub(crate) fn read_variable<'a>(
    parser: &mut Parser<'a>,
    list: &mut Commands<'a>,
) -> Result<(), Fault>
    ensures reads { Takes (λ vs. commands (C.commands list.old) ∷ vs) (λ _ vs. commands (C.commands list.new) ∷ vs) result (act (push (groups S.no_groups)) ∷ nt 0 k_assums ∷ m M.Stop ∷ act say_variable ∷ []) (left parser.old) (left parser.new) }
    ensures on { length (left parser.new) ≤ length (left parser.old) }
{
    let among = read_assumed(parser)?;
    parser.mark(Mark::Stop)?;
    list.push(Command::Variable(among))?;
    Ok(())
}
