//! The commands that name a term: `Definition`, `Let` and theorems.
ghost use Rattle.std.specs.Prelude.{◌≡◌, ◌≤◌, ◌<◌, [], ◌∷◌, ◌++◌, length, false};
ghost use Rattle.gal_lexer.specs.declared.token.Mark.TheVariants as M;
ghost use Rattle.gal_grammar.specs.Terms as S;
ghost use Rattle.gal_grammar.specs.Values.{term, groups, a_name, commands, using};
ghost use Rattle.gal_grammar.specs.Commands.{not_said};
ghost use Rattle.gal_grammar.specs.Actions.{push, say_definition, say_definition_by, say_local, say_theorem};
ghost use Rattle.gal_grammar.specs.Kinds.{act, nt, k_definition, k_proof};
ghost use Rattle.gal_grammar.specs.Rules.{m, a_term, head};
ghost use Rattle.gal_raw.specs.Commands as C;
ghost use Rattle.gal_raw.specs.Denotes as V;
ghost use Rattle.gal_term_parser.specs.Left.{left};
ghost use Rattle.gal_term_parser.specs.calls.Steps.{Takes, TakesAt};

use crate::proving::read_proof;
use gal_lexer::Mark;
use gal_raw::{Command, Commands, Groups, Identifier, Raw};
use gal_term_parser::{Fault, Parser};

/// The name of a command, its groups and its type.
#[derive(Drop)]
pub(crate) struct Head<'a> {
    pub name: Identifier<'a>,
    pub groups: Groups<'a>,
    pub ty: Raw<'a>,
}

// A name, groups and a type.
#[tactic(auto, using(gal_grammar::proofs::Complete::act_runs))]
fn read_head<'a>(parser: &mut Parser<'a>) -> Result<Head<'a>, Fault>
    ensures reads { TakesAt false (λ vs. vs) (λ h vs. term (V.tree h.ty) ∷ groups (V.groups h.groups) ∷ a_name (V.identifier h.name) ∷ vs) result (head 0) (left parser.old) (left parser.new) }
    ensures on { length (left parser.new) ≤ length (left parser.old) }
{
    let name = parser.identifier()?;
    let mut among = Groups::new(parser.alloc);
    parser.groups(0, &mut among)?;
    parser.mark(Mark::Colon)?;
    let ty = parser.term(1, false)?;
    Ok(Head {
        name,
        groups: among,
        ty,
    })
}

// Behind the mark `:=` of a definition.
#[tactic(auto, using(gal_grammar::proofs::Complete::act_runs))]
fn read_given_definition<'a>(
    parser: &mut Parser<'a>,
    front: Head<'a>,
    list: &mut Commands<'a>,
) -> Result<(), Fault>
    ensures reads { Takes (λ vs. term (V.tree front.entry.ty) ∷ groups (V.groups front.entry.groups) ∷ a_name (V.identifier front.entry.name) ∷ commands (C.commands list.old) ∷ vs) (λ _ vs. commands (C.commands list.new) ∷ vs) result (a_term 0 ∷ m M.Stop ∷ act say_definition ∷ []) (left parser.old) (left parser.new) }
    ensures on { length (left parser.new) ≤ length (left parser.old) }
{
    let body = parser.term(1, false)?;
    parser.mark(Mark::Stop)?;
    list.push(Command::Definition {
        name: front.name,
        groups: front.groups,
        ty: front.ty,
        body,
    })?;
    Ok(())
}

// The end of the sentence and the proof that gives a definition's body.
#[tactic(auto, using(gal_grammar::proofs::Complete::act_runs))]
fn read_proved_definition<'a>(
    parser: &mut Parser<'a>,
    front: Head<'a>,
    list: &mut Commands<'a>,
) -> Result<(), Fault>
    ensures reads { Takes (λ vs. term (V.tree front.entry.ty) ∷ groups (V.groups front.entry.groups) ∷ a_name (V.identifier front.entry.name) ∷ commands (C.commands list.old) ∷ vs) (λ _ vs. commands (C.commands list.new) ∷ vs) result (m M.Stop ∷ act (push (using not_said)) ∷ nt 0 k_proof ∷ act say_definition_by ∷ []) (left parser.old) (left parser.new) }
    ensures on { length (left parser.new) ≤ length (left parser.old) }
{
    parser.mark(Mark::Stop)?;
    let proof = read_proof(parser)?;
    list.push(Command::DefinitionBy {
        name: front.name,
        groups: front.groups,
        ty: front.ty,
        proof,
    })?;
    Ok(())
}

// Behind the head of a definition.
#[tactic(auto, using(crate::proofs::Rows::definition_by))]
fn read_defined<'a>(
    parser: &mut Parser<'a>,
    front: Head<'a>,
    list: &mut Commands<'a>,
) -> Result<(), Fault>
    ensures reads { Takes (λ vs. term (V.tree front.entry.ty) ∷ groups (V.groups front.entry.groups) ∷ a_name (V.identifier front.entry.name) ∷ commands (C.commands list.old) ∷ vs) (λ _ vs. commands (C.commands list.new) ∷ vs) result (nt 0 k_definition ∷ []) (left parser.old) (left parser.new) }
    ensures on { length (left parser.new) ≤ length (left parser.old) }
{
    if parser.take(Mark::Assign) {
        read_given_definition(parser, front, list)?;
        return Ok(());
    }
    read_proved_definition(parser, front, list)?;
    Ok(())
}

// Behind the word `Definition`.
#[tactic(auto, using(gal_grammar::proofs::Complete::act_runs))]
pub(crate) fn read_definition<'a>(
    parser: &mut Parser<'a>,
    list: &mut Commands<'a>,
) -> Result<(), Fault>
    ensures reads { Takes (λ vs. commands (C.commands list.old) ∷ vs) (λ _ vs. commands (C.commands list.new) ∷ vs) result (head 0 ++ (nt 0 k_definition ∷ [])) (left parser.old) (left parser.new) }
    ensures on { length (left parser.new) ≤ length (left parser.old) }
{
    let front = read_head(parser)?;
    read_defined(parser, front, list)?;
    Ok(())
}

// Behind the word `Let`.
#[tactic(auto, using(gal_grammar::proofs::Complete::act_runs))]
pub(crate) fn read_local<'a>(parser: &mut Parser<'a>, list: &mut Commands<'a>) -> Result<(), Fault>
    ensures reads { Takes (λ vs. commands (C.commands list.old) ∷ vs) (λ _ vs. commands (C.commands list.new) ∷ vs) result (head 0 ++ (m M.Assign ∷ a_term 0 ∷ m M.Stop ∷ act say_local ∷ [])) (left parser.old) (left parser.new) }
    ensures on { length (left parser.new) ≤ length (left parser.old) }
{
    let front = read_head(parser)?;
    parser.mark(Mark::Assign)?;
    let body = parser.term(1, false)?;
    parser.mark(Mark::Stop)?;
    list.push(Command::Local {
        name: front.name,
        groups: front.groups,
        ty: front.ty,
        body,
    })?;
    Ok(())
}

// Behind the word `Theorem`.
#[tactic(auto, using(gal_grammar::proofs::Complete::act_runs))]
pub(crate) fn read_theorem<'a>(
    parser: &mut Parser<'a>,
    list: &mut Commands<'a>,
) -> Result<(), Fault>
    ensures reads { Takes (λ vs. commands (C.commands list.old) ∷ vs) (λ _ vs. commands (C.commands list.new) ∷ vs) result (head 0 ++ (m M.Stop ∷ act (push (using not_said)) ∷ nt 0 k_proof ∷ act say_theorem ∷ [])) (left parser.old) (left parser.new) }
    ensures on { length (left parser.new) ≤ length (left parser.old) }
{
    let front = read_head(parser)?;
    parser.mark(Mark::Stop)?;
    let proof = read_proof(parser)?;
    list.push(Command::Theorem {
        name: front.name,
        groups: front.groups,
        ty: front.ty,
        proof,
    })?;
    Ok(())
}
