//! The commands `Universe` and `Constraint`.
ghost use Rattle.std.specs.Prelude.{◌≡◌, ◌≤◌, ◌<◌, [], ◌∷◌, length, map, IfOk};
ghost use Rattle.gal_lexer.specs.declared.token.Mark.TheVariants as M;
ghost use Rattle.gal_grammar.specs.Tests.{ident};
ghost use Rattle.gal_grammar.specs.Values.{a_level, a_relation, conses, commands, names};
ghost use Rattle.gal_grammar.specs.Actions.{push, add_cons, add_name, say_universe, say_constraint};
ghost use Rattle.gal_grammar.specs.Kinds.{tok, act, nt, k_level, k_relation, k_conses, k_idents};
ghost use Rattle.gal_grammar.specs.Rules.{m};
ghost use Rattle.gal_raw.specs.Commands as V;
ghost use Rattle.gal_term_parser.specs.Left.{left};
ghost use Rattle.gal_term_parser.specs.calls.Steps.{Takes};

use crate::identifiers::read_some_identifiers;
use gal_lexer::Mark;
use gal_raw::{Command, Commands, Constraint, Level, QualifiedName, Relation};
use gal_term_parser::{Fault, Lexeme, Parser};
use std::alloc::{AllocError, Global};

// A list of one constraint.
fn one_constraint<'a>(
    alloc: Global,
    only: Constraint<'a>,
) -> Result<Vec<Constraint<'a>>, AllocError>
    ensures { IfOk result (λ v. map V.constraint v.items ≡ V.constraint only.entry ∷ []) }
{
    let mut found = Vec::new(alloc);
    match found.push(only) {
        Ok(()) => Ok(found),
        Err(_) => Err(AllocError),
    }
}

// A universe.
#[tactic(auto, using(gal_grammar::proofs::Complete::act_runs))]
fn read_level<'a>(parser: &mut Parser<'a>) -> Result<Level<'a>, Fault>
    ensures reads { Takes (λ vs. vs) (λ x vs. a_level (V.level x) ∷ vs) result (nt 0 k_level ∷ []) (left parser.old) (left parser.new) }
    ensures on { length (left parser.new) ≤ length (left parser.old) }
{
    match parser.split() {
        Some((Lexeme::Mark(Mark::Set), rest)) => {
            parser.rest = rest;
            Ok(Level::Set)
        }
        Some((Lexeme::Short(found), rest)) => {
            parser.rest = rest;
            Ok(Level::Named(QualifiedName::Short(found)))
        }
        Some((Lexeme::Long(found), rest)) => {
            parser.rest = rest;
            Ok(Level::Named(QualifiedName::Long(found)))
        }
        _ => Err(parser.stuck()),
    }
}

// `<`, `<=` or `=`
#[tactic(auto, using(gal_grammar::proofs::Complete::act_runs))]
fn read_relation(parser: &mut Parser<'_>) -> Result<Relation, Fault>
    ensures reads { Takes (λ vs. vs) (λ x vs. a_relation (V.relation x) ∷ vs) result (nt 0 k_relation ∷ []) (left parser.old) (left parser.new) }
    ensures on { length (left parser.new) ≤ length (left parser.old) }
{
    match parser.split() {
        Some((Lexeme::Mark(Mark::Less), rest)) => {
            parser.rest = rest;
            Ok(Relation::Less)
        }
        Some((Lexeme::Mark(Mark::AtMost), rest)) => {
            parser.rest = rest;
            Ok(Relation::AtMost)
        }
        Some((Lexeme::Mark(Mark::Equal), rest)) => {
            parser.rest = rest;
            Ok(Relation::Equal)
        }
        _ => Err(parser.stuck()),
    }
}

// A constraint between two universes.
fn read_constraint<'a>(parser: &mut Parser<'a>) -> Result<Constraint<'a>, Fault>
    ensures reads { Takes (λ vs. vs) (λ x vs. a_level (V.level x.right) ∷ a_relation (V.relation x.relation) ∷ a_level (V.level x.left) ∷ vs) result (nt 0 k_level ∷ nt 0 k_relation ∷ nt 0 k_level ∷ []) (left parser.old) (left parser.new) }
    ensures on { length (left parser.new) ≤ length (left parser.old) }
{
    let left = read_level(parser)?;
    let relation = read_relation(parser)?;
    let right = read_level(parser)?;
    Ok(Constraint {
        left,
        relation,
        right,
    })
}

// Further constraints behind some.
#[tactic(auto, using(gal_grammar::proofs::Complete::act_runs, gal_term_parser::proofs::Marks::map_more, crate::proofs::Absent::conses_end))]
fn read_constraints<'a>(
    parser: &mut Parser<'a>,
    found: &mut Vec<Constraint<'a>>,
) -> Result<(), Fault>
    ensures reads { Takes (λ vs. conses (map V.constraint found.old.items) ∷ vs) (λ _ vs. conses (map V.constraint found.new.items) ∷ vs) result (nt 0 k_conses ∷ []) (left parser.old) (left parser.new) }
    ensures on { length (left parser.new) ≤ length (left parser.old) }
{
    'more: while parser.take(Mark::Comma) {
        let next = read_constraint(parser)?;
        found.push(next)?;
    }
    Ok(())
}

// Behind the word `Universe`.
#[tactic(auto, using(gal_grammar::proofs::Complete::act_runs))]
pub(crate) fn read_universes<'a>(
    parser: &mut Parser<'a>,
    list: &mut Commands<'a>,
) -> Result<(), Fault>
    ensures reads { Takes (λ vs. commands (V.commands list.old) ∷ vs) (λ _ vs. commands (V.commands list.new) ∷ vs) result (act (push (names [])) ∷ tok ident ∷ act add_name ∷ nt 0 k_idents ∷ m M.Stop ∷ act say_universe ∷ []) (left parser.old) (left parser.new) }
    ensures on { length (left parser.new) ≤ length (left parser.old) }
{
    let found = read_some_identifiers(parser)?;
    parser.mark(Mark::Stop)?;
    list.push(Command::Universe(found))?;
    Ok(())
}

// Behind the word `Constraint`.
#[tactic(auto, using(gal_grammar::proofs::Complete::act_runs))]
pub(crate) fn read_constraint_command<'a>(
    parser: &mut Parser<'a>,
    list: &mut Commands<'a>,
) -> Result<(), Fault>
    ensures reads { Takes (λ vs. commands (V.commands list.old) ∷ vs) (λ _ vs. commands (V.commands list.new) ∷ vs) result (act (push (conses [])) ∷ nt 0 k_level ∷ nt 0 k_relation ∷ nt 0 k_level ∷ act add_cons ∷ nt 0 k_conses ∷ m M.Stop ∷ act say_constraint ∷ []) (left parser.old) (left parser.new) }
    ensures on { length (left parser.new) ≤ length (left parser.old) }
{
    let first = read_constraint(parser)?;
    let mut found = one_constraint(parser.alloc, first)?;
    read_constraints(parser, &mut found)?;
    parser.mark(Mark::Stop)?;
    list.push(Command::Constraint(found))?;
    Ok(())
}
