//! The commands of a whole file.
ghost use Rattle.std.specs.Prelude.{◌≡◌, ◌≤◌, ◌<◌, [], ◌∷◌, length, IfOk, IfErr, None};
ghost use Rattle.gal_grammar.specs.Tokens.{all_spelled};
ghost use Rattle.gal_grammar.specs.Grammar.{File, file, nothing_said};
ghost use Rattle.gal_grammar.specs.Values.{commands};
ghost use Rattle.gal_grammar.specs.Kinds.{nt, k_file, k_commands};
ghost use Rattle.gal_raw.specs.Commands as C;
ghost use Rattle.gal_term_parser.specs.Left.{left};
ghost use Rattle.gal_term_parser.specs.Faults.{IsFaultOf};
ghost use Rattle.gal_file_parser.specs.calls.Openings.{behind};
ghost use Rattle.gal_term_parser.specs.calls.Steps.{Takes};
ghost use Rattle.gal_file_parser.specs.calls.Steps.{TakesOpening, NextIn, Leads};

use crate::assumptions::{read_axiom, read_variable};
use crate::blocks::{read_end, read_fixpoint, read_section};
use crate::definitions::{read_definition, read_local, read_theorem};
use crate::inductives::read_inductive;
use crate::openings::{Opening, opening_of};
use crate::requiring::{read_from_require, read_require};
use crate::universes::{read_constraint_command, read_universes};
use crate::words::{Word, take_word};
use gal_lexer::Token;
use gal_raw::Commands;
use gal_term_parser::{Fault, Lexeme, Parser};
use std::alloc::Global;

// The first word of a command, if one comes.
#[tactic(auto, using(crate::proofs::Firsts::opening_row, crate::proofs::Firsts::no_opening))]
fn take_opening(parser: &mut Parser<'_>) -> Option<Opening>
    ensures { TakesOpening result (left parser.old) (left parser.new) }
{
    match parser.split() {
        Some((Lexeme::Short(found), rest)) => match opening_of(found.text) {
            Some(opening) => {
                parser.rest = rest;
                Some(opening)
            }
            None => None,
        },
        _ => None,
    }
}

// A command behind its first word.
fn read_command<'a>(
    parser: &mut Parser<'a>,
    opening: Opening,
    list: &mut Commands<'a>,
) -> Result<(), Fault>
    ensures reads { Takes (λ vs. commands (C.commands list.old) ∷ vs) (λ _ vs. commands (C.commands list.new) ∷ vs) result (behind opening) (left parser.old) (left parser.new) }
    ensures on { length (left parser.new) ≤ length (left parser.old) }
{
    match opening {
        Opening::Universe => read_universes(parser, list)?,
        Opening::Constraint => read_constraint_command(parser, list)?,
        Opening::Axiom => read_axiom(parser, list)?,
        Opening::Variable => read_variable(parser, list)?,
        Opening::Definition => read_definition(parser, list)?,
        Opening::Local => read_local(parser, list)?,
        Opening::Fixpoint => read_fixpoint(parser, list)?,
        Opening::Inductive => read_inductive(parser, list)?,
        Opening::Theorem => read_theorem(parser, list)?,
        Opening::Section => read_section(parser, list)?,
        Opening::End => read_end(parser, list)?,
    }
    Ok(())
}

// The next command, if one comes.
fn next_command<'a>(parser: &mut Parser<'a>, list: &mut Commands<'a>) -> Result<bool, Fault>
    ensures reads { NextIn (nt 0 k_commands ∷ []) [] (C.commands list.old) (C.commands list.new) result (left parser.old) (left parser.new) }
    ensures on { length (left parser.new) ≤ length (left parser.old) }
{
    match take_opening(parser) {
        Some(opening) => {
            read_command(parser, opening, list)?;
            Ok(true)
        }
        None => Ok(false),
    }
}

// All commands that come.
fn read_commands<'a>(parser: &mut Parser<'a>, list: &mut Commands<'a>) -> Result<(), Fault>
    ensures reads { Takes (λ vs. commands (C.commands list.old) ∷ vs) (λ _ vs. commands (C.commands list.new) ∷ vs) result (nt 0 k_commands ∷ []) (left parser.old) (left parser.new) }
    ensures on { length (left parser.new) ≤ length (left parser.old) }
{
    'more: while next_command(parser, list)? {}
    Ok(())
}

// The next command `Require`, if one comes.
#[tactic(auto, using(gal_grammar::proofs::Complete::act_runs, crate::proofs::Firsts::from_row, crate::proofs::Firsts::require_row, crate::proofs::Firsts::file_is_commands))]
fn next_require<'a>(parser: &mut Parser<'a>, list: &mut Commands<'a>) -> Result<bool, Fault>
    ensures reads { NextIn (nt 0 k_file ∷ []) (nt 0 k_commands ∷ []) (C.commands list.old) (C.commands list.new) result (left parser.old) (left parser.new) }
    ensures on { length (left parser.new) ≤ length (left parser.old) }
{
    if take_word(parser, Word::From) {
        read_from_require(parser, list)?;
        return Ok(true);
    }
    if take_word(parser, Word::Require) {
        read_require(parser, None, list)?;
        return Ok(true);
    }
    Ok(false)
}

// All commands `Require` at the front of a file.
fn read_required_files<'a>(parser: &mut Parser<'a>, list: &mut Commands<'a>) -> Result<(), Fault>
    ensures reads { Leads (nt 0 k_file ∷ []) (nt 0 k_commands ∷ []) (C.commands list.old) (C.commands list.new) result (left parser.old) (left parser.new) }
    ensures on { length (left parser.new) ≤ length (left parser.old) }
{
    'more: while next_require(parser, list)? {}
    Ok(())
}

// A file from its front.
fn read_file<'a>(parser: &mut Parser<'a>, list: &mut Commands<'a>) -> Result<(), Fault>
    ensures reads { Takes (λ vs. commands (C.commands list.old) ∷ vs) (λ _ vs. commands (C.commands list.new) ∷ vs) result (nt 0 k_file ∷ []) (left parser.old) (left parser.new) }
    ensures on { length (left parser.new) ≤ length (left parser.old) }
{
    read_required_files(parser, list)?;
    read_commands(parser, list)?;
    Ok(())
}

/// The commands that the tokens of the source are, or the fault and its place, said from the end.
#[tactic(auto, using(gal_grammar::proofs::Exact::found, gal_grammar::proofs::Exact::syntax_fault, gal_grammar::proofs::Exact::nesting_fault))]
pub fn parse<'a>(
    alloc: Global,
    source: &'a [u8],
    tokens: &'a [Token],
) -> Result<Commands<'a>, Fault>
    ensures file { IfOk result (λ cs. File (all_spelled source.now tokens.now) (C.commands cs)) }
    ensures fault { IfErr result (λ fault. IsFaultOf file nothing_said (all_spelled source.now tokens.now) fault) }
{
    let mut parser = Parser::new(alloc, source, tokens);
    let mut list = Commands::new(alloc);
    read_file(&mut parser, &mut list)?;
    match parser.split() {
        None => Ok(list),
        Some(_) => Err(parser.stuck()),
    }
}
