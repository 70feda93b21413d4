//! Lists of identifiers and of names in commands.
ghost use Rattle.std.specs.Prelude.{◌≡◌, ◌≤◌, ◌<◌, [], ◌∷◌, length, map, IfOk, OnOk};
ghost use Rattle.gal_grammar.specs.Tests.{ident, qualid};
ghost use Rattle.gal_grammar.specs.Values.{a_name, a_qual, names, quals, binders};
ghost use Rattle.gal_grammar.specs.Actions.{push, bind, add_binder, add_name, add_qual};
ghost use Rattle.gal_grammar.specs.Kinds.{tok, act, nt, k_idents, k_quals, k_bounds};
ghost use Rattle.gal_raw.specs.Denotes.{identifier, qualified, binder};
ghost use Rattle.gal_term_parser.specs.Left.{left};
ghost use Rattle.gal_term_parser.specs.calls.Steps.{Takes, MayTake};

use gal_raw::{Binder, Identifier, QualifiedName};
use gal_term_parser::{Fault, Lexeme, Parser, one_name};
use std::alloc::{AllocError, Global};

// A list of one identifier.
fn one_identifier<'a>(
    alloc: Global,
    only: Identifier<'a>,
) -> Result<Vec<Identifier<'a>>, AllocError>
    ensures { IfOk result (λ v. map identifier v.items ≡ identifier only.entry ∷ []) }
{
    let mut found = Vec::new(alloc);
    match found.push(only) {
        Ok(()) => Ok(found),
        Err(_) => Err(AllocError),
    }
}

// A list of one name that may be qualified.
fn one_qualified<'a>(
    alloc: Global,
    only: QualifiedName<'a>,
) -> Result<Vec<QualifiedName<'a>>, AllocError>
    ensures { IfOk result (λ v. map qualified v.items ≡ qualified only.entry ∷ []) }
{
    let mut found = Vec::new(alloc);
    match found.push(only) {
        Ok(()) => Ok(found),
        Err(_) => Err(AllocError),
    }
}

// A further identifier, if there is one.
fn next_identifier<'a>(parser: &mut Parser<'a>) -> Option<Identifier<'a>>
    ensures { MayTake (λ x vs. a_name (identifier x) ∷ vs) result (nt 0 k_idents ∷ []) (act add_name ∷ nt 0 k_idents ∷ []) (left parser.old) (left parser.new) }
{
    match parser.split() {
        Some((Lexeme::Short(found), rest)) => {
            parser.rest = rest;
            Some(found)
        }
        _ => None,
    }
}

// Further identifiers behind some.
#[tactic(auto, using(gal_grammar::proofs::Complete::act_runs, gal_term_parser::proofs::Marks::map_more))]
pub(crate) fn read_identifiers<'a>(
    parser: &mut Parser<'a>,
    found: &mut Vec<Identifier<'a>>,
) -> Result<(), Fault>
    ensures reads { Takes (λ vs. names (map identifier found.old.items) ∷ vs) (λ _ vs. names (map identifier found.new.items) ∷ vs) result (nt 0 k_idents ∷ []) (left parser.old) (left parser.new) }
    ensures on { length (left parser.new) ≤ length (left parser.old) }
{
    'more: while let Some(x) = next_identifier(parser) {
        found.push(x)?;
    }
    Ok(())
}

// One identifier or more.
#[tactic(auto, using(gal_grammar::proofs::Complete::act_runs))]
pub(crate) fn read_some_identifiers<'a>(
    parser: &mut Parser<'a>,
) -> Result<Vec<Identifier<'a>>, Fault>
    ensures reads { Takes (λ vs. vs) (λ x vs. names (map identifier x.items) ∷ vs) result (act (push (names [])) ∷ tok ident ∷ act add_name ∷ nt 0 k_idents ∷ []) (left parser.old) (left parser.new) }
    ensures on { length (left parser.new) ≤ length (left parser.old) }
{
    let first = parser.identifier()?;
    let mut found = one_identifier(parser.alloc, first)?;
    read_identifiers(parser, &mut found)?;
    Ok(found)
}

// A further name that may be qualified, if there is one.
fn next_qualified_name<'a>(parser: &mut Parser<'a>) -> Option<QualifiedName<'a>>
    ensures { MayTake (λ x vs. a_qual (qualified x) ∷ vs) result (nt 0 k_quals ∷ []) (act add_qual ∷ nt 0 k_quals ∷ []) (left parser.old) (left parser.new) }
{
    match parser.split() {
        Some((Lexeme::Short(found), rest)) => {
            parser.rest = rest;
            Some(QualifiedName::Short(found))
        }
        Some((Lexeme::Long(found), rest)) => {
            parser.rest = rest;
            Some(QualifiedName::Long(found))
        }
        _ => None,
    }
}

// Further names that may be qualified, behind some.
#[tactic(auto, using(gal_grammar::proofs::Complete::act_runs, gal_term_parser::proofs::Marks::map_more))]
pub(crate) fn read_qualified_names<'a>(
    parser: &mut Parser<'a>,
    found: &mut Vec<QualifiedName<'a>>,
) -> Result<(), Fault>
    ensures reads { Takes (λ vs. quals (map qualified found.old.items) ∷ vs) (λ _ vs. quals (map qualified found.new.items) ∷ vs) result (nt 0 k_quals ∷ []) (left parser.old) (left parser.new) }
    ensures on { length (left parser.new) ≤ length (left parser.old) }
{
    'more: while let Some(x) = next_qualified_name(parser) {
        found.push(x)?;
    }
    Ok(())
}

// A further binder that is an identifier, if there is one.
fn next_bound<'a>(parser: &mut Parser<'a>) -> Option<Identifier<'a>>
    ensures { MayTake (λ x vs. a_name (identifier x) ∷ vs) result (nt 0 k_bounds ∷ []) (act bind ∷ act add_binder ∷ nt 0 k_bounds ∷ []) (left parser.old) (left parser.new) }
{
    match parser.split() {
        Some((Lexeme::Short(found), rest)) => {
            parser.rest = rest;
            Some(found)
        }
        _ => None,
    }
}

// Further binders that are identifiers, behind some.
#[tactic(auto, using(gal_grammar::proofs::Complete::act_runs, gal_term_parser::proofs::Marks::map_more))]
fn read_bounds<'a>(parser: &mut Parser<'a>, found: &mut Vec<Binder<'a>>) -> Result<(), Fault>
    ensures reads { Takes (λ vs. binders (map binder found.old.items) ∷ vs) (λ _ vs. binders (map binder found.new.items) ∷ vs) result (nt 0 k_bounds ∷ []) (left parser.old) (left parser.new) }
    ensures on { length (left parser.new) ≤ length (left parser.old) }
{
    'more: while let Some(x) = next_bound(parser) {
        found.push(Binder::Bound(x))?;
    }
    Ok(())
}

// One binder that is an identifier, or more.
#[tactic(auto, using(gal_grammar::proofs::Complete::act_runs))]
pub(crate) fn read_some_bounds<'a>(parser: &mut Parser<'a>) -> Result<Vec<Binder<'a>>, Fault>
    ensures reads { Takes (λ vs. vs) (λ x vs. binders (map binder x.items) ∷ vs) result (act (push (binders [])) ∷ tok ident ∷ act bind ∷ act add_binder ∷ nt 0 k_bounds ∷ []) (left parser.old) (left parser.new) }
    ensures on { length (left parser.new) ≤ length (left parser.old) }
    ensures more { OnOk result (length (left parser.new) < length (left parser.old)) }
{
    let first = parser.identifier()?;
    let mut found = one_name(parser.alloc, Binder::Bound(first))?;
    read_bounds(parser, &mut found)?;
    Ok(found)
}

// One name that may be qualified, or more.
#[tactic(auto, using(gal_grammar::proofs::Complete::act_runs))]
pub(crate) fn read_some_qualified_names<'a>(
    parser: &mut Parser<'a>,
) -> Result<Vec<QualifiedName<'a>>, Fault>
    ensures reads { Takes (λ vs. vs) (λ x vs. quals (map qualified x.items) ∷ vs) result (act (push (quals [])) ∷ tok qualid ∷ act add_qual ∷ nt 0 k_quals ∷ []) (left parser.old) (left parser.new) }
    ensures on { length (left parser.new) ≤ length (left parser.old) }
{
    let first = parser.qualified_name()?;
    let mut found = one_qualified(parser.alloc, first)?;
    read_qualified_names(parser, &mut found)?;
    Ok(found)
}
