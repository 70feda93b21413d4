//! Strict positivity of a block, without nested types. Coq Reference Manual, "Theory of inductive definitions": the positivity condition.
ghost use Rattle.std.specs.Prelude.{◌≡◌, drop, map};
ghost use Rattle.cic_terms.specs.Denotes.{tree};
ghost use Rattle.cic_rules.specs.Environment.{or_else};
ghost use Rattle.cic_rules.specs.Telescopes.{conclusion_of, domains_of};
ghost use Rattle.cic_counted.specs.BlockTests.{argument_fault, conclusion_fault, constructor_positivity_fault, is_strictly_positive, positivity_fault};
ghost use Rattle.cic_env.specs.Declarations.{block, constructor_declaration};
ghost use Rattle.cic_positivity.specs.Faults.{positivity_fault_in};
ghost use Rattle.cic_positivity.specs.calls.Parts.{ids_of};

use crate::occurrences::{is_strictly_positive, occurs_behind};
use crate::products::{conclusion, under_products};
use cic_env::{Block, IndType};
use cic_terms::Term;

/// Whether the types of a block are strictly positive in each constructor, or the first place where they are not.
#[derive(Clone, Copy, Debug, PartialEq, Eq)]
pub enum Positivity {
    Yes,
    /// The type and the constructor count from 0. The arguments behind the parameters count from 1, up to 2^32 - 1, and 0 is the conclusion.
    No {
        ty: usize,
        ctor: usize,
        argument: u32,
    },
}

fn argument_at_fault(types: &[IndType], parameters: u32, of: &Term) -> Option<u32>
    ensures { result ≡ argument_fault (is_strictly_positive (ids_of types.now)) 1 (drop parameters (domains_of (tree of.now))) }
{
    let mut argument: u32 = 1;
    let mut at = under_products(parameters, of);
    while let Term::Prod(domain, rest) = at {
        if !is_strictly_positive(types, domain) {
            return Some(argument);
        }
        argument = argument.saturating_add(1);
        at = rest;
    }
    None
}

/// The first argument of a constructor of this type at fault, or 0 for its conclusion.
fn fault_of_constructor(types: &[IndType], parameters: u32, of: &Term) -> Option<u32>
    ensures { result ≡ or_else (argument_fault (is_strictly_positive (ids_of types.now)) 1 (drop parameters (domains_of (tree of.now)))) (conclusion_fault (ids_of types.now) parameters (conclusion_of (tree of.now))) }
{
    match argument_at_fault(types, parameters, of) {
        Some(argument) => Some(argument),
        None if occurs_behind(types, parameters, conclusion(of)) => Some(0),
        None => None,
    }
}

fn positivity_of_type(types: &[IndType], parameters: u32, index: usize, ty: &IndType) -> Positivity
    ensures { positivity_fault_in result ≡ constructor_positivity_fault (is_strictly_positive (ids_of types.now)) (ids_of types.now) parameters index 0 (map constructor_declaration ty.now.ctors.items) }
{
    let ctors = ty.ctors.as_slice();
    for (place, ctor) in ctors.iter().enumerate() {
        if let Some(argument) = fault_of_constructor(types, parameters, &ctor.ty) {
            return Positivity::No {
                ty: index,
                ctor: place,
                argument,
            };
        }
    }
    Positivity::Yes
}

/// Whether the types of the block are strictly positive in each argument of each constructor, and do not occur in the indices of its conclusion. A type of another block that is applied to them is not looked into.
pub fn positive(b: &Block) -> Positivity
    ensures { positivity_fault_in result ≡ positivity_fault (block b.now) }
{
    let types = b.types.as_slice();
    for (index, ty) in types.iter().enumerate() {
        match positivity_of_type(types, b.params, index, ty) {
            Positivity::Yes => {}
            no => return no,
        }
    }
    Positivity::Yes
}
