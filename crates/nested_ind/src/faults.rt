//! The first place where a block is not strictly positive.
ghost use Rattle.std.specs.Prelude.{◌≡◌, [], IfOk, drop, map};
ghost use Rattle.cic_terms.specs.Denotes.{tree};
ghost use Rattle.cic_rules.specs.Environment.{or_else};
ghost use Rattle.cic_rules.specs.Telescopes.{conclusion_of, domains_of};
ghost use Rattle.cic_counted.specs.BlockTests.{argument_fault, conclusion_fault, constructor_positivity_fault, type_positivity_fault};
ghost use Rattle.cic_counted.specs.NestedTest.{nested_fault};
ghost use Rattle.cic_env.specs.Declarations.{block, constructor_declaration, type_declaration};
ghost use Rattle.cic_env.specs.Environments.{items};
ghost use Rattle.cic_positivity.specs.Faults.{positivity_fault_in};
ghost use Rattle.cic_positivity.specs.calls.Parts.{ids_of};
ghost use Rattle.nested_ind.specs.calls.Steps.{positive_at};

use crate::positivities::{Test, is_positive};
use cic_env::{Block, Env, IndType};
use cic_positivity::{Positivity, conclusion, occurs_behind, under_products};
use cic_terms::Term;
use memory::NoMemory;
use std::alloc::Global;

/// The most instances of other blocks that a test goes into, one in the other.
const MOST_INSTANCES: u32 = 64;

/// Whether the types are strictly positive in the term, under no instance.
fn is_positive_alone(test: &Test, most: u32, t: &Term) -> Result<bool, NoMemory>
    ensures { IfOk result (λ r. r ≡ positive_at (items test.now.env.now) (ids_of test.now.types.now) most [] (tree t.now)) }
{
    let none = Vec::new(test.alloc);
    is_positive(test, most, none.as_slice(), t)
}

fn argument_at_fault(
    test: &Test,
    most: u32,
    parameters: u32,
    of: &Term,
) -> Result<Option<u32>, NoMemory>
    ensures { IfOk result (λ r. r ≡ argument_fault (positive_at (items test.now.env.now) (ids_of test.now.types.now) most []) 1 (drop parameters (domains_of (tree of.now)))) }
{
    let mut argument: u32 = 1;
    let mut at = under_products(parameters, of);
    while let Term::Prod(domain, rest) = at {
        if !is_positive_alone(test, most, domain)? {
            return Ok(Some(argument));
        }
        argument = argument.saturating_add(1);
        at = rest;
    }
    Ok(None)
}

/// The first argument of a constructor of this type at fault, or 0 for its conclusion.
fn fault_of_constructor(
    test: &Test,
    most: u32,
    parameters: u32,
    of: &Term,
) -> Result<Option<u32>, NoMemory>
    ensures { let ids = ids_of test.now.types.now in
        IfOk result (λ r. r ≡ or_else (argument_fault (positive_at (items test.now.env.now) ids most []) 1 (drop parameters (domains_of (tree of.now)))) (conclusion_fault ids parameters (conclusion_of (tree of.now)))) }
{
    match argument_at_fault(test, most, parameters, of)? {
        Some(argument) => Ok(Some(argument)),
        None if occurs_behind(test.types, parameters, conclusion(of)) => Ok(Some(0)),
        None => Ok(None),
    }
}

fn fault_of_type(
    test: &Test,
    most: u32,
    parameters: u32,
    index: usize,
    ty: &IndType,
) -> Result<Positivity, NoMemory>
    ensures { let ids = ids_of test.now.types.now in
        IfOk result (λ r. positivity_fault_in r ≡ constructor_positivity_fault (positive_at (items test.now.env.now) ids most []) ids parameters index 0 (map constructor_declaration ty.now.ctors.items)) }
{
    let ctors = ty.ctors.as_slice();
    for (place, ctor) in ctors.iter().enumerate() {
        if let Some(argument) = fault_of_constructor(test, most, parameters, &ctor.ty)? {
            return Ok(Positivity::No {
                ty: index,
                ctor: place,
                argument,
            });
        }
    }
    Ok(Positivity::Yes)
}

fn fault_of_types(
    test: &Test,
    most: u32,
    parameters: u32,
    types: &[IndType],
) -> Result<Positivity, NoMemory>
    ensures { let ids = ids_of test.now.types.now in
        IfOk result (λ r. positivity_fault_in r ≡ type_positivity_fault (positive_at (items test.now.env.now) ids most []) ids parameters 0 (map type_declaration types.now)) }
{
    for (index, ty) in types.iter().enumerate() {
        match fault_of_type(test, most, parameters, index, ty)? {
            Positivity::Yes => {}
            no => return Ok(no),
        }
    }
    Ok(Positivity::Yes)
}

/// Whether the types of a block are strictly positive in each constructor, also among the parameters of types of other blocks, or the first place where they are not. Coq Reference Manual, "Theory of inductive definitions": the nested positivity condition.
pub fn nested(alloc: Global, env: &Env, b: &Block) -> Result<Positivity, NoMemory>
    ensures { IfOk result (λ p. positivity_fault_in p ≡ nested_fault (items env.now) (block b.now)) }
{
    let types = b.types.as_slice();
    let test = Test { alloc, env, types };
    fault_of_types(&test, MOST_INSTANCES, b.params, types)
}
