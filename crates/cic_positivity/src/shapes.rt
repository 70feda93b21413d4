//! The shape of a block. Coq Reference Manual, "Theory of inductive definitions": well-formed inductive definitions.
ghost use Rattle.std.specs.Prelude.{◌≡◌, map, take};
ghost use Rattle.cic_terms.specs.Denotes.{tree};
ghost use Rattle.cic_rules.specs.Environment.{or_else};
ghost use Rattle.cic_rules.specs.Telescopes.{domains_of};
ghost use Rattle.cic_counted.specs.BlockTests.{arity_fault, constructor_fault, constructors_fault, shape_fault};
ghost use Rattle.cic_env.specs.Declarations.{block, constructor_declaration, type_declaration};
ghost use Rattle.cic_positivity.specs.Faults.{shape_fault_in};

use crate::constructor_types::{is_arity, is_constructor_type};
use cic_env::{Block, IndType};
use cic_terms::Term;

/// Whether a block has its shape, or the first place where it has not, counted from 0.
#[derive(Clone, Copy, Debug, PartialEq, Eq)]
pub enum Shape {
    Good,
    /// The arity of this type.
    BadArity(usize),
    /// Of this type, the type of the constructor at this place.
    BadConstructor(usize, usize),
}

fn shape_of_arities(parameters: u32, first: &Term, types: &[IndType]) -> Shape
    ensures { shape_fault_in result ≡ arity_fault parameters (take parameters (domains_of (tree first.now))) 0 (map type_declaration types.now) }
{
    for (index, ty) in types.iter().enumerate() {
        if !is_arity(parameters, first, &ty.arity) {
            return Shape::BadArity(index);
        }
    }
    Shape::Good
}

fn shape_of_type(parameters: u32, first: &Term, index: usize, ty: &IndType) -> Shape
    ensures { shape_fault_in result ≡ constructor_fault parameters (take parameters (domains_of (tree first.now))) (type_declaration ty.now) index 0 (map constructor_declaration ty.now.ctors.items) }
{
    let ctors = ty.ctors.as_slice();
    for (place, ctor) in ctors.iter().enumerate() {
        if !is_constructor_type(parameters, first, ty, &ctor.ty) {
            return Shape::BadConstructor(index, place);
        }
    }
    Shape::Good
}

fn shape_of_constructors(parameters: u32, first: &Term, types: &[IndType]) -> Shape
    ensures { shape_fault_in result ≡ constructors_fault parameters (take parameters (domains_of (tree first.now))) 0 (map type_declaration types.now) }
{
    for (index, ty) in types.iter().enumerate() {
        match shape_of_type(parameters, first, index, ty) {
            Shape::Good => {}
            bad => return bad,
        }
    }
    Shape::Good
}

fn shape_beside(parameters: u32, first: &Term, types: &[IndType]) -> Shape
    ensures { let domains = take parameters (domains_of (tree first.now)) in
        shape_fault_in result ≡ or_else (arity_fault parameters domains 0 (map type_declaration types.now)) (constructors_fault parameters domains 0 (map type_declaration types.now)) }
{
    match shape_of_arities(parameters, first, types) {
        Shape::Good => shape_of_constructors(parameters, first, types),
        bad => bad,
    }
}

/// Whether each type of the block has an arity with the parameters of the first type, and each constructor makes its own type, applied to these parameters. Arities come before constructors, each in order.
pub fn shaped(b: &Block) -> Shape
    ensures { shape_fault_in result ≡ shape_fault (block b.now) }
{
    match b.types.as_slice() {
        [] => Shape::Good,
        [first, ..] => shape_beside(b.params, &first.arity, b.types.as_slice()),
    }
}
