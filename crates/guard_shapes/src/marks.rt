//! What a variable is for the guard, and which arguments of a constructor are smaller.
ghost use Rattle.std.specs.Prelude.{◌≡◌, IfOk, drop, option_map};
ghost use Rattle.cic_terms.specs.Denotes.{tree};
ghost use Rattle.cic_rules.specs.Environment.{element};
ghost use Rattle.cic_rules.specs.Guard.{argument_marks, constructor_marks, mark_of_shape, type_marks};
ghost use Rattle.cic_rules.specs.Shapes.{no_more, shape_of_type, under_shapes};
ghost use Rattle.cic_rules.specs.Telescopes.{domains_of};
ghost use Rattle.cic_env.specs.Declarations.{block, constructor_declaration, type_declaration};
ghost use Rattle.cic_env.specs.Environments.{items};
ghost use Rattle.guard_shapes.specs.Denotes.{guard_shapes, ids_of, shared_shape, shared_shapes};
ghost use Rattle.guard_shapes.specs.Marks.{mark, marks};

use crate::rows::{ShapeRow, TypeShape, empty_row, with_shaped, with_unshaped};
use crate::types::shape_of_type;
use cic_env::{Block, CtorDecl, Env, IndType};
use cic_terms::Term;
use memory::NoMemory;
use std::alloc::Global;
use std::rc::Rc;

/// What a variable is for the guard of a `fix`.
#[derive(Drop)]
pub enum Mark {
    /// None of the following.
    Plain,
    /// The recursive argument.
    Main,
    /// Smaller than the recursive argument, with this shape.
    Smaller(Rc<TypeShape>),
    /// The function with this number, counted from 0.
    Function(u32),
}

fn mark_of_shape(shape: Option<Rc<TypeShape>>) -> Mark
    ensures { mark result ≡ mark_of_shape (option_map shared_shape shape) }
{
    match shape {
        None => Mark::Plain,
        Some(shape) => Mark::Smaller(shape),
    }
}

/// The mark of an argument with this declared type.
fn argument_mark(
    alloc: Global,
    env: &Env,
    own: &[IndType],
    variables: &Rc<ShapeRow>,
    ty: &Term,
) -> Result<Mark, NoMemory>
    ensures { IfOk result (λ m. mark m ≡ mark_of_shape (shape_of_type (items env.now) (ids_of own.now) (shared_shapes variables.now) no_more (tree ty.now))) }
{
    let none = empty_row(alloc)?;
    let shape = shape_of_type(ty, alloc, env, own, variables, &none)?;
    Ok(mark_of_shape(shape))
}

/// What stands under the first `count` products, or under all where there are fewer.
fn under_products(count: u32, t: &Term) -> &Term
    ensures { domains_of (tree result.now) ≡ drop count (domains_of (tree t.now)) }
{
    let mut at = t;
    for _passed in 0..count {
        let Term::Prod(_, rest) = at else {
            return at;
        };
        at = rest;
    }
    at
}

/// The marks of the variables that the products of a type bind, the outermost first.
fn argument_marks(
    alloc: Global,
    env: &Env,
    own: &[IndType],
    variables: &Rc<ShapeRow>,
    t: &Term,
) -> Result<Vec<Mark>, NoMemory>
    ensures { IfOk result (λ ms. marks ms.items ≡ argument_marks (items env.now) (ids_of own.now) (shared_shapes variables.now) (domains_of (tree t.now))) }
{
    let mut found = Vec::new(alloc);
    let mut under = variables.clone()?;
    let mut at = t;
    while let Term::Prod(domain, rest) = at {
        found.push(argument_mark(alloc, env, own, &under, domain)?)?;
        under = with_unshaped(alloc, &under)?;
        at = rest;
    }
    Ok(found)
}

fn type_at(b: &Block, index: u32) -> Option<&IndType>
    ensures { option_map (λ ty. type_declaration ty.now) result ≡ element (block b.now).types index }
{
    b.types.get(index as usize)
}

fn constructor_at(ty: &IndType, place: u32) -> Option<&CtorDecl>
    ensures { option_map (λ ctor. constructor_declaration ctor.now) result ≡ element (type_declaration ty.now).constructors place }
{
    ty.ctors.get(place as usize)
}

/// The marks of the arguments of the constructor at `place` of a type, behind the parameters, which have the shapes of `variables`.
fn type_marks(
    alloc: Global,
    env: &Env,
    own: &[IndType],
    variables: &Rc<ShapeRow>,
    parameters: u32,
    ty: &IndType,
    place: u32,
) -> Result<Option<Vec<Mark>>, NoMemory>
    ensures { IfOk result (λ found. option_map (λ ms. marks ms.items) found ≡ constructor_marks (items env.now) (ids_of own.now) (shared_shapes variables.now) parameters (element (type_declaration ty.now).constructors place)) }
{
    match constructor_at(ty, place) {
        None => Ok(None),
        Some(ctor) => {
            let behind = under_products(parameters, &ctor.ty);
            Ok(Some(argument_marks(alloc, env, own, variables, behind)?))
        }
    }
}

/// The marks of the arguments of the constructor at `place` of the type at `index` of a block, behind the parameters, which have the shapes of `variables`.
pub fn constructor_marks(
    alloc: Global,
    env: &Env,
    own: &[IndType],
    variables: &Rc<ShapeRow>,
    b: &Block,
    index: u32,
    place: u32,
) -> Result<Option<Vec<Mark>>, NoMemory>
    ensures { IfOk result (λ found. option_map (λ ms. marks ms.items) found ≡ type_marks (items env.now) (ids_of own.now) (shared_shapes variables.now) (block b.now) place (element (block b.now).types index)) }
{
    match type_at(b, index) {
        None => Ok(None),
        Some(ty) => type_marks(alloc, env, own, variables, b.params, ty, place),
    }
}

/// The row `variables` under more binders, which have the shapes of `outer`, the first of them outermost.
pub fn under_shapes(
    alloc: Global,
    outer: &ShapeRow,
    variables: &Rc<ShapeRow>,
) -> Result<Rc<ShapeRow>, NoMemory>
    ensures { IfOk result (λ r. shared_shapes r ≡ under_shapes (guard_shapes outer.now) (shared_shapes variables.now)) }
{
    match outer {
        ShapeRow::Empty => Ok(variables.clone()?),
        ShapeRow::Unshaped(rest) => {
            let under = with_unshaped(alloc, variables)?;
            under_shapes(alloc, rest, &under)
        }
        ShapeRow::Shaped(shape, rest) => {
            let under = with_shaped(alloc, shape.clone()?, variables)?;
            under_shapes(alloc, rest, &under)
        }
    }
}
