//! The shape of a type as written.
ghost use Rattle.std.specs.Prelude.{◌≡◌, IfOk, Some, option_map};
ghost use Rattle.cic_terms.specs.Denotes.{tree};
ghost use Rattle.cic_terms.specs.Tree.{ind};
ghost use Rattle.cic_rules.specs.Environment.{bare_ids, whole_block};
ghost use Rattle.cic_rules.specs.Shapes.{before_shapes, first_shapes, nest_at, no_more, shape_of_other, shape_of_type};
ghost use Rattle.cic_rules.specs.Telescopes.{is_among};
ghost use Rattle.cic_env.specs.Declarations.{block};
ghost use Rattle.cic_env.specs.Environments.{items};
ghost use Rattle.guard_shapes.specs.Denotes.{guard_shapes, ids_of, shared_shape, shared_shapes};
ghost use Rattle.guard_shapes.specs.calls.Parts.{shape_of_codomain, shape_of_variable};

use crate::rows::{
    ShapeRow, TypeShape, empty_row, first_of_row, has_shape, is_empty, nest_shape, own_shape,
    shape_at, with_before, with_unshaped,
};
use cic_env::{Block, Env, IndType};
use cic_names::GlobalId;
use cic_terms::Term;
use memory::NoMemory;
use std::alloc::Global;
use std::rc::Rc;

/// Whether it is the id of one of the types.
pub(crate) fn is_among(id: &GlobalId, types: &[IndType]) -> bool
    ensures { result ≡ is_among id.now (ids_of types.now) }
{
    for ty in types {
        if *id == ty.id {
            return true;
        }
    }
    false
}

fn copied_id(id: &GlobalId) -> Result<GlobalId, NoMemory>
    ensures { IfOk result (λ r. r ≡ id.now) }
{
    Ok(id.clone()?)
}

fn copied_ids(alloc: Global, types: &[IndType]) -> Result<Vec<GlobalId>, NoMemory>
    ensures { IfOk result (λ ids. ids.items ≡ ids_of types.now) }
{
    let mut ids = Vec::new(alloc);
    for ty in types {
        ids.push(copied_id(&ty.id)?)?;
    }
    Ok(ids)
}

/// The shape of a type of this block under parameters, where one of them has a shape.
fn nest_with(
    alloc: Global,
    b: &Block,
    parameters: Rc<ShapeRow>,
) -> Result<Option<Rc<TypeShape>>, NoMemory>
    ensures { IfOk result (λ s. option_map shared_shape s ≡ nest_at (bare_ids (block b.now).types) (Some (shared_shapes parameters))) }
{
    if !has_shape(&parameters) {
        return Ok(None);
    }
    let types = copied_ids(alloc, b.types.as_slice())?;
    Ok(Some(nest_shape(alloc, types, parameters)?))
}

/// The shape of a type of this block under arguments, the first of which are the parameters.
fn shape_in_block(
    alloc: Global,
    b: &Block,
    arguments: &Rc<ShapeRow>,
) -> Result<Option<Rc<TypeShape>>, NoMemory>
    ensures { IfOk result (λ s. option_map shared_shape s ≡ nest_at (bare_ids (block b.now).types) (first_shapes b.now.params (shared_shapes arguments.now))) }
{
    match first_of_row(alloc, arguments, b.params)? {
        None => Ok(None),
        Some(parameters) => nest_with(alloc, b, parameters),
    }
}

fn shape_of_other(
    alloc: Global,
    env: &Env,
    id: &GlobalId,
    arguments: &Rc<ShapeRow>,
) -> Result<Option<Rc<TypeShape>>, NoMemory>
    ensures { IfOk result (λ s. option_map shared_shape s ≡ shape_of_other (whole_block (items env.now) id.now) (shared_shapes arguments.now)) }
{
    match env.whole_block(id) {
        None => Ok(None),
        Some((b, _)) => shape_in_block(alloc, b, arguments),
    }
}

/// The shape of a type by its id, under arguments. The types of the own block are `own`.
#[inline(never)]
fn shape_of_applied(
    alloc: Global,
    env: &Env,
    own: &[IndType],
    id: &GlobalId,
    arguments: &Rc<ShapeRow>,
) -> Result<Option<Rc<TypeShape>>, NoMemory>
    ensures { IfOk result (λ s. option_map shared_shape s ≡ shape_of_type (items env.now) (ids_of own.now) no_more (shared_shapes arguments.now) (ind id.now)) }
{
    if is_among(id, own) {
        return Ok(Some(own_shape(alloc)?));
    }
    shape_of_other(alloc, env, id, arguments)
}

/// The shape of a parameter that stands alone. An applied one has none.
#[inline(never)]
fn shape_of_variable(
    x: u32,
    variables: &ShapeRow,
    arguments: &ShapeRow,
) -> Result<Option<Rc<TypeShape>>, NoMemory>
    ensures { IfOk result (λ s. option_map shared_shape s ≡ shape_of_variable (guard_shapes variables.now) (guard_shapes arguments.now) x) }
{
    if !is_empty(arguments) {
        return Ok(None);
    }
    shape_at(variables, x)
}

/// The shape of a type as written, where it has one. The types of the own block are `own`, `variables` are the shapes of the variables, and `arguments` those of the terms that the type is applied to.
#[cycle(types)]
pub fn shape_of_type(
    t: &Term,
    alloc: Global,
    env: &Env,
    own: &[IndType],
    variables: &Rc<ShapeRow>,
    arguments: &Rc<ShapeRow>,
) -> Result<Option<Rc<TypeShape>>, NoMemory>
    ensures { IfOk result (λ s. option_map shared_shape s ≡ shape_of_type (items env.now) (ids_of own.now) (shared_shapes variables.now) (shared_shapes arguments.now) (tree t.now)) }
{
    match t {
        Term::App(function, argument) => {
            let arguments = with_argument(argument, alloc, env, own, variables, arguments)?;
            shape_of_type(function, alloc, env, own, variables, &arguments)
        }
        Term::Ind(id) => shape_of_applied(alloc, env, own, id, arguments),
        Term::Prod(_, codomain) => {
            shape_of_codomain(codomain, alloc, env, own, variables, arguments)
        }
        Term::Rel(x) => shape_of_variable(*x, variables, arguments),
        _ => Ok(None),
    }
}

/// The shape of a product by its codomain. An applied product has none.
#[cycle(types)]
fn shape_of_codomain(
    codomain: &Term,
    alloc: Global,
    env: &Env,
    own: &[IndType],
    variables: &Rc<ShapeRow>,
    arguments: &Rc<ShapeRow>,
) -> Result<Option<Rc<TypeShape>>, NoMemory>
    ensures { IfOk result (λ s. option_map shared_shape s ≡ shape_of_codomain (items env.now) (ids_of own.now) (shared_shapes variables.now) (shared_shapes arguments.now) (tree codomain.now)) }
{
    if !is_empty(arguments) {
        return Ok(None);
    }
    let under = with_unshaped(alloc, variables)?;
    shape_of_type(codomain, alloc, env, own, &under, arguments)
}

/// The arguments with one more in front.
#[cycle(types)]
fn with_argument(
    argument: &Term,
    alloc: Global,
    env: &Env,
    own: &[IndType],
    variables: &Rc<ShapeRow>,
    arguments: &Rc<ShapeRow>,
) -> Result<Rc<ShapeRow>, NoMemory>
    ensures { IfOk result (λ r. shared_shapes r ≡ before_shapes (shape_of_type (items env.now) (ids_of own.now) (shared_shapes variables.now) no_more (tree argument.now)) (shared_shapes arguments.now)) }
{
    let none = empty_row(alloc)?;
    let shape = shape_of_type(argument, alloc, env, own, variables, &none)?;
    with_before(alloc, shape, arguments)
}
