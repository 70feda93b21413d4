//! The marks of a branch of a match, by what is known of the value.
ghost use Rattle.std.specs.Prelude.{◌≡◌, IfOk, option_map};
ghost use Rattle.cic_rules.specs.Environment.{whole_block};
ghost use Rattle.cic_rules.specs.Guard.{marks_by_shape, marks_in_block, recursive_marks};
ghost use Rattle.cic_rules.specs.Shapes.{no_more, under_shapes};
ghost use Rattle.cic_rules.specs.Telescopes.{is_among};
ghost use Rattle.cic_env.specs.Environments.{items};
ghost use Rattle.guard_shapes.specs.Denotes.{guard_shape, guard_shapes, ids_of};
ghost use Rattle.guard_shapes.specs.Marks.{marks};

use crate::marks::{Mark, constructor_marks, under_shapes};
use crate::rows::{ShapeRow, TypeShape, empty_row};
use crate::types::is_among;
use cic_env::{Env, IndType};
use cic_names::GlobalId;
use memory::NoMemory;
use std::alloc::Global;

/// Whether the id is one of these.
fn is_one_of(id: &GlobalId, ids: &[GlobalId]) -> bool
    ensures { result ≡ is_among id.now ids.now }
{
    for other in ids {
        if *id == *other {
            return true;
        }
    }
    false
}

/// The marks of a branch of a match on a type of the own block, the types of which are `own`.
fn marks_in_own(
    alloc: Global,
    env: &Env,
    own: &[IndType],
    id: &GlobalId,
    place: u32,
) -> Result<Option<Vec<Mark>>, NoMemory>
    ensures { IfOk result (λ found. option_map (λ ms. marks ms.items) found ≡ marks_in_block (items env.now) (ids_of own.now) (ids_of own.now) no_more id.now place (whole_block (items env.now) id.now)) }
{
    match env.whole_block(id) {
        None => Ok(None),
        Some((b, index)) => {
            if !is_among(id, own) {
                return Ok(None);
            }
            let none = empty_row(alloc)?;
            constructor_marks(alloc, env, own, &none, b, index, place)
        }
    }
}

/// The marks of a branch of a match on a type of the block with these ids, whose parameters have these shapes.
fn marks_in_nest(
    alloc: Global,
    env: &Env,
    own: &[IndType],
    types: &[GlobalId],
    parameters: &ShapeRow,
    id: &GlobalId,
    place: u32,
) -> Result<Option<Vec<Mark>>, NoMemory>
    ensures { IfOk result (λ found. option_map (λ ms. marks ms.items) found ≡ marks_in_block (items env.now) (ids_of own.now) types.now (under_shapes (guard_shapes parameters.now) no_more) id.now place (whole_block (items env.now) id.now)) }
{
    match env.whole_block(id) {
        None => Ok(None),
        Some((b, index)) => {
            if !is_one_of(id, types) {
                return Ok(None);
            }
            let none = empty_row(alloc)?;
            let variables = under_shapes(alloc, parameters, &none)?;
            constructor_marks(alloc, env, own, &variables, b, index, place)
        }
    }
}

fn marks_by_shape(
    alloc: Global,
    env: &Env,
    own: &[IndType],
    known: Option<&TypeShape>,
    id: &GlobalId,
    place: u32,
) -> Result<Option<Vec<Mark>>, NoMemory>
    ensures { IfOk result (λ found. option_map (λ ms. marks ms.items) found ≡ marks_by_shape (items env.now) (ids_of own.now) (option_map (λ s. guard_shape s.now) known.entry) id.now place) }
{
    match known {
        None => Ok(None),
        Some(shape) => match shape {
            TypeShape::Own => marks_in_own(alloc, env, own, id, place),
            TypeShape::Nest { types, parameters } => marks_in_nest(
                alloc,
                env,
                own,
                types.as_slice(),
                parameters,
                id,
                place,
            ),
        },
    }
}

/// The marks of the variables that branch `place`, counted from 0, of a match on the type `id` binds, the outermost first, by the shape that is known of the value. The own block is that of the type `head`. Gives nothing where no argument is known to be smaller.
pub fn recursive_marks(
    alloc: Global,
    env: &Env,
    head: &GlobalId,
    known: Option<&TypeShape>,
    id: &GlobalId,
    place: u32,
) -> Result<Option<Vec<Mark>>, NoMemory>
    ensures { IfOk result (λ found. option_map (λ ms. marks ms.items) found ≡ recursive_marks (items env.now) head.now (option_map (λ s. guard_shape s.now) known.entry) id.now place) }
{
    match env.whole_block(head) {
        None => Ok(None),
        Some((b, _)) => marks_by_shape(alloc, env, b.types.as_slice(), known, id, place),
    }
}
