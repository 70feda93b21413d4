//! Whether two shapes are the same.
ghost use Rattle.std.specs.Prelude.{◌≡◌, option_map};
ghost use Rattle.cic_counted.specs.GuardTest.{has_guard_shape, same_guard_shape, same_guard_shapes};
ghost use Rattle.guard_shapes.specs.Denotes.{guard_shape, guard_shapes, shared_shape};

use crate::rows::{ShapeRow, TypeShape};
use std::rc::Rc;

/// Whether the two are the same shape.
#[cycle(same)]
pub fn same_shape(a: &TypeShape, b: &TypeShape) -> bool
    ensures { result ≡ same_guard_shape (guard_shape a.now) (guard_shape b.now) }
{
    match (a, b) {
        (TypeShape::Own, TypeShape::Own) => true,
        (
            TypeShape::Nest { types, parameters },
            TypeShape::Nest {
                types: other_types,
                parameters: other_parameters,
            },
        ) => types.as_slice() == other_types.as_slice() && same_row(parameters, other_parameters),
        _ => false,
    }
}

/// Whether the two are the same row, with the same shapes at the same places.
#[cycle(same)]
fn same_row(a: &ShapeRow, b: &ShapeRow) -> bool
    ensures { result ≡ same_guard_shapes (guard_shapes a.now) (guard_shapes b.now) }
{
    match (a, b) {
        (ShapeRow::Empty, ShapeRow::Empty) => true,
        (ShapeRow::Unshaped(rest), ShapeRow::Unshaped(other_rest)) => same_row(rest, other_rest),
        (ShapeRow::Shaped(shape, rest), ShapeRow::Shaped(other, other_rest)) => same_shape(
            shape, other,
        ) && same_row(rest, other_rest),
        _ => false,
    }
}

/// Whether a term that has this shape, or none, has the shape `wanted`.
pub fn is_of_shape(wanted: &TypeShape, found: &Option<Rc<TypeShape>>) -> bool
    ensures { result ≡ has_guard_shape (guard_shape wanted.now) (option_map shared_shape found.now) }
{
    match found {
        None => false,
        Some(shape) => same_shape(wanted, shape),
    }
}
