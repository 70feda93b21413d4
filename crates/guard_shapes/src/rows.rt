//! Shapes of smaller terms, and rows of them. A copy of a row shares its elements.
ghost use Rattle.std.specs.Prelude.{◌≡◌, IfOk, option_map};
ghost use Rattle.cic_rules.specs.Shapes.{before_shapes, first_shapes, has_shape, nest, no_more, own_block, shape_at, shaped, unshaped};
ghost use Rattle.guard_shapes.specs.calls.Parts.{is_empty};
ghost use Rattle.guard_shapes.specs.Denotes.{guard_shapes, shared_shape, shared_shapes};

use cic_names::GlobalId;
use memory::NoMemory;
use std::alloc::Global;
use std::rc::Rc;

/// How far the type of a smaller term is one of the block of the recursive argument's type.
#[cycle(type_shape)]
#[derive(Drop)]
pub enum TypeShape {
    /// It is a type of that block.
    Own,
    /// It is a type of another block, with the ids of that block's types, at parameters some of which have shapes.
    Nest {
        types: Rc<Vec<GlobalId>>,
        parameters: Rc<ShapeRow>,
    },
}

/// Optional shapes in a row: of parameters, the first of them first, or of variables, the innermost first.
#[cycle(type_shape)]
#[derive(Drop)]
pub enum ShapeRow {
    Empty,
    /// One without a shape, and then the others.
    Unshaped(Rc<ShapeRow>),
    /// One with a shape, and then the others.
    Shaped(Rc<TypeShape>, Rc<ShapeRow>),
}

pub(crate) fn empty_row(alloc: Global) -> Result<Rc<ShapeRow>, NoMemory>
    ensures { IfOk result (λ r. shared_shapes r ≡ no_more) }
{
    Ok(Rc::new(alloc, ShapeRow::Empty)?)
}

/// The row with one more in front that has no shape.
pub(crate) fn with_unshaped(alloc: Global, row: &Rc<ShapeRow>) -> Result<Rc<ShapeRow>, NoMemory>
    ensures { IfOk result (λ r. shared_shapes r ≡ unshaped (shared_shapes row.now)) }
{
    Ok(Rc::new(alloc, ShapeRow::Unshaped(row.clone()?))?)
}

/// The row with this shape in front.
pub(crate) fn with_shaped(
    alloc: Global,
    shape: Rc<TypeShape>,
    row: &Rc<ShapeRow>,
) -> Result<Rc<ShapeRow>, NoMemory>
    ensures { IfOk result (λ r. shared_shapes r ≡ shaped (shared_shape shape) (shared_shapes row.now)) }
{
    Ok(Rc::new(alloc, ShapeRow::Shaped(shape, row.clone()?))?)
}

/// The row with one more in front, which has this shape or none.
pub(crate) fn with_before(
    alloc: Global,
    shape: Option<Rc<TypeShape>>,
    row: &Rc<ShapeRow>,
) -> Result<Rc<ShapeRow>, NoMemory>
    ensures { IfOk result (λ r. shared_shapes r ≡ before_shapes (option_map shared_shape shape) (shared_shapes row.now)) }
{
    match shape {
        None => with_unshaped(alloc, row),
        Some(shape) => with_shaped(alloc, shape, row),
    }
}

/// The first `count` of the row, where there are so many.
pub(crate) fn first_of_row(
    alloc: Global,
    row: &ShapeRow,
    count: u32,
) -> Result<Option<Rc<ShapeRow>>, NoMemory>
    ensures { IfOk result (λ r. option_map shared_shapes r ≡ first_shapes count (guard_shapes row.now)) }
{
    if count == 0 {
        return Ok(Some(empty_row(alloc)?));
    }
    match row {
        ShapeRow::Empty => Ok(None),
        ShapeRow::Unshaped(rest) => match first_of_row(alloc, rest, count - 1)? {
            None => Ok(None),
            Some(front) => Ok(Some(with_unshaped(alloc, &front)?)),
        },
        ShapeRow::Shaped(shape, rest) => match first_of_row(alloc, rest, count - 1)? {
            None => Ok(None),
            Some(front) => Ok(Some(with_shaped(alloc, shape.clone()?, &front)?)),
        },
    }
}

pub(crate) fn is_empty(row: &ShapeRow) -> bool
    ensures { result ≡ is_empty (guard_shapes row.now) }
{
    match row {
        ShapeRow::Empty => true,
        ShapeRow::Unshaped(_) | ShapeRow::Shaped(_, _) => false,
    }
}

/// Whether any in the row has a shape.
pub(crate) fn has_shape(row: &ShapeRow) -> bool
    ensures { result ≡ has_shape (guard_shapes row.now) }
{
    match row {
        ShapeRow::Empty => false,
        ShapeRow::Unshaped(rest) => has_shape(rest),
        ShapeRow::Shaped(_, _) => true,
    }
}

/// The shape at a place of the row, counted from 0.
pub(crate) fn shape_at(row: &ShapeRow, place: u32) -> Result<Option<Rc<TypeShape>>, NoMemory>
    ensures { IfOk result (λ s. option_map shared_shape s ≡ shape_at (guard_shapes row.now) place) }
{
    match row {
        ShapeRow::Empty => Ok(None),
        ShapeRow::Unshaped(_) if place == 0 => Ok(None),
        ShapeRow::Unshaped(rest) => shape_at(rest, place - 1),
        ShapeRow::Shaped(shape, _) if place == 0 => Ok(Some(shape.clone()?)),
        ShapeRow::Shaped(_, rest) => shape_at(rest, place - 1),
    }
}

pub(crate) fn own_shape(alloc: Global) -> Result<Rc<TypeShape>, NoMemory>
    ensures { IfOk result (λ s. shared_shape s ≡ own_block) }
{
    Ok(Rc::new(alloc, TypeShape::Own)?)
}

/// The shape of a type of the block with these ids, at these parameters.
pub(crate) fn nest_shape(
    alloc: Global,
    types: Vec<GlobalId>,
    parameters: Rc<ShapeRow>,
) -> Result<Rc<TypeShape>, NoMemory>
    ensures { IfOk result (λ s. shared_shape s ≡ nest types.items (shared_shapes parameters)) }
{
    let types = Rc::new(alloc, types)?;
    Ok(Rc::new(alloc, TypeShape::Nest { types, parameters })?)
}
