//! The marks of the variables as a row, which the terms under one binder share.
ghost use Rattle.std.specs.Prelude.{◌≡◌, IfOk, option_map};
ghost use Rattle.cic_counted.specs.GuardTest.{known_of_mark, marks_or_plain, shape_of_mark};
ghost use Rattle.cic_rules.specs.Guard.{all_plain, domain_marks, function_marks, under_marks, under_plain};
ghost use Rattle.cic_rules.specs.Shapes.{own_block};
ghost use Rattle.guard_shapes.specs.Denotes.{shared_shape};
ghost use Rattle.guard_shapes.specs.Marks.{mark, marks};
ghost use Rattle.cic_guard.specs.calls.Rows.{row_marks, shared_marks};
ghost use Rattle.cic_guard.specs.calls.Parts.{function_of_mark, mark_or_plain};

use guard_shapes::{Mark, TypeShape};
use memory::NoMemory;
use std::alloc::Global;
use std::rc::Rc;

/// The marks of the variables, the innermost first.
#[derive(Drop)]
pub(crate) enum MarkRow {
    /// Each variable is plain.
    AllPlain,
    /// So many plain variables, and then the others.
    Run(usize, Rc<MarkRow>),
    /// The variables with these marks, the outermost first, and then the others.
    Marked(Vec<Mark>, Rc<MarkRow>),
}

/// The row in which each variable is plain.
pub(crate) fn all_plain(alloc: Global) -> Result<Rc<MarkRow>, NoMemory>
    ensures { IfOk result (λ r. shared_marks r ≡ all_plain) }
{
    Ok(Rc::new(alloc, MarkRow::AllPlain)?)
}

/// The row under `count` more binders, the variables of which are plain.
#[inline(never)]
pub(crate) fn under_plain(
    alloc: Global,
    row: &Rc<MarkRow>,
    count: usize,
) -> Result<Rc<MarkRow>, NoMemory>
    ensures { IfOk result (λ r. shared_marks r ≡ under_plain count (shared_marks row.now)) }
{
    if count == 0 {
        return Ok(row.clone()?);
    }
    Ok(Rc::new(alloc, MarkRow::Run(count, row.clone()?))?)
}

/// The row under more binders, whose marks are given with the outermost first.
pub(crate) fn under_marks(
    alloc: Global,
    row: &Rc<MarkRow>,
    of_binders: Vec<Mark>,
) -> Result<Rc<MarkRow>, NoMemory>
    ensures { IfOk result (λ r. shared_marks r ≡ under_marks (marks of_binders.items) (shared_marks row.now)) }
{
    Ok(Rc::new(alloc, MarkRow::Marked(of_binders, row.clone()?))?)
}

/// The row under `count` more binders, which have these marks where there are as many, and are plain otherwise.
pub(crate) fn under_marks_or_plain(
    alloc: Global,
    row: &Rc<MarkRow>,
    count: usize,
    of_binders: Option<Vec<Mark>>,
) -> Result<Rc<MarkRow>, NoMemory>
    ensures { IfOk result (λ r. shared_marks r ≡ under_marks (marks_or_plain count (option_map (λ ms. marks ms.items) of_binders)) (shared_marks row.now)) }
{
    match of_binders {
        Some(known) if known.len() == count => under_marks(alloc, row, known),
        _ => under_plain(alloc, row, count),
    }
}

/// The mark of a variable. Gives nothing for a plain one of a run.
#[tactic(auto, using(crate::proofs::Binders::plain_above, crate::proofs::Binders::plain_below, crate::proofs::Binders::mark_found, crate::proofs::Binders::mark_found_above))]
fn mark_at(row: &MarkRow, x: usize) -> Option<&Mark>
    ensures { mark_or_plain (option_map (λ m. mark m.now) result) ≡ row_marks row.now x }
{
    match row {
        MarkRow::AllPlain => None,
        MarkRow::Run(count, _) if x < *count => None,
        MarkRow::Run(count, rest) => mark_at(rest, x - *count),
        MarkRow::Marked(known, _) if x < known.len() => Some(&known[known.len() - 1 - x]),
        MarkRow::Marked(known, rest) => mark_at(rest, x - known.len()),
    }
}

/// The shape of a variable that is smaller.
#[inline(never)]
pub(crate) fn shape_of_variable(row: &MarkRow, x: u32) -> Result<Option<Rc<TypeShape>>, NoMemory>
    ensures { IfOk result (λ s. option_map shared_shape s ≡ shape_of_mark (row_marks row.now x)) }
{
    match mark_at(row, x as usize) {
        Some(Mark::Smaller(shape)) => Ok(Some(shape.clone()?)),
        _ => Ok(None),
    }
}

/// The shape of the types of the own block.
pub(crate) fn own_shape(alloc: Global) -> Result<Rc<TypeShape>, NoMemory>
    ensures { IfOk result (λ s. shared_shape s ≡ own_block) }
{
    Ok(Rc::new(alloc, TypeShape::Own)?)
}

/// What is known of a variable as the value of a match: the recursive one counts as of the own block.
#[inline(never)]
pub(crate) fn known_of_variable(
    alloc: Global,
    row: &MarkRow,
    x: u32,
) -> Result<Option<Rc<TypeShape>>, NoMemory>
    ensures { IfOk result (λ s. option_map shared_shape s ≡ known_of_mark (row_marks row.now x)) }
{
    match mark_at(row, x as usize) {
        Some(Mark::Main) => Ok(Some(own_shape(alloc)?)),
        Some(Mark::Smaller(shape)) => Ok(Some(shape.clone()?)),
        _ => Ok(None),
    }
}

/// The number of the function that a variable is.
pub(crate) fn function_of_variable(row: &MarkRow, x: u32) -> Option<u32>
    ensures { result ≡ function_of_mark (row_marks row.now x) }
{
    match mark_at(row, x as usize) {
        Some(Mark::Function(j)) => Some(*j),
        _ => None,
    }
}
