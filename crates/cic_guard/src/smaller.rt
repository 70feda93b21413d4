//! The shapes of smaller terms.
ghost use Rattle.std.specs.Prelude.{◌≡◌, ◌+◌, IfOk, drop, option_map};
ghost use Rattle.cic_terms.specs.Denotes.{branch_list, tree};
ghost use Rattle.cic_rules.specs.Environment.{element};
ghost use Rattle.cic_rules.specs.Guard.{under_marks};
ghost use Rattle.cic_counted.specs.GuardTest.{argument_shape, branches_shape, have_shape, known_value, marks_or_plain, smaller_shape};
ghost use Rattle.guard_shapes.specs.Denotes.{guard_shape, shared_shape};
ghost use Rattle.cic_guard.specs.calls.Guards.{places_of, recursive_of};
ghost use Rattle.cic_guard.specs.calls.Rows.{argument_trees, shared_marks};

use crate::arguments::{Arguments, argument_at};
use crate::mark_row::{
    MarkRow, known_of_variable, own_shape, shape_of_variable, under_marks_or_plain, under_plain,
};
use cic_env::Env;
use cic_names::GlobalId;
use cic_terms::{Branch, FixBody, Term};
use guard_shapes::{TypeShape, is_of_shape, recursive_marks};
use memory::NoMemory;
use std::alloc::Global;
use std::rc::Rc;

/// What the guard of one function of a `fix` looks up.
#[derive(Clone, Copy)]
pub(crate) struct Guard<'a> {
    pub(crate) alloc: Global,
    pub(crate) env: &'a Env,
    /// The type that heads the recursive domain.
    pub(crate) head: &'a GlobalId,
    /// The functions of the `fix`.
    pub(crate) functions: &'a [FixBody],
}

/// The marks under the binders of the branch at a place, by what is known of the value.
#[inline(never)]
pub(crate) fn under_branch(
    branch: &Branch,
    place: u32,
    guard: &Guard,
    row: &Rc<MarkRow>,
    known: Option<&TypeShape>,
    id: &GlobalId,
) -> Result<Rc<MarkRow>, NoMemory>
    ensures { IfOk result (λ r. shared_marks r ≡ under_marks (marks_or_plain branch.now.binders (recursive_of guard.now (option_map (λ s. guard_shape s.now) known.entry) id.now place)) (shared_marks row.now)) }
{
    let found = recursive_marks(guard.alloc, guard.env, guard.head, known, id, place)?;
    under_marks_or_plain(guard.alloc, row, branch.binders as usize, found)
}

/// What is known of the value of a match, by its shape as a smaller term.
#[inline(never)]
pub(crate) fn known_value(
    value: &Term,
    guard: &Guard,
    row: &Rc<MarkRow>,
    found: Option<Rc<TypeShape>>,
) -> Result<Option<Rc<TypeShape>>, NoMemory>
    ensures { IfOk result (λ s. option_map shared_shape s ≡ known_value (recursive_of guard.now) (places_of guard.now) (shared_marks row.now) (tree value.now) (option_map shared_shape found)) }
{
    match value {
        Term::Rel(x) => known_of_variable(guard.alloc, row, *x),
        _ => Ok(found),
    }
}

/// The shape of a term, where it is smaller.
#[cycle(shapes)]
pub(crate) fn smaller_shape(
    t: &Term,
    guard: &Guard,
    row: &Rc<MarkRow>,
) -> Result<Option<Rc<TypeShape>>, NoMemory>
    ensures { IfOk result (λ s. option_map shared_shape s ≡ smaller_shape (recursive_of guard.now) (places_of guard.now) (shared_marks row.now) (tree t.now)) }
{
    match t {
        Term::Rel(x) => shape_of_variable(row, *x),
        Term::App(function, _) => smaller_shape(function, guard, row),
        Term::Lam(_, body) => {
            let under = under_plain(guard.alloc, row, 1)?;
            smaller_shape(body, guard, &under)
        }
        Term::Case {
            ind,
            scrutinee,
            branches,
            ..
        } => {
            let known = shape_of_value(scrutinee, guard, row)?;
            branches_shape(branches.as_slice(), guard, row, known.as_deref(), ind)
        }
        _ => Ok(None),
    }
}

/// What is known of the value of a match.
#[cycle(shapes)]
pub(crate) fn shape_of_value(
    value: &Term,
    guard: &Guard,
    row: &Rc<MarkRow>,
) -> Result<Option<Rc<TypeShape>>, NoMemory>
    ensures { IfOk result (λ s. option_map shared_shape s ≡ known_value (recursive_of guard.now) (places_of guard.now) (shared_marks row.now) (tree value.now) (smaller_shape (recursive_of guard.now) (places_of guard.now) (shared_marks row.now) (tree value.now))) }
{
    let found = smaller_shape(value, guard, row)?;
    known_value(value, guard, row, found)
}

/// The shape of the branch at a place, where it is smaller.
#[cycle(shapes)]
fn branch_shape(
    branch: &Branch,
    place: u32,
    guard: &Guard,
    row: &Rc<MarkRow>,
    known: Option<&TypeShape>,
    id: &GlobalId,
) -> Result<Option<Rc<TypeShape>>, NoMemory>
    ensures { IfOk result (λ s. option_map shared_shape s ≡ smaller_shape (recursive_of guard.now) (places_of guard.now) (under_marks (marks_or_plain branch.now.binders (recursive_of guard.now (option_map (λ s. guard_shape s.now) known.entry) id.now place)) (shared_marks row.now)) (tree branch.now.body)) }
{
    let under = under_branch(branch, place, guard, row, known, id)?;
    smaller_shape(&branch.body, guard, &under)
}

/// The one shape of all branches, where they are smaller with one shape.
#[cycle(shapes)]
fn branches_shape(
    all: &[Branch],
    guard: &Guard,
    row: &Rc<MarkRow>,
    known: Option<&TypeShape>,
    id: &GlobalId,
) -> Result<Option<Rc<TypeShape>>, NoMemory>
    ensures { IfOk result (λ s. option_map shared_shape s ≡ branches_shape (recursive_of guard.now) (places_of guard.now) (shared_marks row.now) (option_map (λ s. guard_shape s.now) known.entry) id.now (branch_list all.now)) }
{
    if all.is_empty() {
        return Ok(Some(own_shape(guard.alloc)?));
    }
    match branch_shape(&all[0], 0, guard, row, known, id)? {
        None => Ok(None),
        Some(shape) if have_shape(all, guard, row, known, id, &shape)? => Ok(Some(shape)),
        Some(_) => Ok(None),
    }
}

/// Whether the branches behind the first are smaller with this shape.
#[cycle(shapes)]
fn have_shape(
    all: &[Branch],
    guard: &Guard,
    row: &Rc<MarkRow>,
    known: Option<&TypeShape>,
    id: &GlobalId,
    shape: &TypeShape,
) -> Result<bool, NoMemory>
    ensures { IfOk result (λ b. b ≡ have_shape (recursive_of guard.now) (places_of guard.now) (shared_marks row.now) (option_map (λ s. guard_shape s.now) known.entry) id.now 1 (guard_shape shape.now) (branch_list (drop 1 all.now))) }
{
    let Ok(count) = u32::try_from(all.len()) else {
        return Err(NoMemory);
    };
    for place in 1..count {
        let found = branch_shape(&all[place as usize], place, guard, row, known, id)?;
        if !is_of_shape(shape, &found) {
            return Ok(false);
        }
    }
    Ok(true)
}

/// The shape of the argument at a place, where there is one that is smaller.
pub(crate) fn argument_shape(
    place: u32,
    guard: &Guard,
    row: &Rc<MarkRow>,
    arguments: &Arguments,
) -> Result<Option<Rc<TypeShape>>, NoMemory>
    ensures { IfOk result (λ s. option_map shared_shape s ≡ argument_shape (recursive_of guard.now) (places_of guard.now) (shared_marks row.now) (element (argument_trees arguments.now) place)) }
{
    match argument_at(arguments, place) {
        None => Ok(None),
        Some(argument) => smaller_shape(argument, guard, row),
    }
}
