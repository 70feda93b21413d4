//! The marks in the bodies of functions.
ghost use Rattle.std.specs.Prelude.{◌≡◌, ◌+◌, IfOk, length, option_map};
ghost use Rattle.cic_terms.specs.Denotes.{domain_count, shape};
ghost use Rattle.cic_rules.specs.Guard.{body_marks, domain_marks, function_marks, inner_marks, under_mark, under_marks};
ghost use Rattle.cic_counted.specs.GuardTest.{marks_or_plain};
ghost use Rattle.cic_spines.specs.Fixes.{function_of};
ghost use Rattle.guard_shapes.specs.Denotes.{shared_shape};
ghost use Rattle.guard_shapes.specs.Marks.{mark, marks};
ghost use Rattle.cic_guard.specs.calls.Rows.{shared_marks};

use crate::mark_row::{MarkRow, all_plain, under_marks, under_plain};
use cic_terms::FixBody;
use guard_shapes::{Mark, TypeShape};
use memory::NoMemory;
use std::alloc::Global;
use std::rc::Rc;

/// The row under one more binder, which has the mark.
fn under_mark(alloc: Global, row: &Rc<MarkRow>, of_binder: Mark) -> Result<Rc<MarkRow>, NoMemory>
    ensures { IfOk result (λ r. shared_marks r ≡ under_mark (mark of_binder) (shared_marks row.now)) }
{
    let mut one = Vec::new(alloc);
    one.push(of_binder)?;
    under_marks(alloc, row, one)
}

/// The row under the binders of `count` domains, of which the one at `place`, if there is one, has the mark.
#[tactic(auto, using(crate::proofs::Binders::domains_all_plain, crate::proofs::Binders::domains_around))]
fn under_domains(
    alloc: Global,
    row: &Rc<MarkRow>,
    of_domain: Mark,
    place: usize,
    count: usize,
) -> Result<Rc<MarkRow>, NoMemory>
    ensures { IfOk result (λ r. shared_marks r ≡ under_marks (domain_marks (mark of_domain) place count) (shared_marks row.now)) }
{
    if place >= count {
        return under_plain(alloc, row, count);
    }
    let before = under_plain(alloc, row, place)?;
    let at = under_mark(alloc, &before, of_domain)?;
    under_plain(alloc, &at, count - place - 1)
}

#[tactic(auto, using(crate::proofs::Functions::functions_more))]
fn function_marks(alloc: Global, count: u32) -> Result<Vec<Mark>, NoMemory>
    ensures { IfOk result (λ ms. marks ms.items ≡ function_marks 0 count) }
{
    let mut found = Vec::new(alloc);
    for j in 0..count {
        found.push(Mark::Function(j))?;
    }
    Ok(found)
}

/// The marks in the body of one of `count` functions.
#[tactic(auto, using(crate::proofs::Binders::marks_inside, crate::proofs::Functions::count_read, crate::proofs::Functions::count_of_trees))]
pub(crate) fn body_marks(alloc: Global, count: u32, one: &FixBody) -> Result<Rc<MarkRow>, NoMemory>
    ensures { IfOk result (λ r. shared_marks r ≡ body_marks count (function_of one.now)) }
{
    let none = all_plain(alloc)?;
    let functions = under_marks(alloc, &none, function_marks(alloc, count)?)?;
    let domains = one.domains.as_slice().len();
    under_domains(alloc, &functions, Mark::Main, one.k as usize, domains)
}

/// The marks in the body of the one function of an inner `fix`, by the shape of its recursive argument, where that is smaller.
#[inline(never)]
pub(crate) fn inner_body_marks(
    alloc: Global,
    row: &Rc<MarkRow>,
    one: &FixBody,
    of_argument: Option<Rc<TypeShape>>,
) -> Result<Rc<MarkRow>, NoMemory>
    ensures { IfOk result (λ r. shared_marks r ≡ under_marks (marks_or_plain (1 + domain_count one.now) (option_map (λ s. inner_marks (shared_shape s) (shape one.now)) of_argument)) (shared_marks row.now)) }
{
    let domains = one.domains.as_slice().len();
    match of_argument {
        None => under_plain(alloc, row, 1 + domains),
        Some(s) => {
            let function = under_plain(alloc, row, 1)?;
            under_domains(alloc, &function, Mark::Smaller(s), one.k as usize, domains)
        }
    }
}
