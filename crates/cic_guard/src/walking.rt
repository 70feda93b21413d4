//! The walk over the body of a function, which looks at each call of a function of the `fix`.
ghost use Rattle.std.specs.Prelude.{◌≡◌, ◌+◌, IfOk, None, [], ◌∷◌, false, length, option_map, true};
ghost use Rattle.cic_terms.specs.Denotes.{body_list, branch_list, shape, shape_list, term_list, tree};
ghost use Rattle.cic_terms.specs.Tree.{app, child, fix, no_child, none, one};
ghost use Rattle.cic_rules.specs.Environment.{element};
ghost use Rattle.cic_rules.specs.Guard.{under_marks, under_plain};
ghost use Rattle.cic_counted.specs.GuardTest.{call_shape, fix_marks, marks_or_plain, occurrence, occurrence_at};
ghost use Rattle.cic_counted.specs.Outcome.{next_number};
ghost use Rattle.guard_shapes.specs.Denotes.{guard_shape, shared_shape};
ghost use Rattle.cic_guard.specs.calls.Guards.{places_of, recursive_of};
ghost use Rattle.cic_guard.specs.calls.Rows.{argument_trees, shared_marks};
ghost use Rattle.cic_guard.specs.calls.Walks.{flags, walk_of_body, walk_of_branches, walk_of_chosen, walk_of_match, walk_of_parts, walk_of_term, walk_of_types, walked};

use crate::arguments::Arguments;
use crate::bodies::inner_body_marks;
use crate::mark_row::{MarkRow, function_of_variable, under_plain};
use crate::smaller::{Guard, argument_shape, shape_of_value, under_branch};
use cic_names::GlobalId;
use cic_terms::{Branch, FixBody, Term};
use guard_shapes::TypeShape;
use memory::NoMemory;
use std::rc::Rc;

/// How a walk ends: the number of the last call that was passed, or of the first that is not guarded.
#[derive(Clone, Copy)]
pub(crate) enum WalkEnd {
    Passed(u32),
    Failed(u32),
}

/// The shape of the recursive argument of a call of function `j`, where that is smaller.
fn call_shape(
    j: u32,
    guard: &Guard,
    row: &Rc<MarkRow>,
    arguments: &Arguments,
) -> Result<Option<Rc<TypeShape>>, NoMemory>
    ensures { IfOk result (λ s. option_map shared_shape s ≡ call_shape (recursive_of guard.now) (places_of guard.now) (shared_marks row.now) (element (places_of guard.now) j) (argument_trees arguments.now)) }
{
    match guard.functions.get(j as usize) {
        None => Ok(None),
        Some(one) => argument_shape(one.k, guard, row, arguments),
    }
}

/// A call of function `j`, behind call number `call`.
fn walk_call(
    j: u32,
    guard: &Guard,
    row: &Rc<MarkRow>,
    arguments: &Arguments,
    call: u32,
) -> Result<WalkEnd, NoMemory>
    ensures { IfOk result (λ w. walked guard.now w ≡ occurrence_at (recursive_of guard.now) (places_of guard.now) (call_shape (recursive_of guard.now) (places_of guard.now) (shared_marks row.now) (element (places_of guard.now) j) (argument_trees arguments.now)) (next_number call)) }
{
    let next = call.saturating_add(1);
    match call_shape(j, guard, row, arguments)? {
        None => Ok(WalkEnd::Failed(next)),
        Some(_) => Ok(WalkEnd::Passed(next)),
    }
}

#[inline(never)]
fn walk_variable(
    x: u32,
    guard: &Guard,
    row: &Rc<MarkRow>,
    arguments: &Arguments,
    call: u32,
) -> Result<WalkEnd, NoMemory>
    ensures { IfOk result (λ w. walked guard.now w ≡ occurrence (recursive_of guard.now) (places_of guard.now) (shared_marks row.now) (shared_marks row.now x) (argument_trees arguments.now) call) }
{
    match function_of_variable(row, x) {
        None => Ok(WalkEnd::Passed(call)),
        Some(j) => walk_call(j, guard, row, arguments, call),
    }
}

/// Goes over the term under these arguments, whose calls count from `call` on. The head of an application comes before its arguments, and those from left to right.
#[cycle(walk)]
pub(crate) fn walk(
    t: &Term,
    guard: &Guard,
    row: &Rc<MarkRow>,
    arguments: &Arguments,
    call: u32,
) -> Result<WalkEnd, NoMemory>
    ensures { IfOk result (λ w. walked guard.now w ≡ walk_of_term guard.now (shared_marks row.now) (argument_trees arguments.now) (tree t.now) call) }
{
    match t {
        Term::Rel(x) => walk_variable(*x, guard, row, arguments, call),
        Term::Sort(_) | Term::Const(_) | Term::Ind(_) | Term::Ctor(_) => Ok(WalkEnd::Passed(call)),
        Term::Prod(a, b) | Term::Lam(a, b) => walk_binding(a, b, guard, row, call),
        Term::App(f, u) => walk_application(f, u, guard, row, arguments, call),
        Term::Let { body, ty, rest } => walk_let(body, ty, rest, guard, row, call),
        Term::Case {
            arity,
            ind,
            motive,
            scrutinee,
            branches,
        } => match walk_motive(motive, *arity, guard, row, call)? {
            WalkEnd::Passed(call) => walk_match(
                scrutinee,
                branches.as_slice(),
                guard,
                row,
                ind,
                call,
            ),
            failed => Ok(failed),
        },
        Term::Fix { bodies, .. } => walk_fix(bodies.as_slice(), guard, row, arguments, call),
    }
}

/// Goes over a term under `count` more binders, and under no arguments.
#[cycle(walk)]
#[inline(never)]
fn walk_under(
    t: &Term,
    count: usize,
    guard: &Guard,
    row: &Rc<MarkRow>,
    call: u32,
) -> Result<WalkEnd, NoMemory>
    ensures { IfOk result (λ w. walked guard.now w ≡ walk_of_term guard.now (under_plain count (shared_marks row.now)) [] (tree t.now) call) }
{
    let under = under_plain(guard.alloc, row, count)?;
    walk(t, guard, &under, &Arguments::Nothing, call)
}

/// Goes over a domain, and over what stands under its binder.
#[cycle(walk)]
#[inline(never)]
fn walk_binding(
    domain: &Term,
    inner: &Term,
    guard: &Guard,
    row: &Rc<MarkRow>,
    call: u32,
) -> Result<WalkEnd, NoMemory>
    ensures { IfOk result (λ w. walked guard.now w ≡ walk_of_parts guard.now (shared_marks row.now) (child none (tree domain.now) (child one (tree inner.now) no_child)) call) }
{
    match walk(domain, guard, row, &Arguments::Nothing, call)? {
        WalkEnd::Passed(call) => walk_under(inner, 1, guard, row, call),
        failed => Ok(failed),
    }
}

#[cycle(walk)]
#[inline(never)]
fn walk_let(
    body: &Term,
    ty: &Term,
    rest: &Term,
    guard: &Guard,
    row: &Rc<MarkRow>,
    call: u32,
) -> Result<WalkEnd, NoMemory>
    ensures { IfOk result (λ w. walked guard.now w ≡ walk_of_parts guard.now (shared_marks row.now) (child none (tree body.now) (child none (tree ty.now) (child one (tree rest.now) no_child))) call) }
{
    match walk(body, guard, row, &Arguments::Nothing, call)? {
        WalkEnd::Passed(call) => walk_binding(ty, rest, guard, row, call),
        failed => Ok(failed),
    }
}

#[cycle(walk)]
#[inline(never)]
fn walk_application(
    function: &Term,
    argument: &Term,
    guard: &Guard,
    row: &Rc<MarkRow>,
    arguments: &Arguments,
    call: u32,
) -> Result<WalkEnd, NoMemory>
    ensures { IfOk result (λ w. walked guard.now w ≡ walk_of_term guard.now (shared_marks row.now) (argument_trees arguments.now) (app (tree function.now) (tree argument.now)) call) }
{
    let with_argument = Arguments::First(&*argument, &*arguments);
    match walk(function, guard, row, &with_argument, call)? {
        WalkEnd::Passed(call) => walk(argument, guard, row, &Arguments::Nothing, call),
        failed => Ok(failed),
    }
}

/// Goes over the motive of a match, under the indices and the value.
#[cycle(walk)]
fn walk_motive(
    motive: &Term,
    arity: u32,
    guard: &Guard,
    row: &Rc<MarkRow>,
    call: u32,
) -> Result<WalkEnd, NoMemory>
    ensures { IfOk result (λ w. walked guard.now w ≡ walk_of_term guard.now (under_plain (arity + 1) (shared_marks row.now)) [] (tree motive.now) call) }
{
    walk_under(motive, arity as usize + 1, guard, row, call)
}

/// Goes over the value of a match, and over its branches by what is known of the value.
#[cycle(walk)]
#[inline(never)]
fn walk_match(
    value: &Term,
    branches: &[Branch],
    guard: &Guard,
    row: &Rc<MarkRow>,
    id: &GlobalId,
    call: u32,
) -> Result<WalkEnd, NoMemory>
    ensures { IfOk result (λ w. walked guard.now w ≡ walk_of_match guard.now (shared_marks row.now) (tree value.now) id.now (branch_list branches.now) call) }
{
    match walk(value, guard, row, &Arguments::Nothing, call)? {
        WalkEnd::Passed(call) => {
            let known = shape_of_value(value, guard, row)?;
            walk_branches(branches, guard, row, known.as_deref(), id, call)
        }
        failed => Ok(failed),
    }
}

#[cycle(walk)]
#[inline(never)]
fn walk_branch(
    branch: &Branch,
    place: u32,
    guard: &Guard,
    row: &Rc<MarkRow>,
    known: Option<&TypeShape>,
    id: &GlobalId,
    call: u32,
) -> Result<WalkEnd, NoMemory>
    ensures { IfOk result (λ w. walked guard.now w ≡ walk_of_term guard.now (under_marks (marks_or_plain branch.now.binders (recursive_of guard.now (option_map (λ s. guard_shape s.now) known.entry) id.now place)) (shared_marks row.now)) [] (tree branch.now.body) call) }
{
    let under = under_branch(branch, place, guard, row, known, id)?;
    walk(&branch.body, guard, &under, &Arguments::Nothing, call)
}

#[cycle(walk)]
fn walk_branches(
    branches: &[Branch],
    guard: &Guard,
    row: &Rc<MarkRow>,
    known: Option<&TypeShape>,
    id: &GlobalId,
    call: u32,
) -> Result<WalkEnd, NoMemory>
    ensures { IfOk result (λ w. walked guard.now w ≡ walk_of_branches guard.now (shared_marks row.now) (option_map (λ s. guard_shape s.now) known.entry) id.now 0 (branch_list branches.now) call) }
{
    let Ok(count) = u32::try_from(branches.len()) else {
        return Err(NoMemory);
    };
    let mut at = call;
    for place in 0..count {
        let branch = &branches[place as usize];
        match walk_branch(branch, place, guard, row, known, id, at)? {
            WalkEnd::Passed(next) => at = next,
            failed => return Ok(failed),
        }
    }
    Ok(WalkEnd::Passed(at))
}

/// Goes over an inner `fix`: first over the domains and the codomain of each function, then over the bodies.
#[cycle(walk)]
#[inline(never)]
fn walk_fix(
    all: &[FixBody],
    guard: &Guard,
    row: &Rc<MarkRow>,
    arguments: &Arguments,
    call: u32,
) -> Result<WalkEnd, NoMemory>
    ensures { IfOk result (λ w. walked guard.now w ≡ walk_of_term guard.now (shared_marks row.now) (argument_trees arguments.now) (fix 0 (shape_list all.now) (body_list (length all.now) all.now)) call) }
{
    match walk_all_types(all, guard, row, call)? {
        WalkEnd::Passed(call) => walk_bodies(all, guard, row, arguments, call),
        failed => Ok(failed),
    }
}

/// Goes over the domains and the codomain of each function.
#[cycle(walk)]
fn walk_all_types(
    all: &[FixBody],
    guard: &Guard,
    row: &Rc<MarkRow>,
    call: u32,
) -> Result<WalkEnd, NoMemory>
    ensures { IfOk result (λ w. walked guard.now w ≡ walk_of_chosen guard.now (shared_marks row.now) None (flags guard.now true false (shape_list all.now)) (body_list (length all.now) all.now) call) }
{
    let mut at = call;
    for one in all {
        match walk_types(one, guard, row, at)? {
            WalkEnd::Passed(next) => at = next,
            failed => return Ok(failed),
        }
    }
    Ok(WalkEnd::Passed(at))
}

#[cycle(walk)]
#[inline(never)]
fn walk_types(
    one: &FixBody,
    guard: &Guard,
    row: &Rc<MarkRow>,
    call: u32,
) -> Result<WalkEnd, NoMemory>
    ensures { IfOk result (λ w. walked guard.now w ≡ walk_of_types guard.now (shared_marks row.now) one.now call) }
{
    let domains = one.domains.as_slice();
    match walk_domains(domains, guard, row, call)? {
        WalkEnd::Passed(call) => walk_under(&one.codomain, domains.len(), guard, row, call),
        failed => Ok(failed),
    }
}

#[cycle(walk)]
fn walk_domains(
    domains: &[Term],
    guard: &Guard,
    row: &Rc<MarkRow>,
    call: u32,
) -> Result<WalkEnd, NoMemory>
    ensures { IfOk result (λ w. walked guard.now w ≡ walk_of_parts guard.now (shared_marks row.now) (term_list 0 domains.now) call) }
{
    let mut at = call;
    for i in 0..domains.len() {
        match walk_under(&domains[i], i, guard, row, at)? {
            WalkEnd::Passed(next) => at = next,
            failed => return Ok(failed),
        }
    }
    Ok(WalkEnd::Passed(at))
}

/// Goes over the bodies of the functions. The recursive argument of a single function may be smaller.
#[cycle(walk)]
fn walk_bodies(
    all: &[FixBody],
    guard: &Guard,
    row: &Rc<MarkRow>,
    arguments: &Arguments,
    call: u32,
) -> Result<WalkEnd, NoMemory>
    ensures { IfOk result (λ w. walked guard.now w ≡ walk_of_chosen guard.now (shared_marks row.now) (fix_marks (recursive_of guard.now) (places_of guard.now) (shared_marks row.now) (argument_trees arguments.now) (shape_list all.now)) (flags guard.now false true (shape_list all.now)) (body_list (length all.now) all.now) call) }
{
    if all.len() == 1 {
        return walk_single_body(&all[0], guard, row, arguments, call);
    }
    walk_several_bodies(all, guard, row, call)
}

#[cycle(walk)]
#[inline(never)]
fn walk_single_body(
    one: &FixBody,
    guard: &Guard,
    row: &Rc<MarkRow>,
    arguments: &Arguments,
    call: u32,
) -> Result<WalkEnd, NoMemory>
    ensures { IfOk result (λ w. walked guard.now w ≡ walk_of_body guard.now (shared_marks row.now) 1 (fix_marks (recursive_of guard.now) (places_of guard.now) (shared_marks row.now) (argument_trees arguments.now) (shape one.now ∷ [])) one.now call) }
{
    let found = argument_shape(one.k, guard, row, arguments)?;
    let under = inner_body_marks(guard.alloc, row, one, found)?;
    walk(&one.body, guard, &under, &Arguments::Nothing, call)
}

#[cycle(walk)]
fn walk_several_bodies(
    all: &[FixBody],
    guard: &Guard,
    row: &Rc<MarkRow>,
    call: u32,
) -> Result<WalkEnd, NoMemory>
    ensures { IfOk result (λ w. walked guard.now w ≡ walk_of_chosen guard.now (shared_marks row.now) None (flags guard.now false true (shape_list all.now)) (body_list (length all.now) all.now) call) }
{
    let mut at = call;
    for one in all {
        match walk_plain_body(one, all, guard, row, at)? {
            WalkEnd::Passed(next) => at = next,
            failed => return Ok(failed),
        }
    }
    Ok(WalkEnd::Passed(at))
}

/// Goes over the body of one of the functions, where nothing is known of its arguments.
#[cycle(walk)]
#[inline(never)]
fn walk_plain_body(
    one: &FixBody,
    all: &[FixBody],
    guard: &Guard,
    row: &Rc<MarkRow>,
    call: u32,
) -> Result<WalkEnd, NoMemory>
    ensures { IfOk result (λ w. walked guard.now w ≡ walk_of_body guard.now (shared_marks row.now) (length all.now) None one.now call) }
{
    let domains = one.domains.as_slice().len();
    walk_under(&one.body, all.len() + domains, guard, row, call)
}
