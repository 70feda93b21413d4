//! Refusals.
ghost use Rattle.std.specs.Prelude.{◌≡◌, IfOk, length};
ghost use Rattle.cic_terms.specs.Denotes.{tree, tree_sort};
ghost use Rattle.cic_counted.specs.Outcome.{global, local, not_function, not_sort, unbound, unguarded, universe_form};
ghost use Rattle.cic_env.specs.Contexts.{context};
ghost use Rattle.cic_work.specs.Verdicts.{cause_of};
ghost use Rattle.cic_work.specs.calls.Counting.{StopsWith};

use cic_env::{Cause, Context, Missing};
use cic_names::{GlobalId, Sort};
use cic_terms::Term;
use cic_work::Stop;
use memory::NoMemory;
use std::alloc::Global;

/// How many entries stand in a context. More than a number tells apart fit into no memory.
fn depth_of(ctx: &Context) -> Result<u32, NoMemory>
    ensures { IfOk result (λ depth. depth ≡ length (context ctx.now)) }
{
    match u32::try_from(ctx.len()) {
        Ok(depth) => Ok(depth),
        Err(_) => Err(NoMemory),
    }
}

fn cause_not_function(ctx: &Context, form: &Term) -> Result<Cause, NoMemory>
    ensures { IfOk result (λ cause. cause_of cause ≡ not_function (length (context ctx.now)) (tree form.now)) }
{
    let depth = depth_of(ctx)?;
    let form = form.clone()?;
    Ok(Cause::NotFunction { depth, form })
}

/// What is applied has no product as its type, but this.
#[inline(never)]
pub fn not_function(alloc: Global, ctx: &Context, form: &Term) -> Stop
    ensures { StopsWith result (not_function (length (context ctx.now)) (tree form.now)) }
{
    match cause_not_function(ctx, form) {
        Ok(cause) => Stop::refuse(alloc, cause),
        Err(_) => Stop::NoMemory,
    }
}

fn cause_not_sort(ctx: &Context, form: &Term) -> Result<Cause, NoMemory>
    ensures { IfOk result (λ cause. cause_of cause ≡ not_sort (length (context ctx.now)) (tree form.now)) }
{
    let depth = depth_of(ctx)?;
    let form = form.clone()?;
    Ok(Cause::NotSort { depth, form })
}

/// What is to be a type has no sort as its type, but this.
#[inline(never)]
pub fn not_sort(alloc: Global, ctx: &Context, form: &Term) -> Stop
    ensures { StopsWith result (not_sort (length (context ctx.now)) (tree form.now)) }
{
    match cause_not_sort(ctx, form) {
        Ok(cause) => Stop::refuse(alloc, cause),
        Err(_) => Stop::NoMemory,
    }
}

fn cause_unbound(id: &GlobalId) -> Result<Cause, NoMemory>
    ensures { IfOk result (λ cause. cause_of cause ≡ unbound (global id.now)) }
{
    let what = Missing::Global(id.clone()?);
    Ok(Cause::Unbound { what })
}

/// Nothing of the kind that is wanted has that id.
#[inline(never)]
pub fn unbound_id(alloc: Global, id: &GlobalId) -> Stop
    ensures { StopsWith result (unbound (global id.now)) }
{
    match cause_unbound(id) {
        Ok(cause) => Stop::refuse(alloc, cause),
        Err(_) => Stop::NoMemory,
    }
}

/// The context has no such variable.
#[inline(never)]
pub fn unbound_variable(alloc: Global, x: u32) -> Stop
    ensures { StopsWith result (unbound (local x)) }
{
    Stop::refuse(
        alloc,
        Cause::Unbound {
            what: Missing::Local(x),
        },
    )
}

fn cause_universe_form(found: &Sort, wanted: &Sort) -> Result<Cause, NoMemory>
    ensures { IfOk result (λ cause. cause_of cause ≡ universe_form (tree_sort found.now) (tree_sort wanted.now)) }
{
    let found = found.clone()?;
    let wanted = wanted.clone()?;
    Ok(Cause::UniverseForm { found, wanted })
}

/// A sort has no level of its own.
#[inline(never)]
pub fn universe_form(alloc: Global, found: &Sort, wanted: &Sort) -> Stop
    ensures { StopsWith result (universe_form (tree_sort found.now) (tree_sort wanted.now)) }
{
    match cause_universe_form(found, wanted) {
        Ok(cause) => Stop::refuse(alloc, cause),
        Err(_) => Stop::NoMemory,
    }
}

/// A function of a `fix` is not guarded at a call.
#[inline(never)]
pub fn unguarded(alloc: Global, f: u32, call: u32) -> Stop
    ensures { StopsWith result (unguarded f call) }
{
    Stop::refuse(alloc, Cause::Unguarded { f, call })
}
