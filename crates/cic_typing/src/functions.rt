//! What the typing of a `fix` needs of its functions. Coq Reference Manual, "Theory of inductive definitions".
ghost use Rattle.std.specs.Prelude.{◌≡◌, ◌∷◌, ◌<◌, ◌^◌, ◌+◌, IfOk, OnOk, OnErr, length, map, drop};
ghost use Rattle.std.specs.Option.{option_map};
ghost use Rattle.cic_terms.specs.Lift.{lift_tree};
ghost use Rattle.cic_rules.specs.Environment.{assumed};
ghost use Rattle.cic_rules.specs.Telescopes.{function_type, function_types};
ghost use Rattle.cic_counted.specs.GuardTest.{guard_fault};
ghost use Rattle.cic_counted.specs.Inference.{function_context};
ghost use Rattle.cic_counted.specs.Outcome.{fitting, follow, give, refuse_for, unguarded};
ghost use Rattle.cic_env.specs.Contexts.{context};
ghost use Rattle.cic_env.specs.Environments.{items};
ghost use Rattle.cic_spines.specs.Fixes.{function_of, functions};
ghost use Rattle.cic_spines.specs.Lists.{shared_tree};
ghost use Rattle.cic_work.specs.calls.Counting.{Counts, budget, no_value};
ghost use Rattle.cic_typing.specs.calls.Parts.{IsInside};

use cic_env::{Context, Env};
use cic_guard::guarded;
use cic_limits::{lifted, push_assumed};
use cic_spines::function_type;
use cic_terms::{FixBodies, FixBody, Term};
use cic_work::{Stop, Work};
use memory::NoMemory;
use std::alloc::Global;
use std::rc::Rc;
use typing_parts::unguarded;

/// The functions of a `fix`, in order.
#[tactic(auto, using(crate::proofs::Slices::functions_of_slice))]
pub(crate) fn each(all: &FixBodies) -> &[FixBody]
    ensures { map function_of result.now ≡ functions all.now }
{
    all.as_slice()
}

/// How many functions there are. More than a number tells apart fit into no memory.
pub(crate) fn count(functions: &[FixBody]) -> Result<u32, NoMemory>
    ensures { IfOk result (λ count. count ≡ length functions.now) }
{
    match u32::try_from(functions.len()) {
        Ok(count) => Ok(count),
        Err(_) => Err(NoMemory),
    }
}

/// The type of a function lifted past `past` functions.
#[inline(never)]
pub(crate) fn lifted_type(
    alloc: Global,
    one: &FixBody,
    past: u32,
    work: &Work,
) -> Result<Rc<Term>, Stop>
    ensures { Counts shared_tree result (budget work.now) (fitting (lift_tree 0 past (function_type (function_of one.now))) (budget work.now)) }
{
    let ty = function_type(alloc, one)?;
    lifted(alloc, &ty, past, work)
}

/// Puts a function inside the others, of which `before` stand there.
#[inline(never)]
#[tactic(auto, using(cic_work::proofs::Depths::stops_on))]
fn enter_function(
    alloc: Global,
    ctx: &mut Context,
    one: &FixBody,
    before: u32,
    work: &Work,
) -> Result<(), Stop>
    ensures answer { Counts (λ _. context ctx.new) result (budget work.now) (follow (fitting (lift_tree 0 before (function_type (function_of one.now))) (budget work.now)) (λ t. give (assumed t ∷ context ctx.old))) }
    ensures outside { OnOk result (drop 1 (context ctx.new) ≡ context ctx.old) }
    ensures more { OnOk result (length (context ctx.new) ≡ length (context ctx.old) + 1) }
    ensures same { OnErr result (context ctx.new ≡ context ctx.old) }
{
    let ty = lifted_type(alloc, one, before, work)?;
    push_assumed(ctx, &ty)?;
    Ok(())
}

/// Puts the functions inside the others, each with its type lifted past those before it. What was there stays outside, also where there is no value.
#[inline(never)]
pub(crate) fn enter_functions(
    alloc: Global,
    ctx: &mut Context,
    functions: &[FixBody],
    work: &Work,
) -> Result<(), Stop>
    requires { length functions.now < 2 ^ 32 }
    ensures answer { Counts (λ _. context ctx.new) result (budget work.now) (function_context 0 (context ctx.old) (function_types (map function_of functions.now)) (budget work.now)) }
    ensures outside { IsInside (context ctx.new) (context ctx.old) }
{
    for (before, one) in functions.iter().enumerate() {
        enter_function(alloc, ctx, one, before as u32, work)?;
    }
    Ok(())
}

/// Refuses a `fix` that is not guarded.
#[inline(never)]
pub(crate) fn guard(alloc: Global, env: &Env, all: &FixBodies, work: &Work) -> Result<(), Stop>
    ensures { Counts no_value result (budget work.now) (refuse_for (option_map (λ fault. unguarded fault.which fault.call) (guard_fault (items env.now) (functions all.now))) (budget work.now)) }
{
    match guarded(alloc, env, all)? {
        None => Ok(()),
        Some(fault) => Err(unguarded(alloc, fault.f, fault.call)),
    }
}
