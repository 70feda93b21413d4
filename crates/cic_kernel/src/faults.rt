//! Why a block is refused for its shape, or for its positivity.
ghost use Rattle.std.specs.Prelude.{◌≡◌};
ghost use Rattle.std.specs.Option.{option_and_then, option_map};
ghost use Rattle.cic_counted.specs.BlockTests.{bad_arity_at, bad_constructor_at, shape_fault};
ghost use Rattle.cic_counted.specs.Checking.{constructor_id, positivity_cause, shape_cause};
ghost use Rattle.cic_counted.specs.NestedTest.{nested_fault};
ghost use Rattle.cic_counted.specs.Outcome.{bad_arity, bad_constructor, not_positive, refuse_for};
ghost use Rattle.cic_env.specs.Declarations.{block};
ghost use Rattle.cic_env.specs.Environments.{items};
ghost use Rattle.cic_work.specs.calls.Counting.{Counts, StopsWith, budget, no_value};

use cic_env::{Block, Cause, Env};
use cic_names::GlobalId;
use cic_positivity::{Positivity, Shape, shaped};
use cic_work::{Stop, Work};
use nested_ind::nested;
use std::alloc::Global;

/// The refusal of a type for its arity.
#[inline(never)]
fn bad_arity(alloc: Global, id: &GlobalId) -> Stop
    ensures { StopsWith result (bad_arity id.now) }
{
    match id.clone() {
        Ok(ind) => Stop::refuse(alloc, Cause::BadArity { ind }),
        Err(_) => Stop::NoMemory,
    }
}

/// The refusal of a constructor for its type.
#[inline(never)]
pub(crate) fn bad_constructor(alloc: Global, id: &GlobalId) -> Stop
    ensures { StopsWith result (bad_constructor id.now) }
{
    match id.clone() {
        Ok(ctor) => Stop::refuse(alloc, Cause::BadConstructor { ctor }),
        Err(_) => Stop::NoMemory,
    }
}

/// The refusal of a constructor for an argument that is not strictly positive.
#[inline(never)]
fn not_positive(alloc: Global, id: &GlobalId, argument: u32) -> Stop
    ensures { StopsWith result (not_positive id.now argument) }
{
    match id.clone() {
        Ok(ctor) => Stop::refuse(alloc, Cause::NotPositive { ctor, argument }),
        Err(_) => Stop::NoMemory,
    }
}

/// The id of the constructor at the second place of the type at the first place.
fn constructor_at(b: &Block, index: usize, place: usize) -> Option<&GlobalId>
    ensures { option_map (λ id. id.now) result ≡ constructor_id (block b.now) index place }
{
    let ctor = b.types.get(index)?.ctors.get(place)?;
    Some(&ctor.id)
}

fn refuse_arity(alloc: Global, b: &Block, index: usize, work: &Work) -> Result<(), Stop>
    ensures { Counts no_value result (budget work.now) (refuse_for (shape_cause (block b.now) (bad_arity_at index)) (budget work.now)) }
{
    match b.types.get(index) {
        Some(ty) => Err(bad_arity(alloc, &ty.id)),
        None => Ok(()),
    }
}

fn refuse_constructor(
    alloc: Global,
    b: &Block,
    index: usize,
    place: usize,
    work: &Work,
) -> Result<(), Stop>
    ensures { Counts no_value result (budget work.now) (refuse_for (shape_cause (block b.now) (bad_constructor_at index place)) (budget work.now)) }
{
    match constructor_at(b, index, place) {
        Some(id) => Err(bad_constructor(alloc, id)),
        None => Ok(()),
    }
}

/// Refuses a block that has not its shape.
pub(crate) fn require_shape(alloc: Global, b: &Block, work: &Work) -> Result<(), Stop>
    ensures { Counts no_value result (budget work.now) (refuse_for (option_and_then (shape_cause (block b.now)) (shape_fault (block b.now))) (budget work.now)) }
{
    match shaped(b) {
        Shape::Good => Ok(()),
        Shape::BadArity(index) => refuse_arity(alloc, b, index, work),
        Shape::BadConstructor(index, place) => refuse_constructor(alloc, b, index, place, work),
    }
}

fn refuse_argument(
    alloc: Global,
    id: Option<&GlobalId>,
    argument: u32,
    work: &Work,
) -> Result<(), Stop>
    ensures { Counts no_value result (budget work.now) (refuse_for (option_map (λ id. not_positive id.now argument) id.entry) (budget work.now)) }
{
    match id {
        Some(id) => Err(not_positive(alloc, id, argument)),
        None => Ok(()),
    }
}

/// Refuses a block whose types are not strictly positive.
pub(crate) fn require_positive(alloc: Global, env: &Env, b: &Block, work: &Work) -> Result<(), Stop>
    ensures { Counts no_value result (budget work.now) (refuse_for (option_and_then (positivity_cause (block b.now)) (nested_fault (items env.now) (block b.now))) (budget work.now)) }
{
    match nested(alloc, env, b)? {
        Positivity::Yes => Ok(()),
        Positivity::No { ty, ctor, argument } => refuse_argument(
            alloc,
            constructor_at(b, ty, ctor),
            argument,
            work,
        ),
    }
}
