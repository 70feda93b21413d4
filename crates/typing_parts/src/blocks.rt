//! The type that a match is on, and its block.
ghost use Rattle.cic_rules.specs.Environment.{element, whole_block};
ghost use Rattle.cic_counted.specs.BlockTests.{is_shaped};
ghost use Rattle.cic_counted.specs.Outcome.{global, or_refuse, require, unbound};
ghost use Rattle.cic_env.specs.Declarations.{block, type_declaration};
ghost use Rattle.cic_env.specs.Environments.{items};
ghost use Rattle.cic_env.specs.Readers.{type_in_block};
ghost use Rattle.cic_work.specs.calls.Counting.{Counts, budget, no_value};

use crate::refusals::unbound_id;
use cic_env::{Block, Env, IndType};
use cic_names::GlobalId;
use cic_positivity::{Shape, shaped};
use cic_work::{Stop, Work};
use std::alloc::Global;

/// The whole block of a type, with the place of the type in it.
pub fn whole_block<'e>(
    alloc: Global,
    env: &'e Env,
    id: &GlobalId,
    work: &Work,
) -> Result<(&'e Block, u32), Stop>
    ensures { Counts (λ found. type_in_block (block found.0.now) found.1) result (budget work.now) (or_refuse (whole_block (items env.now) id.now) (unbound (global id.now)) (budget work.now)) }
{
    match env.whole_block(id) {
        Some(found) => Ok(found),
        None => Err(unbound_id(alloc, id)),
    }
}

/// The block is of the right shape.
pub fn require_shape(alloc: Global, id: &GlobalId, b: &Block, work: &Work) -> Result<(), Stop>
    ensures { Counts no_value result (budget work.now) (require (is_shaped (block b.now)) (unbound (global id.now)) (budget work.now)) }
{
    match shaped(b) {
        Shape::Good => Ok(()),
        _ => Err(unbound_id(alloc, id)),
    }
}

/// The type at a place of a block.
pub fn type_in_block<'e>(
    alloc: Global,
    id: &GlobalId,
    b: &'e Block,
    index: u32,
    work: &Work,
) -> Result<&'e IndType, Stop>
    ensures { Counts (λ ty. type_declaration ty.now) result (budget work.now) (or_refuse (element (block b.now).types index) (unbound (global id.now)) (budget work.now)) }
{
    match b.types.get(index as usize) {
        Some(ty) => Ok(ty),
        None => Err(unbound_id(alloc, id)),
    }
}
