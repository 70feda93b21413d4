//! From a walk that comes back to a cycle: it leaves out what it need not have, and begins at its least level.
ghost use Rattle.std.specs.Prelude.{◌≡◌, ℕ, ◌++◌, ◌<◌, ◌≤◌, true, take, drop, length, IfOk, slice_index_or};
ghost use Rattle.cic_rules.specs.Numbering.{LeftOfNone, DistinctLefts, NoneBelow, IsCycle};
ghost use Rattle.cic_names.specs.declared.level.Level.{Level};
ghost use Rattle.univ_cycles.specs.declared.cycle.Tagged.{Tagged};
ghost use Rattle.univ_cycles.specs.Numbers.{constraints};
ghost use Rattle.univ_cycles.specs.calls.Walks.{has_strict, IsLoopOf, IsClosedAt, IsPartOf, StartsAt};

use crate::cycle::{Cycle, Tagged};
use crate::path::Path;
use cic_names::{Level, NoMemory, level_order};
use std::alloc::Global;

fn has_strict(steps: &[Tagged]) -> bool
    ensures { result ≡ has_strict steps.now }
{
    steps.iter().any(|t| t.constraint.strict)
}

struct Parted {
    kept: Path,
    returned: Vec<Tagged>,
}

/// Parts the steps before the one that begins at the level.
fn part_at(alloc: Global, mut path: Path, level: &Level) -> Result<Parted, NoMemory>
    ensures parts { IfOk result (λ p. p.kept ++ p.returned.items ≡ path) }
    ensures returned { IfOk result (λ p. StartsAt level.now p.returned.items) }
    ensures kept { IfOk result (λ p. LeftOfNone level.now (constraints p.kept)) }
{
    match path.find(level) {
        None => Ok(Parted {
            kept: path,
            returned: Vec::new(alloc),
        }),
        Some(k) => {
            let returned = path.split_off(k)?;
            Ok(Parted {
                kept: path,
                returned,
            })
        }
    }
}

/// A place whose left level is the least.
fn least_place(steps: &[Tagged]) -> usize
    requires { 1 ≤ length steps.now }
    ensures within { result < length steps.now }
    ensures least { (t : Tagged) → NoneBelow (slice_index_or steps.now result t).constraint.left (constraints steps.now) }
{
    let mut place = 0;
    for (i, step) in steps.iter().enumerate() {
        if level_order(&step.constraint.left, &steps[place].constraint.left).is_lt() {
            place = i;
        }
    }
    place
}

/// Leaves out what comes back with no strict constraint, or stops at what comes back with one.
fn without_returns(alloc: Global, start: &Level, walk: &[Tagged]) -> Result<Vec<Tagged>, NoMemory>
    requires closed { IsClosedAt start.now walk.now }
    requires strict { has_strict walk.now ≡ true }
    ensures { IfOk result (λ v. IsLoopOf walk.now v.items) }
{
    let mut path = Path::new(alloc);
    for step in walk {
        let Parted { mut kept, returned } = part_at(alloc, path, &step.constraint.left)?;
        if has_strict(returned.as_slice()) {
            return Ok(returned);
        }
        kept.push(step.clone()?)?;
        path = kept;
    }
    Ok(path.into_steps())
}

/// The same steps from a least level on.
fn from_least(mut steps: Vec<Tagged>) -> Result<Vec<Tagged>, NoMemory>
    requires { 1 ≤ length steps.items }
    ensures { IfOk result (λ v. (k : ℕ) × (k < length steps.items) × (v.items ≡ drop k steps.items ++ take k steps.items) × ((t : Tagged) → NoneBelow (slice_index_or steps.items k t).constraint.left (constraints steps.items))) }
{
    let place = least_place(steps.as_slice());
    let Ok(mut turned) = steps.split_off(place) else {
        return Err(NoMemory);
    };
    match turned.append(&mut steps) {
        Ok(()) => Ok(turned),
        Err(_) => Err(NoMemory),
    }
}

impl Cycle {
    /// The cycle in a walk that begins and ends at a level and has a strict constraint.
    pub fn of_walk(alloc: Global, start: &Level, walk: &[Tagged]) -> Result<Cycle, NoMemory>
        requires closed { IsClosedAt start.now walk.now }
        requires strict { has_strict walk.now ≡ true }
        ensures cycle { IfOk result (λ c. IsCycle (constraints c)) }
        ensures part { IfOk result (λ c. IsPartOf c walk.now) }
    {
        let steps = without_returns(alloc, start, walk)?;
        let steps = from_least(steps)?;
        Ok(Cycle { steps })
    }
}
