//! What counted calls pass on.

ghost use Rattle.std.specs.Prelude.{◌≡◌, ◌≤◌, OnOk, ◌+◌, []};
ghost use Rattle.cic_counted.specs.Outcome.{tick, note};
ghost use Rattle.cic_work.specs.calls.Counting.{Counts, budget, entered, no_value};

use crate::stop::Stop;
use cic_names::{Constraint, Constraints};
use std::alloc::Global;

/// The deepest call that is entered.
const MOST_CALLS: u32 = 2_000;

/// What is left of the budget, the depth of the present call, which is 1 for a call from outside, and the constraints
/// found so far.
#[derive(Drop)]
pub struct Work {
    pub rest: u32,
    pub depth: u32,
    pub found: Constraints,
}

impl Work {
    /// The work of a check with that budget.
    pub fn new(alloc: Global, budget: u32) -> Work
        ensures rest { result.rest ≡ budget }
        ensures depth { result.depth ≡ 1 }
        ensures found { result.found ≡ [] }
    {
        Work {
            rest: budget,
            depth: 1,
            found: Constraints::new(alloc),
        }
    }

    /// One step.
    pub fn step(&mut self) -> Result<(), Stop>
        ensures answer { Counts no_value result (budget self.new) (tick (budget self.old)) }
        ensures depth { self.new.depth ≡ self.old.depth }
        ensures rest { self.new.rest ≤ self.old.rest }
        ensures less { OnOk result (self.new.rest + 1 ≡ self.old.rest) }
    {
        if self.rest == 0 {
            return Err(Stop::Spent);
        }
        self.rest -= 1;
        Ok(())
    }

    /// The entry of a counted call at its depth: one step, where the depth is at most 2,000.
    #[inline(never)]
    pub fn enter(&mut self) -> Result<(), Stop>
        requires { self.old.depth ≤ 2001 }
        ensures answer { Counts no_value result (budget self.new) (entered self.old.depth (budget self.old)) }
        ensures depth { self.new.depth ≡ self.old.depth }
        ensures rest { self.new.rest ≤ self.old.rest }
        ensures within { OnOk result (self.old.depth ≤ 2000) }
    {
        if self.depth > MOST_CALLS {
            return Err(Stop::Deep);
        }
        self.step()
    }

    /// Finds a constraint.
    pub fn note(&mut self, constraint: Constraint) -> Result<(), Stop>
        ensures answer { Counts no_value result (budget self.new) (note constraint (budget self.old)) }
        ensures depth { self.new.depth ≡ self.old.depth }
        ensures rest { self.new.rest ≡ self.old.rest }
    {
        self.found.insert(constraint)?;
        Ok(())
    }
}
