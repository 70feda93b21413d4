//! The path that a walk takes, without what it came back from, with a table of the places of its steps.
ghost use Rattle.std.specs.Prelude.{◌≡◌, ℕ, Some, slice_get};
ghost use Rattle.std.specs.HashMap.{get};
ghost use Rattle.univ_cycles.specs.declared.cycle.Tagged.{Tagged};

use crate::cycle::Tagged;
use cic_names::{Level, NoMemory};
use std::alloc::Global;
use std::collections::HashMap;
use std::marker::Model;

/// Steps in order, each from a level of its own. The table has their places by these levels, and may also have places
/// of steps that were taken away.
#[derive(Drop)]
pub struct Path {
    table: HashMap<Level, usize>,
    steps: Vec<Tagged>,
    ghost placed: { (p : ℕ) (t : Tagged) → slice_get steps.items p ≡ Some t → get ⟦<Level as PartialEq>⟧.eq table t.constraint.left ≡ Some p },
}

impl Model for Path {
    ghost use Rattle.std.specs.Prelude.{List};
    ghost use Rattle.univ_cycles.specs.declared.cycle.Tagged.{Tagged};

    ghost Value = { List Tagged };

    ghost view = { λ p. p.steps.items };
}

impl Path {
    ghost use Rattle.std.specs.Prelude.{◌≡◌, ◌∷◌, ◌++◌, [], ◌<◌, ◌≤◌, length, take, drop, MatchOption, IfOk, OnOk};
    ghost use Rattle.cic_rules.specs.Numbering.{LeftOfNone};
    ghost use Rattle.univ_cycles.specs.Numbers.{constraints};
    ghost use Rattle.univ_cycles.specs.calls.Walks.{StartsAt};

    /// No steps.
    pub fn new(alloc: Global) -> Path
        ensures { result ≡ [] }
    {
        Path {
            table: HashMap::new(alloc),
            steps: Vec::new(alloc),
        }
    }

    /// The place of the step that begins at the level.
    pub fn find(&self, level: &Level) -> Option<usize>
        ensures { MatchOption result (LeftOfNone level.now (constraints self.now)) (λ k. (k < length self.now) × StartsAt level.now (drop k self.now) × LeftOfNone level.now (constraints (take k self.now))) }
    {
        let place = *self.table.get(level)?;
        if place < self.steps.len() && self.steps[place].constraint.left == *level {
            Some(place)
        } else {
            None
        }
    }

    /// Adds a step from a level that no step begins at.
    pub fn push(&mut self, step: Tagged) -> Result<(), NoMemory>
        requires { LeftOfNone step.constraint.left (constraints self.old) }
        ensures { OnOk result (self.new ≡ self.old ++ step ∷ []) }
    {
        let key = step.constraint.left.clone()?;
        let place = self.steps.len();
        match self.table.insert(key, place) {
            Ok(_) => match self.steps.push(step) {
                Ok(()) => Ok(()),
                Err(_) => Err(NoMemory),
            },
            Err(_) => Err(NoMemory),
        }
    }

    /// Takes away the steps from a place on, and gives them.
    pub fn split_off(&mut self, place: usize) -> Result<Vec<Tagged>, NoMemory>
        requires { place ≤ length self.old }
        ensures kept { OnOk result (self.new ≡ take place self.old) }
        ensures returned { IfOk result (λ v. v.items ≡ drop place self.old) }
    {
        match self.steps.split_off(place) {
            Ok(returned) => Ok(returned),
            Err(_) => Err(NoMemory),
        }
    }

    /// All steps.
    pub fn into_steps(self) -> Vec<Tagged>
        ensures { result.items ≡ self }
    {
        let Path { table, steps } = self;
        drop(table);
        steps
    }
}
