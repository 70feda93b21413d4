//! Walks that show a conflict: from a constraint along steps back to its left end.
ghost use Rattle.std.specs.Prelude.{◌≡◌, ℕ, ◌<◌, ◌≤◌, ◌++◌, ◌∷◌, [], length, true, IfOk, IfErr, MatchOption, Some, slice_get};
ghost use Rattle.univ_graph.specs.calls.Boards.{IsSound, IsSpread, IsTied, IsConflictWalk, IsConflictAmong, tagged};
ghost use Rattle.univ_cycles.specs.calls.Places.{level_at};
ghost use Rattle.univ_graph.specs.declared.spread.Step.{Step};
ghost use Rattle.cic_names.specs.declared.level.Level.{Level};
ghost use Rattle.cic_names.specs.declared.level.Level.TheVariants as L;
ghost use Rattle.univ_cycles.specs.declared.cycle.Tag.TheVariants as G;

use crate::board::Board;
use crate::fault::GraphFault;
use crate::spread::{Spread, Step};
use cic_names::{Constraint, Level, LevelName, NoMemory};
use std::alloc::Global;
use univ_cycles::{Cycle, Tag, Tagged};

/// The first step that reaches the place past a strict constraint.
pub fn strict_step(steps: &[Step], place: usize) -> Option<usize>
    ensures { MatchOption result ((j : ℕ) (s : Step) → slice_get steps.now j ≡ Some s → s.place ≡ place → s.strict ≡ true → ⊥) (λ j. (s : Step) × (slice_get steps.now j ≡ Some s) × (s.place ≡ place) × (s.strict ≡ true)) }
{
    for (j, step) in steps.iter().enumerate() {
        if step.place == place && step.strict {
            return Some(j);
        }
    }
    None
}

impl Board {
    /// The walk from the left end of a constraint along it and the steps back to the left end.
    pub fn walk_back(
        &self,
        alloc: Global,
        spread: &Spread,
        found: usize,
        asked: &Tagged,
        left: usize,
        right: usize,
    ) -> Result<Vec<Tagged>, NoMemory>
        requires sound { IsSound self.now }
        requires spread { IsSpread self.now right asked.now.constraint.strict (length spread.now.steps.items) spread.now.marks.items spread.now.steps.items }
        requires left { level_at self.now.names left ≡ Some asked.now.constraint.left }
        requires right { level_at self.now.names right ≡ Some asked.now.constraint.right }
        requires found { (s : Step) × (slice_get spread.now.steps.items found ≡ Some s) × (s.place ≡ left) × (s.strict ≡ true) }
        ensures { IfOk result (λ w. IsConflictWalk asked.now.constraint.left (tagged self.now.edges.items ++ asked.now ∷ []) w.items) }
    {
        let mut back = Vec::new(alloc);
        let mut j = found;
        while j > 0 {
            let step = spread.steps[j];
            if back.push(self.edges[step.edge].tagged.clone()?).is_err() {
                return Err(NoMemory);
            }
            j = step.before;
        }
        if back.push(asked.clone()?).is_err() {
            return Err(NoMemory);
        }
        back.reverse();
        Ok(back)
    }
}

fn above_set(name: &LevelName) -> Result<Tagged, NoMemory>
    ensures { IfOk result (λ t. t ≡ record { constraint = record { left = L.Set; strict = true; right = L.Named name.now }; tag = G.Levels }) }
{
    Ok(Tagged {
        constraint: Constraint {
            left: Level::Set,
            strict: true,
            right: Level::Named(name.clone()?),
        },
        tag: Tag::Levels,
    })
}

fn one_step(alloc: Global, step: Tagged) -> Result<Vec<Tagged>, NoMemory>
    ensures { IfOk result (λ w. w.items ≡ step ∷ []) }
{
    let mut walk = Vec::new(alloc);
    match walk.push(step) {
        Ok(()) => Ok(walk),
        Err(_) => Err(NoMemory),
    }
}

fn two_steps(alloc: Global, first: Tagged, second: Tagged) -> Result<Vec<Tagged>, NoMemory>
    ensures { IfOk result (λ w. w.items ≡ first ∷ second ∷ []) }
{
    let mut walk = one_step(alloc, first)?;
    match walk.push(second) {
        Ok(()) => Ok(walk),
        Err(_) => Err(NoMemory),
    }
}

/// The walk from Set to what is not above Set, and back.
pub fn walk_at_set(alloc: Global, asked: &Tagged) -> Result<Vec<Tagged>, NoMemory>
    requires right { asked.now.constraint.right ≡ L.Set }
    requires strict { asked.now.constraint.left ≡ L.Set → asked.now.constraint.strict ≡ true }
    ensures { IfOk result (λ w. IsConflictWalk L.Set (asked.now ∷ []) w.items) }
{
    match &asked.constraint.left {
        Level::Set => {
            let walk = one_step(alloc, asked.clone()?)?;
            Ok(walk)
        }
        Level::Named(name) => {
            let walk = two_steps(alloc, above_set(name)?, asked.clone()?)?;
            Ok(walk)
        }
    }
}
