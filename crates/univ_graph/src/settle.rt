//! How a constraint is taken, between places that are there: with the numbers as they are, with raised ones, or not at all.
ghost use Rattle.std.specs.Prelude.{◌≡◌, ◌<◌, ◌≤◌, ◌++◌, ◌∷◌, [], length, true, IfOk, IfErr, OnOk, OnErr, Some, List, IsTrue, ◌↔◌, ◌+◌, ◌^◌};
ghost use Rattle.cic_rules.specs.Numbering.{MeetsAt};
ghost use Rattle.cic_names.specs.declared.level.Level.{Level};
ghost use Rattle.univ_graph.specs.Kept.{AreStepsAmong, level_limit};
ghost use Rattle.univ_cycles.specs.calls.Walks.{IsClosedAt, has_strict};
ghost use Rattle.univ_cycles.specs.declared.cycle.Tagged.{Tagged};
ghost use Rattle.univ_cycles.specs.calls.Places.{level_at};
ghost use Rattle.univ_graph.specs.calls.Boards.{IsSound, IsConflictAmong, AreRaised, at, tagged, least_of};
ghost use Rattle.univ_nodes.specs.calls.Bands.{AreClose};

use crate::board::{Board, Edge};
use crate::conflict::{strict_step, walk_at_set};
use crate::fault::GraphFault;
use crate::moving::Strategy;
use cic_names::{Level, NoMemory};
use std::alloc::Global;
use univ_cycles::{Cycle, Tagged};
use univ_nodes::{Bands, close, raise};

fn meets_at(strict: bool, left: u32, right: u32) -> bool
    ensures { IsTrue result ↔ MeetsAt strict left right }
{
    if strict { left < right } else { left <= right }
}

fn least_of(strict: bool, left: u32) -> u32
    requires { left + 1 < 2 ^ 32 }
    ensures { result ≡ least_of strict left }
{
    if strict { left + 1 } else { left }
}

fn conflict_of(alloc: Global, start: &Level, walk: Result<Vec<Tagged>, NoMemory>) -> GraphFault
    requires { IfOk walk (λ w. IsClosedAt start.now w.items × (has_strict w.items ≡ true)) }
    ensures { (all : List Tagged) → IfOk walk (λ w. AreStepsAmong all w.items) → IsConflictAmong all result }
{
    let Ok(walk) = walk else {
        return GraphFault::NoMemory;
    };
    match Cycle::of_walk(alloc, start, &walk) {
        Ok(cycle) => GraphFault::Conflict(cycle),
        Err(_) => GraphFault::NoMemory,
    }
}

impl Board {
    fn raised(
        &self,
        alloc: Global,
        left: usize,
        right: usize,
        asked: &Tagged,
    ) -> Result<Vec<u32>, GraphFault>
        requires sound { IsSound self.now }
        requires left { level_at self.now.names left ≡ Some asked.now.constraint.left }
        requires right { level_at self.now.names right ≡ Some asked.now.constraint.right }
        requires few { length self.now.names + 1 ≤ level_limit }
        requires not_met { MeetsAt asked.now.constraint.strict (at self.now.numbers.items left) (at self.now.numbers.items right) → ⊥ }
        ensures raised { IfOk result (λ v. AreRaised self.now left right asked.now.constraint.strict v.items) }
        ensures close { IfOk result (λ v. AreClose v.items) }
        ensures conflict { IfErr result (IsConflictAmong (tagged self.now.edges.items ++ asked.now ∷ [])) }
    {
        if right == 0 {
            let walk = walk_at_set(alloc, asked);
            return Err(conflict_of(alloc, &Level::Set, walk));
        }
        let strict = asked.constraint.strict;
        let Ok(spread) = self.spread(alloc, right, strict) else {
            return Err(GraphFault::NoMemory);
        };
        if let Some(found) = strict_step(&spread.steps, left) {
            let walk = self.walk_back(alloc, &spread, found, asked, left, right);
            return Err(conflict_of(alloc, &asked.constraint.left, walk));
        }
        let least = least_of(strict, self.numbers[left]);
        let Ok(numbers) = raise(alloc, &self.numbers, &spread.marks, least) else {
            return Err(GraphFault::NoMemory);
        };
        match close(alloc, numbers.as_slice()) {
            Ok(numbers) => Ok(numbers),
            Err(_) => Err(GraphFault::NoMemory),
        }
    }

    fn put(&mut self, left: usize, right: usize, asked: Tagged) -> Result<(), NoMemory>
        requires sound { IsSound self.old }
        requires left { level_at self.old.names left ≡ Some asked.constraint.left }
        requires right { level_at self.old.names right ≡ Some asked.constraint.right }
        requires met { MeetsAt asked.constraint.strict (at self.old.numbers.items left) (at self.old.numbers.items right) }
        ensures sound { IsSound self.new }
        ensures names { self.new.names ≡ self.old.names }
        ensures taken { OnOk result (tagged self.new.edges.items ≡ tagged self.old.edges.items ++ asked ∷ []) }
        ensures edges { OnErr result (self.new.edges.items ≡ self.old.edges.items) }
        ensures numbers { self.new.numbers.items ≡ self.old.numbers.items }
    {
        let edge = Edge {
            left,
            right,
            tagged: asked,
        };
        self.append(edge)
    }

    fn put_raised(
        &mut self,
        alloc: Global,
        left: usize,
        right: usize,
        asked: Tagged,
        numbers: Vec<u32>,
    ) -> Result<(), NoMemory>
        requires sound { IsSound self.old }
        requires left { level_at self.old.names left ≡ Some asked.constraint.left }
        requires right { level_at self.old.names right ≡ Some asked.constraint.right }
        requires raised { AreRaised self.old left right asked.constraint.strict numbers.items }
        requires close { AreClose numbers.items }
        ensures sound { IsSound self.new }
        ensures names { self.new.names ≡ self.old.names }
        ensures taken { OnOk result (tagged self.new.edges.items ≡ tagged self.old.edges.items ++ asked ∷ []) }
        ensures edges { OnErr result (self.new.edges.items ≡ self.old.edges.items) }
        ensures numbers { OnErr result (self.new.numbers.items ≡ self.old.numbers.items) }
    {
        let bands = Bands::of_close(alloc)?;
        let edge = Edge {
            left,
            right,
            tagged: asked,
        };
        self.append(edge)?;
        self.numbers = numbers;
        self.bands = bands;
        Ok(())
    }

    fn settle_plainly(
        &mut self,
        alloc: Global,
        left: usize,
        right: usize,
        asked: Tagged,
    ) -> Result<(), GraphFault>
        requires sound { IsSound self.old }
        requires left { level_at self.old.names left ≡ Some asked.constraint.left }
        requires right { level_at self.old.names right ≡ Some asked.constraint.right }
        requires few { length self.old.names + 1 ≤ level_limit }
        requires not_met { MeetsAt asked.constraint.strict (at self.old.numbers.items left) (at self.old.numbers.items right) → ⊥ }
        ensures sound { IsSound self.new }
        ensures names { self.new.names ≡ self.old.names }
        ensures taken { OnOk result (tagged self.new.edges.items ≡ tagged self.old.edges.items ++ asked ∷ []) }
        ensures edges { OnErr result (self.new.edges.items ≡ self.old.edges.items) }
        ensures numbers { OnErr result (self.new.numbers.items ≡ self.old.numbers.items) }
        ensures conflict { IfErr result (IsConflictAmong (tagged self.old.edges.items ++ asked ∷ [])) }
    {
        let numbers = self.raised(alloc, left, right, &asked)?;
        match self.put_raised(alloc, left, right, asked, numbers) {
            Ok(()) => Ok(()),
            Err(_) => Err(GraphFault::NoMemory),
        }
    }

    /// Takes a constraint between places.
    pub fn settle(
        &mut self,
        alloc: Global,
        left: usize,
        right: usize,
        asked: Tagged,
        strategy: Strategy,
    ) -> Result<(), GraphFault>
        requires sound { IsSound self.old }
        requires left { level_at self.old.names left ≡ Some asked.constraint.left }
        requires right { level_at self.old.names right ≡ Some asked.constraint.right }
        requires few { length self.old.names + 1 ≤ level_limit }
        ensures sound { IsSound self.new }
        ensures names { self.new.names ≡ self.old.names }
        ensures taken { OnOk result (tagged self.new.edges.items ≡ tagged self.old.edges.items ++ asked ∷ []) }
        ensures edges { OnErr result (self.new.edges.items ≡ self.old.edges.items) }
        ensures numbers { OnErr result (self.new.numbers.items ≡ self.old.numbers.items) }
        ensures conflict { IfErr result (IsConflictAmong (tagged self.old.edges.items ++ asked ∷ [])) }
    {
        let (n, m) = (self.numbers[left], self.numbers[right]);
        if meets_at(asked.constraint.strict, n, m) {
            return match self.put(left, right, asked) {
                Ok(()) => Ok(()),
                Err(_) => Err(GraphFault::NoMemory),
            };
        }
        let strict = asked.constraint.strict;
        let Ok(found) = self.renumbering(alloc, left, right, strict, strategy) else {
            return Err(GraphFault::NoMemory);
        };
        let Some(found) = found else {
            return self.settle_plainly(alloc, left, right, asked);
        };
        match self.put_renumbered(left, right, asked, &found) {
            Ok(()) => Ok(()),
            Err(_) => Err(GraphFault::NoMemory),
        }
    }
}
