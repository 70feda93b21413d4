//! How a constraint is taken with its levels, or all is put back.
ghost use Rattle.std.specs.Prelude.{◌≡◌, ◌+◌, ◌≤◌, ◌++◌, ◌∷◌, [], length, OnOk, OnErr, IfErr};
ghost use Rattle.univ_graph.specs.Kept.{Answers, with_ends, level_limit};
ghost use Rattle.univ_nodes.specs.calls.PlaceSets.{IsFront};
ghost use Rattle.univ_cycles.specs.calls.Places.{count_one};
ghost use Rattle.univ_graph.specs.calls.Boards.{IsSound, IsWhole, IsConflictAmong, kept, tagged};

use crate::board::Board;
use crate::fault::GraphFault;
use crate::moving::Strategy;
use cic_names::Constraint;
use std::alloc::Global;
use univ_cycles::{Tag, Tagged};

/// The greatest number of levels, Set among them.
const LEVEL_LIMIT: u32 = 1 << 20;

fn count_one(place: Option<usize>) -> u32
    ensures value { result ≡ count_one place }
    ensures small { result ≤ 1 }
{
    match place {
        None => 1,
        Some(_) => 0,
    }
}

impl Board {
    fn try_take(
        &mut self,
        alloc: Global,
        asked: Tagged,
        strategy: Strategy,
    ) -> Result<(), GraphFault>
        requires sound { IsSound self.old }
        requires few { length (with_ends self.old.names asked.constraint) + 1 ≤ level_limit }
        ensures sound { IsSound self.new }
        ensures names { OnOk result (self.new.names ≡ with_ends self.old.names asked.constraint) }
        ensures taken { OnOk result (tagged self.new.edges.items ≡ tagged self.old.edges.items ++ asked ∷ []) }
        ensures front { OnErr result (IsFront self.old.names self.new.names) }
        ensures numbers { OnErr result (IsFront self.old.numbers.items self.new.numbers.items) }
        ensures edges { OnErr result (self.new.edges.items ≡ self.old.edges.items) }
        ensures conflict { IfErr result (IsConflictAmong (tagged self.old.edges.items ++ asked ∷ [])) }
    {
        let Ok(left) = self.intern(alloc, &asked.constraint.left) else {
            return Err(GraphFault::NoMemory);
        };
        let Ok(right) = self.intern(alloc, &asked.constraint.right) else {
            return Err(GraphFault::NoMemory);
        };
        self.settle(alloc, left, right, asked, strategy)
    }

    /// Takes a constraint with its levels, or is as before.
    pub fn take(
        &mut self,
        alloc: Global,
        asked: Tagged,
        strategy: Strategy,
    ) -> Result<(), GraphFault>
        requires sound { IsSound self.old }
        requires few { length (with_ends self.old.names asked.constraint) + 1 ≤ level_limit }
        ensures sound { IsSound self.new }
        ensures names { OnOk result (self.new.names ≡ with_ends self.old.names asked.constraint) }
        ensures taken { OnOk result (tagged self.new.edges.items ≡ tagged self.old.edges.items ++ asked ∷ []) }
        ensures same_names { OnErr result (self.new.names ≡ self.old.names) }
        ensures same_edges { OnErr result (self.new.edges.items ≡ self.old.edges.items) }
        ensures same { OnErr result (kept self.new ≡ kept self.old) }
        ensures conflict { IfErr result (IsConflictAmong (tagged self.old.edges.items ++ asked ∷ [])) }
    {
        let known = self.names.names().len();
        match self.try_take(alloc, asked, strategy) {
            Ok(()) => Ok(()),
            Err(fault) => {
                self.names.truncate(known);
                self.numbers.truncate(known + 1);
                Err(fault)
            }
        }
    }

    /// How many levels there would be with the ends of a constraint.
    pub fn levels_with(&self, constraint: &Constraint) -> u32
        requires few { length self.now.names + 1 ≤ level_limit }
        ensures { result ≡ length (with_ends self.now.names constraint.now) + 1 }
    {
        let known = self.names.names().len() as u32 + 1;
        let left = count_one(self.place_of(&constraint.left));
        if constraint.left == constraint.right {
            return known + left;
        }
        known + left + count_one(self.place_of(&constraint.right))
    }

    /// Takes a constraint where a numbering meets all that was enforced and it, and the levels are at most 2^20.
    pub fn enforce(
        &mut self,
        alloc: Global,
        constraint: &Constraint,
        tag: Tag,
        strategy: Strategy,
    ) -> Result<(), GraphFault>
        requires { IsWhole self.old }
        ensures whole { IsWhole self.new }
        ensures answer { Answers (kept self.old) (kept self.new) (record { constraint = constraint.now; tag = tag }) result }
    {
        let levels = self.levels_with(constraint);
        if levels > LEVEL_LIMIT {
            return Err(GraphFault::Limit(levels));
        }
        let Ok(constraint) = constraint.clone() else {
            return Err(GraphFault::NoMemory);
        };
        self.take(alloc, Tagged { constraint, tag }, strategy)
    }
}
