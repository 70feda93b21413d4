//! A constraint that the numbers do not meet is taken with a few new numbers, where they are found.
ghost use Rattle.std.specs.Prelude.{◌≡◌, ◌++◌, ◌∷◌, [], ◌<◌, ◌≤◌, length, false, Some, OnOk, OnErr, IfOk, IfSome};
ghost use Rattle.univ_cycles.specs.calls.Places.{level_at};
ghost use Rattle.univ_graph.specs.calls.Boards.{IsSound, at, tagged};
ghost use Rattle.univ_graph.specs.calls.Plans.{Moves};
ghost use Rattle.univ_graph.specs.calls.Merges.{Merges, Renumbers};
ghost use Rattle.univ_graph.specs.calls.Joins.{Joins};

use crate::board::{Board, Edge};
use crate::choose::FEW;
use crate::join::{Join, kept_end};
use crate::merge::Merge;
use crate::plan::Shift;
use crate::search::edges_at;
use crate::shift::{write, write_same};
use cic_names::NoMemory;
use std::alloc::Global;
use univ_cycles::Tagged;
use univ_nodes::band_of;

/// How numbers are found for a constraint that the kept ones do not meet.
#[derive(Clone, Copy)]
pub enum Strategy {
    /// In a gap, where one is found.
    InGaps,
    /// By raising all that is reached.
    Plainly,
}

/// New numbers, with which a constraint is met.
#[derive(Drop)]
pub enum Renumbering {
    /// Those of places on both sides move into a gap.
    Shifted(Shift),
    /// Places get the number of one end.
    Joined(Join),
    /// Places become equal in a gap.
    Merged(Merge),
}

impl Board {
    /// What moves into a gap for a constraint between two places, if one is found for it.
    fn shift_in(
        &mut self,
        alloc: Global,
        left: usize,
        right: usize,
    ) -> Result<Option<Shift>, NoMemory>
        requires sound { IsSound self.old }
        requires left { left < length self.old.numbers.items }
        requires right { 1 ≤ at self.old.numbers.items right }
        ensures sound { IsSound self.new }
        ensures names { self.new.names ≡ self.old.names }
        ensures edges { self.new.edges.items ≡ self.old.edges.items }
        ensures numbers { self.new.numbers.items ≡ self.old.numbers.items }
        ensures moves { IfOk result (λ s. IfSome s (Moves self.new left right)) }
    {
        let number = self.numbers[left];
        self.grow_bands(number)?;
        self.shift_for(alloc, left, right)
    }

    /// What becomes equal in a gap for a constraint between two places that is not strict, if there is room for it.
    fn merge_in(&self, alloc: Global, left: usize, right: usize) -> Result<Option<Merge>, NoMemory>
        requires sound { IsSound self.now }
        requires left { left < length self.now.numbers.items }
        requires right { 1 ≤ at self.now.numbers.items right }
        ensures { IfOk result (λ m. IfSome m (Merges self.now left right)) }
    {
        let band = band_of(self.numbers[left]);
        let gap = self.bands.above(band);
        self.merge_within(alloc, left, right, gap)
    }

    /// New numbers by which levels become equal, however many.
    fn equalize(
        &self,
        alloc: Global,
        left: usize,
        right: usize,
    ) -> Result<Option<Renumbering>, NoMemory>
        requires sound { IsSound self.now }
        requires left { left < length self.now.numbers.items }
        requires right { 1 ≤ at self.now.numbers.items right }
        ensures { IfOk result (λ n. IfSome n (Renumbers self.now left right false)) }
    {
        if let Some(join) = self.join_all(alloc, left, right)? {
            return Ok(Some(Renumbering::Joined(join)));
        }
        match self.merge_in(alloc, left, right)? {
            Some(merge) => Ok(Some(Renumbering::Merged(merge))),
            None => Ok(None),
        }
    }

    /// Whether no edge has the place at an end.
    fn is_new(&self, place: usize) -> bool {
        edges_at(&self.outgoing, place).is_empty() && edges_at(&self.incoming, place).is_empty()
    }

    /// Few places that become equal for a constraint that is not strict. Where its right end is new there are none, so that
    /// it moves into a gap.
    fn few_joined(&self, alloc: Global, left: usize, right: usize) -> Result<Option<Join>, NoMemory>
        requires sound { IsSound self.now }
        requires left { left < length self.now.numbers.items }
        requires right { 1 ≤ at self.now.numbers.items right }
        ensures { IfOk result (λ j. IfSome j (Joins self.now left right)) }
    {
        if self.is_new(right) {
            return Ok(None);
        }
        self.join_within(alloc, left, right, FEW)
    }

    /// New numbers for a constraint between two places that is not strict: the first that are found, with few places that
    /// become equal, in a gap, or with however many become equal.
    fn renumbering_of_loose(
        &mut self,
        alloc: Global,
        left: usize,
        right: usize,
    ) -> Result<Option<Renumbering>, NoMemory>
        requires sound { IsSound self.old }
        requires left { left < length self.old.numbers.items }
        requires right { 1 ≤ at self.old.numbers.items right }
        ensures sound { IsSound self.new }
        ensures names { self.new.names ≡ self.old.names }
        ensures edges { self.new.edges.items ≡ self.old.edges.items }
        ensures numbers { self.new.numbers.items ≡ self.old.numbers.items }
        ensures found { IfOk result (λ n. IfSome n (Renumbers self.new left right false)) }
    {
        if let Some(join) = self.few_joined(alloc, left, right)? {
            return Ok(Some(Renumbering::Joined(join)));
        }
        match self.shift_in(alloc, left, right)? {
            Some(shift) => Ok(Some(Renumbering::Shifted(shift))),
            None => self.equalize(alloc, left, right),
        }
    }

    /// New numbers for a constraint between two places, if they are not to be found plainly, and some are found.
    pub fn renumbering(
        &mut self,
        alloc: Global,
        left: usize,
        right: usize,
        strict: bool,
        strategy: Strategy,
    ) -> Result<Option<Renumbering>, NoMemory>
        requires sound { IsSound self.old }
        requires left { left < length self.old.numbers.items }
        requires right { right < length self.old.numbers.items }
        ensures sound { IsSound self.new }
        ensures names { self.new.names ≡ self.old.names }
        ensures edges { self.new.edges.items ≡ self.old.edges.items }
        ensures numbers { self.new.numbers.items ≡ self.old.numbers.items }
        ensures found { IfOk result (λ n. IfSome n (Renumbers self.new left right strict)) }
    {
        if right == 0 || matches!(strategy, Strategy::Plainly) {
            return Ok(None);
        }
        if !strict {
            return self.renumbering_of_loose(alloc, left, right);
        }
        match self.shift_in(alloc, left, right)? {
            Some(shift) => Ok(Some(Renumbering::Shifted(shift))),
            None => Ok(None),
        }
    }

    /// Puts an edge behind the others, and moves the numbers.
    fn put_shifted(
        &mut self,
        left: usize,
        right: usize,
        asked: Tagged,
        shift: &Shift,
    ) -> Result<(), NoMemory>
        requires sound { IsSound self.old }
        requires left { level_at self.old.names left ≡ Some asked.constraint.left }
        requires right { level_at self.old.names right ≡ Some asked.constraint.right }
        requires moves { Moves self.old left right shift.now }
        ensures sound { IsSound self.new }
        ensures names { self.new.names ≡ self.old.names }
        ensures taken { OnOk result (tagged self.new.edges.items ≡ tagged self.old.edges.items ++ asked ∷ []) }
        ensures edges { OnErr result (self.new.edges.items ≡ self.old.edges.items) }
        ensures numbers { OnErr result (self.new.numbers.items ≡ self.old.numbers.items) }
    {
        self.append(Edge {
            left,
            right,
            tagged: asked,
        })?;
        let gap = &shift.gap;
        write(&mut self.numbers, &shift.down, &shift.down_ranks, gap.low);
        write(&mut self.numbers, &shift.up, &shift.up_ranks, shift.middle);
        self.bands.cover(gap);
        Ok(())
    }

    /// Puts an edge that is not strict behind the others, and gives what is merged one number.
    fn put_merged(
        &mut self,
        left: usize,
        right: usize,
        asked: Tagged,
        merge: &Merge,
    ) -> Result<(), NoMemory>
        requires sound { IsSound self.old }
        requires left { level_at self.old.names left ≡ Some asked.constraint.left }
        requires right { level_at self.old.names right ≡ Some asked.constraint.right }
        requires plain { asked.constraint.strict ≡ false }
        requires merges { Merges self.old left right merge.now }
        ensures sound { IsSound self.new }
        ensures names { self.new.names ≡ self.old.names }
        ensures taken { OnOk result (tagged self.new.edges.items ≡ tagged self.old.edges.items ++ asked ∷ []) }
        ensures edges { OnErr result (self.new.edges.items ≡ self.old.edges.items) }
        ensures numbers { OnErr result (self.new.numbers.items ≡ self.old.numbers.items) }
    {
        self.append(Edge {
            left,
            right,
            tagged: asked,
        })?;
        let gap = &merge.gap;
        write_same(&mut self.numbers, &merge.merged, gap.low);
        write(&mut self.numbers, &merge.others, &merge.ranks, gap.low + 1);
        self.bands.cover(gap);
        Ok(())
    }

    /// Puts an edge that is not strict behind the others, and gives what is joined the number of one of its ends.
    fn put_joined(
        &mut self,
        left: usize,
        right: usize,
        asked: Tagged,
        join: &Join,
    ) -> Result<(), NoMemory>
        requires sound { IsSound self.old }
        requires left { level_at self.old.names left ≡ Some asked.constraint.left }
        requires right { level_at self.old.names right ≡ Some asked.constraint.right }
        requires plain { asked.constraint.strict ≡ false }
        requires joins { Joins self.old left right join.now }
        ensures sound { IsSound self.new }
        ensures names { self.new.names ≡ self.old.names }
        ensures taken { OnOk result (tagged self.new.edges.items ≡ tagged self.old.edges.items ++ asked ∷ []) }
        ensures edges { OnErr result (self.new.edges.items ≡ self.old.edges.items) }
        ensures numbers { OnErr result (self.new.numbers.items ≡ self.old.numbers.items) }
    {
        let number = self.numbers[kept_end(join.up, left, right)];
        self.append(Edge {
            left,
            right,
            tagged: asked,
        })?;
        write_same(&mut self.numbers, &join.places, number);
        Ok(())
    }

    /// Puts an edge behind the others, with new numbers.
    pub fn put_renumbered(
        &mut self,
        left: usize,
        right: usize,
        asked: Tagged,
        found: &Renumbering,
    ) -> Result<(), NoMemory>
        requires sound { IsSound self.old }
        requires left { level_at self.old.names left ≡ Some asked.constraint.left }
        requires right { level_at self.old.names right ≡ Some asked.constraint.right }
        requires found { Renumbers self.old left right asked.constraint.strict found.now }
        ensures sound { IsSound self.new }
        ensures names { self.new.names ≡ self.old.names }
        ensures taken { OnOk result (tagged self.new.edges.items ≡ tagged self.old.edges.items ++ asked ∷ []) }
        ensures edges { OnErr result (self.new.edges.items ≡ self.old.edges.items) }
        ensures numbers { OnErr result (self.new.numbers.items ≡ self.old.numbers.items) }
    {
        match found {
            Renumbering::Shifted(shift) => self.put_shifted(left, right, asked, shift),
            Renumbering::Joined(join) => self.put_joined(left, right, asked, join),
            Renumbering::Merged(merge) => self.put_merged(left, right, asked, merge),
        }
    }
}
