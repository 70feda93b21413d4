//! Which gaps are tried for a constraint that the numbers do not meet, and how much is followed for each.
ghost use Rattle.std.specs.Prelude.{◌≡◌, ◌<◌, ◌≤◌, length, IfOk, IfSome, OnOk};
ghost use Rattle.univ_graph.specs.calls.Boards.{IsSound, at};
ghost use Rattle.univ_graph.specs.calls.Plans.{IsPlanned, Moves};

use crate::board::Board;
use crate::plan::{Attempt, Limits, Shift};
use cic_names::NoMemory;
use std::alloc::Global;
use univ_nodes::{BAND_LIMIT, band_of};

/// How many places and edges are followed before anything else is tried.
pub const FEW: usize = 32;

/// As many as there are.
pub const ALL: usize = usize::MAX;

/// About the square root, and no less than 32.
fn about_root(n: usize) -> usize
    ensures { 32 ≤ result }
{
    match n {
        0..=0x3ff => 32,
        0x400..=0xfff => 64,
        0x1000..=0xffff => 256,
        _ => 1024,
    }
}

impl Board {
    /// Sees that a band follows the one of the number, unless there are as many as may be.
    pub fn grow_bands(&mut self, number: u32) -> Result<(), NoMemory>
        requires { IsSound self.old }
        ensures sound { IsSound self.new }
        ensures edges { self.new.edges.items ≡ self.old.edges.items }
        ensures names { self.new.names ≡ self.old.names }
        ensures numbers { self.new.numbers.items ≡ self.old.numbers.items }
    {
        let count = self.bands.bands.len();
        if band_of(number) + 1 < count || count >= BAND_LIMIT {
            return Ok(());
        }
        self.bands.add()
    }

    /// Tries a band: above its numbers, and then below them.
    fn try_band(
        &self,
        alloc: Global,
        left: usize,
        right: usize,
        band: usize,
        limits: Limits,
    ) -> Result<Attempt, NoMemory>
        requires sound { IsSound self.now }
        requires left { left < length self.now.numbers.items }
        requires right { 1 ≤ at self.now.numbers.items right }
        requires other { left ≡ right → ⊥ }
        ensures { IfOk result (IsPlanned self.now left right) }
    {
        if band == 0 || band >= self.bands.bands.len() {
            return Ok(Attempt::Over);
        }
        let few = Limits {
            down: limits.down,
            up: limits.down,
        };
        let above = self.bands.above(band);
        match self.plan(alloc, left, right, above, false, few)? {
            Attempt::Over => {
                let below = self.bands.below(band);
                self.plan(alloc, left, right, below, true, limits)
            }
            decided => Ok(decided),
        }
    }

    /// Tries to move what is reached from the right place into the next band.
    fn try_next(
        &self,
        alloc: Global,
        left: usize,
        right: usize,
        band: usize,
    ) -> Result<Attempt, NoMemory>
        requires sound { IsSound self.now }
        requires left { left < length self.now.numbers.items }
        requires right { 1 ≤ at self.now.numbers.items right }
        requires other { left ≡ right → ⊥ }
        ensures { IfOk result (IsPlanned self.now left right) }
    {
        let count = self.bands.bands.len();
        if band >= count || band + 1 >= count {
            return Ok(Attempt::Over);
        }
        let limits = Limits { down: ALL, up: ALL };
        let below = self.bands.below(band + 1);
        self.plan(alloc, left, right, below, true, limits)
    }

    /// The first that fits: with few edges, with about the square root of all, or all into the next band.
    fn try_all(&self, alloc: Global, left: usize, right: usize) -> Result<Attempt, NoMemory>
        requires sound { IsSound self.now }
        requires left { left < length self.now.numbers.items }
        requires right { 1 ≤ at self.now.numbers.items right }
        requires other { left ≡ right → ⊥ }
        ensures { IfOk result (IsPlanned self.now left right) }
    {
        let band = band_of(self.numbers[left]);
        let few = Limits { down: FEW, up: FEW };
        match self.try_band(alloc, left, right, band, few)? {
            Attempt::Over => {}
            decided => return Ok(decided),
        }
        let more = Limits {
            down: about_root(self.edges.len()),
            up: ALL,
        };
        match self.try_band(alloc, left, right, band, more)? {
            Attempt::Over => self.try_next(alloc, left, right, band),
            decided => Ok(decided),
        }
    }

    /// What moves for a constraint between two places, if some gap is found for it.
    pub fn shift_for(
        &self,
        alloc: Global,
        left: usize,
        right: usize,
    ) -> Result<Option<Shift>, NoMemory>
        requires sound { IsSound self.now }
        requires left { left < length self.now.numbers.items }
        requires right { 1 ≤ at self.now.numbers.items right }
        ensures { IfOk result (λ s. IfSome s (Moves self.now left right)) }
    {
        if left == right {
            return Ok(None);
        }
        match self.try_all(alloc, left, right)? {
            Attempt::FitsIntoGap(shift) => Ok(Some(shift)),
            Attempt::Met | Attempt::Over => Ok(None),
        }
    }
}
