//! Numbers that are moved into a gap, so that a constraint is met with few new numbers.
ghost use Rattle.std.specs.Prelude.{ℕ, ◌≡◌, ◌+◌, ◌<◌, ◌≤◌, ◌^◌, [], length, Contains, IfOk};
ghost use Rattle.univ_graph.specs.calls.Boards.{at, number_bound};
ghost use Rattle.univ_graph.specs.calls.Moves.{AreRanked, AreWritten};

use crate::board::Board;
use cic_names::NoMemory;
use std::alloc::Global;
use univ_nodes::{Places, ranks};

impl Board {
    /// For each of the places how many of them have a lesser number.
    pub fn ranks_at(&self, alloc: Global, places: &Places) -> Result<Vec<u32>, NoMemory>
        requires within { (p : ℕ) → Contains places.now p → p < length self.now.numbers.items }
        requires few { length places.now ≤ number_bound }
        ensures { IfOk result (λ v. AreRanked self.now.numbers.items places.now v.items) }
    {
        let mut numbers = Vec::new(alloc);
        for i in 0..places.len() {
            if numbers.push(self.numbers[places.get(i)]).is_err() {
                return Err(NoMemory);
            }
        }
        ranks(alloc, numbers.as_slice())
    }
}

/// Gives places their ranks above a base as numbers.
pub fn write(numbers: &mut Vec<u32>, places: &Places, ranks: &[u32], base: u32)
    requires lengths { length ranks.now ≡ length places.now }
    requires within { (p : ℕ) → Contains places.now p → p < length numbers.old.items }
    requires bounded { (i : ℕ) → at ranks.now i ≤ length places.now }
    requires small { base + length places.now < 2 ^ 32 }
    ensures { AreWritten numbers.old.items numbers.new.items places.now ranks.now base }
{
    for i in 0..places.len() {
        numbers[places.get(i)] = base + ranks[i];
    }
}

/// Gives places all one number.
pub fn write_same(numbers: &mut Vec<u32>, places: &Places, number: u32)
    requires within { (p : ℕ) → Contains places.now p → p < length numbers.old.items }
    ensures { AreWritten numbers.old.items numbers.new.items places.now [] number }
{
    for i in 0..places.len() {
        numbers[places.get(i)] = number;
    }
}
