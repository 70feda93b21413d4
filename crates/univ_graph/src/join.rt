//! Levels that become equal at a number that is there, for a constraint that is not strict: what is reached from its right
//! end gets the number of its left one, or what leads to its left end gets the number of its right one.
ghost use Rattle.std.specs.Prelude.{ℕ, ◌≡◌, ◌+◌, ◌<◌, ◌≤◌, ◌↔◌, ◌^◌, length, Contains, Some, slice_get, IsTrue, IfOk, IfSome};
ghost use Rattle.univ_graph.specs.declared.board.Edge.{Edge};
ghost use Rattle.univ_graph.specs.calls.Boards.{IsSound, at, near};
ghost use Rattle.univ_graph.specs.calls.Joins.{bound_of, moved_end, kept_end, IsBeyond, LeadsBeyond, IsJoin, Joins};

use crate::board::Board;
use crate::search::{Direction, Found};
use cic_names::NoMemory;
use std::alloc::Global;
use univ_nodes::Places;

/// Places that get the number of an end of a constraint: upwards those reached from its right end the number of the left
/// one, else those that lead to its left end the number of the right one.
#[derive(Drop)]
pub struct Join {
    pub up: bool,
    pub places: Places,
}

/// How many places and edges are followed on either side, one after the other, until the smaller side is found.
const LIMITS: [usize; 4] = [1 << 9, 1 << 13, 1 << 17, usize::MAX];

/// The end of a constraint that gets the number of the other one.
fn moved_end(up: bool, left: usize, right: usize) -> usize
    ensures { result ≡ moved_end up left right }
{
    if up { right } else { left }
}

/// The end of a constraint whose number stays.
pub fn kept_end(up: bool, left: usize, right: usize) -> usize
    ensures { result ≡ kept_end up left right }
{
    if up { left } else { right }
}

/// The bound of a search for what has to get a number.
fn bound_of(up: bool, number: u32) -> u32
    requires { number + 1 < 2 ^ 32 }
    ensures { result ≡ bound_of up number }
{
    if up { number } else { number + 1 }
}

fn is_beyond(up: bool, bound: u32, number: u32) -> bool
    ensures { IsTrue result ↔ IsBeyond up bound number }
{
    if up { bound < number } else { number < bound }
}

impl Board {
    /// Whether the edge with a number leads beyond a number, if it is strict.
    fn leads_beyond(&self, k: usize, way: Direction, number: u32) -> bool
        requires sound { IsSound self.now }
        ensures { IsTrue result → (r : Edge) → slice_get self.now.edges.items k ≡ Some r → LeadsBeyond self.now.numbers.items way.up number r }
    {
        let Some(edge) = self.edges.get(k) else {
            return true;
        };
        !edge.tagged.constraint.strict || is_beyond(way.up, number, self.numbers[way.far(edge)])
    }

    /// Whether all edges in a list do so.
    fn all_lead_beyond(&self, edges: &[usize], way: Direction, number: u32) -> bool
        requires sound { IsSound self.now }
        ensures { IsTrue result → (k : ℕ) (r : Edge) → Contains edges.now k → slice_get self.now.edges.items k ≡ Some r → LeadsBeyond self.now.numbers.items way.up number r }
    {
        for k in edges {
            if !self.leads_beyond(*k, way, number) {
                return false;
            }
        }
        true
    }

    /// Whether all edges from places do so.
    fn all_lead_beyond_from(&self, places: &Places, way: Direction, number: u32) -> bool
        requires sound { IsSound self.now }
        ensures { IsTrue result → (k : ℕ) (r : Edge) → slice_get self.now.edges.items k ≡ Some r → Contains places.now (near way.up r) → LeadsBeyond self.now.numbers.items way.up number r }
    {
        for i in 0..places.len() {
            if !self.all_lead_beyond(self.edges_near(places.get(i), way), way, number) {
                return false;
            }
        }
        true
    }

    /// What is gathered from an end of a constraint that is not met and not strict, if it may all get the number of the
    /// other end, and is no more than so many places and edges.
    fn join(
        &self,
        alloc: Global,
        left: usize,
        right: usize,
        up: bool,
        most: usize,
    ) -> Result<Option<Places>, NoMemory>
        requires sound { IsSound self.now }
        requires right { 1 ≤ at self.now.numbers.items right }
        requires not_met { at self.now.numbers.items right < at self.now.numbers.items left }
        ensures { IfOk result (λ l. IfSome l (IsJoin self.now up left right)) }
    {
        let number = self.numbers[kept_end(up, left, right)];
        let way = Direction {
            up,
            bound: bound_of(up, number),
            most,
        };
        let from = moved_end(up, left, right);
        let Found::Gathered(places) = self.gather(alloc, from, way, &Places::new(alloc))? else {
            return Ok(None);
        };
        if !self.all_lead_beyond_from(&places, way, number) {
            return Ok(None);
        }
        Ok(Some(places))
    }

    /// The join of what is reached from the right end, or of what leads to the left one, if it is no more than so many
    /// places and edges.
    pub fn join_within(
        &self,
        alloc: Global,
        left: usize,
        right: usize,
        most: usize,
    ) -> Result<Option<Join>, NoMemory>
        requires sound { IsSound self.now }
        requires left { left < length self.now.numbers.items }
        requires right { 1 ≤ at self.now.numbers.items right }
        ensures { IfOk result (λ j. IfSome j (Joins self.now left right)) }
    {
        if self.numbers[left] <= self.numbers[right] {
            return Ok(None);
        }
        if let Some(places) = self.join(alloc, left, right, true, most)? {
            return Ok(Some(Join { up: true, places }));
        }
        match self.join(alloc, left, right, false, most)? {
            Some(places) => Ok(Some(Join { up: false, places })),
            None => Ok(None),
        }
    }

    /// The join of the smaller side, or about so, however large it is.
    pub fn join_all(
        &self,
        alloc: Global,
        left: usize,
        right: usize,
    ) -> Result<Option<Join>, NoMemory>
        requires sound { IsSound self.now }
        requires left { left < length self.now.numbers.items }
        requires right { 1 ≤ at self.now.numbers.items right }
        ensures { IfOk result (λ j. IfSome j (Joins self.now left right)) }
    {
        for most in LIMITS {
            if let Some(join) = self.join_within(alloc, left, right, most)? {
                return Ok(Some(join));
            }
        }
        Ok(None)
    }
}
