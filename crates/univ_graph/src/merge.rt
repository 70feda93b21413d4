//! Levels that become equal in a gap for a constraint that is not strict.
ghost use Rattle.std.specs.Prelude.{ℕ, ◌≡◌, ◌+◌, ◌<◌, ◌≤◌, length, Contains, Some, slice_get, IsTrue, IfOk, IfSome, OnOk};
ghost use Rattle.univ_graph.specs.declared.board.Edge.{Edge};
ghost use Rattle.univ_nodes.specs.calls.PlaceSets.{IsFront};
ghost use Rattle.univ_nodes.specs.calls.Bands.{IsGap};
ghost use Rattle.univ_graph.specs.calls.Boards.{IsSound, at, number_bound};
ghost use Rattle.univ_graph.specs.calls.Merges.{IsMergedAlong, IsMerging, IsMerged, AreOthers, FitsMerge, Merges};

use crate::board::Board;
use crate::search::{Direction, Found};
use cic_names::NoMemory;
use std::alloc::Global;
use univ_nodes::{Gap, Places};

/// New numbers in a gap: the low end for all of `merged`, and those behind it for `others`, in the order of their ranks.
#[derive(Drop)]
pub struct Merge {
    pub gap: Gap,
    pub merged: Places,
    pub others: Places,
    pub ranks: Vec<u32>,
}

/// All downwards.
const BACK: Direction = Direction {
    up: false,
    bound: 0,
    most: usize::MAX,
};

/// Those of the places that are not merged.
fn others_of(alloc: Global, reached: &Places, merged: &Places) -> Result<Places, NoMemory>
    ensures { IfOk result (λ others. AreOthers reached.now merged.now others) }
{
    let mut others = Places::new(alloc);
    for i in 0..reached.len() {
        let place = reached.get(i);
        if !merged.contains(place) {
            others.insert(place)?;
        }
    }
    Ok(others)
}

impl Board {
    /// Goes back along the edge with a number, where its right end is at a merged place and its left end is reached. False
    /// where it is strict.
    fn merge_along_edge(
        &self,
        merged: &mut Places,
        place: usize,
        k: usize,
        reached: &Places,
        done: usize,
    ) -> Result<bool, NoMemory>
        requires merging { IsMerging self.now reached.now merged.old done }
        ensures merging { OnOk result (IsMerging self.now reached.now merged.new done) }
        ensures front { OnOk result (IsFront merged.old merged.new) }
        ensures along { IfOk result (λ on. IsTrue on → (r : Edge) → slice_get self.now.edges.items k ≡ Some r → r.right ≡ place → IsMergedAlong reached.now merged.new r) }
    {
        let Some(edge) = self.edges.get(k) else {
            return Ok(true);
        };
        if edge.right != place || !reached.contains(edge.left) {
            return Ok(true);
        }
        if edge.tagged.constraint.strict {
            return Ok(false);
        }
        merged.insert(edge.left)?;
        Ok(true)
    }

    /// Goes back along all edges to one of the merged places. False where one of them is strict.
    fn merge_from(
        &self,
        merged: &mut Places,
        i: usize,
        edges: &[usize],
        reached: &Places,
    ) -> Result<bool, NoMemory>
        requires merging { IsMerging self.now reached.now merged.old i }
        requires within { i < length merged.old }
        requires listed { (p k : ℕ) (r : Edge) → slice_get merged.old i ≡ Some p → slice_get self.now.edges.items k ≡ Some r → r.right ≡ p → Contains edges.now k }
        ensures merging { IfOk result (λ on. IsTrue on → IsMerging self.now reached.now merged.new (i + 1)) }
        ensures front { OnOk result (IsFront merged.old merged.new) }
    {
        let place = merged.get(i);
        for k in edges {
            if !self.merge_along_edge(merged, place, *k, reached, i)? {
                return Ok(false);
            }
        }
        Ok(true)
    }

    /// What leads to the left place within what is reached, if it does along no strict edge.
    fn merged_with(
        &self,
        alloc: Global,
        left: usize,
        reached: &Places,
    ) -> Result<Option<Places>, NoMemory>
        requires sound { IsSound self.now }
        requires left { Contains reached.now left }
        ensures has { IfOk result (λ m. IfSome m (λ merged. Contains merged left)) }
        ensures merged { IfOk result (λ m. IfSome m (IsMerged self.now reached.now)) }
    {
        let mut merged = Places::new(alloc);
        merged.insert(left)?;
        let mut open = BACK.most;
        let mut i = 0;
        while i < merged.len() {
            let edges = self.edges_near(merged.get(i), BACK);
            if open <= edges.len() {
                return Ok(None);
            }
            open -= edges.len() + 1;
            if !self.merge_from(&mut merged, i, edges, reached)? {
                return Ok(None);
            }
            i += 1;
        }
        Ok(Some(merged))
    }

    /// The merge of places in the lower end of the gap, where there is room.
    fn fit_merge(
        &self,
        alloc: Global,
        gap: Gap,
        reached: &Places,
        merged: Places,
    ) -> Result<Option<Merge>, NoMemory>
        requires reached { (p : ℕ) → Contains reached.now p → p < length self.now.numbers.items }
        requires order { gap.low ≤ gap.high }
        requires bounded { gap.high ≤ number_bound }
        ensures { IfOk result (λ m. IfSome m (FitsMerge self.now.numbers.items gap reached.now merged)) }
    {
        let others = others_of(alloc, reached, &merged)?;
        let room = (gap.high - gap.low) as usize;
        if others.len() >= room || others.len() + 2 > room {
            return Ok(None);
        }
        let gap = Gap {
            band: gap.band,
            low: gap.low,
            high: gap.low + others.len() as u32 + 2,
        };
        let ranks = self.ranks_at(alloc, &others)?;
        Ok(Some(Merge {
            gap,
            merged,
            others,
            ranks,
        }))
    }

    /// What becomes equal for a constraint between two places that is not strict, if a gap has room.
    pub fn merge_within(
        &self,
        alloc: Global,
        left: usize,
        right: usize,
        gap: Gap,
    ) -> Result<Option<Merge>, NoMemory>
        requires sound { IsSound self.now }
        requires right { 1 ≤ at self.now.numbers.items right }
        requires gap { IsGap self.now.bands.bands.items gap }
        ensures { IfOk result (λ m. IfSome m (Merges self.now left right)) }
    {
        if self.numbers[right] >= gap.high {
            return Ok(None);
        }
        let way = Direction {
            up: true,
            bound: gap.high,
            most: usize::MAX,
        };
        let Found::Gathered(reached) = self.gather(alloc, right, way, &Places::new(alloc))? else {
            return Ok(None);
        };
        if !reached.contains(left) {
            return Ok(None);
        }
        let Some(merged) = self.merged_with(alloc, left, &reached)? else {
            return Ok(None);
        };
        if !merged.contains(right) {
            return Ok(None);
        }
        self.fit_merge(alloc, gap, &reached, merged)
    }
}
