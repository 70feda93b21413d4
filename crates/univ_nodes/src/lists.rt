//! For each place the edges that have it at one of their ends.
ghost use Rattle.std.specs.Prelude.{ℕ, ◌≡◌, ◌<◌, ◌≤◌, length, Contains, OnOk};
ghost use Rattle.univ_nodes.specs.calls.Numbered.{edges_at};

use memory::NoMemory;
use std::alloc::Global;

/// A list of edges for each place. A list may also have edges that are elsewhere, or nowhere.
#[derive(Drop)]
pub struct EdgeLists {
    pub lists: Vec<Vec<usize>>,
}

impl EdgeLists {
    /// Adds an empty list where there is none behind those of so many places.
    pub fn make_room(&mut self, alloc: Global, places: usize) -> Result<(), NoMemory>
        requires { places ≤ length self.old.lists.items }
        ensures kept { (p k : ℕ) → Contains (edges_at self.old.lists.items p) k → Contains (edges_at self.new.lists.items p) k }
        ensures longer { length self.old.lists.items ≤ length self.new.lists.items }
        ensures room { OnOk result (places < length self.new.lists.items) }
    {
        if self.lists.len() > places {
            return Ok(());
        }
        match self.lists.push(Vec::new(alloc)) {
            Ok(()) => Ok(()),
            Err(_) => Err(NoMemory),
        }
    }

    /// Puts an edge into the list of a place.
    pub fn put(&mut self, place: usize, edge: usize) -> Result<(), NoMemory>
        requires { place < length self.old.lists.items }
        ensures kept { (p k : ℕ) → Contains (edges_at self.old.lists.items p) k → Contains (edges_at self.new.lists.items p) k }
        ensures has { OnOk result (Contains (edges_at self.new.lists.items place) edge) }
        ensures room { length self.new.lists.items ≡ length self.old.lists.items }
    {
        match self.lists[place].push(edge) {
            Ok(()) => Ok(()),
            Err(_) => Err(NoMemory),
        }
    }
}
