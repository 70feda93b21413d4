//! Sets of places, in the order in which they come.
use indexmap::IndexSet;
use memory::NoMemory;
use std::alloc::Global;
use std::marker::Model;

/// Places, each once.
#[derive(Drop)]
pub struct Places {
    set: IndexSet<usize>,
}

impl Model for Places {
    ghost use Rattle.std.specs.Prelude.{List, ℕ};

    ghost Value = { List ℕ };

    ghost view = { λ p. p.set.keys };
}

impl Places {
    ghost use Rattle.std.specs.Prelude.{◌≡◌, ℕ, ◌<◌, ◌⊎◌, ◌↔◌, IsTrue, length, Some, slice_get, [], Contains, OnOk, OnErr};
    ghost use Rattle.univ_nodes.specs.calls.PlaceSets.{IsFront, AreApart};

    /// No places.
    pub fn new(alloc: Global) -> Places
        ensures { result ≡ [] }
    {
        Places {
            set: IndexSet::new(alloc),
        }
    }

    /// How many there are.
    pub fn len(&self) -> usize
        ensures value { result ≡ length self.now }
        ensures apart { AreApart self.now }
    {
        self.set.len()
    }

    /// Whether a place is among them.
    pub fn contains(&self, place: usize) -> bool
        ensures { IsTrue result ↔ Contains self.now place }
    {
        self.set.contains(&place)
    }

    /// The place with this number, counted from 0.
    pub fn get(&self, i: usize) -> usize
        requires { i < length self.now }
        ensures { slice_get self.now i ≡ Some result }
    {
        self.set.as_slice()[i]
    }

    /// Adds a place, unless it is there.
    pub fn insert(&mut self, place: usize) -> Result<(), NoMemory>
        ensures has { OnOk result (Contains self.new place) }
        ensures only { OnOk result ((p : ℕ) → Contains self.new p → Contains self.old p ⊎ (p ≡ place)) }
        ensures front { IsFront self.old self.new }
        ensures same { OnErr result (self.new ≡ self.old) }
    {
        match self.set.insert(place) {
            Ok(_) => Ok(()),
            Err(_) => Err(NoMemory),
        }
    }
}
