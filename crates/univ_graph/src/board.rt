//! The parts of a graph: the names of its levels, their numbers, and constraints as edges between places. Set has place 0.
ghost use Rattle.std.specs.Prelude.{◌≡◌, ◌∷◌, ◌++◌, [], ◌≤◌, ◌<◌, length, true, false, Some, MatchOption, OnOk, OnErr, IfOk, slice_get};
ghost use Rattle.cic_names.specs.declared.level.Level.{Level};
ghost use Rattle.univ_cycles.specs.calls.Places.{IsAbsent, IsAbsentLevel, level_at};
ghost use Rattle.univ_nodes.specs.calls.PlaceSets.{IsFront};
ghost use Rattle.univ_graph.specs.Kept.{with_name, with_level};
ghost use Rattle.univ_graph.specs.calls.Boards.{IsSound, IsWhole, AreListed, kept};

use cic_names::{Level, LevelName, NoMemory};
use std::alloc::Global;
use univ_cycles::{Names, Tagged};
use univ_nodes::{Bands, EdgeLists};

/// A constraint and the places of its ends.
#[derive(Drop)]
pub struct Edge {
    pub left: usize,
    pub right: usize,
    pub tagged: Tagged,
}

/// The levels with their numbers, the bands of these, the edges, and for each place the edges that have it at their left
/// (`outgoing`) and at their right (`incoming`).
#[derive(Drop)]
pub struct Board {
    pub names: Names,
    pub numbers: Vec<u32>,
    pub bands: Bands,
    pub outgoing: EdgeLists,
    pub incoming: EdgeLists,
    pub edges: Vec<Edge>,
}

fn one_list(alloc: Global) -> Result<EdgeLists, NoMemory>
    ensures { IfOk result (λ l. length l.lists.items ≡ 1) }
{
    let mut lists = Vec::new(alloc);
    match lists.push(Vec::new(alloc)) {
        Ok(()) => Ok(EdgeLists { lists }),
        Err(_) => Err(NoMemory),
    }
}

impl Board {
    /// A board of Set alone.
    pub fn new(alloc: Global) -> Result<Board, NoMemory>
        ensures whole { IfOk result IsWhole }
        ensures empty { IfOk result (λ b. kept b ≡ record { enforced = []; numbers = [] }) }
    {
        let mut numbers = Vec::new(alloc);
        if numbers.push(0).is_err() {
            return Err(NoMemory);
        }
        Ok(Board {
            names: Names::new(alloc),
            numbers,
            bands: Bands::new(alloc)?,
            outgoing: one_list(alloc)?,
            incoming: one_list(alloc)?,
            edges: Vec::new(alloc),
        })
    }

    /// The place of a level.
    pub fn place_of(&self, level: &Level) -> Option<usize>
        ensures { MatchOption result (IsAbsentLevel level.now self.now.names) (λ p. level_at self.now.names p ≡ Some level.now) }
    {
        match level {
            Level::Set => Some(0),
            Level::Named(name) => Some(self.names.find(name)? + 1),
        }
    }

    fn make_room(&mut self, alloc: Global) -> Result<(), NoMemory>
        requires sound { IsSound self.old }
        ensures sound { IsSound self.new }
        ensures edges { self.new.edges.items ≡ self.old.edges.items }
        ensures names { self.new.names ≡ self.old.names }
        ensures numbers { self.new.numbers.items ≡ self.old.numbers.items }
        ensures room { OnOk result (length self.new.numbers.items < length self.new.outgoing.lists.items) }
        ensures room_into { OnOk result (length self.new.numbers.items < length self.new.incoming.lists.items) }
    {
        let places = self.numbers.len();
        self.outgoing.make_room(alloc, places)?;
        self.incoming.make_room(alloc, places)
    }

    fn add_name(&mut self, alloc: Global, name: &LevelName) -> Result<usize, NoMemory>
        requires sound { IsSound self.old }
        requires absent { IsAbsent name.now self.old.names }
        ensures sound { IsSound self.new }
        ensures edges { self.new.edges.items ≡ self.old.edges.items }
        ensures names { OnOk result (self.new.names ≡ self.old.names ++ name.now ∷ []) }
        ensures same { OnErr result (self.new.names ≡ self.old.names) }
        ensures numbers { IsFront self.old.numbers.items self.new.numbers.items }
        ensures place { IfOk result (λ p. level_at self.new.names p ≡ Some (Level.Named name.now)) }
    {
        self.make_room(alloc)?;
        self.names.add(name)?;
        let place = self.numbers.len();
        match self.numbers.push(1) {
            Ok(()) => Ok(place),
            Err(_) => {
                self.names.truncate(place - 1);
                Err(NoMemory)
            }
        }
    }

    /// The place of a level, which is added with the number 1 where it has none.
    pub fn intern(&mut self, alloc: Global, level: &Level) -> Result<usize, NoMemory>
        requires { IsSound self.old }
        ensures sound { IsSound self.new }
        ensures edges { self.new.edges.items ≡ self.old.edges.items }
        ensures names { OnOk result (self.new.names ≡ with_level self.old.names level.now) }
        ensures front { IsFront self.old.names self.new.names }
        ensures numbers { IsFront self.old.numbers.items self.new.numbers.items }
        ensures place { IfOk result (λ p. level_at self.new.names p ≡ Some level.now) }
    {
        match level {
            Level::Set => Ok(0),
            Level::Named(name) => match self.names.find(name) {
                Some(place) => Ok(place + 1),
                None => self.add_name(alloc, name),
            },
        }
    }

    /// Puts an edge behind the others.
    pub fn append(&mut self, edge: Edge) -> Result<(), NoMemory>
        requires listed { AreListed true self.old.outgoing.lists.items self.old.edges.items }
        requires listed_into { AreListed false self.old.incoming.lists.items self.old.edges.items }
        requires left { edge.left < length self.old.outgoing.lists.items }
        requires right { edge.right < length self.old.incoming.lists.items }
        ensures listed { AreListed true self.new.outgoing.lists.items self.new.edges.items }
        ensures listed_into { AreListed false self.new.incoming.lists.items self.new.edges.items }
        ensures room { length self.new.outgoing.lists.items ≡ length self.old.outgoing.lists.items }
        ensures room_into { length self.new.incoming.lists.items ≡ length self.old.incoming.lists.items }
        ensures bands { self.new.bands.bands.items ≡ self.old.bands.bands.items }
        ensures edges { OnOk result (self.new.edges.items ≡ self.old.edges.items ++ edge ∷ []) }
        ensures same { OnErr result (self.new.edges.items ≡ self.old.edges.items) }
        ensures names { self.new.names ≡ self.old.names }
        ensures numbers { self.new.numbers.items ≡ self.old.numbers.items }
    {
        let place = self.edges.len();
        self.outgoing.put(edge.left, place)?;
        self.incoming.put(edge.right, place)?;
        match self.edges.push(edge) {
            Ok(()) => Ok(()),
            Err(_) => Err(NoMemory),
        }
    }
}
