//! Searches from a place along edges, in either direction, that stop at numbers beyond a bound.
ghost use Rattle.std.specs.Prelude.{ℕ, ◌≡◌, ◌+◌, ◌<◌, ◌↔◌, length, Contains, Some, slice_get, IsTrue, IfOk, OnOk};
ghost use Rattle.univ_graph.specs.declared.board.Edge.{Edge};
ghost use Rattle.univ_nodes.specs.calls.PlaceSets.{IsFront};
ghost use Rattle.univ_graph.specs.calls.Boards.{IsSound, at, near, far, edges_at};
ghost use Rattle.univ_graph.specs.calls.Moves.{IsKept, IsClosedAlong, IsSearched, IsFoundFrom};

use crate::board::{Board, Edge};
use cic_names::NoMemory;
use std::alloc::Global;
use univ_nodes::{EdgeLists, Places};

/// What a search comes to.
#[derive(Drop)]
pub enum Found {
    /// All places that are reached at numbers within the bound.
    Gathered(Places),
    /// A place that is barred is reached.
    Met,
    /// More places or edges than were allowed.
    Over,
}

/// Where a search goes.
#[derive(Clone, Copy)]
pub struct Direction {
    /// Along edges from left to right, at numbers below the bound; else from right to left, at numbers from the bound on.
    pub up: bool,
    pub bound: u32,
    /// How many places and edges, counted together, may be followed.
    pub most: usize,
}

impl Direction {
    fn near(self, edge: &Edge) -> usize
        ensures { result ≡ near self.up edge.now }
    {
        if self.up { edge.left } else { edge.right }
    }

    pub fn far(self, edge: &Edge) -> usize
        ensures { result ≡ far self.up edge.now }
    {
        if self.up { edge.right } else { edge.left }
    }

    fn keeps(self, number: u32) -> bool
        ensures { IsTrue result ↔ IsKept self.up self.bound number }
    {
        if self.up {
            1 <= number && number < self.bound
        } else {
            self.bound <= number
        }
    }
}

/// The edges of a place, none where it has no list.
pub fn edges_at(lists: &EdgeLists, place: usize) -> &[usize]
    ensures { result.now ≡ edges_at lists.now.lists.items place }
{
    match lists.lists.get(place) {
        Some(edges) => edges.as_slice(),
        None => &[],
    }
}

impl Board {
    /// All edges with their near end at a place are among these.
    pub fn edges_near(&self, place: usize, way: Direction) -> &[usize]
        requires sound { IsSound self.now }
        ensures { (k : ℕ) (r : Edge) → slice_get self.now.edges.items k ≡ Some r → near way.up r ≡ place → Contains result.now k }
    {
        if way.up {
            edges_at(&self.outgoing, place)
        } else {
            edges_at(&self.incoming, place)
        }
    }

    /// Goes along an edge. False where it comes to what is barred.
    fn go_along(
        &self,
        places: &mut Places,
        edge: &Edge,
        way: Direction,
        barred: &Places,
        done: usize,
    ) -> Result<bool, NoMemory>
        requires within { far way.up edge.now < length self.now.numbers.items }
        requires searched { IsSearched self.now way.up way.bound barred.now places.old done }
        ensures searched { OnOk result (IsSearched self.now way.up way.bound barred.now places.new done) }
        ensures front { OnOk result (IsFront places.old places.new) }
        ensures closed { IfOk result (λ on. IsTrue on → IsClosedAlong self.now.numbers.items way.up way.bound barred.now places.new edge.now) }
    {
        let place = way.far(edge);
        if barred.contains(place) {
            return Ok(false);
        }
        if way.keeps(self.numbers[place]) {
            places.insert(place)?;
        }
        Ok(true)
    }

    /// Goes along the edge with a number, where its near end is at a place. False as above.
    fn go_along_edge(
        &self,
        places: &mut Places,
        place: usize,
        k: usize,
        way: Direction,
        barred: &Places,
        done: usize,
    ) -> Result<bool, NoMemory>
        requires sound { IsSound self.now }
        requires searched { IsSearched self.now way.up way.bound barred.now places.old done }
        ensures searched { OnOk result (IsSearched self.now way.up way.bound barred.now places.new done) }
        ensures front { OnOk result (IsFront places.old places.new) }
        ensures closed { IfOk result (λ on. IsTrue on → (r : Edge) → slice_get self.now.edges.items k ≡ Some r → near way.up r ≡ place → IsClosedAlong self.now.numbers.items way.up way.bound barred.now places.new r) }
    {
        let Some(edge) = self.edges.get(k) else {
            return Ok(true);
        };
        if way.near(edge) != place {
            return Ok(true);
        }
        self.go_along(places, edge, way, barred, done)
    }

    /// Goes along all edges from one of the places. False where one of them comes to what is barred.
    fn go_from(
        &self,
        places: &mut Places,
        i: usize,
        edges: &[usize],
        way: Direction,
        barred: &Places,
    ) -> Result<bool, NoMemory>
        requires sound { IsSound self.now }
        requires searched { IsSearched self.now way.up way.bound barred.now places.old i }
        requires within { i < length places.old }
        requires listed { (p k : ℕ) (r : Edge) → slice_get places.old i ≡ Some p → slice_get self.now.edges.items k ≡ Some r → near way.up r ≡ p → Contains edges.now k }
        ensures searched { IfOk result (λ on. IsTrue on → IsSearched self.now way.up way.bound barred.now places.new (i + 1)) }
        ensures front { OnOk result (IsFront places.old places.new) }
    {
        let place = places.get(i);
        for k in edges {
            if !self.go_along_edge(places, place, *k, way, barred, i)? {
                return Ok(false);
            }
        }
        Ok(true)
    }

    /// What is reached from a place.
    pub fn gather(
        &self,
        alloc: Global,
        from: usize,
        way: Direction,
        barred: &Places,
    ) -> Result<Found, NoMemory>
        requires sound { IsSound self.now }
        requires kept { IsKept way.up way.bound (at self.now.numbers.items from) }
        requires apart { Contains barred.now from → ⊥ }
        ensures { IfOk result (IsFoundFrom self.now way.up from way.bound barred.now) }
    {
        let mut places = Places::new(alloc);
        places.insert(from)?;
        let mut left = way.most;
        let mut i = 0;
        while i < places.len() {
            let edges = self.edges_near(places.get(i), way);
            if left <= edges.len() {
                return Ok(Found::Over);
            }
            left -= edges.len() + 1;
            if !self.go_from(&mut places, i, edges, way, barred)? {
                return Ok(Found::Met);
            }
            i += 1;
        }
        Ok(Found::Gathered(places))
    }
}
