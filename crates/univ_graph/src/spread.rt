//! What is reached from a place along edges.
ghost use Rattle.std.specs.Prelude.{◌≡◌, ℕ, ◌+◌, ◌<◌, ◌≤◌, ◌||◌, length, Some, OnOk, IfOk, slice_get, suc};
ghost use Rattle.univ_graph.specs.calls.Boards.{IsSound, IsSpread, IsLinked, IsClosedBy, at, mark_of};
ghost use Rattle.univ_graph.specs.declared.board.Edge.{Edge};
ghost use Rattle.univ_graph.specs.declared.spread.Step.{Step};
ghost use Rattle.univ_nodes.specs.calls.PlaceSets.{IsFront};

use crate::board::Board;
use cic_names::NoMemory;
use std::alloc::Global;

/// That a place is reached: along an edge, behind an earlier step.
#[derive(Clone, Copy)]
pub struct Step {
    pub place: usize,
    /// Whether one of the constraints on the way is strict.
    pub strict: bool,
    pub before: usize,
    pub edge: usize,
}

/// The steps, and for each place 2 where it is reached past a strict constraint, 1 where it is reached, and else 0.
#[derive(Drop)]
pub struct Spread {
    pub marks: Vec<u8>,
    pub steps: Vec<Step>,
}

fn mark_of(strict: bool) -> u8
    ensures { result ≡ mark_of strict }
{
    if strict { 2 } else { 1 }
}

impl Board {
    fn reach(
        &self,
        spread: &mut Spread,
        step: Step,
        done: usize,
        from: usize,
        strict: bool,
    ) -> Result<(), NoMemory>
        requires spread { IsSpread self.now from strict done spread.old.marks.items spread.old.steps.items }
        requires above { 1 ≤ at self.now.numbers.items step.place }
        requires linked { (j : ℕ) → length spread.old.steps.items ≤ suc j → IsLinked self.now.edges.items spread.old.steps.items j step }
        ensures spread { OnOk result (IsSpread self.now from strict done spread.new.marks.items spread.new.steps.items) }
        ensures marked { OnOk result (mark_of step.strict ≤ at spread.new.marks.items step.place) }
        ensures more { OnOk result ((p : ℕ) → at spread.old.marks.items p ≤ at spread.new.marks.items p) }
        ensures front { OnOk result (IsFront spread.old.steps.items spread.new.steps.items) }
    {
        let mark = mark_of(step.strict);
        if spread.marks[step.place] < mark {
            if spread.steps.push(step).is_err() {
                return Err(NoMemory);
            }
            spread.marks[step.place] = mark;
        }
        Ok(())
    }

    fn follow_edge(
        &self,
        spread: &mut Spread,
        i: usize,
        k: usize,
        from: usize,
        strict: bool,
    ) -> Result<(), NoMemory>
        requires sound { IsSound self.now }
        requires spread { IsSpread self.now from strict i spread.old.marks.items spread.old.steps.items }
        requires within { i < length spread.old.steps.items }
        ensures spread { OnOk result (IsSpread self.now from strict i spread.new.marks.items spread.new.steps.items) }
        ensures more { OnOk result ((p : ℕ) → at spread.old.marks.items p ≤ at spread.new.marks.items p) }
        ensures front { OnOk result (IsFront spread.old.steps.items spread.new.steps.items) }
        ensures closed { OnOk result ((s : Step) (r : Edge) → slice_get spread.old.steps.items i ≡ Some s → slice_get self.now.edges.items k ≡ Some r → IsClosedBy spread.new.marks.items s r) }
    {
        let step = spread.steps[i];
        if k < self.edges.len() && self.edges[k].left == step.place {
            let edge = &self.edges[k];
            let next = Step {
                place: edge.right,
                strict: step.strict || edge.tagged.constraint.strict,
                before: i,
                edge: k,
            };
            self.reach(spread, next, i, from, strict)
        } else {
            Ok(())
        }
    }

    fn follow(
        &self,
        spread: &mut Spread,
        i: usize,
        from: usize,
        strict: bool,
    ) -> Result<(), NoMemory>
        requires sound { IsSound self.now }
        requires spread { IsSpread self.now from strict i spread.old.marks.items spread.old.steps.items }
        requires within { i < length spread.old.steps.items }
        ensures spread { OnOk result (IsSpread self.now from strict (i + 1) spread.new.marks.items spread.new.steps.items) }
    {
        let place = spread.steps[i].place;
        for k in &self.outgoing.lists[place] {
            self.follow_edge(spread, i, *k, from, strict)?;
        }
        Ok(())
    }

    fn start(&self, alloc: Global, from: usize, strict: bool) -> Result<Spread, NoMemory>
        requires above { 1 ≤ at self.now.numbers.items from }
        ensures { IfOk result (λ s. IsSpread self.now from strict 0 s.marks.items s.steps.items) }
    {
        let Ok(mut marks) = Vec::from_elem(alloc, 0u8, self.numbers.len()) else {
            return Err(NoMemory);
        };
        marks[from] = mark_of(strict);
        let mut steps = Vec::new(alloc);
        let first = Step {
            place: from,
            strict,
            before: 0,
            edge: 0,
        };
        match steps.push(first) {
            Ok(()) => Ok(Spread { marks, steps }),
            Err(_) => Err(NoMemory),
        }
    }

    /// All that is reached from a place.
    pub fn spread(&self, alloc: Global, from: usize, strict: bool) -> Result<Spread, NoMemory>
        requires sound { IsSound self.now }
        requires above { 1 ≤ at self.now.numbers.items from }
        ensures { IfOk result (λ s. IsSpread self.now from strict (length s.steps.items) s.marks.items s.steps.items) }
    {
        let mut spread = self.start(alloc, from, strict)?;
        let mut i = 0;
        while i < spread.steps.len() {
            self.follow(&mut spread, i, from, strict)?;
            i += 1;
        }
        Ok(spread)
    }
}
