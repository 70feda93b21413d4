//! The motive of a `match` at the indices of a constructor and the constructor applied, all put in by one walk.
ghost use Rattle.std.specs.Prelude.{◌≡◌, ◌+◌, ◌<◌, ◌≤◌, IfOk, get_or, length};
ghost use Rattle.cic_terms.specs.calls.Answer.{Changes, MakesShared};
ghost use Rattle.cic_terms.specs.calls.Walk.{map_tree};
ghost use Rattle.cic_terms.specs.Lift.{lift_tree};
ghost use Rattle.cic_terms.specs.Tree.{app, ctor, rel};
ghost use Rattle.cic_rules.specs.Telescopes.{apply, lift_all, variables};
ghost use Rattle.cic_spines.specs.Lists.{shared_tree, shared_trees};
ghost use Rattle.cic_ind.specs.calls.Goals.{goal_terms, goal_variable};
ghost use Rattle.cic_ind.specs.calls.Pending.{part_tree, part_trees};

use crate::pending::{Part, make};
use cic_names::GlobalId;
use cic_spines::apply;
use cic_terms::{Action, MOST_LEVELS, MOST_REL, Term, TermFault, lift_part, walk_shared};
use memory::NoMemory;
use std::alloc::Global;
use std::rc::Rc;

/// A constructor that a motive is taken at: its indices, and itself at the parameters and its arguments, are put in for the innermost binders. What stands outside the motive's own `indices` and value is lifted past the constructor's `more` arguments.
#[derive(Drop)]
pub(crate) struct Goal<'a> {
    pub(crate) ctor: &'a GlobalId,
    pub(crate) parameters: &'a [Rc<Term>],
    pub(crate) arguments: &'a [Part<'a>],
    pub(crate) indices: u32,
    pub(crate) more: u32,
}

impl<'a> Action for Goal<'a> {
    ghost becomes = { λ action at n. goal_variable (goal_terms action.ctor.now (shared_trees action.parameters.now) (part_trees action.arguments.now) action.more) action.indices action.more at n };

    fn act(
        &self,
        alloc: Global,
        n: u32,
        at: u128,
        room: u32,
    ) -> Result<Option<Rc<Term>>, TermFault> {
        let own = u64::from(n - at as u32);
        let raise = if own <= u64::from(self.indices) {
            0
        } else {
            u64::from(self.more)
        };
        let place = own + raise;
        let count = self.arguments.len() as u64;
        if place == 0 {
            let applied = constructor(
                alloc,
                self.ctor,
                self.parameters,
                self.more,
                at as u32,
                room,
            )?;
            return Ok(Some(applied));
        }
        if place <= count {
            let index = &self.arguments[(count - place) as usize];
            return Ok(Some(lifted(alloc, index, at as u32, room)?));
        }
        moved(alloc, n, u64::from(n) + raise - (count + 1), room)
    }
}

/// The part lifted past `by` binders.
#[inline(never)]
fn lifted(alloc: Global, part: &Part, by: u32, room: u32) -> Result<Rc<Term>, TermFault>
    ensures { MakesShared room (lift_tree 0 by (part_tree part.now)) result }
{
    let made = make(alloc, part, u32::MAX)?;
    lift_part(alloc, &made, 0, by, room)
}

/// The constructor applied to the parameters, lifted past its arguments, and to these, all lifted past `by` binders.
#[inline(never)]
fn constructor(
    alloc: Global,
    id: &GlobalId,
    parameters: &[Rc<Term>],
    more: u32,
    by: u32,
    room: u32,
) -> Result<Rc<Term>, TermFault>
    ensures { MakesShared room (lift_tree 0 by (apply (apply (ctor id.now) (lift_all more (shared_trees parameters.now))) (variables more))) result }
{
    let head = constructor_alone(alloc, id)?;
    let head = apply(alloc, head, parameters)?;
    let head = lift_part(alloc, &head, 0, more, u32::MAX)?;
    let whole = with_variables(alloc, head, more)?;
    lift_part(alloc, &whole, 0, by, room)
}

fn constructor_alone(alloc: Global, id: &GlobalId) -> Result<Rc<Term>, NoMemory>
    ensures { IfOk result (λ r. shared_tree r ≡ ctor id.now) }
{
    Ok(Rc::new(alloc, Term::Ctor(id.clone()?))?)
}

/// The term applied to the variables of the innermost binders.
fn with_variables(alloc: Global, head: Rc<Term>, count: u32) -> Result<Rc<Term>, NoMemory>
    ensures { IfOk result (λ r. shared_tree r ≡ apply (shared_tree head) (variables count)) }
{
    let mut applied = head;
    for i in (0..count).rev() {
        applied = with_variable(alloc, applied, i)?;
    }
    Ok(applied)
}

fn with_variable(alloc: Global, function: Rc<Term>, n: u32) -> Result<Rc<Term>, NoMemory>
    ensures { IfOk result (λ r. shared_tree r ≡ app (shared_tree function) (rel n)) }
{
    let argument = Rc::new(alloc, Term::Rel(n))?;
    Ok(Rc::new(alloc, Term::App(function, argument))?)
}

/// Rel `n` moved to another number, or nothing where that is its own.
#[inline(never)]
fn moved(alloc: Global, n: u32, to: u64, room: u32) -> Result<Option<Rc<Term>>, TermFault>
    requires { 1 ≤ room }
    ensures { Changes room (rel n) (rel to) result }
{
    if to > u64::from(MOST_REL) {
        return Err(TermFault::Deep);
    }
    if to == u64::from(n) {
        return Ok(None);
    }
    Ok(Some(Rc::new(alloc, Term::Rel(to as u32))?))
}

/// The motive at the constructor.
pub(crate) fn at_constructor(
    alloc: Global,
    motive: &Rc<Term>,
    goal: &Goal,
) -> Result<Rc<Term>, TermFault>
    ensures { MakesShared 4000 (map_tree (goal_variable (goal_terms goal.now.ctor.now (shared_trees goal.now.parameters.now) (part_trees goal.now.arguments.now) goal.now.more) goal.now.indices goal.now.more) 0 (shared_tree motive.now)) result }
{
    walk_shared(alloc, motive, 0, goal, MOST_LEVELS)
}
