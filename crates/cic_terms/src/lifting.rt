//! Lifting: a number is added to the free Rels of a term.
ghost use Rattle.std.specs.Prelude.{◌≡◌, ◌+◌, ◌-◌, ◌≤◌, ◌<◌};
ghost use Rattle.cic_terms.specs.Denotes.{tree};
ghost use Rattle.cic_terms.specs.calls.Answer.{Makes, MakesShared, Changes};
ghost use Rattle.cic_terms.specs.Tree.{rel};
ghost use Rattle.cic_terms.specs.Lift.{lift_tree};

use crate::sharing::{make_rel, part, taken};
use crate::term::{Term, TermFault};
use crate::walking::{Action, MOST, ROOM, walk_at};
use std::alloc::Global;
use std::rc::Rc;

/// `by` is added to each free Rel.
#[derive(Drop)]
struct Raise {
    by: u32,
}

impl Action for Raise {
    ghost becomes = { λ action at n. rel (n + action.by) };

    fn act(
        &self,
        alloc: Global,
        n: u32,
        _at: u128,
        _room: u32,
    ) -> Result<Option<Rc<Term>>, TermFault> {
        if n > MOST {
            return Err(TermFault::Deep);
        }
        match self.by {
            0 => Ok(None),
            by if by > MOST - n => Err(TermFault::Deep),
            by => Ok(Some(make_rel(alloc, n + by)?)),
        }
    }
}

/// `lift` of a part of `room` levels. Gives nothing where nothing changes.
#[inline(always)]
pub(crate) fn lift_at(
    alloc: Global,
    t: &Term,
    from: u32,
    by: u32,
    room: u32,
) -> Result<Option<Rc<Term>>, TermFault>
    ensures { Changes room (tree t.now) (lift_tree from by (tree t.now)) result }
{
    walk_at(alloc, t, u128::from(from), &Raise { by }, room)
}

/// Adds `by` to each free Rel at or above `from`. A part that stays as it is, is shared.
pub fn lift(alloc: Global, t: &Term, from: u32, by: u32) -> Result<Term, TermFault>
    ensures { Makes 4000 (lift_tree from by (tree t.now)) result }
{
    let lifted = lift_at(alloc, t, from, by, ROOM)?;
    taken(t, lifted)
}

/// `lift` of a shared term: where nothing changes, the term itself is shared.
pub fn lift_shared(alloc: Global, t: &Rc<Term>, from: u32, by: u32) -> Result<Rc<Term>, TermFault>
    ensures { MakesShared 4000 (lift_tree from by (tree t.now.value)) result }
{
    lift_part(alloc, t, from, by, ROOM)
}

/// `lift_shared` of a part for which `room` levels are left.
#[inline(never)]
pub fn lift_part(
    alloc: Global,
    t: &Rc<Term>,
    from: u32,
    by: u32,
    room: u32,
) -> Result<Rc<Term>, TermFault>
    ensures { MakesShared room (lift_tree from by (tree t.now.value)) result }
{
    let lifted = lift_at(alloc, t, from, by, room)?;
    part(t, lifted)
}
