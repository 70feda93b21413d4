//! Substitution: a term is put in for a Rel, and those above it are lowered.
ghost use Rattle.std.specs.Prelude.{◌≡◌, if◌then◌else◌, eqb, ◌+◌, ◌-◌, ◌≤◌, ◌<◌, IfOk, OnErr, Err};
ghost use Rattle.cic_terms.specs.Denotes.{tree};
ghost use Rattle.cic_terms.specs.calls.Answer.{Makes, MakesShared, Changes};
ghost use Rattle.cic_terms.specs.Tree.{rel};
ghost use Rattle.cic_terms.specs.Lift.{lift_tree, subst_tree};

use crate::lifting::lift_part;
use crate::sharing::{make_rel, part, taken};
use crate::term::{Term, TermFault, shared};
use crate::walking::{Action, MOST, ROOM, walk_at};
use std::alloc::Global;
use std::rc::Rc;

/// `with` is put in for the first free Rel, and the others are lowered.
#[derive(Drop)]
struct PutIn<'a> {
    with: &'a Rc<Term>,
}

impl<'a> Action for PutIn<'a> {
    ghost becomes = { λ action at n. if eqb n at then lift_tree 0 at (tree action.with.now.value) else rel (n - 1) };

    fn act(
        &self,
        alloc: Global,
        n: u32,
        at: u128,
        room: u32,
    ) -> Result<Option<Rc<Term>>, TermFault> {
        if u128::from(n) == at {
            return Ok(Some(lift_part(alloc, self.with, 0, n, room)?));
        }
        if n - 1 > MOST {
            return Err(TermFault::Deep);
        }
        Ok(Some(make_rel(alloc, n - 1)?))
    }
}

/// `subst_shared`, which gives nothing where nothing changes.
#[inline(always)]
fn subst_at(
    alloc: Global,
    t: &Term,
    at: u32,
    with: &Rc<Term>,
) -> Result<Option<Rc<Term>>, TermFault>
    ensures { Changes 4000 (tree t.now) (subst_tree at (tree with.now.value) (tree t.now)) result }
{
    walk_at(alloc, t, u128::from(at), &PutIn { with }, ROOM)
}

/// Puts `with` in for Rel `at`, lifted to where it is put, and lowers those above it. A part that stays as it is, is shared.
pub fn subst_shared(
    alloc: Global,
    t: &Rc<Term>,
    at: u32,
    with: &Rc<Term>,
) -> Result<Rc<Term>, TermFault>
    ensures { MakesShared 4000 (subst_tree at (tree with.now.value) (tree t.now.value)) result }
{
    let replaced = subst_at(alloc, t, at, with)?;
    part(t, replaced)
}

/// `subst_shared` for terms by themselves.
pub fn subst(alloc: Global, t: &Term, at: u32, with: &Term) -> Result<Term, TermFault>
    ensures { Makes 4000 (subst_tree at (tree with.now) (tree t.now)) result }
{
    let with = owned(alloc, with)?;
    let replaced = subst_at(alloc, t, at, &with)?;
    taken(t, replaced)
}

/// A copy behind a pointer.
fn owned(alloc: Global, t: &Term) -> Result<Rc<Term>, TermFault>
    ensures ok { IfOk result (λ r. tree r.value ≡ tree t.now) }
    ensures err { OnErr result (result ≡ Err TermFault.NoMemory) }
{
    shared(alloc, taken(t, None)?)
}
