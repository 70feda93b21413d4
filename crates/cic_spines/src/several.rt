//! Terms put in for several binders at once.
ghost use Rattle.std.specs.Prelude.{◌≡◌, ◌+◌, ◌-◌, ◌≤◌, IfOk, OnErr, Err};
ghost use Rattle.cic_terms.specs.calls.Answer.{Changes, MakesShared};
ghost use Rattle.cic_terms.specs.calls.Walk.{map_tree};
ghost use Rattle.cic_terms.specs.Denotes.{tree};
ghost use Rattle.cic_terms.specs.Tree.{rel};
ghost use Rattle.cic_rules.specs.Telescopes.{substitute_all};
ghost use Rattle.cic_spines.specs.Lists.{shared_tree, shared_trees};
ghost use Rattle.cic_spines.specs.calls.Several.{several};

use cic_terms::{Action, MOST_LEVELS, MOST_REL, Term, TermFault, lift_part, walk_shared};
use std::alloc::Global;
use std::rc::Rc;

#[inline(never)]
fn variable(alloc: Global, n: u32) -> Result<Rc<Term>, TermFault>
    ensures ok { IfOk result (λ r. shared_tree r ≡ rel n) }
    ensures err { OnErr result (result ≡ Err TermFault.NoMemory) }
{
    Ok(Rc::new(alloc, Term::Rel(n))?)
}

/// Terms are put in for as many binders, the first for the outermost, and the other variables are lowered.
#[derive(Drop)]
pub(crate) struct PutIn<'a> {
    pub(crate) terms: &'a [Rc<Term>],
}

impl<'a> Action for PutIn<'a> {
    ghost becomes = { λ action at n. several (shared_trees action.terms.now) at n };

    fn act(
        &self,
        alloc: Global,
        n: u32,
        at: u128,
        room: u32,
    ) -> Result<Option<Rc<Term>>, TermFault> {
        let count = self.terms.len();
        let inner = n - at as u32;
        if (inner as usize) < count {
            let term = &self.terms[count - 1 - inner as usize];
            return Ok(Some(lift_part(alloc, term, 0, at as u32, room)?));
        }
        lowered(alloc, n, count as u32, room)
    }
}

/// Rel `n` lowered by `count`, or nothing where that is the Rel itself.
#[inline(never)]
fn lowered(alloc: Global, n: u32, count: u32, room: u32) -> Result<Option<Rc<Term>>, TermFault>
    requires below { count ≤ n }
    requires room { 1 ≤ room }
    ensures { Changes room (rel n) (rel (n - count)) result }
{
    if n - count > MOST_REL {
        return Err(TermFault::Deep);
    }
    if count == 0 {
        return Ok(None);
    }
    Ok(Some(variable(alloc, n - count)?))
}

/// Puts the terms in for as many innermost binders of `t`, the first for the outermost of them, and lowers the variables that stand outside. The result alone is judged by the limits. A part that stays as it is, is shared.
pub fn substitute_all(
    alloc: Global,
    t: &Rc<Term>,
    terms: &[Rc<Term>],
) -> Result<Rc<Term>, TermFault>
    ensures { MakesShared 4000 (substitute_all (shared_trees terms.now) (shared_tree t.now)) result }
{
    walk_shared(alloc, t, 0, &PutIn { terms }, MOST_LEVELS)
}

/// `substitute_all` in a part that stands under `under` binders of the term, where `room` levels are left for it.
pub fn substitute_part(
    alloc: Global,
    t: &Rc<Term>,
    under: u32,
    terms: &[Rc<Term>],
    room: u32,
) -> Result<Rc<Term>, TermFault>
    ensures { MakesShared room (map_tree (several (shared_trees terms.now)) under (shared_tree t.now)) result }
{
    walk_shared(alloc, t, under, &PutIn { terms }, room)
}
