//! Terms that a lift or a substitution makes, within the limits of a term.
ghost use Rattle.std.specs.Prelude.{◌≡◌, length, nat_eq, true};
ghost use Rattle.cic_terms.specs.Denotes.{tree};
ghost use Rattle.cic_terms.specs.Lift.{lift_tree, subst_tree};
ghost use Rattle.cic_counted.specs.Readings.{arguments_of};
ghost use Rattle.cic_spines.specs.Lists.{shared_tree};
ghost use Rattle.cic_eval.specs.calls.Turns.{IsJudged, is_there, the_tree, unfolds_to};

use cic_spines::{argument_count, head, unfolded};
use cic_terms::{Term, TermFault, lift_shared, subst_shared};
use cic_work::Stop;
use std::alloc::Global;
use std::rc::Rc;

/// The term lifted past `by` binders.
#[inline(never)]
#[tactic(auto, using(crate::proofs::Limits::made_small, crate::proofs::Limits::refused_deep))]
pub(crate) fn lifted(alloc: Global, t: &Rc<Term>, by: u32) -> Result<Rc<Term>, Stop>
    ensures { IsJudged (lift_tree 0 by (shared_tree t.now)) result }
{
    match lift_shared(alloc, t, 0, by) {
        Ok(made) => Ok(made),
        Err(fault) => Err(Stop::of(fault)),
    }
}

/// The term with `with` put in for its innermost binder.
#[inline(never)]
#[tactic(auto, using(crate::proofs::Limits::made_small, crate::proofs::Limits::refused_deep))]
pub(crate) fn put_in(alloc: Global, t: &Rc<Term>, with: &Rc<Term>) -> Result<Rc<Term>, Stop>
    ensures { IsJudged (subst_tree 0 (shared_tree with.now) (shared_tree t.now)) result }
{
    match subst_shared(alloc, t, 0, with) {
        Ok(made) => Ok(made),
        Err(fault) => Err(Stop::of(fault)),
    }
}

/// Whether the head of the term is a function of a `fix` under exactly as many arguments as stand before its recursive one.
pub(crate) fn unfolds(f: &Term) -> bool
    ensures { result ≡ is_there (unfolds_to (tree f.now)) }
{
    match head(f) {
        Term::Fix { which, bodies } => match bodies.as_slice().get(*which as usize) {
            Some(one) => is_recursive(f, one.k),
            None => false,
        },
        _ => false,
    }
}

/// Whether so many arguments stand in the term.
fn is_recursive(f: &Term, place: u32) -> bool
    ensures { result ≡ nat_eq (length (arguments_of (tree f.now))) place }
{
    argument_count(f) == u64::from(place)
}

/// What the function at the head of the term unfolds to.
#[inline(never)]
pub(crate) fn unfold(alloc: Global, f: &Term) -> Result<Rc<Term>, Stop>
    requires { is_there (unfolds_to (tree f.now)) ≡ true }
    ensures { IsJudged (the_tree (unfolds_to (tree f.now))) result }
{
    match head(f) {
        Term::Fix { which, bodies } => match unfolded(alloc, bodies, *which as usize) {
            Ok(Some(made)) => Ok(made),
            Ok(None) => unreachable!(),
            Err(fault) => Err(Stop::of(fault)),
        },
        _ => unreachable!(),
    }
}
