//! Terms that conversion and typing make, within the limits of a term.
ghost use Rattle.std.specs.Prelude.{◌≡◌, IfOk};
ghost use Rattle.cic_terms.specs.Denotes.{tree};
ghost use Rattle.cic_terms.specs.Lift.{lift_tree, subst_tree};
ghost use Rattle.cic_counted.specs.Evaluation.{fitting_body};
ghost use Rattle.cic_counted.specs.Outcome.{fitting};
ghost use Rattle.cic_spines.specs.Fixes.{function_of};
ghost use Rattle.cic_spines.specs.Lists.{shared_tree};
ghost use Rattle.cic_work.specs.calls.Counting.{Counts, budget};

use cic_spines::full_body;
use cic_terms::{FixBody, Term, lift_shared, subst_shared};
use cic_work::{Stop, Work};
use memory::NoMemory;
use std::alloc::Global;
use std::rc::Rc;

/// The term lifted past `by` binders.
#[inline(never)]
#[tactic(auto, using(crate::proofs::Limits::made_fits, crate::proofs::Limits::made_deep))]
pub fn lifted(alloc: Global, t: &Rc<Term>, by: u32, work: &Work) -> Result<Rc<Term>, Stop>
    ensures { Counts shared_tree result (budget work.now) (fitting (lift_tree 0 by (shared_tree t.now)) (budget work.now)) }
{
    match lift_shared(alloc, t, 0, by) {
        Ok(made) => Ok(made),
        Err(fault) => Err(Stop::of(fault)),
    }
}

/// The term with `with` put in for its innermost binder.
#[inline(never)]
#[tactic(auto, using(crate::proofs::Limits::made_fits, crate::proofs::Limits::made_deep))]
pub fn put_in(alloc: Global, t: &Rc<Term>, with: &Rc<Term>, work: &Work) -> Result<Rc<Term>, Stop>
    ensures { Counts shared_tree result (budget work.now) (fitting (subst_tree 0 (shared_tree with.now) (shared_tree t.now)) (budget work.now)) }
{
    match subst_shared(alloc, t, 0, with) {
        Ok(made) => Ok(made),
        Err(fault) => Err(Stop::of(fault)),
    }
}

/// The full body of a function, under `all` functions, of which the lifted domains are judged.
#[inline(never)]
#[tactic(auto, using(crate::proofs::Limits::made_over, crate::proofs::Limits::deep_over))]
pub fn fitting_body(alloc: Global, all: u32, one: &FixBody, work: &Work) -> Result<Rc<Term>, Stop>
    ensures { Counts shared_tree result (budget work.now) (fitting_body all (function_of one.now) (budget work.now)) }
{
    match full_body(alloc, all, one) {
        Ok(body) => Ok(body),
        Err(fault) => Err(Stop::of(fault)),
    }
}

/// The term behind a pointer, with its parts shared.
#[inline(never)]
pub fn shared(alloc: Global, t: &Term) -> Result<Rc<Term>, NoMemory>
    ensures { IfOk result (λ r. shared_tree r ≡ tree t.now) }
{
    Ok(Rc::new(alloc, t.clone()?)?)
}
