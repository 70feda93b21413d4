//! Terms that are made for the test. Where one passes the limits there is none: the test does not hold then.
ghost use Rattle.std.specs.Prelude.{◌≡◌, IfOk, drop, length};
ghost use Rattle.cic_terms.specs.Denotes.{tree};
ghost use Rattle.cic_rules.specs.Telescopes.{conclusion_of, domains_of, lift_all};
ghost use Rattle.cic_counted.specs.Readings.{arguments_of, instantiate};
ghost use Rattle.cic_spines.specs.Lists.{shared_trees};
ghost use Rattle.cic_spines.specs.Several.{MakesEach};
ghost use Rattle.nested_ind.specs.calls.Instances.{AreSmall};

use cic_env::CtorDecl;
use cic_ind::{arguments, conclusion_indices};
use cic_terms::{Term, TermFault, lift_shared};
use memory::NoMemory;
use std::alloc::Global;
use std::rc::Rc;

/// The terms under one more binder.
fn lift_each(alloc: Global, terms: &[Rc<Term>]) -> Result<Vec<Rc<Term>>, TermFault>
    ensures { MakesEach (lift_all 1 (shared_trees terms.now)) result }
{
    let mut made = Vec::new(alloc);
    for term in terms {
        made.push(lift_shared(alloc, term, 0, 1)?)?;
    }
    Ok(made)
}

/// The terms under one more binder, where they are within the limits.
pub(crate) fn small_lifted(
    alloc: Global,
    terms: &[Rc<Term>],
) -> Result<Option<Vec<Rc<Term>>>, NoMemory>
    ensures { IfOk result (λ r. AreSmall (lift_all 1 (shared_trees terms.now)) r) }
{
    match lift_each(alloc, terms) {
        Ok(made) => Ok(Some(made)),
        Err(TermFault::Deep) => Ok(None),
        Err(TermFault::NoMemory) => Err(NoMemory),
    }
}

/// The types of the arguments of a constructor with the parameters put in, where they are within the limits.
pub(crate) fn small_arguments(
    alloc: Global,
    ctor: &CtorDecl,
    parameters: &[Rc<Term>],
) -> Result<Option<Vec<Rc<Term>>>, NoMemory>
    ensures { IfOk result (λ r. AreSmall (domains_of (instantiate (shared_trees parameters.now) (tree ctor.now.ty))) r) }
{
    match arguments(alloc, ctor, parameters) {
        Ok(made) => Ok(Some(made)),
        Err(TermFault::Deep) => Ok(None),
        Err(TermFault::NoMemory) => Err(NoMemory),
    }
}

/// The indices of the conclusion of a constructor with the parameters put in, where they are within the limits.
pub(crate) fn small_indices(
    alloc: Global,
    ctor: &CtorDecl,
    parameters: &[Rc<Term>],
) -> Result<Option<Vec<Rc<Term>>>, NoMemory>
    ensures { IfOk result (λ r. AreSmall (drop (length (shared_trees parameters.now)) (arguments_of (conclusion_of (instantiate (shared_trees parameters.now) (tree ctor.now.ty))))) r) }
{
    match conclusion_indices(alloc, ctor, parameters) {
        Ok(made) => Ok(Some(made)),
        Err(TermFault::Deep) => Ok(None),
        Err(TermFault::NoMemory) => Err(NoMemory),
    }
}
