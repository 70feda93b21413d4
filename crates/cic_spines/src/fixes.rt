//! What a function of a `fix` unfolds to.
ghost use Rattle.std.specs.Prelude.{◌≡◌, ◌<◌, ◌≤◌, IfOk, OnErr, Err, length, map};
ghost use Rattle.cic_terms.specs.calls.Answer.{MakesShared};
ghost use Rattle.cic_terms.specs.Denotes.{tree, shapes, bodies, domain_count};
ghost use Rattle.cic_terms.specs.Tree.{fix, lam};
ghost use Rattle.cic_rules.specs.Telescopes.{abstractions};
ghost use Rattle.cic_spines.specs.Fixes.{unfolding_of};
ghost use Rattle.cic_spines.specs.calls.Unfoldings.{each_fix, body_with, full_body_with};
ghost use Rattle.cic_spines.specs.Lists.{shared_tree, shared_trees};
ghost use Rattle.cic_spines.specs.Optional.{MakesIfAny};

use crate::several::PutIn;
use cic_terms::{FixBodies, FixBody, MOST_LEVELS, Term, TermFault, lift_shared, walk_shared};
use memory::NoMemory;
use std::alloc::Global;
use std::rc::Rc;

/// The full body of function `which`, counted from 0, with each function of the `fix` put in for its variable. Gives nothing where there is no such function. The result alone is judged by the limits.
pub fn unfolded(
    alloc: Global,
    all: &Rc<FixBodies>,
    which: usize,
) -> Result<Option<Rc<Term>>, TermFault>
    ensures { MakesIfAny 4000 (unfolding_of which (shapes all.now.value) (bodies all.now.value)) result }
{
    match all.as_slice().get(which) {
        None => Ok(None),
        Some(one) => {
            let fixes = fix_terms(alloc, all)?;
            Ok(Some(unfold_with(alloc, one, fixes.as_slice())?))
        }
    }
}

/// Each function of the `fix`, in order. A `fix` of more functions than a number `which` tells apart fits into no memory.
fn fix_terms(alloc: Global, all: &Rc<FixBodies>) -> Result<Vec<Rc<Term>>, NoMemory>
    ensures { IfOk result (λ found. shared_trees found.items ≡ each_fix (length (shapes all.now.value)) 0 (shapes all.now.value) (bodies all.now.value)) }
{
    let Ok(count) = u32::try_from(all.as_slice().len()) else {
        return Err(NoMemory);
    };
    let mut found = Vec::new(alloc);
    for which in 0..count {
        found.push(fix_term(alloc, all, which)?)?;
    }
    Ok(found)
}

fn fix_term(alloc: Global, all: &Rc<FixBodies>, which: u32) -> Result<Rc<Term>, NoMemory>
    ensures { IfOk result (λ r. shared_tree r ≡ fix which (shapes all.now.value) (bodies all.now.value)) }
{
    let bodies = all.clone()?;
    Ok(Rc::new(alloc, Term::Fix { which, bodies })?)
}

/// The full body of the function with the terms put in for the functions. The domains stay, since they mention no function.
fn unfold_with(alloc: Global, one: &FixBody, fixes: &[Rc<Term>]) -> Result<Rc<Term>, TermFault>
    ensures { MakesShared 4000 (full_body_with (shared_trees fixes.now) one.now) result }
{
    let domains = one.domains.as_slice();
    if domains.len() > MOST_LEVELS as usize {
        return Err(TermFault::Deep);
    }
    let body = Rc::new(alloc, one.body.clone()?)?;
    let body = walk_shared(
        alloc,
        &body,
        domains.len() as u32,
        &PutIn { terms: fixes },
        MOST_LEVELS,
    )?;
    let whole = abstracted(alloc, domains, body)?;
    lift_shared(alloc, &whole, 0, 0)
}

/// The body under abstractions over the domains. Its depth is not judged.
pub(crate) fn abstracted(
    alloc: Global,
    domains: &[Term],
    body: Rc<Term>,
) -> Result<Rc<Term>, NoMemory>
    ensures { IfOk result (λ r. shared_tree r ≡ abstractions (map tree domains.now) (shared_tree body)) }
{
    let mut whole = body;
    for i in (0..domains.len()).rev() {
        whole = abstract_one(alloc, &domains[i], whole)?;
    }
    Ok(whole)
}

fn abstract_one(alloc: Global, domain: &Term, body: Rc<Term>) -> Result<Rc<Term>, NoMemory>
    ensures { IfOk result (λ r. shared_tree r ≡ lam (tree domain.now) (shared_tree body)) }
{
    let domain = Rc::new(alloc, domain.clone()?)?;
    Ok(Rc::new(alloc, Term::Lam(domain, body))?)
}
