//! Applications in a row: a head and its arguments.
ghost use Rattle.std.specs.Prelude.{◌≡◌, ◌-◌, ◌^◌, IfOk, length, min};
ghost use Rattle.cic_terms.specs.Denotes.{tree};
ghost use Rattle.cic_terms.specs.Tree.{app};
ghost use Rattle.cic_rules.specs.Telescopes.{apply, head_of};
ghost use Rattle.cic_counted.specs.Readings.{arguments_of};
ghost use Rattle.cic_spines.specs.Lists.{shared_tree, shared_trees};

use cic_terms::Term;
use memory::NoMemory;
use std::alloc::Global;
use std::rc::Rc;

/// The head of an application in a row: the term itself where it is no application.
pub fn head(t: &Term) -> &Term
    ensures { tree result.now ≡ head_of (tree t.now) }
{
    let mut at = t;
    while let Term::App(function, _) = at {
        at = function;
    }
    at
}

/// The arguments of an application in a row, the first innermost. They are shared.
pub fn arguments(alloc: Global, t: &Term) -> Result<Vec<Rc<Term>>, NoMemory>
    ensures { IfOk result (λ found. shared_trees found.items ≡ arguments_of (tree t.now)) }
{
    let mut found = Vec::new(alloc);
    let mut at = t;
    while let Term::App(function, argument) = at {
        found.push(argument.clone()?)?;
        at = function;
    }
    found.reverse();
    Ok(found)
}

/// How many arguments an application in a row has, up to the greatest number of the type.
pub fn argument_count(t: &Term) -> u64
    ensures { result ≡ min (length (arguments_of (tree t.now))) (2 ^ 64 - 1) }
{
    let mut count: u64 = 0;
    let mut at = t;
    while let Term::App(function, _) = at {
        count = count.saturating_add(1);
        at = function;
    }
    count
}

/// The head applied to the arguments, the first innermost. Its depth is not judged.
pub fn apply(alloc: Global, head: Rc<Term>, arguments: &[Rc<Term>]) -> Result<Rc<Term>, NoMemory>
    ensures { IfOk result (λ r. shared_tree r ≡ apply (shared_tree head) (shared_trees arguments.now)) }
{
    let mut applied = head;
    for argument in arguments {
        applied = apply_one(alloc, applied, argument)?;
    }
    Ok(applied)
}

fn apply_one(alloc: Global, function: Rc<Term>, argument: &Rc<Term>) -> Result<Rc<Term>, NoMemory>
    ensures { IfOk result (λ r. shared_tree r ≡ app (shared_tree function) (shared_tree argument.now)) }
{
    Ok(Rc::new(alloc, Term::App(function, argument.clone()?))?)
}
