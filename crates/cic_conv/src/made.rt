//! Bodies of abstractions, as eta compares them.
ghost use Rattle.std.specs.Prelude.{◌≡◌, IfOk};
ghost use Rattle.std.specs.Option.{option_map};
ghost use Rattle.cic_terms.specs.Denotes.{tree};
ghost use Rattle.cic_terms.specs.Tree.{app, rel};
ghost use Rattle.cic_counted.specs.Evaluation.{body_of};
ghost use Rattle.cic_spines.specs.Lists.{shared_tree};

use cic_terms::Term;
use memory::NoMemory;
use std::alloc::Global;
use std::rc::Rc;

/// The body of an abstraction.
pub(crate) fn body_of(t: &Term) -> Option<&Rc<Term>>
    ensures { option_map (λ body. shared_tree body.now) result ≡ body_of (tree t.now) }
{
    match t {
        Term::Lam(_, body) => Some(body),
        _ => None,
    }
}

/// The function applied to the innermost variable.
#[inline(never)]
pub(crate) fn applied_to_variable(alloc: Global, function: Rc<Term>) -> Result<Rc<Term>, NoMemory>
    ensures { IfOk result (λ r. shared_tree r ≡ app (shared_tree function) (rel 0)) }
{
    let variable = Rc::new(alloc, Term::Rel(0))?;
    Ok(Rc::new(alloc, Term::App(function, variable))?)
}
