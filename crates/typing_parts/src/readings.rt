//! Types in weak head form as sorts and as products.
ghost use Rattle.std.specs.Prelude.{IfOk, ◌≡◌};
ghost use Rattle.cic_terms.specs.Denotes.{tree, tree_sort};
ghost use Rattle.cic_counted.specs.Inference.{as_product, as_sort};
ghost use Rattle.cic_counted.specs.Sameness.{same_tree};
ghost use Rattle.cic_env.specs.Contexts.{context};
ghost use Rattle.cic_spines.specs.Lists.{shared_tree};
ghost use Rattle.cic_work.specs.calls.Counting.{Counts, budget};
ghost use Rattle.typing_parts.specs.calls.Parts.{product};

use crate::refusals::{not_function, not_sort};
use cic_env::Context;
use cic_names::Sort;
use cic_terms::{Term, same};
use cic_work::{Stop, Work};
use memory::NoMemory;
use std::alloc::Global;
use std::rc::Rc;

/// The parts of a product: the codomain stands under one more variable.
#[derive(Drop)]
pub struct Product {
    pub domain: Rc<Term>,
    pub codomain: Rc<Term>,
}

fn shared_parts(domain: &Rc<Term>, codomain: &Rc<Term>) -> Result<Product, NoMemory>
    ensures { IfOk result (λ p. (shared_tree p.domain ≡ shared_tree domain.now) × (shared_tree p.codomain ≡ shared_tree codomain.now)) }
{
    let domain = domain.clone()?;
    let codomain = codomain.clone()?;
    Ok(Product { domain, codomain })
}

/// A type in weak head form as a product.
#[inline(never)]
pub fn as_product(
    alloc: Global,
    ctx: &Context,
    form: &Rc<Term>,
    work: &Work,
) -> Result<Product, Stop>
    ensures { Counts product result (budget work.now) (as_product (context ctx.now) (shared_tree form.now) (budget work.now)) }
{
    let term: &Term = form;
    match term {
        Term::Prod(domain, codomain) => Ok(shared_parts(domain, codomain)?),
        _ => Err(not_function(alloc, ctx, term)),
    }
}

/// A type in weak head form as a sort.
#[inline(never)]
pub fn as_sort(alloc: Global, ctx: &Context, form: &Rc<Term>, work: &Work) -> Result<Sort, Stop>
    ensures { Counts tree_sort result (budget work.now) (as_sort (context ctx.now) (shared_tree form.now) (budget work.now)) }
{
    let term: &Term = form;
    match term {
        Term::Sort(sort) => Ok(sort.clone()?),
        _ => Err(not_sort(alloc, ctx, term)),
    }
}

/// Whether two terms are the same tree.
pub fn is_same(a: &Term, b: &Term) -> bool
    ensures { result ≡ same_tree (tree a.now) (tree b.now) }
{
    same(a, b)
}
