//! What arities end in, and their sorts.
ghost use Rattle.std.specs.Prelude.{◌≡◌, ◌≤◌, []};
ghost use Rattle.std.specs.Option.{option_map};
ghost use Rattle.cic_terms.specs.Denotes.{tree, tree_sort};
ghost use Rattle.cic_rules.specs.Telescopes.{conclusion_of};
ghost use Rattle.cic_counted.specs.Checking.{ending_sort};
ghost use Rattle.cic_counted.specs.Inference.{calls_from};
ghost use Rattle.cic_env.specs.Environments.{items};
ghost use Rattle.cic_work.specs.calls.Counting.{Counts, budget};

use cic_env::{Context, Env};
use cic_names::Sort;
use cic_terms::Term;
use cic_typing::sort_of;
use cic_work::{Evaluator, Stop, Work};
use std::alloc::Global;

/// The sort of a type without variables.
pub(crate) fn closed_sort<E: Evaluator>(
    alloc: Global,
    e: &mut E,
    env: &Env,
    ty: &Term,
    work: &mut Work,
) -> Result<Sort, Stop>
    requires { work.old.depth ≡ 1 }
    ensures answer { Counts tree_sort result (budget work.new) ((calls_from 1 (items env.now)).sort_of [] (tree ty.now) (budget work.old)) }
    ensures depth { work.new.depth ≡ work.old.depth }
    ensures rest { work.new.rest ≤ work.old.rest }
{
    let mut ctx = Context::new(alloc);
    sort_of(alloc, e, env, &mut ctx, ty, work)
}

/// What stands after the last product.
fn conclusion(t: &Term) -> &Term
    ensures { tree result.now ≡ conclusion_of (tree t.now) }
{
    let mut at = t;
    while let Term::Prod(_, rest) = at {
        at = rest;
    }
    at
}

/// The sort that an arity ends in, if it ends in one.
pub(crate) fn ending_sort(arity: &Term) -> Option<&Sort>
    ensures { option_map (λ sort. tree_sort sort.now) result ≡ ending_sort (conclusion_of (tree arity.now)) }
{
    match conclusion(arity) {
        Term::Sort(sort) => Some(sort),
        _ => None,
    }
}
