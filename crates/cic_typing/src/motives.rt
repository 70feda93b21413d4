//! The motive of a match: its sort, and whether the type eliminates into it.
ghost use Rattle.std.specs.Prelude.{◌≡◌, ◌≤◌, ◌+◌, ◌++◌, ◌∷◌, [], IfOk};
ghost use Rattle.cic_terms.specs.Denotes.{tree, tree_sort};
ghost use Rattle.cic_terms.specs.Tree.{ind};
ghost use Rattle.cic_rules.specs.Environment.{assumed};
ghost use Rattle.cic_rules.specs.Telescopes.{apply, extend, variables};
ghost use Rattle.cic_counted.specs.Inference.{calls_from};
ghost use Rattle.cic_env.specs.Contexts.{context};
ghost use Rattle.cic_env.specs.Declarations.{type_declaration};
ghost use Rattle.cic_env.specs.Environments.{items};
ghost use Rattle.cic_spines.specs.Lists.{shared_tree, shared_trees};
ghost use Rattle.cic_work.specs.calls.Counting.{Counts, budget, no_value};
ghost use Rattle.cic_typing.specs.calls.Matches.{check_motive};

use crate::eliminations::eliminates;
use crate::inference::sort_of;
use crate::matches::Match;
use cic_env::{Context, Env};
use cic_limits::{enter, leave};
use cic_names::Sort;
use cic_terms::Term;
use cic_work::{Evaluator, Stop, Work};
use memory::NoMemory;
use std::alloc::Global;
use std::rc::Rc;
use typing_parts::{index_types, under_indices, value_type};

/// The sort of a term under entries of these types.
#[cycle(typing)]
#[tactic(auto, using(cic_limits::proofs::Telescopes::drop_entered))]
fn sort_under<E: Evaluator>(
    alloc: Global,
    e: &mut E,
    env: &Env,
    ctx: &mut Context,
    types: &[Rc<Term>],
    t: &Term,
    work: &mut Work,
) -> Result<Sort, Stop>
    requires { work.old.depth ≤ 2000 }
    ensures answer { Counts tree_sort result (budget work.new) ((calls_from (work.old.depth + 1) (items env.now)).sort_of (extend (context ctx.old) (shared_trees types.now)) (tree t.now) (budget work.old)) }
    ensures context { context ctx.new ≡ context ctx.old }
    ensures depth { work.new.depth ≡ work.old.depth }
    ensures rest { work.new.rest ≤ work.old.rest }
{
    enter(ctx, types)?;
    work.depth += 1;
    let answer = sort_of(alloc, e, env, ctx, t, work);
    work.depth -= 1;
    leave(ctx, types.len() as u64);
    answer
}

/// The types of the binders of a motive: those of the indices, and then that of the value.
#[inline(never)]
fn binder_types(
    alloc: Global,
    m: &Match<'_>,
    indices: Vec<Rc<Term>>,
    parameters: &[Rc<Term>],
) -> Result<Vec<Rc<Term>>, NoMemory>
    ensures { IfOk result (λ made. shared_trees made.items ≡ shared_trees indices.items ++ apply (ind m.now.ind.now) (shared_trees parameters.now ++ variables m.now.indices) ∷ []) }
{
    let mut types = indices;
    types.push(value_type(alloc, m.ind, parameters, m.indices)?)?;
    Ok(types)
}

/// The sort of a motive, under the indices and the value. The parameters stand under the indices.
#[cycle(typing)]
#[tactic(auto, using(cic_limits::proofs::Telescopes::entered_last))]
fn motive_sort<E: Evaluator>(
    alloc: Global,
    e: &mut E,
    env: &Env,
    ctx: &mut Context,
    m: &Match<'_>,
    indices: Vec<Rc<Term>>,
    parameters: &[Rc<Term>],
    work: &mut Work,
) -> Result<Sort, Stop>
    requires { work.old.depth ≤ 2000 }
    ensures answer { Counts tree_sort result (budget work.new) ((calls_from (work.old.depth + 1) (items env.now)).sort_of (assumed (apply (ind m.now.ind.now) (shared_trees parameters.now ++ variables m.now.indices)) ∷ extend (context ctx.old) (shared_trees indices.items)) (shared_tree m.now.motive.now) (budget work.old)) }
    ensures context { context ctx.new ≡ context ctx.old }
    ensures depth { work.new.depth ≡ work.old.depth }
    ensures rest { work.new.rest ≤ work.old.rest }
{
    let types = binder_types(alloc, m, indices, parameters)?;
    sort_under(alloc, e, env, ctx, types.as_slice(), m.motive, work)
}

/// The motive has a sort, into which the type eliminates.
#[cycle(typing)]
#[tactic(auto, using(cic_work::proofs::Depths::stops_on))]
pub(crate) fn check_motive<E: Evaluator>(
    alloc: Global,
    e: &mut E,
    env: &Env,
    ctx: &mut Context,
    m: &Match<'_>,
    parameters: &[Rc<Term>],
    work: &mut Work,
) -> Result<(), Stop>
    requires { work.old.depth ≤ 2000 }
    ensures answer { Counts no_value result (budget work.new) (check_motive (calls_from (work.old.depth + 1) (items env.now)) (context ctx.old) m.now.ind.now m.now.parameters m.now.indices (shared_trees parameters.now) (shared_tree m.now.motive.now) (type_declaration m.now.ty.now) (budget work.old)) }
    ensures context { context ctx.new ≡ context ctx.old }
    ensures depth { work.new.depth ≡ work.old.depth }
    ensures rest { work.new.rest ≤ work.old.rest }
{
    let indices = index_types(alloc, m.ty, parameters, work)?;
    let lifted = under_indices(alloc, parameters, m.indices, work)?;
    let s = motive_sort(alloc, e, env, ctx, m, indices, lifted.as_slice(), work)?;
    eliminates(alloc, e, env, m, &s, work)
}
