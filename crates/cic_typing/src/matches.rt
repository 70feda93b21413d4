//! Typing of a match.
ghost use Rattle.std.specs.Prelude.{◌≡◌, ◌≤◌, ◌+◌, length};
ghost use Rattle.cic_terms.specs.Denotes.{tree};
ghost use Rattle.cic_terms.specs.calls.Kinds.{IsCase};
ghost use Rattle.cic_counted.specs.Evaluation.{whnf_from};
ghost use Rattle.cic_counted.specs.Inference.{calls_from, infer_step};
ghost use Rattle.cic_counted.specs.Readings.{arguments_of};
ghost use Rattle.cic_env.specs.Contexts.{context};
ghost use Rattle.cic_env.specs.Environments.{items};
ghost use Rattle.cic_spines.specs.Lists.{shared_tree, shared_trees};
ghost use Rattle.cic_work.specs.calls.Counting.{Counts, budget};
ghost use Rattle.cic_typing.specs.calls.Matches.{match_at, match_steps, match_under, match_with, typed_match};

use crate::branches::check_branches;
use crate::deeper::deeper;
use crate::inference::{expose, infer};
use crate::motives::check_motive;
use crate::requirements::{require_branches, require_type};
use cic_env::{Context, Env, IndType};
use cic_names::GlobalId;
use cic_spines::arguments;
use cic_terms::{Branch, Term};
use cic_work::{Evaluator, Stop, Work};
use std::alloc::Global;
use std::rc::Rc;
use typing_parts::{index_count, match_type, require_shape, type_in_block, whole_block};

/// A match on a type of a whole block, with the number of the block's parameters and of the type's indices.
#[derive(Drop)]
pub(crate) struct Match<'m> {
    pub ind: &'m GlobalId,
    pub arity: u32,
    pub motive: &'m Rc<Term>,
    pub scrutinee: &'m Rc<Term>,
    pub branches: &'m [Branch],
    pub ty: &'m IndType,
    pub parameters: u32,
    pub indices: u32,
}

/// The type of a match, where the parameters and the indices' values are those of the value's type.
#[cycle(typing)]
#[tactic(auto, using(cic_work::proofs::Depths::stops_on))]
fn match_with<E: Evaluator>(
    alloc: Global,
    e: &mut E,
    env: &Env,
    ctx: &mut Context,
    m: &Match<'_>,
    parameters: &[Rc<Term>],
    values: &[Rc<Term>],
    work: &mut Work,
) -> Result<Rc<Term>, Stop>
    requires depth { work.old.depth ≤ 2000 }
    requires branches { length m.now.ty.now.ctors.items ≡ length m.now.branches.now }
    ensures answer { Counts shared_tree result (budget work.new) (match_with (calls_from (work.old.depth + 1) (items env.now)) (context ctx.old) m.now (shared_trees parameters.now) (shared_trees values.now) (budget work.old)) }
    ensures context { context ctx.new ≡ context ctx.old }
    ensures depth { work.new.depth ≡ work.old.depth }
    ensures rest { work.new.rest ≤ work.old.rest }
{
    check_motive(alloc, e, env, ctx, m, parameters, work)?;
    check_branches(alloc, e, env, ctx, m, parameters, work)?;
    match_type(alloc, m.motive, values, m.scrutinee, work)
}

/// The type of a match whose value has the type `found`, which is that of the match.
#[cycle(typing)]
#[tactic(auto, using(cic_limits::proofs::Telescopes::same_count))]
fn match_under<E: Evaluator>(
    alloc: Global,
    e: &mut E,
    env: &Env,
    ctx: &mut Context,
    m: &Match<'_>,
    found: &Term,
    work: &mut Work,
) -> Result<Rc<Term>, Stop>
    requires depth { work.old.depth ≤ 2000 }
    requires count { length (arguments_of (tree found.now)) ≡ m.now.parameters + m.now.indices }
    requires branches { length m.now.ty.now.ctors.items ≡ length m.now.branches.now }
    ensures answer { Counts shared_tree result (budget work.new) (match_under (calls_from (work.old.depth + 1) (items env.now)) (context ctx.old) m.now (tree found.now) (budget work.old)) }
    ensures context { context ctx.new ≡ context ctx.old }
    ensures depth { work.new.depth ≡ work.old.depth }
    ensures rest { work.new.rest ≤ work.old.rest }
{
    let own = arguments(alloc, found)?;
    let (parameters, values) = own.as_slice().split_at(m.parameters as usize);
    match_with(alloc, e, env, ctx, m, parameters, values, work)
}

/// The type of a match whose value has the type `found`, in weak head form.
#[cycle(typing)]
#[tactic(auto, using(cic_work::proofs::Depths::stops_on))]
fn match_at<E: Evaluator>(
    alloc: Global,
    e: &mut E,
    env: &Env,
    ctx: &mut Context,
    m: &Match<'_>,
    found: &Term,
    work: &mut Work,
) -> Result<Rc<Term>, Stop>
    requires { work.old.depth ≤ 2000 }
    ensures answer { Counts shared_tree result (budget work.new) (match_at (calls_from (work.old.depth + 1) (items env.now)) (context ctx.old) m.now (tree found.now) (budget work.old)) }
    ensures context { context ctx.new ≡ context ctx.old }
    ensures depth { work.new.depth ≡ work.old.depth }
    ensures rest { work.new.rest ≤ work.old.rest }
{
    require_type(alloc, ctx, m, found, work)?;
    require_branches(alloc, m, work)?;
    match_under(alloc, e, env, ctx, m, found, work)
}

/// The type of a match on a type of a whole block, step by step.
#[cycle(typing)]
#[tactic(auto, using(cic_work::proofs::Depths::stops_on))]
fn match_steps<E: Evaluator>(
    alloc: Global,
    e: &mut E,
    env: &Env,
    ctx: &mut Context,
    m: &Match<'_>,
    work: &mut Work,
) -> Result<Rc<Term>, Stop>
    requires { work.old.depth ≤ 2000 }
    ensures answer { Counts shared_tree result (budget work.new) (match_steps (whnf_from (work.old.depth + 1) (items env.now) (context ctx.old)) (calls_from (work.old.depth + 1) (items env.now)) (context ctx.old) m.now (budget work.old)) }
    ensures context { context ctx.new ≡ context ctx.old }
    ensures depth { work.new.depth ≡ work.old.depth }
    ensures rest { work.new.rest ≤ work.old.rest }
{
    let inferred = deeper!(work, infer(alloc, e, env, ctx, m.scrutinee, work));
    let found = expose(alloc, e, env, ctx, &inferred, work)?;
    match_at(alloc, e, env, ctx, m, &found, work)
}

/// The type of a match on a type of a whole block.
#[cycle(typing)]
fn infer_match<E: Evaluator>(
    alloc: Global,
    e: &mut E,
    env: &Env,
    ctx: &mut Context,
    m: &Match<'_>,
    work: &mut Work,
) -> Result<Rc<Term>, Stop>
    requires { work.old.depth ≤ 2000 }
    ensures answer { Counts shared_tree result (budget work.new) (typed_match (whnf_from (work.old.depth + 1) (items env.now) (context ctx.old)) (calls_from (work.old.depth + 1) (items env.now)) (context ctx.old) m.now (budget work.old)) }
    ensures context { context ctx.new ≡ context ctx.old }
    ensures depth { work.new.depth ≡ work.old.depth }
    ensures rest { work.new.rest ≤ work.old.rest }
{
    match_steps(alloc, e, env, ctx, m, work)
}

/// The type of a match, in a call of typing that is entered.
#[cycle(typing)]
#[tactic(auto, using(cic_work::proofs::Depths::stops_on))]
pub(crate) fn infer_case<E: Evaluator>(
    alloc: Global,
    e: &mut E,
    env: &Env,
    ctx: &mut Context,
    t: &Term,
    work: &mut Work,
) -> Result<Rc<Term>, Stop>
    requires depth { work.old.depth ≤ 2000 }
    requires kind { IsCase t.now }
    ensures answer { Counts shared_tree result (budget work.new) (infer_step (whnf_from (work.old.depth + 1) (items env.now)) (calls_from (work.old.depth + 1) (items env.now)) (items env.now) (context ctx.old) (tree t.now) (budget work.old)) }
    ensures context { context ctx.new ≡ context ctx.old }
    ensures depth { work.new.depth ≡ work.old.depth }
    ensures rest { work.new.rest ≤ work.old.rest }
{
    match t {
        Term::Case {
            arity,
            ind,
            motive,
            scrutinee,
            branches,
        } => {
            let (block, index) = whole_block(alloc, env, ind, work)?;
            require_shape(alloc, ind, block, work)?;
            let ty = type_in_block(alloc, ind, block, index, work)?;
            let m = Match {
                ind,
                arity: *arity,
                motive,
                scrutinee,
                branches: branches.as_slice(),
                ty,
                parameters: block.params,
                indices: index_count(block.params, ty)?,
            };
            infer_match(alloc, e, env, ctx, &m, work)
        }
        _ => unreachable!(),
    }
}
