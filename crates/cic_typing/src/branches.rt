//! The branches of a match.
ghost use Rattle.std.specs.Prelude.{◌≡◌, ◌≤◌, ◌+◌, ◌-◌, length, map, nat_eq};
ghost use Rattle.cic_terms.specs.Denotes.{branch_list, tree};
ghost use Rattle.cic_rules.specs.Telescopes.{domains_of, extend};
ghost use Rattle.cic_counted.specs.Inference.{are_branches, calls_from, check_branches};
ghost use Rattle.cic_env.specs.Contexts.{context};
ghost use Rattle.cic_env.specs.Declarations.{constructor_declaration, type_declaration};
ghost use Rattle.cic_env.specs.Environments.{items};
ghost use Rattle.cic_spines.specs.Lists.{shared_tree, shared_trees};
ghost use Rattle.cic_work.specs.calls.Counting.{Counts, budget, no_value};
ghost use Rattle.cic_typing.specs.calls.Matches.{check_branch};

use crate::inference::check;
use crate::matches::Match;
use cic_env::{Context, CtorDecl, Env};
use cic_limits::{enter, leave};
use cic_terms::{Branch, Term};
use cic_work::{Evaluator, Stop, Work};
use std::alloc::Global;
use std::rc::Rc;
use typing_parts::{argument_types, branch_type, product_count};

/// Whether a branch binds as many variables as the constructor has arguments behind the parameters.
fn binds_arguments(parameters: u32, ctor: &CtorDecl, branch: &Branch) -> bool
    ensures { result ≡ nat_eq branch.now.binders (length (domains_of (tree ctor.now.ty)) - parameters) }
{
    product_count(&ctor.ty).saturating_sub(u64::from(parameters)) == u64::from(branch.binders)
}

/// Whether the branches are one for each constructor, in order, each under as many binders as the constructor has arguments.
#[tactic(auto, using(crate::proofs::Branching::other_count))]
pub(crate) fn are_branches(parameters: u32, ctors: &[CtorDecl], branches: &[Branch]) -> bool
    ensures { result ≡ are_branches parameters (map constructor_declaration ctors.now) (branch_list branches.now) }
{
    if ctors.len() != branches.len() {
        return false;
    }
    for i in 0..ctors.len() {
        if !binds_arguments(parameters, &ctors[i], &branches[i]) {
            return false;
        }
    }
    true
}

/// The term has the type, under entries of these types.
#[cycle(typing)]
#[tactic(auto, using(cic_limits::proofs::Telescopes::drop_entered))]
fn check_under<E: Evaluator>(
    alloc: Global,
    e: &mut E,
    env: &Env,
    ctx: &mut Context,
    types: &[Rc<Term>],
    t: &Term,
    ty: &Rc<Term>,
    work: &mut Work,
) -> Result<(), Stop>
    requires { work.old.depth ≤ 2000 }
    ensures answer { Counts no_value result (budget work.new) ((calls_from (work.old.depth + 1) (items env.now)).check (extend (context ctx.old) (shared_trees types.now)) (tree t.now) (shared_tree ty.now) (budget work.old)) }
    ensures context { context ctx.new ≡ context ctx.old }
    ensures depth { work.new.depth ≡ work.old.depth }
    ensures rest { work.new.rest ≤ work.old.rest }
{
    enter(ctx, types)?;
    work.depth += 1;
    let answer = check(alloc, e, env, ctx, t, ty, work);
    work.depth -= 1;
    leave(ctx, types.len() as u64);
    answer
}

/// The branch of a constructor has its type under the constructor's arguments.
#[cycle(typing)]
#[tactic(auto, using(cic_work::proofs::Depths::stops_on))]
fn check_branch<E: Evaluator>(
    alloc: Global,
    e: &mut E,
    env: &Env,
    ctx: &mut Context,
    m: &Match<'_>,
    parameters: &[Rc<Term>],
    ctor: &CtorDecl,
    branch: &Branch,
    work: &mut Work,
) -> Result<(), Stop>
    requires { work.old.depth ≤ 2000 }
    ensures answer { Counts no_value result (budget work.new) (check_branch (calls_from (work.old.depth + 1) (items env.now)) (context ctx.old) m.now.indices (shared_trees parameters.now) (shared_tree m.now.motive.now) (constructor_declaration ctor.now) (tree branch.now.body) (budget work.old)) }
    ensures context { context ctx.new ≡ context ctx.old }
    ensures depth { work.new.depth ≡ work.old.depth }
    ensures rest { work.new.rest ≤ work.old.rest }
{
    let types = argument_types(alloc, ctor, parameters, work)?;
    let goal = branch_type(alloc, m.indices, parameters, m.motive, ctor, work)?;
    check_under(
        alloc,
        e,
        env,
        ctx,
        types.as_slice(),
        &branch.body,
        &goal,
        work,
    )
}

/// Each branch has its type under its constructor's arguments.
#[cycle(typing)]
#[tactic(auto, using(crate::proofs::Branching::no_more))]
pub(crate) fn check_branches<E: Evaluator>(
    alloc: Global,
    e: &mut E,
    env: &Env,
    ctx: &mut Context,
    m: &Match<'_>,
    parameters: &[Rc<Term>],
    work: &mut Work,
) -> Result<(), Stop>
    requires depth { work.old.depth ≤ 2000 }
    requires count { length m.now.ty.now.ctors.items ≡ length m.now.branches.now }
    ensures answer { Counts no_value result (budget work.new) (check_branches (calls_from (work.old.depth + 1) (items env.now)) (context ctx.old) m.now.indices (shared_trees parameters.now) (shared_tree m.now.motive.now) (type_declaration m.now.ty.now).constructors (branch_list m.now.branches.now) (budget work.old)) }
    ensures context { context ctx.new ≡ context ctx.old }
    ensures depth { work.new.depth ≡ work.old.depth }
    ensures rest { work.new.rest ≤ work.old.rest }
{
    let ctors = m.ty.ctors.as_slice();
    let branches = m.branches;
    for i in 0..ctors.len() {
        check_branch(
            alloc,
            e,
            env,
            ctx,
            m,
            parameters,
            &ctors[i],
            &branches[i],
            work,
        )?;
    }
    Ok(())
}
