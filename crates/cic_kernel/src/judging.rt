//! A declaration by its kind.
ghost use Rattle.std.specs.Prelude.{◌≡◌, ◌≤◌, [], IfOk};
ghost use Rattle.cic_terms.specs.Denotes.{tree};
ghost use Rattle.cic_rules.specs.Environment.{declared_ids, environment_ids, type_ids};
ghost use Rattle.cic_counted.specs.Checking.{all_visible, judge, take_found};
ghost use Rattle.cic_counted.specs.Inference.{calls_from};
ghost use Rattle.cic_counted.specs.Outcome.{done};
ghost use Rattle.cic_env.specs.Declarations.{block, declaration};
ghost use Rattle.cic_env.specs.Environments.{items};
ghost use Rattle.cic_env.specs.NewIds.{AreNew};
ghost use Rattle.cic_spines.specs.Lists.{shared_tree};
ghost use Rattle.cic_work.specs.calls.Counting.{Counts, budget, no_value};
ghost use Rattle.cic_kernel.specs.calls.Judging.{AcceptsWith, block_judged, definition_judged, proof_judged, split_of, type_judged};

use crate::blocks::check_block;
use crate::telescopes::closed_sort;
use cic_env::{Block, Context, Decl, Env, Found, Verdict};
use cic_names::Constraints;
use cic_terms::Term;
use cic_typing::check;
use cic_work::{Evaluator, Stop, Work};
use memory::NoMemory;
use std::alloc::Global;
use std::rc::Rc;

/// The constraints that a declaration needs: those that everyone sees, and those of an opaque body.
#[derive(Drop)]
pub(crate) struct Split {
    pub(crate) visible: Constraints,
    pub(crate) proofs: Constraints,
}

/// The verdict that accepts, after so many steps.
pub(crate) fn accepted(split: Split, steps: u32) -> Verdict<Found>
    ensures { AcceptsWith result split steps }
{
    Verdict::Done(Found {
        visible: split.visible,
        proofs: split.proofs,
        steps,
    })
}

/// The constraints found so far, which then start anew.
fn take_found(alloc: Global, work: &mut Work) -> Constraints
    ensures taken { take_found (budget work.old) ≡ done result (budget work.new) }
    ensures depth { work.new.depth ≡ work.old.depth }
    ensures rest { work.new.rest ≡ work.old.rest }
{
    std::mem::replace(&mut work.found, Constraints::new(alloc))
}

/// All constraints found so far are visible.
fn all_visible(alloc: Global, work: &mut Work) -> Split
    ensures split { all_visible (budget work.old) ≡ done (split_of result) (budget work.new) }
    ensures depth { work.new.depth ≡ work.old.depth }
    ensures rest { work.new.rest ≡ work.old.rest }
{
    Split {
        visible: take_found(alloc, work),
        proofs: Constraints::new(alloc),
    }
}

/// The same term behind a pointer. It shares its parts.
#[inline(never)]
fn shared_copy(alloc: Global, t: &Term) -> Result<Rc<Term>, NoMemory>
    ensures { IfOk result (λ r. shared_tree r ≡ tree t.now) }
{
    Ok(Rc::new(alloc, t.clone()?)?)
}

/// A body without variables has its type.
fn check_closed<E: Evaluator>(
    alloc: Global,
    e: &mut E,
    env: &Env,
    body: &Term,
    ty: &Term,
    work: &mut Work,
) -> Result<(), Stop>
    requires { work.old.depth ≡ 1 }
    ensures answer { Counts no_value result (budget work.new) ((calls_from 1 (items env.now)).check [] (tree body.now) (tree ty.now) (budget work.old)) }
    ensures depth { work.new.depth ≡ work.old.depth }
    ensures rest { work.new.rest ≤ work.old.rest }
{
    let ty = shared_copy(alloc, ty)?;
    let mut ctx = Context::new(alloc);
    check(alloc, e, env, &mut ctx, body, &ty, work)
}

/// A type alone.
#[tactic(auto, using(cic_work::proofs::Depths::stops_on))]
fn judge_type<E: Evaluator>(
    alloc: Global,
    e: &mut E,
    env: &Env,
    ty: &Term,
    work: &mut Work,
) -> Result<Split, Stop>
    requires { work.old.depth ≡ 1 }
    ensures answer { Counts split_of result (budget work.new) (type_judged (items env.now) (tree ty.now) (budget work.old)) }
    ensures depth { work.new.depth ≡ work.old.depth }
    ensures rest { work.new.rest ≤ work.old.rest }
{
    let _sort = closed_sort(alloc, e, env, ty, work)?;
    Ok(all_visible(alloc, work))
}

/// A type and a body that unfolds.
#[tactic(auto, using(cic_work::proofs::Depths::stops_on))]
fn judge_definition<E: Evaluator>(
    alloc: Global,
    e: &mut E,
    env: &Env,
    ty: &Term,
    body: &Term,
    work: &mut Work,
) -> Result<Split, Stop>
    requires { work.old.depth ≡ 1 }
    ensures answer { Counts split_of result (budget work.new) (definition_judged (items env.now) (tree ty.now) (tree body.now) (budget work.old)) }
    ensures depth { work.new.depth ≡ work.old.depth }
    ensures rest { work.new.rest ≤ work.old.rest }
{
    let _sort = closed_sort(alloc, e, env, ty, work)?;
    check_closed(alloc, e, env, body, ty, work)?;
    Ok(all_visible(alloc, work))
}

/// A type and an opaque body, whose constraints are kept apart.
#[tactic(auto, using(cic_work::proofs::Depths::stops_on))]
fn judge_proof<E: Evaluator>(
    alloc: Global,
    e: &mut E,
    env: &Env,
    ty: &Term,
    body: &Term,
    work: &mut Work,
) -> Result<Split, Stop>
    requires { work.old.depth ≡ 1 }
    ensures answer { Counts split_of result (budget work.new) (proof_judged (items env.now) (tree ty.now) (tree body.now) (budget work.old)) }
    ensures depth { work.new.depth ≡ work.old.depth }
    ensures rest { work.new.rest ≤ work.old.rest }
{
    let _sort = closed_sort(alloc, e, env, ty, work)?;
    let visible = take_found(alloc, work);
    check_closed(alloc, e, env, body, ty, work)?;
    Ok(Split {
        visible,
        proofs: take_found(alloc, work),
    })
}

/// A block.
#[tactic(auto, using(cic_work::proofs::Depths::stops_on))]
fn judge_block<E: Evaluator>(
    alloc: Global,
    e: &mut E,
    env: &mut Env,
    b: &Block,
    work: &mut Work,
) -> Result<Split, Stop>
    requires depth { work.old.depth ≡ 1 }
    requires new { AreNew (environment_ids (items env.old)) (type_ids (block b.now).types) }
    ensures answer { Counts split_of result (budget work.new) (block_judged (items env.old) (block b.now) (budget work.old)) }
    ensures same { items env.new ≡ items env.old }
    ensures depth { work.new.depth ≡ work.old.depth }
    ensures rest { work.new.rest ≤ work.old.rest }
{
    check_block(alloc, e, env, b, work)?;
    Ok(all_visible(alloc, work))
}

/// A declaration over the earlier ones: a type has a sort, and a body has its type.
pub(crate) fn judge<E: Evaluator>(
    alloc: Global,
    e: &mut E,
    env: &mut Env,
    decl: &Decl,
    work: &mut Work,
) -> Result<Split, Stop>
    requires depth { work.old.depth ≡ 1 }
    requires new { AreNew (environment_ids (items env.old)) (declared_ids (declaration decl.now)) }
    ensures answer { Counts split_of result (budget work.new) (judge (items env.old) (declaration decl.now) (budget work.old)) }
    ensures same { items env.new ≡ items env.old }
    ensures rest { work.new.rest ≤ work.old.rest }
{
    match decl {
        Decl::Axiom { ty, .. } => judge_type(alloc, e, env, ty, work),
        Decl::Transparent { ty, body, .. } => judge_definition(alloc, e, env, ty, body, work),
        Decl::Opaque {
            ty,
            body: Some(body),
            ..
        } => judge_proof(alloc, e, env, ty, body, work),
        Decl::Opaque { ty, body: None, .. } => judge_type(alloc, e, env, ty, work),
        Decl::Inductive(block) => judge_block(alloc, e, env, block, work),
    }
}
