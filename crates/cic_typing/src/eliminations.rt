//! Elimination of a type into the sort of a motive. Coq Reference Manual, "Theory of inductive definitions".
ghost use Rattle.std.specs.Prelude.{◌≡◌, ◌≤◌, ◌+◌, [], IfOk, drop, take};
ghost use Rattle.cic_terms.specs.Denotes.{tree, tree_sort};
ghost use Rattle.cic_rules.specs.Telescopes.{domains_of, extend};
ghost use Rattle.cic_counted.specs.Inference.{all_propositions, calls_from, eliminates, eliminates_constructors, is_prop};
ghost use Rattle.cic_counted.specs.Outcome.{bad_elimination, require};
ghost use Rattle.cic_env.specs.Contexts.{context};
ghost use Rattle.cic_env.specs.Declarations.{type_declaration};
ghost use Rattle.cic_env.specs.Environments.{items};
ghost use Rattle.cic_ind.specs.Eliminations.{targets};
ghost use Rattle.cic_ind.specs.declared.eliminations.Targets.TheVariants.{IfArgumentsProp};
ghost use Rattle.cic_work.specs.Verdicts.{cause_of};
ghost use Rattle.cic_work.specs.calls.Counting.{Counts, StopsWith, budget, no_value};

use crate::deeper::deeper;
use crate::inference::sort_of;
use crate::matches::Match;
use cic_env::{Cause, Context, CtorDecl, Env};
use cic_ind::{Targets, elimination};
use cic_limits::{enter_products, push_assumed};
use cic_names::{GlobalId, Sort};
use cic_terms::Term;
use cic_work::{Evaluator, Stop, Work};
use memory::NoMemory;
use std::alloc::Global;

fn elimination_fault(id: &GlobalId) -> Result<Cause, NoMemory>
    ensures { IfOk result (λ cause. cause_of cause ≡ bad_elimination id.now) }
{
    let ind = id.clone()?;
    Ok(Cause::BadElimination { ind })
}

/// The refusal of a match on that type, since it may not have its sort.
#[inline(never)]
fn bad_elimination(alloc: Global, id: &GlobalId) -> Stop
    ensures { StopsWith result (bad_elimination id.now) }
{
    match elimination_fault(id) {
        Ok(cause) => Stop::refuse(alloc, cause),
        Err(_) => Stop::NoMemory,
    }
}

fn is_prop(s: &Sort) -> bool
    ensures { result ≡ is_prop (tree_sort s.now) }
{
    match s {
        Sort::Prop => true,
        _ => false,
    }
}

/// The sort is Prop.
fn require_prop(alloc: Global, id: &GlobalId, s: &Sort, work: &Work) -> Result<(), Stop>
    ensures { Counts no_value result (budget work.now) (require (is_prop (tree_sort s.now)) (bad_elimination id.now) (budget work.now)) }
{
    if is_prop(s) {
        return Ok(());
    }
    Err(bad_elimination(alloc, id))
}

/// Each domain of the type is a proposition under the earlier ones. The domains are in the context afterwards.
#[cycle(typing)]
#[tactic(auto, using(cic_work::proofs::Depths::stops_on))]
fn all_propositions<E: Evaluator>(
    alloc: Global,
    e: &mut E,
    env: &Env,
    ctx: &mut Context,
    id: &GlobalId,
    t: &Term,
    work: &mut Work,
) -> Result<(), Stop>
    requires { work.old.depth ≤ 2000 }
    ensures answer { Counts no_value result (budget work.new) (all_propositions (calls_from (work.old.depth + 1) (items env.now)) id.now (context ctx.old) (domains_of (tree t.now)) (budget work.old)) }
    ensures depth { work.new.depth ≡ work.old.depth }
    ensures rest { work.new.rest ≤ work.old.rest }
{
    let mut at = t;
    while let Term::Prod(domain, rest) = at {
        let s = deeper!(work, sort_of(alloc, e, env, ctx, domain, work));
        require_prop(alloc, id, &s, work)?;
        push_assumed(ctx, domain)?;
        at = rest;
    }
    Ok(())
}

/// Each argument of the constructor is a proposition, in the context of the parameters and the earlier arguments alone.
#[cycle(typing)]
#[tactic(auto, using(cic_work::proofs::Depths::stops_on))]
fn arguments_are_propositions<E: Evaluator>(
    alloc: Global,
    e: &mut E,
    env: &Env,
    m: &Match<'_>,
    ctor: &CtorDecl,
    work: &mut Work,
) -> Result<(), Stop>
    requires { work.old.depth ≤ 2000 }
    ensures answer { Counts no_value result (budget work.new) (all_propositions (calls_from (work.old.depth + 1) (items env.now)) m.now.ind.now (extend [] (take m.now.parameters (domains_of (tree ctor.now.ty)))) (drop m.now.parameters (domains_of (tree ctor.now.ty))) (budget work.old)) }
    ensures depth { work.new.depth ≡ work.old.depth }
    ensures rest { work.new.rest ≤ work.old.rest }
{
    let mut ctx = Context::new(alloc);
    let rest = enter_products(&mut ctx, m.parameters, &ctor.ty)?;
    all_propositions(alloc, e, env, &mut ctx, m.ind, rest, work)
}

/// The arguments of the type's one constructor are propositions.
#[cycle(typing)]
fn one_constructor<E: Evaluator>(
    alloc: Global,
    e: &mut E,
    env: &Env,
    m: &Match<'_>,
    work: &mut Work,
) -> Result<(), Stop>
    requires depth { work.old.depth ≤ 2000 }
    requires one { targets (type_declaration m.now.ty.now) ≡ IfArgumentsProp }
    ensures answer { Counts no_value result (budget work.new) (eliminates_constructors (calls_from (work.old.depth + 1) (items env.now)) m.now.ind.now m.now.parameters (type_declaration m.now.ty.now).constructors (budget work.old)) }
    ensures depth { work.new.depth ≡ work.old.depth }
    ensures rest { work.new.rest ≤ work.old.rest }
{
    match m.ty.ctors.as_slice() {
        [only] => arguments_are_propositions(alloc, e, env, m, only, work),
        _ => unreachable!(),
    }
}

/// The type eliminates into the sort.
#[cycle(typing)]
#[tactic(auto, using(crate::proofs::Eliminating::into_prop, crate::proofs::Eliminating::into_all, crate::proofs::Eliminating::into_prop_only, crate::proofs::Eliminating::by_arguments))]
pub(crate) fn eliminates<E: Evaluator>(
    alloc: Global,
    e: &mut E,
    env: &Env,
    m: &Match<'_>,
    s: &Sort,
    work: &mut Work,
) -> Result<(), Stop>
    requires { work.old.depth ≤ 2000 }
    ensures answer { Counts no_value result (budget work.new) (eliminates (calls_from (work.old.depth + 1) (items env.now)) m.now.ind.now m.now.parameters (type_declaration m.now.ty.now) (tree_sort s.now) (budget work.old)) }
    ensures depth { work.new.depth ≡ work.old.depth }
    ensures rest { work.new.rest ≤ work.old.rest }
{
    if is_prop(s) {
        return Ok(());
    }
    match elimination(m.ty) {
        Targets::All => Ok(()),
        Targets::PropOnly => Err(bad_elimination(alloc, m.ind)),
        Targets::IfArgumentsProp => one_constructor(alloc, e, env, m, work),
    }
}
