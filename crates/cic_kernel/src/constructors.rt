//! The constructors of a block, over its types taken bare. Coq Reference Manual, "Theory of inductive definitions": the sort of each argument.
ghost use Rattle.std.specs.Prelude.{◌≡◌, ◌≤◌, map};
ghost use Rattle.std.specs.Option.{option_map};
ghost use Rattle.cic_terms.specs.Denotes.{tree, tree_sort};
ghost use Rattle.cic_rules.specs.Telescopes.{conclusion_of, domains_of};
ghost use Rattle.cic_counted.specs.Checking.{argument_at_most, check_arguments, check_constructor, check_constructors, check_types};
ghost use Rattle.cic_counted.specs.Inference.{calls_from};
ghost use Rattle.cic_counted.specs.Outcome.{follow};
ghost use Rattle.cic_env.specs.Contexts.{context};
ghost use Rattle.cic_env.specs.Declarations.{constructor_declaration, type_declaration};
ghost use Rattle.cic_env.specs.Environments.{items};
ghost use Rattle.cic_work.specs.calls.Counting.{Counts, budget, no_value};

use crate::faults::bad_constructor;
use crate::telescopes::ending_sort;
use cic_conv::sorts_at_most;
use cic_env::{Context, CtorDecl, Env, IndType};
use cic_limits::{enter_products, push_assumed};
use cic_names::Sort;
use cic_terms::Term;
use cic_typing::sort_of;
use cic_work::{Evaluator, Stop, Work};
use std::alloc::Global;

/// The sort of an argument is at most that of the type, unless the type is a proposition.
fn argument_at_most(
    alloc: Global,
    ctx: &Context,
    argument: &Sort,
    ty: &Sort,
    work: &mut Work,
) -> Result<(), Stop>
    ensures answer { Counts no_value result (budget work.new) (argument_at_most (context ctx.now) (tree_sort argument.now) (tree_sort ty.now) (budget work.old)) }
    ensures depth { work.new.depth ≡ work.old.depth }
    ensures rest { work.new.rest ≡ work.old.rest }
{
    match ty {
        Sort::Prop => Ok(()),
        _ => sorts_at_most(alloc, ctx, argument, ty, work),
    }
}

/// One argument of a constructor, and the comparison of its sort.
#[tactic(auto, using(cic_work::proofs::Depths::stops_on))]
fn check_argument<E: Evaluator>(
    alloc: Global,
    e: &mut E,
    env: &Env,
    ctx: &mut Context,
    sort: &Sort,
    argument: &Term,
    work: &mut Work,
) -> Result<(), Stop>
    requires { work.old.depth ≡ 1 }
    ensures answer { Counts no_value result (budget work.new) (follow ((calls_from 1 (items env.now)).sort_of (context ctx.old) (tree argument.now) (budget work.old)) (λ s. argument_at_most (context ctx.old) s (tree_sort sort.now))) }
    ensures context { context ctx.new ≡ context ctx.old }
    ensures depth { work.new.depth ≡ work.old.depth }
    ensures rest { work.new.rest ≤ work.old.rest }
{
    let found = sort_of(alloc, e, env, ctx, argument, work)?;
    argument_at_most(alloc, ctx, &found, sort, work)
}

/// The arguments of a constructor, each under the earlier ones, and its conclusion under all of them. `ty` is what stands under the products of the parameters, which the context has.
#[tactic(auto, using(cic_work::proofs::Depths::stops_on))]
fn check_arguments<E: Evaluator>(
    alloc: Global,
    e: &mut E,
    env: &Env,
    ctx: &mut Context,
    sort: &Sort,
    ty: &Term,
    work: &mut Work,
) -> Result<(), Stop>
    requires { work.old.depth ≡ 1 }
    ensures answer { Counts no_value result (budget work.new) (check_arguments (calls_from 1 (items env.now)) (context ctx.old) (tree_sort sort.now) (domains_of (tree ty.now)) (conclusion_of (tree ty.now)) (budget work.old)) }
    ensures depth { work.new.depth ≡ work.old.depth }
    ensures rest { work.new.rest ≤ work.old.rest }
{
    let mut at = ty;
    while let Term::Prod(domain, rest) = at {
        check_argument(alloc, e, env, ctx, sort, domain, work)?;
        push_assumed(ctx, domain)?;
        at = rest;
    }
    let _sort = sort_of(alloc, e, env, ctx, at, work)?;
    Ok(())
}

/// A constructor of a type in that sort, over the parameters' domains of its own type.
#[tactic(auto, using(cic_work::proofs::Depths::stops_on))]
fn check_constructor<E: Evaluator>(
    alloc: Global,
    e: &mut E,
    env: &Env,
    params: u32,
    sort: Option<&Sort>,
    ctor: &CtorDecl,
    work: &mut Work,
) -> Result<(), Stop>
    requires { work.old.depth ≡ 1 }
    ensures answer { Counts no_value result (budget work.new) (check_constructor (calls_from 1 (items env.now)) params (option_map (λ s. tree_sort s.now) sort.entry) (constructor_declaration ctor.now) (budget work.old)) }
    ensures depth { work.new.depth ≡ work.old.depth }
    ensures rest { work.new.rest ≤ work.old.rest }
{
    let Some(sort) = sort else {
        return Err(bad_constructor(alloc, &ctor.id));
    };
    let mut ctx = Context::new(alloc);
    let rest = enter_products(&mut ctx, params, &ctor.ty)?;
    check_arguments(alloc, e, env, &mut ctx, sort, rest, work)
}

/// The constructors of a type in that sort, in order.
#[tactic(auto, using(cic_work::proofs::Depths::stops_on))]
fn check_constructors<E: Evaluator>(
    alloc: Global,
    e: &mut E,
    env: &Env,
    params: u32,
    sort: Option<&Sort>,
    ctors: &[CtorDecl],
    work: &mut Work,
) -> Result<(), Stop>
    requires { work.old.depth ≡ 1 }
    ensures answer { Counts no_value result (budget work.new) (check_constructors (calls_from 1 (items env.now)) params (option_map (λ s. tree_sort s.now) sort.entry) (map constructor_declaration ctors.now) (budget work.old)) }
    ensures depth { work.new.depth ≡ work.old.depth }
    ensures rest { work.new.rest ≤ work.old.rest }
{
    for ctor in ctors {
        check_constructor(alloc, e, env, params, sort, ctor, work)?;
    }
    Ok(())
}

/// The constructors of each type, in order. The environment has the types bare.
#[tactic(auto, using(cic_work::proofs::Depths::stops_on))]
pub(crate) fn check_types<E: Evaluator>(
    alloc: Global,
    e: &mut E,
    env: &Env,
    params: u32,
    types: &[IndType],
    work: &mut Work,
) -> Result<(), Stop>
    requires { work.old.depth ≡ 1 }
    ensures answer { Counts no_value result (budget work.new) (check_types (calls_from 1 (items env.now)) params (map type_declaration types.now) (budget work.old)) }
    ensures depth { work.new.depth ≡ work.old.depth }
    ensures rest { work.new.rest ≤ work.old.rest }
{
    for ty in types {
        let sort = ending_sort(&ty.arity);
        check_constructors(alloc, e, env, params, sort, ty.ctors.as_slice(), work)?;
    }
    Ok(())
}
