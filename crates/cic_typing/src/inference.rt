//! The counted calls of typing.
ghost use Rattle.std.specs.Prelude.{◌≡◌, ◌≤◌, ◌+◌, ◌<◌, ◌^◌, length, map};
ghost use Rattle.cic_terms.specs.Denotes.{tree, tree_sort};
ghost use Rattle.cic_terms.specs.Tree.{prod, lam, app};
ghost use Rattle.cic_terms.specs.calls.Kinds.{IsLet, IsFix};
ghost use Rattle.cic_rules.specs.Telescopes.{function_types};
ghost use Rattle.cic_counted.specs.Evaluation.{whnf_from};
ghost use Rattle.cic_counted.specs.Inference.{calls_from, check_bodies, expose, function_context, sort_each};
ghost use Rattle.cic_counted.specs.Outcome.{follow};
ghost use Rattle.cic_env.specs.Contexts.{context};
ghost use Rattle.cic_env.specs.Environments.{items};
ghost use Rattle.cic_spines.specs.Fixes.{function_of, functions};
ghost use Rattle.cic_spines.specs.Lists.{shared_tree};
ghost use Rattle.cic_work.specs.calls.Counting.{Counts, budget, no_value};
ghost use Rattle.cic_typing.specs.calls.Parts.{IsInside, function_step, step_at};

use crate::deeper::deeper;
use crate::functions::{count, each, enter_functions, guard, lifted_type};
use crate::matches::infer_case;
use cic_env::{Context, Env};
use cic_limits::{fitting_body, leave_to, pop_one, push_assumed, push_defined, put_in};
use cic_names::Sort;
use cic_spines::function_type;
use cic_terms::{FixBodies, FixBody, Term};
use cic_work::{Evaluator, Stop, Work};
use std::alloc::Global;
use std::rc::Rc;
use typing_parts::{
    arity_of_type, as_product, as_sort, is_same, product_over, type_of_constant,
    type_of_constructor, type_of_product, type_of_sort, type_of_variable, unguarded,
};

/// A call one deeper under one more variable, which `enter` puts into the context, whose stop is this one's.
macro_rules! under {
    ($work:expr, $ctx:expr, $enter:expr, $call:expr) => {{
        $enter?;
        $work.depth += 1;
        let answer = $call;
        $work.depth -= 1;
        pop_one($ctx);
        answer?
    }};
}

/// The type of a term. Coq Reference Manual, "Typing rules".
///
/// The call is counted, at the depth that `work` has, which is at most 2,001, and leaves the context as it was.
#[cycle(typing)]
#[tactic(auto, using(cic_work::proofs::Depths::infer_is, cic_work::proofs::Depths::stops_on))]
pub fn infer<E: Evaluator>(
    alloc: Global,
    e: &mut E,
    env: &Env,
    ctx: &mut Context,
    t: &Term,
    work: &mut Work,
) -> Result<Rc<Term>, Stop>
    requires { work.old.depth ≤ 2001 }
    ensures answer { Counts shared_tree result (budget work.new) ((calls_from work.old.depth (items env.now)).infer (context ctx.old) (tree t.now) (budget work.old)) }
    ensures context { context ctx.new ≡ context ctx.old }
    ensures depth { work.new.depth ≡ work.old.depth }
    ensures rest { work.new.rest ≤ work.old.rest }
{
    work.enter()?;
    infer_entered(alloc, e, env, ctx, t, work)
}

/// The type of a term, in a call that is entered.
#[cycle(typing)]
fn infer_entered<E: Evaluator>(
    alloc: Global,
    e: &mut E,
    env: &Env,
    ctx: &mut Context,
    t: &Term,
    work: &mut Work,
) -> Result<Rc<Term>, Stop>
    requires { work.old.depth ≤ 2000 }
    ensures answer { Counts shared_tree result (budget work.new) (step_at work.old.depth (items env.now) (context ctx.old) (tree t.now) (budget work.old)) }
    ensures context { context ctx.new ≡ context ctx.old }
    ensures depth { work.new.depth ≡ work.old.depth }
    ensures rest { work.new.rest ≤ work.old.rest }
{
    match t {
        Term::Rel(x) => type_of_variable(alloc, ctx, *x, work),
        Term::Sort(s) => type_of_sort(alloc, s, work),
        Term::Const(id) => type_of_constant(alloc, env, id, work),
        Term::Ind(id) => arity_of_type(alloc, env, id, work),
        Term::Ctor(id) => type_of_constructor(alloc, env, id, work),
        Term::Prod(a, b) => infer_product(alloc, e, env, ctx, a, b, work),
        Term::Lam(a, b) => infer_abstraction(alloc, e, env, ctx, a, b, work),
        Term::Let { .. } => infer_let(alloc, e, env, ctx, t, work),
        Term::App(f, u) => infer_application(alloc, e, env, ctx, f, u, work),
        Term::Case { .. } => infer_case(alloc, e, env, ctx, t, work),
        Term::Fix { .. } => infer_fix(alloc, e, env, ctx, t, work),
    }
}

/// The type of a product.
#[cycle(typing)]
#[tactic(auto, using(cic_work::proofs::Depths::stops_on))]
fn infer_product<E: Evaluator>(
    alloc: Global,
    e: &mut E,
    env: &Env,
    ctx: &mut Context,
    a: &Rc<Term>,
    b: &Rc<Term>,
    work: &mut Work,
) -> Result<Rc<Term>, Stop>
    requires { work.old.depth ≤ 2000 }
    ensures answer { Counts shared_tree result (budget work.new) (step_at work.old.depth (items env.now) (context ctx.old) (prod (shared_tree a.now) (shared_tree b.now)) (budget work.old)) }
    ensures context { context ctx.new ≡ context ctx.old }
    ensures depth { work.new.depth ≡ work.old.depth }
    ensures rest { work.new.rest ≤ work.old.rest }
{
    let domain = deeper!(work, sort_of(alloc, e, env, ctx, a, work));
    let codomain = under!(
        work,
        ctx,
        push_assumed(ctx, a),
        sort_of(alloc, e, env, ctx, b, work)
    );
    type_of_product(alloc, &domain, &codomain, work)
}

/// The type of an abstraction.
#[cycle(typing)]
#[tactic(auto, using(cic_work::proofs::Depths::stops_on))]
fn infer_abstraction<E: Evaluator>(
    alloc: Global,
    e: &mut E,
    env: &Env,
    ctx: &mut Context,
    a: &Rc<Term>,
    t: &Rc<Term>,
    work: &mut Work,
) -> Result<Rc<Term>, Stop>
    requires { work.old.depth ≤ 2000 }
    ensures answer { Counts shared_tree result (budget work.new) (step_at work.old.depth (items env.now) (context ctx.old) (lam (shared_tree a.now) (shared_tree t.now)) (budget work.old)) }
    ensures context { context ctx.new ≡ context ctx.old }
    ensures depth { work.new.depth ≡ work.old.depth }
    ensures rest { work.new.rest ≤ work.old.rest }
{
    let _sort = deeper!(work, sort_of(alloc, e, env, ctx, a, work));
    let b = under!(
        work,
        ctx,
        push_assumed(ctx, a),
        infer(alloc, e, env, ctx, t, work)
    );
    Ok(product_over(alloc, a, b)?)
}

/// The type of a `let`.
#[cycle(typing)]
#[tactic(auto, using(cic_work::proofs::Depths::stops_on))]
fn infer_let<E: Evaluator>(
    alloc: Global,
    e: &mut E,
    env: &Env,
    ctx: &mut Context,
    t: &Term,
    work: &mut Work,
) -> Result<Rc<Term>, Stop>
    requires depth { work.old.depth ≤ 2000 }
    requires kind { IsLet t.now }
    ensures answer { Counts shared_tree result (budget work.new) (step_at work.old.depth (items env.now) (context ctx.old) (tree t.now) (budget work.old)) }
    ensures context { context ctx.new ≡ context ctx.old }
    ensures depth { work.new.depth ≡ work.old.depth }
    ensures rest { work.new.rest ≤ work.old.rest }
{
    match t {
        Term::Let { body, ty, rest } => {
            let _sort = deeper!(work, sort_of(alloc, e, env, ctx, ty, work));
            deeper!(work, check(alloc, e, env, ctx, body, ty, work));
            let b = under!(
                work,
                ctx,
                push_defined(ctx, body, ty),
                infer(alloc, e, env, ctx, rest, work)
            );
            put_in(alloc, &b, body, work)
        }
        _ => unreachable!(),
    }
}

/// The type of an application.
#[cycle(typing)]
#[tactic(auto, using(cic_work::proofs::Depths::stops_on))]
fn infer_application<E: Evaluator>(
    alloc: Global,
    e: &mut E,
    env: &Env,
    ctx: &mut Context,
    f: &Rc<Term>,
    u: &Rc<Term>,
    work: &mut Work,
) -> Result<Rc<Term>, Stop>
    requires { work.old.depth ≤ 2000 }
    ensures answer { Counts shared_tree result (budget work.new) (step_at work.old.depth (items env.now) (context ctx.old) (app (shared_tree f.now) (shared_tree u.now)) (budget work.old)) }
    ensures context { context ctx.new ≡ context ctx.old }
    ensures depth { work.new.depth ≡ work.old.depth }
    ensures rest { work.new.rest ≤ work.old.rest }
{
    let ty = deeper!(work, infer(alloc, e, env, ctx, f, work));
    let form = expose(alloc, e, env, ctx, &ty, work)?;
    let product = as_product(alloc, ctx, &form, work)?;
    deeper!(work, check(alloc, e, env, ctx, u, &product.domain, work));
    put_in(alloc, &product.codomain, u, work)
}

/// The weak head form of a type. Where that is another term, it is shown to be a type again.
#[cycle(typing)]
#[tactic(auto, using(cic_work::proofs::Depths::stops_on))]
pub(crate) fn expose<E: Evaluator>(
    alloc: Global,
    e: &mut E,
    env: &Env,
    ctx: &mut Context,
    ty: &Rc<Term>,
    work: &mut Work,
) -> Result<Rc<Term>, Stop>
    requires { work.old.depth ≤ 2000 }
    ensures answer { Counts shared_tree result (budget work.new) (expose (whnf_from (work.old.depth + 1) (items env.now) (context ctx.old)) (calls_from (work.old.depth + 1) (items env.now)) (context ctx.old) (shared_tree ty.now) (budget work.old)) }
    ensures context { context ctx.new ≡ context ctx.old }
    ensures depth { work.new.depth ≡ work.old.depth }
    ensures rest { work.new.rest ≤ work.old.rest }
{
    let form = deeper!(work, e.whnf(alloc, env, ctx, ty, work));
    if !is_same(&form, ty) {
        let _sort = deeper!(work, sort_of(alloc, e, env, ctx, &form, work));
    }
    Ok(form)
}

/// The type of a function of a `fix`.
#[cycle(typing)]
#[tactic(auto, using(cic_work::proofs::Depths::stops_on))]
fn infer_fix<E: Evaluator>(
    alloc: Global,
    e: &mut E,
    env: &Env,
    ctx: &mut Context,
    t: &Term,
    work: &mut Work,
) -> Result<Rc<Term>, Stop>
    requires depth { work.old.depth ≤ 2000 }
    requires kind { IsFix t.now }
    ensures answer { Counts shared_tree result (budget work.new) (step_at work.old.depth (items env.now) (context ctx.old) (tree t.now) (budget work.old)) }
    ensures context { context ctx.new ≡ context ctx.old }
    ensures depth { work.new.depth ≡ work.old.depth }
    ensures rest { work.new.rest ≤ work.old.rest }
{
    match t {
        Term::Fix { which, bodies } => match each(bodies).get(*which as usize) {
            Some(one) => infer_function(alloc, e, env, ctx, bodies, one, work),
            None => Err(unguarded(alloc, *which, 0)),
        },
        _ => unreachable!(),
    }
}

/// The type of one of the functions of a `fix`, which are all typed.
#[cycle(typing)]
#[tactic(auto, using(cic_work::proofs::Depths::stops_on))]
fn infer_function<E: Evaluator>(
    alloc: Global,
    e: &mut E,
    env: &Env,
    ctx: &mut Context,
    all: &FixBodies,
    one: &FixBody,
    work: &mut Work,
) -> Result<Rc<Term>, Stop>
    requires { work.old.depth ≤ 2000 }
    ensures answer { Counts shared_tree result (budget work.new) (function_step (calls_from (work.old.depth + 1) (items env.now)) (items env.now) (context ctx.old) (functions all.now) (function_of one.now) (budget work.old)) }
    ensures context { context ctx.new ≡ context ctx.old }
    ensures depth { work.new.depth ≡ work.old.depth }
    ensures rest { work.new.rest ≤ work.old.rest }
{
    let functions = each(all);
    sort_each(alloc, e, env, ctx, functions, work)?;
    let outside = ctx.len();
    let answer = check_bodies(alloc, e, env, ctx, functions, work);
    leave_to(ctx, outside);
    answer?;
    guard(alloc, env, all, work)?;
    Ok(function_type(alloc, one)?)
}

/// The type of each function of a `fix` has a sort.
#[cycle(typing)]
#[tactic(auto, using(cic_work::proofs::Depths::stops_on))]
fn sort_each<E: Evaluator>(
    alloc: Global,
    e: &mut E,
    env: &Env,
    ctx: &mut Context,
    functions: &[FixBody],
    work: &mut Work,
) -> Result<(), Stop>
    requires { work.old.depth ≤ 2000 }
    ensures answer { Counts no_value result (budget work.new) (sort_each (calls_from (work.old.depth + 1) (items env.now)) (context ctx.old) (function_types (map function_of functions.now)) (budget work.old)) }
    ensures context { context ctx.new ≡ context ctx.old }
    ensures depth { work.new.depth ≡ work.old.depth }
    ensures rest { work.new.rest ≤ work.old.rest }
{
    for one in functions {
        let ty = function_type(alloc, one)?;
        let _sort = deeper!(work, sort_of(alloc, e, env, ctx, &ty, work));
    }
    Ok(())
}

/// The full body of each function of a `fix` has the function's type, under the functions, which stay in the context.
#[cycle(typing)]
#[tactic(auto, using(cic_work::proofs::Depths::stops_on))]
fn check_bodies<E: Evaluator>(
    alloc: Global,
    e: &mut E,
    env: &Env,
    ctx: &mut Context,
    functions: &[FixBody],
    work: &mut Work,
) -> Result<(), Stop>
    requires { work.old.depth ≤ 2000 }
    ensures answer { Counts no_value result (budget work.new) (follow (function_context 0 (context ctx.old) (function_types (map function_of functions.now)) (budget work.old)) (λ G. check_bodies (calls_from (work.old.depth + 1) (items env.now)) G (length (map function_of functions.now)) (map function_of functions.now))) }
    ensures outside { IsInside (context ctx.new) (context ctx.old) }
    ensures depth { work.new.depth ≡ work.old.depth }
    ensures rest { work.new.rest ≤ work.old.rest }
{
    let all = count(functions)?;
    enter_functions(alloc, ctx, functions, work)?;
    for one in functions {
        let body = fitting_body(alloc, all, one, work)?;
        let ty = lifted_type(alloc, one, all, work)?;
        deeper!(work, check(alloc, e, env, ctx, &body, &ty, work));
    }
    Ok(())
}

/// The term has the type, or one below it.
#[cycle(typing)]
#[tactic(auto, using(cic_work::proofs::Depths::check_is, cic_work::proofs::Depths::stops_on))]
pub fn check<E: Evaluator>(
    alloc: Global,
    e: &mut E,
    env: &Env,
    ctx: &mut Context,
    t: &Term,
    ty: &Rc<Term>,
    work: &mut Work,
) -> Result<(), Stop>
    requires { work.old.depth ≤ 2001 }
    ensures answer { Counts no_value result (budget work.new) ((calls_from work.old.depth (items env.now)).check (context ctx.old) (tree t.now) (shared_tree ty.now) (budget work.old)) }
    ensures context { context ctx.new ≡ context ctx.old }
    ensures depth { work.new.depth ≡ work.old.depth }
    ensures rest { work.new.rest ≤ work.old.rest }
{
    work.enter()?;
    let found = deeper!(work, infer(alloc, e, env, ctx, t, work));
    deeper!(work, e.cumul(alloc, env, ctx, &found, ty, work));
    Ok(())
}

/// The sort of a type.
#[cycle(typing)]
#[tactic(auto, using(cic_work::proofs::Depths::sort_is, cic_work::proofs::Depths::stops_on))]
pub fn sort_of<E: Evaluator>(
    alloc: Global,
    e: &mut E,
    env: &Env,
    ctx: &mut Context,
    t: &Term,
    work: &mut Work,
) -> Result<Sort, Stop>
    requires { work.old.depth ≤ 2001 }
    ensures answer { Counts tree_sort result (budget work.new) ((calls_from work.old.depth (items env.now)).sort_of (context ctx.old) (tree t.now) (budget work.old)) }
    ensures context { context ctx.new ≡ context ctx.old }
    ensures depth { work.new.depth ≡ work.old.depth }
    ensures rest { work.new.rest ≤ work.old.rest }
{
    work.enter()?;
    let found = deeper!(work, infer(alloc, e, env, ctx, t, work));
    let form = deeper!(work, e.whnf(alloc, env, ctx, &found, work));
    as_sort(alloc, ctx, &form, work)
}
