//! Conversion. Coq Reference Manual, "Conversion rules".
ghost use Rattle.std.specs.Prelude.{◌≡◌, ◌∷◌, ◌≤◌, ◌+◌, length, map, true};
ghost use Rattle.cic_terms.specs.calls.Kinds.{IsCase, IsFix};
ghost use Rattle.cic_terms.specs.Denotes.{branch_list, tree};
ghost use Rattle.cic_terms.specs.Lift.{lift_tree};
ghost use Rattle.cic_terms.specs.Tree.{app, rel};
ghost use Rattle.cic_rules.specs.Environment.{under_unknown, unknown};
ghost use Rattle.cic_rules.specs.Telescopes.{function_type, function_types};
ghost use Rattle.cic_counted.specs.Evaluation.{compare, compare_heads, conv_from, conv_step, convert_bodies, convert_children, convert_each, whnf_from};
ghost use Rattle.cic_counted.specs.Outcome.{fitting, follow};
ghost use Rattle.cic_env.specs.Contexts.{context};
ghost use Rattle.cic_env.specs.Environments.{items};
ghost use Rattle.cic_spines.specs.Fixes.{function_of};
ghost use Rattle.cic_spines.specs.Lists.{shared_tree};
ghost use Rattle.cic_work.specs.calls.Counting.{Counts, budget, no_value};
ghost use Rattle.cic_conv.specs.calls.Parts.{convert_body};

use crate::comparing::{agree, differ, same_ids, same_terms};
use crate::made::{applied_to_variable, body_of};
use crate::shapes::{same_matches, same_shapes};
use crate::sorts::equal_sorts;
use cic_env::{Context, Env};
use cic_eval::whnf;
use cic_limits::{enter_binders, fitting_body, leave, lifted, shared};
use cic_spines::function_type;
use cic_terms::{Branch, FixBody, Term};
use cic_work::{Stop, Work};
use std::alloc::Global;
use std::rc::Rc;

/// A call one deeper, under so many binders more, of which nothing is known.
#[cycle(conv)]
#[tactic(auto, using(cic_limits::proofs::Telescopes::drop_opened))]
fn conv_under(
    alloc: Global,
    env: &Env,
    ctx: &mut Context,
    count: u64,
    a: &Rc<Term>,
    b: &Rc<Term>,
    work: &mut Work,
) -> Result<(), Stop>
    requires { work.old.depth ≤ 2000 }
    ensures answer { Counts no_value result (budget work.new) (conv_from (work.old.depth + 1) (items env.now) (under_unknown count (context ctx.old)) (shared_tree a.now) (shared_tree b.now) (budget work.old)) }
    ensures context { context ctx.new ≡ context ctx.old }
    ensures depth { work.new.depth ≡ work.old.depth }
    ensures rest { work.new.rest ≤ work.old.rest }
{
    enter_binders(ctx, count)?;
    work.depth += 1;
    let answer = conv(alloc, env, ctx, a, b, work);
    work.depth -= 1;
    leave(ctx, count);
    answer
}

/// Two branches, under their binders.
#[cycle(conv)]
fn conv_branch(
    alloc: Global,
    env: &Env,
    ctx: &mut Context,
    x: &Branch,
    y: &Branch,
    work: &mut Work,
) -> Result<(), Stop>
    requires { work.old.depth ≤ 2000 }
    ensures answer { Counts no_value result (budget work.new) (conv_from (work.old.depth + 1) (items env.now) (under_unknown x.now.binders (context ctx.old)) (tree x.now.body) (tree y.now.body) (budget work.old)) }
    ensures context { context ctx.new ≡ context ctx.old }
    ensures depth { work.new.depth ≡ work.old.depth }
    ensures rest { work.new.rest ≤ work.old.rest }
{
    let a = shared(alloc, &x.body)?;
    let b = shared(alloc, &y.body)?;
    conv_under(alloc, env, ctx, u64::from(x.binders), &a, &b, work)
}

/// Branch by branch.
#[cycle(conv)]
#[tactic(auto, using(cic_work::proofs::Depths::stops_on, crate::proofs::Rows::next_branches))]
fn conv_branches(
    alloc: Global,
    env: &Env,
    ctx: &mut Context,
    xs: &[Branch],
    ys: &[Branch],
    work: &mut Work,
) -> Result<(), Stop>
    requires depth { work.old.depth ≤ 2000 }
    requires same_length { length xs.now ≡ length ys.now }
    ensures answer { Counts no_value result (budget work.new) (convert_children (conv_from (work.old.depth + 1) (items env.now)) (context ctx.old) (branch_list xs.now) (branch_list ys.now) (budget work.old)) }
    ensures context { context ctx.new ≡ context ctx.old }
    ensures depth { work.new.depth ≡ work.old.depth }
    ensures rest { work.new.rest ≤ work.old.rest }
{
    for i in 0..xs.len() {
        conv_branch(alloc, env, ctx, &xs[i], &ys[i], work)?;
    }
    Ok(())
}

/// The types of two functions.
#[cycle(conv)]
fn conv_type(
    alloc: Global,
    env: &Env,
    ctx: &mut Context,
    x: &FixBody,
    y: &FixBody,
    work: &mut Work,
) -> Result<(), Stop>
    requires { work.old.depth ≤ 2000 }
    ensures answer { Counts no_value result (budget work.new) (conv_from (work.old.depth + 1) (items env.now) (context ctx.old) (function_type (function_of x.now)) (function_type (function_of y.now)) (budget work.old)) }
    ensures context { context ctx.new ≡ context ctx.old }
    ensures depth { work.new.depth ≡ work.old.depth }
    ensures rest { work.new.rest ≤ work.old.rest }
{
    let a = function_type(alloc, x)?;
    let b = function_type(alloc, y)?;
    conv_under(alloc, env, ctx, 0, &a, &b, work)
}

/// The types of functions, one by one.
#[cycle(conv)]
#[tactic(auto, using(cic_work::proofs::Depths::stops_on, crate::proofs::Rows::next_types))]
fn conv_types(
    alloc: Global,
    env: &Env,
    ctx: &mut Context,
    xs: &[FixBody],
    ys: &[FixBody],
    work: &mut Work,
) -> Result<(), Stop>
    requires depth { work.old.depth ≤ 2000 }
    requires same_length { length xs.now ≡ length ys.now }
    ensures answer { Counts no_value result (budget work.new) (convert_each (conv_from (work.old.depth + 1) (items env.now)) (context ctx.old) (function_types (map function_of xs.now)) (function_types (map function_of ys.now)) (budget work.old)) }
    ensures context { context ctx.new ≡ context ctx.old }
    ensures depth { work.new.depth ≡ work.old.depth }
    ensures rest { work.new.rest ≤ work.old.rest }
{
    for i in 0..xs.len() {
        conv_type(alloc, env, ctx, &xs[i], &ys[i], work)?;
    }
    Ok(())
}

/// The full bodies of two functions among `all`, under all functions.
#[cycle(conv)]
#[tactic(auto, using(cic_work::proofs::Depths::stops_on))]
fn conv_body(
    alloc: Global,
    env: &Env,
    ctx: &mut Context,
    all: u32,
    x: &FixBody,
    y: &FixBody,
    work: &mut Work,
) -> Result<(), Stop>
    requires { work.old.depth ≤ 2000 }
    ensures answer { Counts no_value result (budget work.new) (convert_body (conv_from (work.old.depth + 1) (items env.now)) (under_unknown all (context ctx.old)) all (function_of x.now) (function_of y.now) (budget work.old)) }
    ensures context { context ctx.new ≡ context ctx.old }
    ensures depth { work.new.depth ≡ work.old.depth }
    ensures rest { work.new.rest ≤ work.old.rest }
{
    let a = fitting_body(alloc, all, x, work)?;
    let b = fitting_body(alloc, all, y, work)?;
    conv_under(alloc, env, ctx, u64::from(all), &a, &b, work)
}

/// The full bodies of functions, one by one. More functions than a number tells apart fit into no memory.
#[cycle(conv)]
#[tactic(auto, using(cic_work::proofs::Depths::stops_on, crate::proofs::Rows::next_bodies))]
fn conv_bodies(
    alloc: Global,
    env: &Env,
    ctx: &mut Context,
    xs: &[FixBody],
    ys: &[FixBody],
    work: &mut Work,
) -> Result<(), Stop>
    requires depth { work.old.depth ≤ 2000 }
    requires same_length { length xs.now ≡ length ys.now }
    ensures answer { Counts no_value result (budget work.new) (convert_bodies (conv_from (work.old.depth + 1) (items env.now)) (under_unknown (length xs.now) (context ctx.old)) (length xs.now) (map function_of xs.now) (map function_of ys.now) (budget work.old)) }
    ensures context { context ctx.new ≡ context ctx.old }
    ensures depth { work.new.depth ≡ work.old.depth }
    ensures rest { work.new.rest ≤ work.old.rest }
{
    let Ok(all) = u32::try_from(xs.len()) else {
        return Err(Stop::NoMemory);
    };
    for i in 0..xs.len() {
        conv_body(alloc, env, ctx, all, &xs[i], &ys[i], work)?;
    }
    Ok(())
}

/// The types of functions and then their full bodies.
#[cycle(conv)]
#[tactic(auto, using(cic_work::proofs::Depths::stops_on))]
fn conv_functions(
    alloc: Global,
    env: &Env,
    ctx: &mut Context,
    xs: &[FixBody],
    ys: &[FixBody],
    work: &mut Work,
) -> Result<(), Stop>
    requires depth { work.old.depth ≤ 2000 }
    requires same_length { length xs.now ≡ length ys.now }
    ensures answer { Counts no_value result (budget work.new) (follow (convert_each (conv_from (work.old.depth + 1) (items env.now)) (context ctx.old) (function_types (map function_of xs.now)) (function_types (map function_of ys.now)) (budget work.old)) (λ _. convert_bodies (conv_from (work.old.depth + 1) (items env.now)) (under_unknown (length xs.now) (context ctx.old)) (length xs.now) (map function_of xs.now) (map function_of ys.now))) }
    ensures context { context ctx.new ≡ context ctx.old }
    ensures depth { work.new.depth ≡ work.old.depth }
    ensures rest { work.new.rest ≤ work.old.rest }
{
    conv_types(alloc, env, ctx, xs, ys, work)?;
    conv_bodies(alloc, env, ctx, xs, ys, work)
}

/// Two functions of a `fix`: they are alike if the functions have the same shapes, types and full bodies.
#[cycle(conv)]
fn compare_fixes(
    alloc: Global,
    env: &Env,
    ctx: &mut Context,
    v: &Term,
    w: &Term,
    work: &mut Work,
) -> Result<(), Stop>
    requires depth { work.old.depth ≤ 2000 }
    requires kinds { IsFix v.now × IsFix w.now }
    ensures answer { Counts no_value result (budget work.new) (compare (conv_from (work.old.depth + 1) (items env.now)) (context ctx.old) (tree v.now) (tree w.now) (budget work.old)) }
    ensures context { context ctx.new ≡ context ctx.old }
    ensures depth { work.new.depth ≡ work.old.depth }
    ensures rest { work.new.rest ≤ work.old.rest }
{
    match (v, w) {
        (
            Term::Fix { which, bodies },
            Term::Fix {
                which: other,
                bodies: others,
            },
        ) => {
            let xs = bodies.as_slice();
            let ys = others.as_slice();
            if which != other || !same_shapes(xs, ys) {
                return Err(differ(alloc, ctx, v, w));
            }
            conv_functions(alloc, env, ctx, xs, ys, work)
        }
        _ => unreachable!(),
    }
}

/// Two matches: their values, their motives under the indices and the value, and their branches.
#[cycle(conv)]
#[tactic(auto, using(cic_work::proofs::Depths::stops_on))]
fn compare_matches(
    alloc: Global,
    env: &Env,
    ctx: &mut Context,
    v: &Term,
    w: &Term,
    work: &mut Work,
) -> Result<(), Stop>
    requires depth { work.old.depth ≤ 2000 }
    requires kinds { IsCase v.now × IsCase w.now }
    ensures answer { Counts no_value result (budget work.new) (compare (conv_from (work.old.depth + 1) (items env.now)) (context ctx.old) (tree v.now) (tree w.now) (budget work.old)) }
    ensures context { context ctx.new ≡ context ctx.old }
    ensures depth { work.new.depth ≡ work.old.depth }
    ensures rest { work.new.rest ≤ work.old.rest }
{
    if !same_matches(v, w) {
        return Err(differ(alloc, ctx, v, w));
    }
    match (v, w) {
        (
            Term::Case {
                arity,
                motive: p,
                scrutinee: a,
                branches: xs,
                ..
            },
            Term::Case {
                motive: q,
                scrutinee: b,
                branches: ys,
                ..
            },
        ) => {
            conv_under(alloc, env, ctx, 0, a, b, work)?;
            conv_under(alloc, env, ctx, u64::from(*arity) + 1, p, q, work)?;
            conv_branches(alloc, env, ctx, xs.as_slice(), ys.as_slice(), work)
        }
        _ => unreachable!(),
    }
}

/// Two terms in weak head form, by their kinds.
#[cycle(conv)]
#[tactic(auto, using(cic_work::proofs::Depths::stops_on))]
fn compare(
    alloc: Global,
    env: &Env,
    ctx: &mut Context,
    v: &Term,
    w: &Term,
    work: &mut Work,
) -> Result<(), Stop>
    requires { work.old.depth ≤ 2000 }
    ensures answer { Counts no_value result (budget work.new) (compare (conv_from (work.old.depth + 1) (items env.now)) (context ctx.old) (tree v.now) (tree w.now) (budget work.old)) }
    ensures context { context ctx.new ≡ context ctx.old }
    ensures depth { work.new.depth ≡ work.old.depth }
    ensures rest { work.new.rest ≤ work.old.rest }
{
    match (v, w) {
        (Term::Sort(s), Term::Sort(t)) => equal_sorts(alloc, ctx, s, t, work),
        (Term::Rel(x), Term::Rel(y)) => agree(alloc, ctx, x == y, v, w, work),
        (Term::Const(c), Term::Const(d)) => agree(alloc, ctx, same_ids(c, d), v, w, work),
        (Term::Ind(c), Term::Ind(d)) => agree(alloc, ctx, same_ids(c, d), v, w, work),
        (Term::Ctor(c), Term::Ctor(d)) => agree(alloc, ctx, same_ids(c, d), v, w, work),
        (Term::Prod(a, b), Term::Prod(c, d)) => {
            conv_under(alloc, env, ctx, 0, a, c, work)?;
            conv_under(alloc, env, ctx, 1, b, d, work)
        }
        (Term::Lam(a, b), Term::Lam(c, d)) => {
            conv_under(alloc, env, ctx, 0, a, c, work)?;
            conv_under(alloc, env, ctx, 1, b, d, work)
        }
        (Term::App(f, a), Term::App(g, b)) => {
            conv_under(alloc, env, ctx, 0, f, g, work)?;
            conv_under(alloc, env, ctx, 0, a, b, work)
        }
        (Term::Case { .. }, Term::Case { .. }) => compare_matches(alloc, env, ctx, v, w, work),
        (Term::Fix { .. }, Term::Fix { .. }) => compare_fixes(alloc, env, ctx, v, w, work),
        _ => Err(differ(alloc, ctx, v, w)),
    }
}

/// The body of an abstraction and a term that is none, by eta.
#[cycle(conv)]
#[tactic(auto, using(cic_work::proofs::Depths::stops_on))]
fn conv_body_with(
    alloc: Global,
    env: &Env,
    ctx: &mut Context,
    body: &Rc<Term>,
    w: &Rc<Term>,
    work: &mut Work,
) -> Result<(), Stop>
    requires { work.old.depth ≤ 2000 }
    ensures answer { Counts no_value result (budget work.new) (follow (fitting (lift_tree 0 1 (shared_tree w.now)) (budget work.old)) (λ f. conv_from (work.old.depth + 1) (items env.now) (unknown ∷ context ctx.old) (shared_tree body.now) (app f (rel 0)))) }
    ensures context { context ctx.new ≡ context ctx.old }
    ensures depth { work.new.depth ≡ work.old.depth }
    ensures rest { work.new.rest ≤ work.old.rest }
{
    let function = lifted(alloc, w, 1, work)?;
    let applied = applied_to_variable(alloc, function)?;
    conv_under(alloc, env, ctx, 1, body, &applied, work)
}

/// A term that is no abstraction and the body of one, by eta.
#[cycle(conv)]
#[tactic(auto, using(cic_work::proofs::Depths::stops_on))]
fn conv_with_body(
    alloc: Global,
    env: &Env,
    ctx: &mut Context,
    v: &Rc<Term>,
    body: &Rc<Term>,
    work: &mut Work,
) -> Result<(), Stop>
    requires { work.old.depth ≤ 2000 }
    ensures answer { Counts no_value result (budget work.new) (follow (fitting (lift_tree 0 1 (shared_tree v.now)) (budget work.old)) (λ f. conv_from (work.old.depth + 1) (items env.now) (unknown ∷ context ctx.old) (app f (rel 0)) (shared_tree body.now))) }
    ensures context { context ctx.new ≡ context ctx.old }
    ensures depth { work.new.depth ≡ work.old.depth }
    ensures rest { work.new.rest ≤ work.old.rest }
{
    let function = lifted(alloc, v, 1, work)?;
    let applied = applied_to_variable(alloc, function)?;
    conv_under(alloc, env, ctx, 1, &applied, body, work)
}

/// Two terms in weak head form: by eta where one of them alone is an abstraction, and else by their kinds.
#[cycle(conv)]
pub(crate) fn compare_heads(
    alloc: Global,
    env: &Env,
    ctx: &mut Context,
    v: &Rc<Term>,
    w: &Rc<Term>,
    work: &mut Work,
) -> Result<(), Stop>
    requires { work.old.depth ≤ 2000 }
    ensures answer { Counts no_value result (budget work.new) (compare_heads (conv_from (work.old.depth + 1) (items env.now)) (context ctx.old) (shared_tree v.now) (shared_tree w.now) (budget work.old)) }
    ensures context { context ctx.new ≡ context ctx.old }
    ensures depth { work.new.depth ≡ work.old.depth }
    ensures rest { work.new.rest ≤ work.old.rest }
{
    match (body_of(v), body_of(w)) {
        (Some(body), None) => conv_body_with(alloc, env, ctx, body, w, work),
        (None, Some(body)) => conv_with_body(alloc, env, ctx, v, body, work),
        _ => compare(alloc, env, ctx, v, w, work),
    }
}

/// A call that has been entered.
#[cycle(conv)]
#[tactic(auto, using(cic_work::proofs::Depths::stops_on))]
fn conv_entered(
    alloc: Global,
    env: &Env,
    ctx: &mut Context,
    a: &Rc<Term>,
    b: &Rc<Term>,
    work: &mut Work,
) -> Result<(), Stop>
    requires { work.old.depth ≤ 2000 }
    ensures answer { Counts no_value result (budget work.new) (conv_step (whnf_from (work.old.depth + 1) (items env.now)) (conv_from (work.old.depth + 1) (items env.now)) (context ctx.old) (shared_tree a.now) (shared_tree b.now) (budget work.old)) }
    ensures context { context ctx.new ≡ context ctx.old }
    ensures depth { work.new.depth ≡ work.old.depth }
    ensures rest { work.new.rest ≤ work.old.rest }
{
    if same_terms(a, b) {
        return Ok(());
    }
    let v = deeper!(work, whnf(alloc, env, ctx, a, work));
    let w = deeper!(work, whnf(alloc, env, ctx, b, work));
    compare_heads(alloc, env, ctx, &v, &w, work)
}

/// The two are convertible, under the constraints that are found: they are the same term, or their weak head forms have the same kind and convertible parts, where an abstraction and another term are compared by eta.
///
/// The call is counted, at the depth that `work` has, which is at most 2,001, and leaves the context as it was.
#[cycle(conv)]
#[tactic(auto, using(cic_work::proofs::Depths::conv_is, cic_work::proofs::Depths::stops_on))]
pub fn conv(
    alloc: Global,
    env: &Env,
    ctx: &mut Context,
    a: &Rc<Term>,
    b: &Rc<Term>,
    work: &mut Work,
) -> Result<(), Stop>
    requires { work.old.depth ≤ 2001 }
    ensures answer { Counts no_value result (budget work.new) (conv_from work.old.depth (items env.now) (context ctx.old) (shared_tree a.now) (shared_tree b.now) (budget work.old)) }
    ensures context { context ctx.new ≡ context ctx.old }
    ensures depth { work.new.depth ≡ work.old.depth }
    ensures rest { work.new.rest ≤ work.old.rest }
{
    work.enter()?;
    conv_entered(alloc, env, ctx, a, b, work)
}
