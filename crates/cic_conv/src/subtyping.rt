//! Subtyping. Coq Reference Manual, "Subtyping rules".
ghost use Rattle.std.specs.Prelude.{◌≡◌, ◌∷◌, ◌≤◌, ◌+◌};
ghost use Rattle.cic_terms.specs.Denotes.{tree};
ghost use Rattle.cic_rules.specs.Environment.{unknown};
ghost use Rattle.cic_counted.specs.Evaluation.{below_or_equal, conv_from, cumul_from, cumul_step, whnf_from};
ghost use Rattle.cic_counted.specs.Outcome.{follow};
ghost use Rattle.cic_env.specs.Contexts.{context};
ghost use Rattle.cic_env.specs.Environments.{items};
ghost use Rattle.cic_spines.specs.Lists.{shared_tree};
ghost use Rattle.cic_work.specs.calls.Counting.{Counts, budget, no_value};

use crate::comparing::same_terms;
use crate::conversion::{compare_heads, conv};
use crate::sorts::sorts_at_most;
use cic_env::{Context, Env};
use cic_eval::whnf;
use cic_limits::{enter_binders, leave};
use cic_terms::Term;
use cic_work::{Stop, Work};
use std::alloc::Global;
use std::rc::Rc;

/// A call one deeper, under one binder more, of which nothing is known.
#[cycle(cumul)]
fn cumul_under(
    alloc: Global,
    env: &Env,
    ctx: &mut Context,
    a: &Rc<Term>,
    b: &Rc<Term>,
    work: &mut Work,
) -> Result<(), Stop>
    requires { work.old.depth ≤ 2000 }
    ensures answer { Counts no_value result (budget work.new) (cumul_from (work.old.depth + 1) (items env.now) (unknown ∷ context ctx.old) (shared_tree a.now) (shared_tree b.now) (budget work.old)) }
    ensures context { context ctx.new ≡ context ctx.old }
    ensures depth { work.new.depth ≡ work.old.depth }
    ensures rest { work.new.rest ≤ work.old.rest }
{
    enter_binders(ctx, 1)?;
    work.depth += 1;
    let answer = cumul(alloc, env, ctx, a, b, work);
    work.depth -= 1;
    leave(ctx, 1);
    answer
}

/// Two terms in weak head form: products with convertible domains by their codomains, sorts by their levels, and all others by conversion.
#[cycle(cumul)]
#[tactic(auto, using(cic_work::proofs::Depths::stops_on))]
fn below_or_equal(
    alloc: Global,
    env: &Env,
    ctx: &mut Context,
    v: &Rc<Term>,
    w: &Rc<Term>,
    work: &mut Work,
) -> Result<(), Stop>
    requires { work.old.depth ≤ 2000 }
    ensures answer { Counts no_value result (budget work.new) (below_or_equal (conv_from (work.old.depth + 1) (items env.now)) (cumul_from (work.old.depth + 1) (items env.now)) (context ctx.old) (shared_tree v.now) (shared_tree w.now) (budget work.old)) }
    ensures context { context ctx.new ≡ context ctx.old }
    ensures depth { work.new.depth ≡ work.old.depth }
    ensures rest { work.new.rest ≤ work.old.rest }
{
    let (left, right): (&Term, &Term) = (v, w);
    match (left, right) {
        (Term::Prod(a, b), Term::Prod(c, d)) => {
            deeper!(work, conv(alloc, env, ctx, a, c, work));
            cumul_under(alloc, env, ctx, b, d, work)
        }
        (Term::Sort(s), Term::Sort(t)) => sorts_at_most(alloc, ctx, s, t, work),
        _ => compare_heads(alloc, env, ctx, v, w, work),
    }
}

/// A call that has been entered.
#[cycle(cumul)]
#[tactic(auto, using(cic_work::proofs::Depths::stops_on))]
fn cumul_entered(
    alloc: Global,
    env: &Env,
    ctx: &mut Context,
    a: &Rc<Term>,
    b: &Rc<Term>,
    work: &mut Work,
) -> Result<(), Stop>
    requires { work.old.depth ≤ 2000 }
    ensures answer { Counts no_value result (budget work.new) (cumul_step (whnf_from (work.old.depth + 1) (items env.now)) (conv_from (work.old.depth + 1) (items env.now)) (cumul_from (work.old.depth + 1) (items env.now)) (context ctx.old) (shared_tree a.now) (shared_tree b.now) (budget work.old)) }
    ensures context { context ctx.new ≡ context ctx.old }
    ensures depth { work.new.depth ≡ work.old.depth }
    ensures rest { work.new.rest ≤ work.old.rest }
{
    if same_terms(a, b) {
        return Ok(());
    }
    let v = deeper!(work, whnf(alloc, env, ctx, a, work));
    let w = deeper!(work, whnf(alloc, env, ctx, b, work));
    below_or_equal(alloc, env, ctx, &v, &w, work)
}

/// The first is a subtype of the second, under the constraints that are found: sorts go up, products have convertible domains and subtypes for codomains, and all else is convertible.
///
/// The call is counted, at the depth that `work` has, which is at most 2,001, and leaves the context as it was.
#[cycle(cumul)]
#[tactic(auto, using(cic_work::proofs::Depths::cumul_is, cic_work::proofs::Depths::stops_on))]
pub fn cumul(
    alloc: Global,
    env: &Env,
    ctx: &mut Context,
    a: &Rc<Term>,
    b: &Rc<Term>,
    work: &mut Work,
) -> Result<(), Stop>
    requires { work.old.depth ≤ 2001 }
    ensures answer { Counts no_value result (budget work.new) (cumul_from work.old.depth (items env.now) (context ctx.old) (shared_tree a.now) (shared_tree b.now) (budget work.old)) }
    ensures context { context ctx.new ≡ context ctx.old }
    ensures depth { work.new.depth ≡ work.old.depth }
    ensures rest { work.new.rest ≤ work.old.rest }
{
    work.enter()?;
    cumul_entered(alloc, env, ctx, a, b, work)
}
