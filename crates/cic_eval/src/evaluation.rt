//! Weak head normal forms.
ghost use Rattle.std.specs.Prelude.{◌≡◌, ◌≤◌, ◌+◌, IfOk};
ghost use Rattle.cic_terms.specs.Denotes.{tree};
ghost use Rattle.cic_terms.specs.calls.Kinds.{IsCase};
ghost use Rattle.cic_counted.specs.Evaluation.{application_turn, fix_turn, turn_of, whnf_from};
ghost use Rattle.cic_counted.specs.Outcome.{follow};
ghost use Rattle.cic_env.specs.Contexts.{context};
ghost use Rattle.cic_env.specs.Environments.{items};
ghost use Rattle.cic_spines.specs.Lists.{shared_tree};
ghost use Rattle.cic_work.specs.calls.Counting.{Counts, budget};
ghost use Rattle.cic_eval.specs.calls.Turns.{Falls, turned, unfolds_to};

use crate::judged::unfolds;
use crate::turns::{
    Turn, applied, constant_turn, match_turn, recursive_turn, substitution_turn, variable_turn,
};
use cic_env::{Context, Env};
use cic_terms::Term;
use cic_work::{Stop, Work};
use std::alloc::Global;
use std::rc::Rc;

/// A call one deeper, whose stop is this one's.
macro_rules! deeper {
    ($work:expr, $call:expr) => {{
        $work.depth += 1;
        let answer = $call;
        $work.depth -= 1;
        answer?
    }};
}

/// A function of a `fix`, where `f` is one under the arguments before its recursive one, which is `u`.
#[cycle(whnf)]
#[tactic(auto, using(cic_work::proofs::Depths::stops_on, crate::proofs::Recursion::unfolds_there, crate::proofs::Recursion::unfolds_nowhere))]
fn fix_turn(
    alloc: Global,
    env: &Env,
    ctx: &Context,
    f: &Rc<Term>,
    u: &Rc<Term>,
    work: &mut Work,
) -> Result<Turn, Stop>
    requires { work.old.depth ≤ 2000 }
    ensures answer { Counts turned result (budget work.new) (fix_turn (whnf_from (work.old.depth + 1) (items env.now) (context ctx.now)) (shared_tree f.now) (shared_tree u.now) (unfolds_to (shared_tree f.now)) (budget work.old)) }
    ensures depth { work.new.depth ≡ work.old.depth }
    ensures rest { work.new.rest ≤ work.old.rest }
    ensures falls { IfOk result (λ turn. Falls turn work.old.rest work.new.rest) }
{
    if !unfolds(f) {
        return Ok(Turn::Answer(applied(alloc, f, u)?));
    }
    let v = deeper!(work, whnf(alloc, env, ctx, u, work));
    recursive_turn(alloc, f, u, &v, work)
}

/// An application whose function evaluates to `f`.
#[cycle(whnf)]
fn application_turn(
    alloc: Global,
    env: &Env,
    ctx: &Context,
    f: &Rc<Term>,
    u: &Rc<Term>,
    work: &mut Work,
) -> Result<Turn, Stop>
    requires { work.old.depth ≤ 2000 }
    ensures answer { Counts turned result (budget work.new) (application_turn (whnf_from (work.old.depth + 1) (items env.now) (context ctx.now)) (shared_tree f.now) (shared_tree u.now) (budget work.old)) }
    ensures depth { work.new.depth ≡ work.old.depth }
    ensures rest { work.new.rest ≤ work.old.rest }
    ensures falls { IfOk result (λ turn. Falls turn work.old.rest work.new.rest) }
{
    let function: &Term = f;
    match function {
        Term::Lam(_, body) => substitution_turn(alloc, body, u, work),
        _ => fix_turn(alloc, env, ctx, f, u, work),
    }
}

/// An application of `f` to `u`.
#[cycle(whnf)]
#[tactic(auto, using(cic_work::proofs::Depths::stops_on))]
fn call_turn(
    alloc: Global,
    env: &Env,
    ctx: &Context,
    f: &Rc<Term>,
    u: &Rc<Term>,
    work: &mut Work,
) -> Result<Turn, Stop>
    requires { work.old.depth ≤ 2000 }
    ensures answer { Counts turned result (budget work.new) (follow (whnf_from (work.old.depth + 1) (items env.now) (context ctx.now) (shared_tree f.now) (budget work.old)) (λ g. application_turn (whnf_from (work.old.depth + 1) (items env.now) (context ctx.now)) g (shared_tree u.now))) }
    ensures depth { work.new.depth ≡ work.old.depth }
    ensures rest { work.new.rest ≤ work.old.rest }
    ensures falls { IfOk result (λ turn. Falls turn work.old.rest work.new.rest) }
{
    let g = deeper!(work, whnf(alloc, env, ctx, f, work));
    application_turn(alloc, env, ctx, &g, u, work)
}

/// A match.
#[cycle(whnf)]
#[tactic(auto, using(cic_work::proofs::Depths::stops_on))]
fn case_turn(
    alloc: Global,
    env: &Env,
    ctx: &Context,
    t: &Term,
    work: &mut Work,
) -> Result<Turn, Stop>
    requires depth { work.old.depth ≤ 2000 }
    requires kind { IsCase t.now }
    ensures answer { Counts turned result (budget work.new) (turn_of (whnf_from (work.old.depth + 1) (items env.now) (context ctx.now)) (items env.now) (context ctx.now) (tree t.now) (budget work.old)) }
    ensures depth { work.new.depth ≡ work.old.depth }
    ensures rest { work.new.rest ≤ work.old.rest }
    ensures falls { IfOk result (λ turn. Falls turn work.old.rest work.new.rest) }
{
    match t {
        Term::Case { scrutinee, .. } => {
            let v = deeper!(work, whnf(alloc, env, ctx, scrutinee, work));
            match_turn(alloc, env, t, &v, work)
        }
        _ => unreachable!(),
    }
}

/// A turn of the loop.
#[cycle(whnf)]
fn make_turn(
    alloc: Global,
    env: &Env,
    ctx: &Context,
    t: &Rc<Term>,
    work: &mut Work,
) -> Result<Turn, Stop>
    requires { work.old.depth ≤ 2000 }
    ensures answer { Counts turned result (budget work.new) (turn_of (whnf_from (work.old.depth + 1) (items env.now) (context ctx.now)) (items env.now) (context ctx.now) (shared_tree t.now) (budget work.old)) }
    ensures depth { work.new.depth ≡ work.old.depth }
    ensures rest { work.new.rest ≤ work.old.rest }
    ensures falls { IfOk result (λ turn. Falls turn work.old.rest work.new.rest) }
{
    let term: &Term = t;
    match term {
        Term::Rel(x) => variable_turn(alloc, ctx, t, *x, work),
        Term::Const(id) => constant_turn(alloc, env, t, id, work),
        Term::Let { body, rest, .. } => substitution_turn(alloc, rest, body, work),
        Term::App(f, u) => call_turn(alloc, env, ctx, f, u, work),
        Term::Case { .. } => case_turn(alloc, env, ctx, t, work),
        _ => Ok(Turn::Answer(t.clone()?)),
    }
}

/// The weak head normal form of a term: it is not reduced any further at its head, by the bodies of transparent constants and of variables, and by the reductions of `let`, `fun`, `fix` and `match`. Coq Reference Manual, "Conversion rules".
///
/// The call is counted, at the depth that `work` has, which is at most 2,001. Opaque constants stay as they are.
#[cycle(whnf)]
pub fn whnf(
    alloc: Global,
    env: &Env,
    ctx: &Context,
    t: &Rc<Term>,
    work: &mut Work,
) -> Result<Rc<Term>, Stop>
    requires { work.old.depth ≤ 2001 }
    ensures answer { Counts shared_tree result (budget work.new) (whnf_from work.old.depth (items env.now) (context ctx.now) (shared_tree t.now) (budget work.old)) }
    ensures depth { work.new.depth ≡ work.old.depth }
    ensures rest { work.new.rest ≤ work.old.rest }
{
    work.enter()?;
    let mut now = t.clone()?;
    loop {
        match make_turn(alloc, env, ctx, &now, work)? {
            Turn::Answer(v) => return Ok(v),
            Turn::Again(v) => now = v,
        }
    }
}
