//! Calls that nest as deep as they may, and inside the innermost a substitution into a term as deep as may be, on the
//! stack that every program has.

use crate::blocks::{equation, nat, numbers, successors, truth, truth_values};
use cic_conv::Plain;
use cic_env::{Context, Env};
use cic_names::NoMemory;
use cic_terms::Term;
use cic_typing::infer;
use cic_work::{Evaluator, Stop, Work};
use kernel_samples::{AMPLE, Made, Maker, add, two};
use std::alloc::Global;
use std::rc::Rc;

/// The greatest depth of a term.
const MOST_LEVELS: u32 = 4_000;

/// A function of so many levels, with the variable outside of it at its end.
fn tower(maker: Maker, levels: u32) -> Made {
    let mut made = maker.variable(levels.saturating_sub(1));
    for _ in 1..levels {
        made = maker.lambda(nat(maker), made);
    }
    made
}

/// A redex that puts a constant into a term of the greatest depth, and gives `true`.
fn redex(maker: Maker, name: &str) -> Made {
    let first = maker.branch(0, maker.ctor("true"));
    let second = maker.branch(0, tower(maker, MOST_LEVELS - 1));
    let branches = two(maker.alloc, first, second);
    let body = maker.matching("bool", truth(maker), maker.ctor("true"), branches);
    maker.apply(maker.lambda(nat(maker), body), maker.constant(name))
}

/// Matches, so many on the values of others, and inside them a redex.
fn matches(maker: Maker, name: &str, count: u32) -> Made {
    let mut made = redex(maker, name);
    for _ in 0..count {
        let first = maker.branch(0, maker.ctor("true"));
        let second = maker.branch(0, maker.ctor("false"));
        let branches = two(maker.alloc, first, second);
        made = maker.matching("bool", truth(maker), made, branches);
    }
    made
}

/// The types of numbers and truth values, which are not checked.
fn sample(maker: Maker) -> Result<Env, NoMemory> {
    let mut env = Env::new(maker.alloc);
    add(&mut env, numbers(maker)?)?;
    add(&mut env, truth_values(maker)?)?;
    Ok(env)
}

fn word<T: Drop>(answer: &Result<T, Stop>) -> &'static str {
    match answer {
        Ok(_) => "done",
        Err(Stop::Refused(_)) => "refused",
        Err(Stop::Spent) => "spent",
        Err(Stop::Deep) => "too deep",
        Err(Stop::NoMemory) => "no memory",
    }
}

fn evaluate(alloc: Global, env: &Env, t: &Rc<Term>) -> &'static str {
    let ctx = Context::new(alloc);
    let mut work = Work::new(alloc, AMPLE);
    word(&Plain::new().whnf(alloc, env, &ctx, t, &mut work))
}

/// Evaluation of matches on the values of others.
fn evaluated(maker: Maker, evaluations: u32) -> Result<&'static str, NoMemory> {
    let env = sample(maker)?;
    let t = matches(maker, "a", evaluations)?;
    Ok(evaluate(maker.alloc, &env, &t))
}

fn convert(alloc: Global, env: &Env, a: &Rc<Term>, b: &Rc<Term>) -> &'static str {
    let mut ctx = Context::new(alloc);
    let mut work = Work::new(alloc, AMPLE);
    word(&Plain::new().conv(alloc, env, &mut ctx, a, b, &mut work))
}

/// Conversion of two terms under successors, which differ at the bottom and have one value there.
fn converted(maker: Maker, conversions: u32, evaluations: u32) -> Result<&'static str, NoMemory> {
    let env = sample(maker)?;
    let a = successors(maker, matches(maker, "a", evaluations), conversions)?;
    let b = successors(maker, matches(maker, "b", evaluations), conversions)?;
    Ok(convert(maker.alloc, &env, &a, &b))
}

/// An equation of successors, at the bottom of which matches are evaluated.
fn side(maker: Maker, name: &str, conversions: u32, evaluations: u32) -> Made {
    let bottom = matches(maker, name, evaluations);
    equation(
        maker,
        "eq",
        successors(maker, bottom, conversions),
        maker.ctor("O"),
    )
}

/// A function on such equations, and a constant of one that differs from the function's domain at the bottom alone.
fn extended(maker: Maker, conversions: u32, evaluations: u32) -> Result<Env, NoMemory> {
    let mut env = sample(maker)?;
    let wanted = side(maker, "a", conversions, evaluations);
    let found = side(maker, "b", conversions, evaluations);
    add(
        &mut env,
        maker.axiom("f", maker.product(wanted, nat(maker)))?,
    )?;
    add(&mut env, maker.axiom("c", found)?)?;
    Ok(env)
}

fn type_of(alloc: Global, env: &Env, t: &Term) -> &'static str {
    let mut ctx = Context::new(alloc);
    let mut work = Work::new(alloc, AMPLE);
    word(&infer(alloc, &mut Plain::new(), env, &mut ctx, t, &mut work))
}

/// Inference of a call under successors: checks, inside them conversions, and inside these evaluations.
fn inferred(
    maker: Maker,
    checks: u32,
    conversions: u32,
    evaluations: u32,
) -> Result<&'static str, NoMemory> {
    let env = extended(maker, conversions, evaluations)?;
    let call = maker.apply(maker.constant("f"), maker.constant("c"));
    let t = successors(maker, call, checks)?;
    Ok(type_of(maker.alloc, &env, &t))
}

/// Each chain as deep as it may be, and one call deeper.
pub fn print_rows(rt: &HostRuntime) -> anyhow::Result<()> {
    let maker = Maker { alloc: rt.alloc() };
    for evaluations in [1_998, 1_999] {
        let answer = evaluated(maker, evaluations)?;
        println!(rt; "{evaluations} matches on values: {answer}")?;
    }
    for conversions in [997, 998] {
        let answer = converted(maker, conversions, 1_000)?;
        println!(rt; "1000 matches under {conversions} conversions: {answer}")?;
    }
    for checks in [496, 497] {
        let answer = inferred(maker, checks, 500, 500)?;
        println!(rt; "500 matches under 500 conversions under {checks} checks: {answer}")?;
    }
    Ok(())
}
