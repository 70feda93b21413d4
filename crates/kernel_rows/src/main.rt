//! Checks declarations one after another within budgets of steps, and prints what each check answers: axioms over an
//! environment of two, of which the deepest nests as many calls as there may be, on the stack that every program has;
//! then declarations of every kind over an environment that they make.
#![tactic(auto)]

mod axioms;
mod blocks;
mod definitions;
mod eta;
mod families;
mod made;
mod outcome;
mod session;

use cic_env::Env;
use kernel_samples::Maker;

fn main(rt: HostRuntime) -> anyhow::Result<()> {
    let maker = Maker { alloc: rt.alloc() };
    axioms::accepted(&rt, maker)?;
    axioms::refused(&rt, maker)?;
    axioms::deepest(&rt, maker)?;
    let mut env = Env::new(rt.alloc());
    definitions::functions(&rt, maker, &mut env)?;
    definitions::universes(&rt, maker, &mut env)?;
    definitions::opaque(&rt, maker, &mut env)?;
    blocks::numbers(&rt, maker, &mut env)?;
    blocks::matches(&rt, maker, &mut env)?;
    blocks::recursion(&rt, maker, &mut env)?;
    blocks::equality(&rt, maker, &mut env)?;
    blocks::refused(&rt, maker, &mut env)?;
    blocks::refused_matches(&rt, maker, &mut env)?;
    families::blocks(&rt, maker, &mut env)?;
    families::recursion(&rt, maker, &mut env)?;
    families::equality(&rt, maker, &mut env)?;
    families::eliminations(&rt, maker, &mut env)?;
    families::anything(&rt, maker, &mut env)?;
    let mut env = Env::new(rt.alloc());
    eta::expansion(&rt, maker, &mut env)
}
