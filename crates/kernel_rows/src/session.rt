//! An environment that grows by accepted declarations, with a row for each check.

ghost use Rattle.std.specs.Prelude.{◌≡◌, true, IfOk, OnOk};
ghost use Rattle.cic_rules.specs.Environment.{declared_ids, environment_ids};
ghost use Rattle.cic_env.specs.Declarations.{declaration};
ghost use Rattle.cic_env.specs.Environments.{items};
ghost use Rattle.cic_env.specs.NewIds.{AreNew};

use crate::outcome::{Outcome, outcome_of};
use cic_env::{Decl, Env};
use cic_kernel::check_decl;
use cic_names::NoMemory;
use kernel_samples::{AMPLE, add, is_new};
use std::alloc::Global;

/// What the check of a declaration whose ids are new comes to.
fn checked(alloc: Global, env: &mut Env, decl: &Decl, budget: u32) -> Outcome
    requires { AreNew (environment_ids (items env.old)) (declared_ids (declaration decl.now)) }
{
    let verdict = check_decl(alloc, env, decl, budget);
    outcome_of(&verdict)
}

/// What the check of a declaration comes to.
pub fn judged(alloc: Global, env: &mut Env, decl: &Decl, budget: u32) -> Result<Outcome, NoMemory> {
    if is_new(alloc, env, decl)? {
        return Ok(checked(alloc, env, decl, budget));
    }
    Ok(Outcome::Taken)
}

/// The row of a declaration, with ample steps.
fn show(rt: &HostRuntime, env: &mut Env, row: &str, decl: &Decl) -> anyhow::Result<Outcome> {
    let outcome = judged(rt.alloc(), env, decl, AMPLE)?;
    println!(rt; "{row}: {outcome}")?;
    Ok(outcome)
}

/// The row of a declaration, with so many steps.
fn show_within(
    rt: &HostRuntime,
    env: &mut Env,
    row: &str,
    decl: &Decl,
    budget: u32,
) -> anyhow::Result<()> {
    let outcome = judged(rt.alloc(), env, decl, budget)?;
    println!(rt; "{row}, within {budget} steps: {outcome}")?;
    Ok(())
}

/// The rows of a declaration, with ample steps, and where it is accepted with those that it takes, and with one fewer.
fn tell(rt: &HostRuntime, env: &mut Env, row: &str, decl: &Decl) -> anyhow::Result<()> {
    match show(rt, env, row, decl)? {
        Outcome::Done { steps, .. } => {
            show_within(rt, env, row, decl, steps)?;
            show_within(rt, env, row, decl, steps.saturating_sub(1))
        }
        _ => Ok(()),
    }
}

/// The row of a declaration, with ample steps.
fn show_one(rt: &HostRuntime, env: &mut Env, row: &str, decl: Decl) -> anyhow::Result<Outcome> {
    show(rt, env, row, &decl)
}

/// The row of a declaration, with ample steps.
pub fn ask(
    rt: &HostRuntime,
    env: &mut Env,
    row: &str,
    decl: Result<Decl, NoMemory>,
) -> anyhow::Result<()> {
    let decl = decl?;
    show_one(rt, env, row, decl)?;
    Ok(())
}

/// The rows of a declaration that is accepted, which then is in the environment.
pub fn declare(
    rt: &HostRuntime,
    env: &mut Env,
    row: &str,
    decl: Result<Decl, NoMemory>,
) -> anyhow::Result<()> {
    let decl = decl?;
    let told = tell(rt, env, row, &decl);
    let added = add(env, decl);
    told?;
    added?;
    Ok(())
}
