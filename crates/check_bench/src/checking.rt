//! What comes of declarations.

ghost use Rattle.cic_rules.specs.Environment.{declared_ids, environment_ids};
ghost use Rattle.cic_env.specs.Declarations.{declaration};
ghost use Rattle.cic_env.specs.Environments.{items};
ghost use Rattle.cic_env.specs.NewIds.{AreNew};

use cic_env::{Decl, Env, Found, Verdict};
use cic_kernel::check_decl;
use cic_names::NoMemory;
use kernel_samples::{AMPLE, add, is_new};
use std::alloc::Global;
use std::fmt;

/// How many declarations were accepted, in how many steps, and how many were not.
#[derive(Clone, Copy)]
pub struct Count {
    pub accepted: u32,
    pub steps: u32,
    pub refused: u32,
}

impl Count {
    pub fn new() -> Count {
        Count {
            accepted: 0,
            steps: 0,
            refused: 0,
        }
    }

    fn add(&mut self, steps: Option<u32>) {
        match steps {
            Some(steps) => {
                self.accepted = self.accepted.saturating_add(1);
                self.steps = self.steps.saturating_add(steps);
            }
            None => self.refused = self.refused.saturating_add(1),
        }
    }
}

impl fmt::Display for Count {
    fn fmt<W: fmt::Write>(&self, f: &mut fmt::Formatter<W>) -> fmt::Result {
        write!(f, "{} accepted, {} refused", self.accepted, self.refused)
    }
}

fn steps_of(verdict: &Verdict<Found>) -> Option<u32> {
    match verdict {
        Verdict::Done(found) => Some(found.steps),
        Verdict::Refused(_) | Verdict::Spent | Verdict::Deep | Verdict::NoMemory => None,
    }
}

/// The steps of a declaration whose ids are new, where it is accepted.
fn checked(alloc: Global, env: &mut Env, decl: &Decl) -> Option<u32>
    requires { AreNew (environment_ids (items env.old)) (declared_ids (declaration decl.now)) }
{
    let verdict = check_decl(alloc, env, decl, AMPLE);
    steps_of(&verdict)
}

/// The steps of a declaration that is accepted.
fn judged(alloc: Global, env: &mut Env, decl: &Decl) -> Result<Option<u32>, NoMemory> {
    if is_new(alloc, env, decl)? {
        return Ok(checked(alloc, env, decl));
    }
    Ok(None)
}

fn declare_one(
    alloc: Global,
    env: &mut Env,
    decl: Decl,
    count: &mut Count,
) -> Result<(), NoMemory> {
    let steps = judged(alloc, env, &decl);
    let added = add(env, decl);
    count.add(steps?);
    added
}

/// Checks a declaration, counts what came of it, and adds it.
pub fn declare(
    alloc: Global,
    env: &mut Env,
    decl: Result<Decl, NoMemory>,
    count: &mut Count,
) -> Result<(), NoMemory> {
    declare_one(alloc, env, decl?, count)
}
