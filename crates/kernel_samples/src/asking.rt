//! Declarations whose ids are new.

ghost use Rattle.std.specs.Prelude.{◌≡◌, true, IfOk, OnOk};
ghost use Rattle.cic_rules.specs.Environment.{declared_ids, environment_ids};
ghost use Rattle.cic_env.specs.Declarations.{declaration};
ghost use Rattle.cic_env.specs.Environments.{items};
ghost use Rattle.cic_env.specs.NewIds.{AreNew};

use cic_env::{Decl, Env, PushFault};
use cic_names::NoMemory;
use std::alloc::Global;

/// More steps than any of these checks takes.
pub const AMPLE: u32 = 1_000_000;

/// Adds the declaration and takes it away again, and tells whether its ids are new.
fn fits(env: &mut Env, decl: Decl) -> Result<bool, NoMemory>
    ensures new { IfOk result (λ fits. fits ≡ true → AreNew (environment_ids (items env.old)) (declared_ids (declaration decl))) }
    ensures same { OnOk result (items env.new ≡ items env.old) }
{
    let count = env.len();
    match env.push(decl) {
        Ok(()) => {
            env.cut(count);
            Ok(true)
        }
        Err(PushFault::Duplicate(_)) => Ok(false),
        Err(PushFault::NoMemory(_)) => Err(NoMemory),
    }
}

/// Whether the ids of a declaration are new.
pub fn is_new(alloc: Global, env: &mut Env, decl: &Decl) -> Result<bool, NoMemory>
    ensures new { IfOk result (λ new. new ≡ true → AreNew (environment_ids (items env.old)) (declared_ids (declaration decl.now))) }
    ensures same { OnOk result (items env.new ≡ items env.old) }
{
    let copy = decl.without_body(alloc)?;
    fits(env, copy)
}

/// Adds a declaration whose ids are new.
pub fn add(env: &mut Env, decl: Decl) -> Result<(), NoMemory> {
    match env.push(decl) {
        Ok(()) => Ok(()),
        Err(_) => Err(NoMemory),
    }
}
