//! The kernel: the check of one declaration over an environment, within a budget of steps. It answers
//! exactly what the definition of the check answers.
#![tactic(auto)]

ghost use Rattle.std.specs.Prelude.{◌≡◌, [], ◌∷◌, ◌++◌};
ghost use Rattle.cic_rules.specs.Environment.{declared, declared_ids, environment_ids};
ghost use Rattle.cic_rules.specs.Formed.{Formed};
ghost use Rattle.cic_rules.specs.Numbering.{Numbering, MeetsAll};
ghost use Rattle.cic_counted.specs.Checking.{check_declaration};
ghost use Rattle.cic_env.specs.Declarations.{declaration};
ghost use Rattle.cic_env.specs.Environments.{items};
ghost use Rattle.cic_env.specs.NewIds.{AreNew};
ghost use Rattle.cic_work.specs.Verdicts.{Judges};
ghost use Rattle.cic_kernel.specs.Accepting.{IfDone};

mod blocks;
mod constructors;
mod faults;
mod judging;
mod telescopes;

use crate::judging::{accepted, judge};
use cic_conv::Plain;
use cic_env::{Decl, Env, Found, Verdict};
use cic_work::{Evaluator, Work};
use std::alloc::Global;

/// Checks a declaration over an environment, with that evaluator. The budget is the number of steps that it may take.
/// Coq Reference Manual, "Typing rules" and "Inductive definitions": the conditions under which an environment is extended.
pub fn check_decl_by<E: Evaluator>(
    alloc: Global,
    e: &mut E,
    env: &mut Env,
    decl: &Decl,
    budget: u32,
) -> Verdict<Found>
    requires new { AreNew (environment_ids (items env.old)) (declared_ids (declaration decl.now)) }
    ensures verdict { Judges result (check_declaration (items env.old) (declaration decl.now) budget) }
    // At every numbering that meets what was found and at which the environment is formed, so is the environment with the declaration.
    ensures formed { IfDone result (λ found. (N : Numbering) → Formed N (items env.old) → MeetsAll N found.visible → MeetsAll N found.proofs → Formed N (items env.old ++ declared (declaration decl.now) ∷ [])) }
    ensures same { items env.new ≡ items env.old }
{
    let mut work = Work::new(alloc, budget);
    match judge(alloc, e, env, decl, &mut work) {
        Ok(split) => accepted(split, budget - work.rest),
        Err(stop) => stop.verdict(),
    }
}

/// Checks a declaration over an environment, with the evaluator that keeps nothing between its calls.
pub fn check_decl(alloc: Global, env: &mut Env, decl: &Decl, budget: u32) -> Verdict<Found>
    requires new { AreNew (environment_ids (items env.old)) (declared_ids (declaration decl.now)) }
    ensures verdict { Judges result (check_declaration (items env.old) (declaration decl.now) budget) }
    ensures formed { IfDone result (λ found. (N : Numbering) → Formed N (items env.old) → MeetsAll N found.visible → MeetsAll N found.proofs → Formed N (items env.old ++ declared (declaration decl.now) ∷ [])) }
    ensures same { items env.new ≡ items env.old }
{
    let mut plain = Plain::new();
    check_decl_by(alloc, &mut plain, env, decl, budget)
}
