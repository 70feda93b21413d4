//! The first call of a `fix` that is not guarded.
ghost use Rattle.std.specs.Prelude.{◌≡◌, IfOk, length, map};
ghost use Rattle.std.specs.Option.{option_map};
ghost use Rattle.cic_terms.specs.Denotes.{tree};
ghost use Rattle.cic_rules.specs.Environment.{element};
ghost use Rattle.cic_counted.specs.GuardTest.{function_fault, functions_fault, guard_fault, walk_fault};
ghost use Rattle.cic_terms.specs.Tree.{ind};
ghost use Rattle.cic_env.specs.Environments.{items};
ghost use Rattle.cic_spines.specs.Fixes.{function_of, functions};
ghost use Rattle.cic_guard.specs.Faults.{unguarded};
ghost use Rattle.cic_guard.specs.calls.Guards.{places_in};

use crate::arguments::Arguments;
use crate::bodies::body_marks;
use crate::smaller::Guard;
use crate::walking::{WalkEnd, walk};
use cic_env::Env;
use cic_names::GlobalId;
use cic_spines::head;
use cic_terms::{FixBodies, FixBody, Term};
use memory::NoMemory;
use std::alloc::Global;

/// The first function of a `fix` that is not guarded, counted from 0, and the number of the call at fault, from 1 in the order of the walk and up to 2^32 - 1; 0 where its recursive domain is headed by no inductive type.
#[derive(Clone, Copy, Debug, PartialEq, Eq, Drop)]
pub struct Unguarded {
    pub f: u32,
    pub call: u32,
}

/// The first call at fault in the body of a function whose recursive domain is headed by the type `id`.
fn body_fault(
    alloc: Global,
    env: &Env,
    id: &GlobalId,
    all: &[FixBody],
    count: u32,
    one: &FixBody,
) -> Result<Option<u32>, NoMemory>
    ensures { IfOk result (λ call. call ≡ walk_fault (items env.now) (places_in all.now) count (function_of one.now) (ind id.now)) }
{
    let guard = Guard {
        alloc,
        env,
        head: id,
        functions: all,
    };
    let row = body_marks(alloc, count, one)?;
    match walk(&one.body, &guard, &row, &Arguments::Nothing, 0)? {
        WalkEnd::Passed(_) => Ok(None),
        WalkEnd::Failed(call) => Ok(Some(call)),
    }
}

fn domain_at(domains: &[Term], place: u32) -> Option<&Term>
    ensures { option_map (λ t. tree t.now) result ≡ element (map tree domains.now) place }
{
    domains.get(place as usize)
}

#[tactic(auto, using(crate::proofs::Functions::domain_read))]
fn recursive_domain(one: &FixBody) -> Option<&Term>
    ensures { option_map (λ t. tree t.now) result ≡ element (function_of one.now).domains one.now.k }
{
    domain_at(one.domains.as_slice(), one.k)
}

/// The first call at fault in one of `count` functions.
fn function_fault(
    alloc: Global,
    env: &Env,
    all: &[FixBody],
    count: u32,
    one: &FixBody,
) -> Result<Option<u32>, NoMemory>
    ensures { IfOk result (λ call. call ≡ function_fault (items env.now) (places_in all.now) count (function_of one.now)) }
{
    let Some(domain) = recursive_domain(one) else {
        return Ok(Some(0));
    };
    match head(domain) {
        Term::Ind(id) => body_fault(alloc, env, id, all, count, one),
        _ => Ok(Some(0)),
    }
}

fn functions_fault(alloc: Global, env: &Env, all: &[FixBody]) -> Result<Option<Unguarded>, NoMemory>
    ensures { IfOk result (λ fault. option_map unguarded fault ≡ functions_fault (items env.now) (places_in all.now) (length all.now) 0 (map function_of all.now)) }
{
    let Ok(count) = u32::try_from(all.len()) else {
        return Err(NoMemory);
    };
    for f in 0..count {
        if let Some(call) = function_fault(alloc, env, all, count, &all[f as usize])? {
            return Ok(Some(Unguarded { f, call }));
        }
    }
    Ok(None)
}

/// The first fault of the guard of a `fix`, if there is one. Coq Reference Manual, "Theory of inductive definitions": the guarded condition on fixpoints.
#[tactic(auto, using(crate::proofs::Functions::guard_fault_read))]
pub fn guarded(alloc: Global, env: &Env, all: &FixBodies) -> Result<Option<Unguarded>, NoMemory>
    ensures { IfOk result (λ fault. option_map unguarded fault ≡ guard_fault (items env.now) (functions all.now)) }
{
    functions_fault(alloc, env, all.as_slice())
}
