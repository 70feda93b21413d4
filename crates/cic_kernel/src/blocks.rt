//! A block of inductive types. Coq Reference Manual, "Theory of inductive definitions": well-formed inductive definitions.
ghost use Rattle.std.specs.Prelude.{◌≡◌, ◌≤◌, ◌++◌, ◌∷◌, [], map};
ghost use Rattle.cic_rules.specs.Environment.{bare, environment_ids, type_ids};
ghost use Rattle.cic_counted.specs.Checking.{check_arities, check_block, check_types};
ghost use Rattle.cic_counted.specs.Inference.{calls_from};
ghost use Rattle.cic_env.specs.Declarations.{block, type_declaration};
ghost use Rattle.cic_env.specs.Environments.{items};
ghost use Rattle.cic_env.specs.NewIds.{AreNew};
ghost use Rattle.cic_work.specs.calls.Counting.{Counts, budget, no_value};

use crate::constructors::check_types;
use crate::faults::{require_positive, require_shape};
use crate::telescopes::closed_sort;
use cic_env::{Block, Env, IndType};
use cic_work::{Evaluator, Stop, Work};
use std::alloc::Global;

/// Each arity has a sort.
#[tactic(auto, using(cic_work::proofs::Depths::stops_on))]
fn check_arities<E: Evaluator>(
    alloc: Global,
    e: &mut E,
    env: &Env,
    types: &[IndType],
    work: &mut Work,
) -> Result<(), Stop>
    requires { work.old.depth ≡ 1 }
    ensures answer { Counts no_value result (budget work.new) (check_arities (calls_from 1 (items env.now)) (map type_declaration types.now) (budget work.old)) }
    ensures depth { work.new.depth ≡ work.old.depth }
    ensures rest { work.new.rest ≤ work.old.rest }
{
    for ty in types {
        let _sort = closed_sort(alloc, e, env, &ty.arity, work)?;
    }
    Ok(())
}

/// The constructors, over the environment with the types bare. The bare block is taken away again, whatever is answered.
#[tactic(auto, using(std::proofs::lemmas::List::take_at))]
fn check_over_bare<E: Evaluator>(
    alloc: Global,
    e: &mut E,
    env: &mut Env,
    b: &Block,
    work: &mut Work,
) -> Result<(), Stop>
    requires depth { work.old.depth ≡ 1 }
    requires new { AreNew (environment_ids (items env.old)) (type_ids (block b.now).types) }
    ensures answer { Counts no_value result (budget work.new) (check_types (calls_from 1 (items env.old ++ bare (block b.now) ∷ [])) (block b.now).parameters (block b.now).types (budget work.old)) }
    ensures same { items env.new ≡ items env.old }
    ensures depth { work.new.depth ≡ work.old.depth }
    ensures rest { work.new.rest ≤ work.old.rest }
{
    let count = env.len();
    env.push_bare(b)?;
    let answer = check_types(alloc, e, env, b.params, b.types.as_slice(), work);
    env.cut(count);
    answer
}

/// A block: its shape, its arities, its positivity, and its constructors over its types taken bare.
#[tactic(auto, using(cic_work::proofs::Depths::stops_on))]
pub(crate) fn check_block<E: Evaluator>(
    alloc: Global,
    e: &mut E,
    env: &mut Env,
    b: &Block,
    work: &mut Work,
) -> Result<(), Stop>
    requires depth { work.old.depth ≡ 1 }
    requires new { AreNew (environment_ids (items env.old)) (type_ids (block b.now).types) }
    ensures answer { Counts no_value result (budget work.new) (check_block (items env.old) (block b.now) (budget work.old)) }
    ensures same { items env.new ≡ items env.old }
    ensures depth { work.new.depth ≡ work.old.depth }
    ensures rest { work.new.rest ≤ work.old.rest }
{
    require_shape(alloc, b, work)?;
    check_arities(alloc, e, env, b.types.as_slice(), work)?;
    require_positive(alloc, env, b, work)?;
    check_over_bare(alloc, e, env, b, work)
}
