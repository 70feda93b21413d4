//! The types of variables, constants, inductive types and constructors. Coq Reference Manual, "Typing rules".
ghost use Rattle.std.specs.Prelude.{◌≡◌, ◌+◌, IfOk};
ghost use Rattle.std.specs.Option.{option_map};
ghost use Rattle.cic_terms.specs.Lift.{lift_tree};
ghost use Rattle.cic_terms.specs.Tree.{prod};
ghost use Rattle.cic_rules.specs.Environment.{constant_type, constructor_of, inductive_type_of, type_at};
ghost use Rattle.cic_counted.specs.Outcome.{fitting, follow, global, local, or_refuse, unbound};
ghost use Rattle.cic_env.specs.Contexts.{context};
ghost use Rattle.cic_env.specs.Environments.{items};
ghost use Rattle.cic_spines.specs.Lists.{shared_tree};
ghost use Rattle.cic_work.specs.calls.Counting.{Counts, budget};

use crate::refusals::{unbound_id, unbound_variable};
use cic_env::{Context, Env};
use cic_limits::{lifted, shared};
use cic_names::GlobalId;
use cic_terms::Term;
use cic_work::{Stop, Work};
use memory::NoMemory;
use std::alloc::Global;
use std::rc::Rc;

/// The type of a variable. More entries than a number tells apart fit into no memory.
#[inline(never)]
pub fn type_of_variable(alloc: Global, ctx: &Context, x: u32, work: &Work) -> Result<Rc<Term>, Stop>
    ensures { Counts shared_tree result (budget work.now) (follow (or_refuse (type_at (context ctx.now) x) (unbound (local x)) (budget work.now)) (λ a. fitting (lift_tree 0 (x + 1) a))) }
{
    match ctx.ty(x) {
        None => Err(unbound_variable(alloc, x)),
        Some(ty) => {
            if x == u32::MAX {
                return Err(Stop::NoMemory);
            }
            lifted(alloc, ty, x + 1, work)
        }
    }
}

/// The type of a constant.
#[inline(never)]
pub fn type_of_constant(
    alloc: Global,
    env: &Env,
    id: &GlobalId,
    work: &Work,
) -> Result<Rc<Term>, Stop>
    ensures { Counts shared_tree result (budget work.now) (or_refuse (constant_type (items env.now) id.now) (unbound (global id.now)) (budget work.now)) }
{
    match env.constant_type(id) {
        Some(ty) => Ok(shared(alloc, ty)?),
        None => Err(unbound_id(alloc, id)),
    }
}

/// The arity of an inductive type.
#[inline(never)]
pub fn arity_of_type(alloc: Global, env: &Env, id: &GlobalId, work: &Work) -> Result<Rc<Term>, Stop>
    ensures { Counts shared_tree result (budget work.now) (or_refuse (option_map (λ a. a.arity) (inductive_type_of (items env.now) id.now)) (unbound (global id.now)) (budget work.now)) }
{
    match env.inductive_type(id) {
        Some(found) => Ok(shared(alloc, found.arity)?),
        None => Err(unbound_id(alloc, id)),
    }
}

/// The type of a constructor.
#[inline(never)]
pub fn type_of_constructor(
    alloc: Global,
    env: &Env,
    id: &GlobalId,
    work: &Work,
) -> Result<Rc<Term>, Stop>
    ensures { Counts shared_tree result (budget work.now) (or_refuse (option_map (λ k. k.type) (constructor_of (items env.now) id.now)) (unbound (global id.now)) (budget work.now)) }
{
    match env.constructor(id) {
        Some(found) => Ok(shared(alloc, found.ty)?),
        None => Err(unbound_id(alloc, id)),
    }
}

/// The product over a domain.
#[inline(never)]
pub fn product_over(
    alloc: Global,
    domain: &Rc<Term>,
    codomain: Rc<Term>,
) -> Result<Rc<Term>, NoMemory>
    ensures { IfOk result (λ r. shared_tree r ≡ prod (shared_tree domain.now) (shared_tree codomain)) }
{
    Ok(Rc::new(alloc, Term::Prod(domain.clone()?, codomain))?)
}
