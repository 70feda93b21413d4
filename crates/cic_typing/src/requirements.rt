//! What a match has to have: a value of its type, and a branch for each constructor.
ghost use Rattle.std.specs.Prelude.{◌≡◌, ◌+◌, ◌&&◌, IfOk, OnOk, length, nat_eq};
ghost use Rattle.cic_terms.specs.Denotes.{branch_list, tree};
ghost use Rattle.cic_terms.specs.Tree.{ind};
ghost use Rattle.cic_rules.specs.Telescopes.{head_of};
ghost use Rattle.cic_counted.specs.Inference.{are_branches};
ghost use Rattle.cic_counted.specs.Outcome.{bad_branch_count, not_inductive, require};
ghost use Rattle.cic_counted.specs.Readings.{arguments_of};
ghost use Rattle.cic_counted.specs.Sameness.{same_tree};
ghost use Rattle.cic_env.specs.Contexts.{context};
ghost use Rattle.cic_env.specs.Declarations.{type_declaration};
ghost use Rattle.cic_work.specs.Verdicts.{cause_of};
ghost use Rattle.cic_work.specs.calls.Counting.{Counts, StopsWith, budget, no_value};

use crate::branches::are_branches;
use crate::matches::Match;
use cic_env::{Cause, Context};
use cic_names::GlobalId;
use cic_spines::{argument_count, head};
use cic_terms::Term;
use cic_work::{Stop, Work};
use memory::NoMemory;
use std::alloc::Global;

/// Whether the term is that type, under no arguments.
fn is_type(t: &Term, id: &GlobalId) -> bool
    ensures { result ≡ same_tree (tree t.now) (ind id.now) }
{
    match t {
        Term::Ind(found) => found == id,
        _ => false,
    }
}

/// Whether the term has as many arguments as the type has parameters and indices.
fn has_arguments(t: &Term, m: &Match<'_>) -> bool
    ensures { result ≡ nat_eq (length (arguments_of (tree t.now))) (m.now.parameters + m.now.indices) }
{
    argument_count(t) == u64::from(m.parameters) + u64::from(m.indices)
}

fn type_fault(ctx: &Context, form: &Term) -> Result<Cause, NoMemory>
    ensures { IfOk result (λ cause. cause_of cause ≡ not_inductive (length (context ctx.now)) (tree form.now)) }
{
    let Ok(depth) = u32::try_from(ctx.len()) else {
        return Err(NoMemory);
    };
    let form = form.clone()?;
    Ok(Cause::NotInductive { depth, form })
}

/// The refusal of a match on a value of another type. More entries of a context than a number tells apart fit into no memory.
#[inline(never)]
fn not_inductive(alloc: Global, ctx: &Context, form: &Term) -> Stop
    ensures { StopsWith result (not_inductive (length (context ctx.now)) (tree form.now)) }
{
    match type_fault(ctx, form) {
        Ok(cause) => Stop::refuse(alloc, cause),
        Err(_) => Stop::NoMemory,
    }
}

/// The value has the type of the match, under all its parameters and indices.
pub(crate) fn require_type(
    alloc: Global,
    ctx: &Context,
    m: &Match<'_>,
    found: &Term,
    work: &Work,
) -> Result<(), Stop>
    ensures answer { Counts no_value result (budget work.now) (require (same_tree (head_of (tree found.now)) (ind m.now.ind.now) && nat_eq (length (arguments_of (tree found.now))) (m.now.parameters + m.now.indices)) (not_inductive (length (context ctx.now)) (tree found.now)) (budget work.now)) }
    ensures count { OnOk result (length (arguments_of (tree found.now)) ≡ m.now.parameters + m.now.indices) }
{
    if is_type(head(found), m.ind) && has_arguments(found, m) {
        return Ok(());
    }
    Err(not_inductive(alloc, ctx, found))
}

fn branch_fault(id: &GlobalId) -> Result<Cause, NoMemory>
    ensures { IfOk result (λ cause. cause_of cause ≡ bad_branch_count id.now) }
{
    let ind = id.clone()?;
    Ok(Cause::BadBranchCount { ind })
}

/// The refusal of branches that are not those of the type.
#[inline(never)]
fn bad_branch_count(alloc: Global, id: &GlobalId) -> Stop
    ensures { StopsWith result (bad_branch_count id.now) }
{
    match branch_fault(id) {
        Ok(cause) => Stop::refuse(alloc, cause),
        Err(_) => Stop::NoMemory,
    }
}

/// The motive stands under the type's indices, and the branches are those of its constructors.
#[tactic(auto, using(crate::proofs::Branching::as_many))]
pub(crate) fn require_branches(alloc: Global, m: &Match<'_>, work: &Work) -> Result<(), Stop>
    ensures answer { Counts no_value result (budget work.now) (require (nat_eq m.now.arity m.now.indices && are_branches m.now.parameters (type_declaration m.now.ty.now).constructors (branch_list m.now.branches.now)) (bad_branch_count m.now.ind.now) (budget work.now)) }
    ensures count { OnOk result (length m.now.ty.now.ctors.items ≡ length m.now.branches.now) }
{
    if m.arity == m.indices && are_branches(m.parameters, m.ty.ctors.as_slice(), m.branches) {
        return Ok(());
    }
    Err(bad_branch_count(alloc, m.ind))
}
