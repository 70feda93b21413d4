//! Tests of terms, and the refusal of two terms that are not alike.
ghost use Rattle.std.specs.Prelude.{◌≡◌, IfOk, if◌then◌else◌, length};
ghost use Rattle.cic_names.specs.Sameness.{same_id};
ghost use Rattle.cic_terms.specs.Denotes.{tree};
ghost use Rattle.cic_counted.specs.Evaluation.{differ};
ghost use Rattle.cic_counted.specs.Outcome.{give, mismatch};
ghost use Rattle.cic_counted.specs.Sameness.{same_tree};
ghost use Rattle.cic_env.specs.Contexts.{context};
ghost use Rattle.cic_work.specs.Verdicts.{cause_of};
ghost use Rattle.cic_work.specs.calls.Counting.{Counts, StopsWith, budget, no_value};

use cic_env::{Cause, Context};
use cic_names::GlobalId;
use cic_terms::{Term, same};
use cic_work::{Stop, Work};
use memory::NoMemory;
use std::alloc::Global;

/// Whether the two are the same tree.
pub(crate) fn same_terms(a: &Term, b: &Term) -> bool
    ensures { result ≡ same_tree (tree a.now) (tree b.now) }
{
    same(a, b)
}

/// Whether the two are the same id.
pub(crate) fn same_ids(a: &GlobalId, b: &GlobalId) -> bool
    ensures { result ≡ same_id a.now b.now }
{
    a == b
}

/// Two terms, in weak head form, that are not alike. More entries of a context than a number tells apart fit into no memory.
fn mismatch(ctx: &Context, a: &Term, b: &Term) -> Result<Cause, NoMemory>
    ensures { IfOk result (λ cause. cause_of cause ≡ mismatch (length (context ctx.now)) (tree a.now) (tree b.now)) }
{
    let Ok(depth) = u32::try_from(ctx.len()) else {
        return Err(NoMemory);
    };
    let found = a.clone()?;
    let wanted = b.clone()?;
    Ok(Cause::Mismatch {
        depth,
        found,
        wanted,
    })
}

/// The refusal of two terms that are not alike.
#[inline(never)]
pub(crate) fn differ(alloc: Global, ctx: &Context, a: &Term, b: &Term) -> Stop
    ensures { StopsWith result (mismatch (length (context ctx.now)) (tree a.now) (tree b.now)) }
{
    match mismatch(ctx, a, b) {
        Ok(cause) => Stop::refuse(alloc, cause),
        Err(_) => Stop::NoMemory,
    }
}

/// Refuses the two where they are not alike.
pub(crate) fn agree(
    alloc: Global,
    ctx: &Context,
    alike: bool,
    a: &Term,
    b: &Term,
    work: &Work,
) -> Result<(), Stop>
    ensures { Counts no_value result (budget work.now) ((if alike then give tt else differ (context ctx.now) (tree a.now) (tree b.now)) (budget work.now)) }
{
    if alike {
        return Ok(());
    }
    Err(differ(alloc, ctx, a, b))
}
