//! The hypotheses that a declaration uses, and those that it may not use.
ghost use Rattle.std.specs.Prelude.{◌≡◌, ◌++◌, ◌∷◌, [], map, IfOk, OnOk};
ghost use Rattle.std.specs.Option.{option_map};
ghost use Rattle.cic_env.specs.Declarations.{declaration};
ghost use Rattle.section_terms.specs.Hypotheses.{ids_of};
ghost use Rattle.section_terms.specs.Used.{body_names, used};
ghost use Rattle.section_uses.specs.Kept.{hypothesis, list_of};
ghost use Rattle.section_core.specs.Sections.{used_by, first_outside};
ghost use Rattle.section_core.specs.calls.Names.{allowed, names_for, id_of};

use crate::copying::copied_id;
use crate::naming::{hypothesis_ids, note_body, note_ids, note_statement};
use crate::using::Using;
use cic_env::Decl;
use cic_names::GlobalId;
use memory::NoMemory;
use section_uses::{Hypothesis, Lists, Seen, close};
use std::alloc::Global;

/// The names whose uses are those of the declaration.
fn names_for(alloc: Global, decl: &Decl, usage: &Using) -> Result<Vec<GlobalId>, NoMemory>
    ensures { IfOk result (λ names. names.items ≡ names_for (declaration decl.now) (allowed usage.now)) }
{
    let mut names = Vec::new(alloc);
    note_statement(decl, &mut names)?;
    match usage {
        Using::Free => note_body(decl, &mut names)?,
        Using::Statement | Using::Every => {}
        Using::Listed(ids) => note_ids(ids.as_slice(), &mut names)?,
    }
    Ok(names)
}

fn keep(h: &Hypothesis, copies: &mut Vec<Hypothesis>) -> Result<(), NoMemory>
    ensures { OnOk result (map hypothesis copies.new.items ≡ map hypothesis copies.old.items ++ hypothesis h.now ∷ []) }
{
    copies.push(h.copy()?)?;
    Ok(())
}

fn copied(alloc: Global, hypotheses: &[Hypothesis]) -> Result<Vec<Hypothesis>, NoMemory>
    ensures { IfOk result (λ copies. map hypothesis copies.items ≡ map hypothesis hypotheses.now) }
{
    let mut copies = Vec::new(alloc);
    for h in hypotheses {
        keep(h, &mut copies)?;
    }
    Ok(copies)
}

/// Those of the hypotheses that the declaration uses.
pub(crate) fn uses_of(
    alloc: Global,
    decl: &Decl,
    usage: &Using,
    hypotheses: &[Hypothesis],
    over: &Lists,
) -> Result<Vec<Hypothesis>, NoMemory>
    ensures { IfOk result (λ uses. map hypothesis uses.items ≡ used_by (list_of over.now) (map hypothesis hypotheses.now) (declaration decl.now) (allowed usage.now)) }
{
    match usage {
        Using::Every => copied(alloc, hypotheses),
        _ => {
            let names = names_for(alloc, decl, usage)?;
            close(alloc, hypotheses, over, names.as_slice())
        }
    }
}

fn body_uses(
    alloc: Global,
    decl: &Decl,
    hypotheses: &[Hypothesis],
    over: &Lists,
) -> Result<Vec<Hypothesis>, NoMemory>
    ensures { IfOk result (λ uses. map hypothesis uses.items ≡ used (list_of over.now) (map hypothesis hypotheses.now) (body_names (declaration decl.now))) }
{
    let mut names = Vec::new(alloc);
    note_body(decl, &mut names)?;
    close(alloc, hypotheses, over, names.as_slice())
}

/// The id of the first hypothesis that is not among these.
fn outside(
    alloc: Global,
    ids: &[GlobalId],
    hypotheses: &[Hypothesis],
) -> Result<Option<GlobalId>, NoMemory>
    ensures { IfOk result (λ r. r ≡ option_map id_of (first_outside ids.now (map hypothesis hypotheses.now))) }
{
    let mut seen = Seen::new(alloc);
    seen.see_all(ids)?;
    for h in hypotheses {
        if !seen.has(&h.id) {
            return Ok(Some(copied_id(&h.id)?));
        }
    }
    Ok(None)
}

/// The id of the first hypothesis that the body of the declaration uses, and that is not among those that it may use.
pub(crate) fn first_undeclared(
    alloc: Global,
    decl: &Decl,
    uses: &[Hypothesis],
    hypotheses: &[Hypothesis],
    over: &Lists,
) -> Result<Option<GlobalId>, NoMemory>
    ensures { IfOk result (λ r. r ≡ option_map id_of (first_outside (ids_of (map hypothesis uses.now)) (used (list_of over.now) (map hypothesis hypotheses.now) (body_names (declaration decl.now))))) }
{
    let ids = hypothesis_ids(alloc, uses)?;
    let body = body_uses(alloc, decl, hypotheses, over)?;
    outside(alloc, ids.as_slice(), body.as_slice())
}
