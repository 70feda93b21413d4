//! The hypotheses that names use.
ghost use Rattle.std.specs.Prelude.{◌≡◌, ◌++◌, ◌∷◌, [], map, IfOk, OnOk};
ghost use Rattle.section_terms.specs.Used.{used, names_in_hypothesis, with_those_of};
ghost use Rattle.section_uses.specs.Kept.{hypothesis, list_of};
ghost use Rattle.section_uses.specs.calls.Closing.{Considers, Sees};

use crate::hypothesis::Hypothesis;
use crate::lists::Lists;
use crate::noting::note_names;
use crate::seen::Seen;
use cic_names::GlobalId;
use memory::NoMemory;
use std::alloc::Global;

/// The names of the type of a hypothesis and of its body.
fn names_of(alloc: Global, h: &Hypothesis) -> Result<Vec<GlobalId>, NoMemory>
    ensures { IfOk result (λ names. names.items ≡ names_in_hypothesis (hypothesis h.now)) }
{
    let mut names = Vec::new(alloc);
    note_names(&h.ty, &mut names)?;
    match &h.body {
        None => {}
        Some(body) => note_names(body, &mut names)?,
    }
    Ok(names)
}

/// Finds a hypothesis, and sees what it speaks of.
fn find(
    alloc: Global,
    h: &Hypothesis,
    over: &Lists,
    seen: &mut Seen,
    found: &mut Vec<Hypothesis>,
) -> Result<(), NoMemory>
    ensures seen { OnOk result (Sees (with_those_of (list_of over.now) (names_in_hypothesis (hypothesis h.now))) seen.old seen.new) }
    ensures found { OnOk result (map hypothesis found.new.items ≡ map hypothesis found.old.items ++ hypothesis h.now ∷ []) }
{
    let names = names_of(alloc, h)?;
    seen.see_with(names.as_slice(), over)?;
    found.push(h.copy()?)?;
    Ok(())
}

/// Finds a hypothesis if it was seen, and then sees what it speaks of.
fn consider(
    alloc: Global,
    h: &Hypothesis,
    over: &Lists,
    seen: &mut Seen,
    found: &mut Vec<Hypothesis>,
) -> Result<(), NoMemory>
    ensures { OnOk result (Considers (list_of over.now) (hypothesis h.now) seen.old seen.new (map hypothesis found.old.items) (map hypothesis found.new.items)) }
{
    if seen.has(&h.id) {
        find(alloc, h, over, seen, found)
    } else {
        Ok(())
    }
}

/// The hypotheses that the names use, in order of declaration: closed under the types and bodies of hypotheses, and
/// under what the constants of the section, of which `over` tells, are generalised over.
pub fn close(
    alloc: Global,
    all: &[Hypothesis],
    over: &Lists,
    names: &[GlobalId],
) -> Result<Vec<Hypothesis>, NoMemory>
    ensures { IfOk result (λ found. map hypothesis found.items ≡ used (list_of over.now) (map hypothesis all.now) names.now) }
{
    let mut seen = Seen::new(alloc);
    seen.see_with(names, over)?;
    let mut found = Vec::new(alloc);
    for i in (0..all.len()).rev() {
        consider(alloc, &all[i], over, &mut seen, &mut found)?;
    }
    found.reverse();
    Ok(found)
}
