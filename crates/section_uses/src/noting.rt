//! The names of a term.
ghost use Rattle.std.specs.Prelude.{◌≡◌, ◌++◌, ◌∷◌, [], ◌+◌, ◌*◌, ◌<◌, OnOk, length};
ghost use Rattle.cic_terms.specs.Denotes.{tree, branches, bodies, terms, body_parts};
ghost use Rattle.section_terms.specs.Names.{names_in, names_in_parts};

use cic_names::GlobalId;
use cic_terms::{Branches, FixBodies, FixBody, Term, Terms};
use memory::NoMemory;

fn note_name(id: &GlobalId, names: &mut Vec<GlobalId>) -> Result<(), NoMemory>
    ensures { OnOk result (names.new.items ≡ names.old.items ++ id.now ∷ []) }
{
    names.push(id.clone()?)?;
    Ok(())
}

/// Puts the names that a term speaks of behind the others, as often as they stand in it.
#[cycle(noting)]
pub fn note_names(t: &Term, names: &mut Vec<GlobalId>) -> Result<(), NoMemory>
    ensures { OnOk result (names.new.items ≡ names.old.items ++ names_in (tree t.now)) }
{
    match t {
        Term::Rel(_) | Term::Sort(_) => Ok(()),
        Term::Const(id) | Term::Ind(id) | Term::Ctor(id) => note_name(id, names),
        Term::Prod(first, second) | Term::Lam(first, second) | Term::App(first, second) => {
            note_names(first, names)?;
            note_names(second, names)
        }
        Term::Let { body, ty, rest } => {
            note_names(body, names)?;
            note_names(ty, names)?;
            note_names(rest, names)
        }
        Term::Case {
            ind,
            motive,
            scrutinee,
            branches,
            ..
        } => {
            note_name(ind, names)?;
            note_names(motive, names)?;
            note_names(scrutinee, names)?;
            note_branches(branches, names)
        }
        Term::Fix { bodies, .. } => note_bodies(bodies, names),
    }
}

#[cycle(noting)]
fn note_branches(all: &Branches, names: &mut Vec<GlobalId>) -> Result<(), NoMemory>
    ensures { OnOk result (names.new.items ≡ names.old.items ++ names_in_parts (branches all.now)) }
{
    let old = all.as_slice();
    for branch in old {
        note_names(&branch.body, names)?;
    }
    Ok(())
}

#[cycle(noting)]
fn note_terms(all: &Terms, names: &mut Vec<GlobalId>) -> Result<(), NoMemory>
    ensures { OnOk result (names.new.items ≡ names.old.items ++ names_in_parts (terms all.now)) }
{
    let old = all.as_slice();
    for term in old {
        note_names(term, names)?;
    }
    Ok(())
}

#[cycle(noting)]
fn note_body(one: &FixBody, names: &mut Vec<GlobalId>) -> Result<(), NoMemory>
    ensures { OnOk result (names.new.items ≡ names.old.items ++ names_in_parts (body_parts 0 one.now)) }
{
    note_terms(&one.domains, names)?;
    note_names(&one.codomain, names)?;
    note_names(&one.body, names)?;
    Ok(())
}

#[cycle(noting)]
fn note_bodies(all: &FixBodies, names: &mut Vec<GlobalId>) -> Result<(), NoMemory>
    ensures { OnOk result (names.new.items ≡ names.old.items ++ names_in_parts (bodies all.now)) }
{
    let old = all.as_slice();
    for one in old {
        note_body(one, names)?;
    }
    Ok(())
}
