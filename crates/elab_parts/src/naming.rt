//! What names stand for.
ghost use Rattle.std.specs.Prelude.{◌≡◌, None, Ok, Err, IfOk, IfSome, map};
ghost use Rattle.std.specs.Option.{option_map};
ghost use Rattle.cic_terms.specs.Denotes.{tree};
ghost use Rattle.cic_env.specs.Entries.{entry_meaning};
ghost use Rattle.gal_raw.specs.Denotes.{qualified};
ghost use Rattle.gal_scoping.specs.Readings.{with_part};
ghost use Rattle.gal_scoping.specs.Names.{written, global_id, outside_binders, meaning_tree, meant, meant_tree, fresh_tree};
ghost use Rattle.gal_scoping.specs.Matches.{global_meant};
ghost use Rattle.gal_scoping.specs.Names.{fresh_of as fresh_named};
ghost use Rattle.elab_parts.specs.Binders.{around_of};
ghost use Rattle.elab_parts.specs.Faults.{fault};
ghost use Rattle.elab_parts.specs.Places.{place_of, fresh_of};
ghost use Rattle.elab_parts.specs.calls.Parts.{known, cut};
ghost use Rattle.elab_parts.specs.calls.Readings.{Reads};

use crate::around::Around;
use crate::fault::{ScopingFault, of_name};
use crate::making::{leaf, variable};
use crate::parts::Part;
use crate::place::{Fresh, Place};
use cic_env::Entry;
use cic_names::{GlobalId, Name};
use cic_terms::Term;
use gal_raw::QualifiedName;
use memory::NoMemory;
use std::alloc::Global;

/// The name as it is written.
pub fn text<'a>(x: &QualifiedName<'a>) -> &'a [u8]
    ensures { result.now ≡ written (qualified x.now) }
{
    match x {
        QualifiedName::Short(name) | QualifiedName::Long(name) => name.text,
    }
}

/// The id that a name stands for where no binder and no name of the command has it.
fn sought<'a>(place: &Place<'_>, x: &QualifiedName<'a>) -> Result<GlobalId, ScopingFault<'a>>
    ensures { Reads (λ id. id) (global_id (place_of place.now).scope (qualified x.now)) result }
{
    match place.scope.global(x) {
        Ok(id) => Ok(id),
        Err(reason) => Err(of_name(reason)),
    }
}

/// The term of an id.
fn id_term(id: GlobalId, entry: &Entry<'_>) -> Term
    ensures { IfSome (entry_meaning entry.now) (λ m. tree result ≡ meaning_tree id m) }
{
    match entry {
        Entry::Decl(_) => Term::Const(id),
        Entry::Typ(_, _) | Entry::Bare(_, _) => Term::Ind(id),
        Entry::Ctor(_, _, _) => Term::Ctor(id),
    }
}

/// The first name of the command that is this one.
fn fresh_named<'p>(fresh: &'p [Fresh], name: &[u8]) -> Option<&'p Fresh>
    ensures { option_map (λ f. fresh_of f.now) result ≡ fresh_named (map fresh_of fresh.now) name.now }
{
    for one in fresh {
        let (Fresh::Constant(own) | Fresh::Type(own)) = one;
        if name == own.bytes() {
            return Some(one);
        }
    }
    None
}

/// The term of a name of the command.
fn fresh_term(place: &Place<'_>, fresh: &Fresh) -> Result<Term, NoMemory>
    ensures { IfOk result (λ t. tree t ≡ fresh_tree (place_of place.now).scope.library (fresh_of fresh.now)) }
{
    let lib = place.scope.library().clone()?;
    match fresh {
        Fresh::Constant(name) => Ok(Term::Const(GlobalId {
            lib,
            name: name.clone()?,
        })),
        Fresh::Type(name) => Ok(Term::Ind(GlobalId {
            lib,
            name: name.clone()?,
        })),
    }
}

/// The term of a declared name that no binder and no name of the command has.
fn outside_term<'a>(
    alloc: Global,
    place: &Place<'_>,
    x: &QualifiedName<'a>,
) -> Result<Part, ScopingFault<'a>>
    ensures { Reads (λ p. tree p.term.value) (with_part (meant_tree (place_of place.now)) (outside_binders (place_of place.now) (qualified x.now) None)) result }
{
    let id = sought(place, x)?;
    match place.env.get(&id) {
        None => Err(ScopingFault::Unknown(text(x))),
        Some(entry) => Ok(leaf(alloc, id_term(id, &entry))?),
    }
}

/// The variable or the name of the command that an identifier is, or else the term of a declared name.
pub fn name_term<'a>(
    alloc: Global,
    place: &Place<'_>,
    around: &Around<'a>,
    x: &QualifiedName<'a>,
) -> Result<Option<Part>, ScopingFault<'a>>
    ensures { Reads known (with_part cut (with_part (meant_tree (place_of place.now)) (meant (place_of place.now) (around_of around.now) (qualified x.now)))) result }
{
    if let QualifiedName::Short(name) = x {
        if let Some(binder) = around.variable(name.text) {
            return Ok(variable(alloc, binder)?);
        }
        if let Some(fresh) = fresh_named(place.fresh, name.text) {
            return Ok(Some(leaf(alloc, fresh_term(place, fresh)?)?));
        }
    }
    Ok(Some(outside_term(alloc, place, x)?))
}

/// The id of a declared name that no binder and no name of the command has, and no other name.
pub fn global_named<'a>(
    place: &Place<'_>,
    around: &Around<'a>,
    x: &QualifiedName<'a>,
) -> Result<GlobalId, ScopingFault<'a>>
    ensures { Reads (λ id. id) (global_meant (place_of place.now) (around_of around.now) (qualified x.now)) result }
{
    if let QualifiedName::Short(name) = x {
        if around.variable(name.text).is_some() || fresh_named(place.fresh, name.text).is_some() {
            return Err(ScopingFault::BadPattern(name.text));
        }
    }
    let id = sought(place, x)?;
    if place.env.get(&id).is_none() {
        return Err(ScopingFault::Unknown(text(x)));
    }
    Ok(id)
}
