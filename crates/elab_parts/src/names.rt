//! Names of binders and of functions in a row.
ghost use Rattle.std.specs.Prelude.{◌≡◌, ◌++◌, map, reverse, IfOk, OnOk};
ghost use Rattle.std.specs.Option.{option_copied, option_map};
ghost use Rattle.gal_raw.specs.Denotes.{identifier};
ghost use Rattle.gal_scoping.specs.Fixpoints.{last_place, place_or_unknown, function_meant};
ghost use Rattle.gal_scoping.specs.Names.{text_of};
ghost use Rattle.elab_parts.specs.calls.Places.{struct_at};
ghost use Rattle.elab_parts.specs.Binders.{around_of};
ghost use Rattle.elab_parts.specs.calls.Bindings.{known_binding};
ghost use Rattle.elab_parts.specs.calls.Readings.{Reads};

use crate::around::{Around, has_name};
use crate::binding::Binding;
use crate::fault::ScopingFault;
use gal_raw::Identifier;
use memory::NoMemory;
use std::alloc::Global;

/// Puts binders of these names, the first outermost, inside all others.
pub fn enter_all<'a>(around: &mut Around<'a>, names: &[Option<&'a [u8]>]) -> Result<(), NoMemory>
    ensures { OnOk result (around_of around.new ≡ reverse (map option_copied names.now) ++ around_of around.old) }
{
    for name in names {
        around.enter(*name)?;
    }
    Ok(())
}

/// The names of binders.
pub fn binder_names<'a>(
    alloc: Global,
    binders: &[Binding<'a>],
) -> Result<Vec<Option<&'a [u8]>>, NoMemory>
    ensures { IfOk result (λ names. map option_copied names.items ≡ map (λ b. b.name) (map known_binding binders.now)) }
{
    let mut names = Vec::new(alloc);
    for binder in binders {
        names.push(binder.name)?;
    }
    Ok(names)
}

/// The last place of a name.
pub fn last_named(names: &[Option<&[u8]>], name: &[u8]) -> Option<usize>
    ensures { result ≡ last_place name.now (map option_copied names.now) }
{
    let mut found = None;
    for place in 0..names.len() {
        if has_name(name, names[place]) {
            found = Some(place);
        }
    }
    found
}

/// The last place of a name that is written. Places are fewer than 2^32.
fn named_place<'a>(names: &[Option<&[u8]>], name: &Identifier<'a>) -> Result<u32, ScopingFault<'a>>
    ensures { Reads (λ place. place) (place_or_unknown (text_of (identifier name.now)) (last_place (text_of (identifier name.now)) (map option_copied names.now))) result }
{
    let Some(place) = last_named(names, name.text) else {
        return Err(ScopingFault::Unknown(name.text));
    };
    match u32::try_from(place) {
        Ok(place) => Ok(place),
        Err(_) => Err(ScopingFault::NoMemory),
    }
}

/// The place of the binder behind `struct`, if there is one.
pub fn structural_place<'a>(
    names: &[Option<&[u8]>],
    name: &Option<Identifier<'a>>,
) -> Result<Option<u32>, ScopingFault<'a>>
    ensures { Reads (λ place. place) (struct_at (option_map identifier name.now) (map option_copied names.now)) result }
{
    match name {
        None => Ok(None),
        Some(name) => Ok(Some(named_place(names, name)?)),
    }
}

/// The function behind `for`, or the first.
pub fn chosen_function<'a>(
    names: &[Option<&[u8]>],
    name: &Option<Identifier<'a>>,
) -> Result<u32, ScopingFault<'a>>
    ensures { Reads (λ place. place) (function_meant (option_map identifier name.now) (map option_copied names.now)) result }
{
    match name {
        None => Ok(0),
        Some(name) => named_place(names, name),
    }
}
