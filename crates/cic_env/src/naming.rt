//! The table of the ids of an environment with their places, in order of declaration.
ghost use Rattle.std.specs.Prelude.{◌≡◌, ◌∷◌, [], ◌++◌, ◌≤◌, ◌<◌, ◌↔◌, IsTrue, IfOk, OnOk, OnErr, All, Contains, drop, length, slice_index_or};
ghost use Rattle.std.specs.Map.{keys_of};
ghost use Rattle.memory.specs.Telling.{Tells};
ghost use Rattle.cic_rules.specs.Environment.{declared_ids, bare_ids};
ghost use Rattle.cic_rules.specs.Formed.{Distinct};
ghost use Rattle.cic_env.specs.Declarations.{declaration, block};
ghost use Rattle.cic_env.specs.NewIds.{AreNew};
ghost use Rattle.cic_env.specs.calls.Places.{Named as NamedIds, declaration_places, bare_places, EndsBefore};
ghost use Rattle.cic_env.specs.calls.Naming.{reason, TellsTaken};

use crate::declaration::{Block, Decl, shared_id};
use crate::item::{Named, Place, names_of, names_of_bare};
use cic_names::{GlobalId, NoMemory};
use indexmap::IndexMap;
use std::alloc::Global;

/// The places of ids, in order of declaration.
pub(crate) type Places = IndexMap<GlobalId, Place>;

/// Why ids were not added.
#[derive(Clone, Copy)]
pub(crate) enum NameFault {
    /// One of them is there, or stands twice among them.
    Taken,
    /// There was no memory.
    NoMemory,
}

/// Adds an id behind the others.
fn add_one(places: &mut Places, id: &GlobalId, place: Place) -> Result<(), NameFault>
    ensures added { OnOk result (places.new.entries ≡ places.old.entries ++ (id.now, place) ∷ []) }
    ensures taken { Tells reason result (λ _. ¬ Contains (keys_of places.old.entries) id.now) (λ _. Contains (keys_of places.old.entries) id.now) }
    ensures same { OnErr result (places.new.entries ≡ places.old.entries) }
{
    if places.contains_key(id) {
        return Err(NameFault::Taken);
    }
    let Ok(key) = shared_id(id) else {
        return Err(NameFault::NoMemory);
    };
    match places.insert(key, place) {
        Ok(_) => Ok(()),
        Err(_) => Err(NameFault::NoMemory),
    }
}

/// Adds the ids behind the others, or none of them.
fn add_names(places: &mut Places, names: &[(GlobalId, Place)]) -> Result<(), NameFault>
    ensures added { OnOk result (places.new.entries ≡ places.old.entries ++ names.now) }
    ensures taken { TellsTaken result (keys_of places.old.entries) (keys_of names.now) }
    ensures same { OnErr result (places.new.entries ≡ places.old.entries) }
{
    let count = places.len();
    for (id, place) in names {
        if let Err(fault) = add_one(places, id, *place) {
            places.truncate(count);
            return Err(fault);
        }
    }
    Ok(())
}

/// Adds the ids of a declaration behind the others, or none of them. The declaration is to be this item.
pub(crate) fn declare(
    alloc: Global,
    places: &mut Places,
    item: usize,
    decl: &Decl,
) -> Result<(), NameFault>
    ensures added { OnOk result (places.new.entries ≡ places.old.entries ++ declaration_places item (declaration decl.now)) }
    ensures taken { TellsTaken result (keys_of places.old.entries) (declared_ids (declaration decl.now)) }
    ensures same { OnErr result (places.new.entries ≡ places.old.entries) }
{
    match names_of(alloc, item, decl) {
        Ok(names) => add_names(places, names.as_slice()),
        Err(_) => Err(NameFault::NoMemory),
    }
}

/// Adds the ids of the types of a block behind the others, or none of them. The block is to be this item.
pub(crate) fn declare_bare(
    alloc: Global,
    places: &mut Places,
    item: usize,
    b: &Block,
) -> Result<(), NoMemory>
    requires { AreNew (keys_of places.old.entries) (bare_ids (block b.now).types) }
    ensures added { OnOk result (places.new.entries ≡ places.old.entries ++ bare_places item 0 (block b.now).types) }
    ensures same { OnErr result (places.new.entries ≡ places.old.entries) }
{
    let names = names_of_bare(alloc, item, b.types.as_slice())?;
    match add_names(places, names.as_slice()) {
        Ok(()) => Ok(()),
        Err(NameFault::Taken) => unreachable!(),
        Err(NameFault::NoMemory) => Err(NoMemory),
    }
}

/// Whether the id with that number is declared in that item or a later one.
fn is_from(places: &Places, number: usize, item: usize) -> bool
    requires { number < length places.now.entries }
    ensures { (other : NamedIds) → IsTrue result ↔ (item ≤ (slice_index_or places.now.entries number other).1.item) }
{
    match places.get_index(number) {
        Some((_, place)) => place.item >= item,
        None => unreachable!(),
    }
}

/// How many ids are declared before that item.
pub(crate) fn count_before(places: &Places, item: usize) -> usize
    ensures within { result ≤ length places.now.entries }
    ensures later { All (λ e. item ≤ e.1.item) (drop result places.now.entries) }
    ensures last { EndsBefore item places.now.entries result }
{
    let mut count = places.len();
    while count > 0 && is_from(places, count - 1, item) {
        count -= 1;
    }
    count
}

/// The ids with their places.
fn names_in(alloc: Global, places: &Places) -> Result<Named, NoMemory>
    ensures { IfOk result (λ names. names.items ≡ places.now.entries) }
{
    let mut names = Vec::new(alloc);
    for number in 0..places.len() {
        match places.get_index(number) {
            Some((id, place)) => names.push((shared_id(id)?, *place))?,
            None => unreachable!(),
        }
    }
    Ok(names)
}

/// The same ids with the same places.
pub(crate) fn copied_places(alloc: Global, places: &Places) -> Result<Places, NoMemory>
    requires { Distinct (keys_of places.now.entries) }
    ensures { IfOk result (λ copies. copies.entries ≡ places.now.entries) }
{
    let names = names_in(alloc, places)?;
    let mut copies = IndexMap::new(alloc);
    match add_names(&mut copies, names.as_slice()) {
        Ok(()) => Ok(copies),
        Err(NameFault::Taken) => unreachable!(),
        Err(NameFault::NoMemory) => Err(NoMemory),
    }
}
