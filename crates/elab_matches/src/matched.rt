//! The type of a match.
ghost use Rattle.std.specs.Prelude.{◌≡◌, [], IfOk, OnOk, map, replicate, None, Ok};
ghost use Rattle.std.specs.Option.{option_copied, option_map};
ghost use Rattle.cic_env.specs.Declarations.{block, type_declaration};
ghost use Rattle.cic_env.specs.Environments.{items};
ghost use Rattle.cic_env.specs.Readers.{ctor_of, type_in_block};
ghost use Rattle.cic_rules.specs.Environment.{whole_block};
ghost use Rattle.gal_raw.specs.Denotes.{qualified, binder, within, branches};
ghost use Rattle.gal_scoping.specs.Matches.{around_motive, further, named_type, named_type_at, type_within, unnamed_type, unnamed_type_at, constructor_meant, type_of_pattern, type_of_branches, first_pattern, matched_type};
ghost use Rattle.elab_parts.specs.Binders.{around_of};
ghost use Rattle.elab_parts.specs.Places.{place_of};
ghost use Rattle.elab_parts.specs.calls.Readings.{Reads};
ghost use Rattle.elab_matches.specs.Matches.{type_of};

use crate::arguments::{binder_texts, further, names_at};
use cic_env::{Block, CtorOf, Env, IndType};
use cic_names::GlobalId;
use elab_parts::{Around, Place, ScopingFault, enter_all, global_named, text};
use gal_raw::{Binder, Branches, QualifiedName, Within};
use memory::NoMemory;
use std::alloc::Global;

/// The type of a match: its id, its declaration, the number of its parameters, and names for its indices.
#[derive(Drop)]
pub struct MatchedType<'p, 'a> {
    pub id: GlobalId,
    pub ty: &'p IndType,
    pub parameters: u32,
    pub indices: Vec<Option<&'a [u8]>>,
}

impl<'a> MatchedType<'_, 'a> {
    /// Puts the binders of the indices, and inside them that of the value, inside all others.
    pub fn enter(&self, around: &mut Around<'a>, value: Option<&'a [u8]>) -> Result<(), NoMemory>
        ensures { OnOk result (around_of around.new ≡ around_motive (around_of around.old) (Ok (type_of self.now)) (option_copied value.entry)) }
    {
        enter_all(around, &self.indices)?;
        around.enter(value)
    }
}

/// A type with names for its indices.
fn named_type_at<'p, 'a>(
    alloc: Global,
    name: &'a [u8],
    id: GlobalId,
    parameters: u32,
    ty: &'p IndType,
    binders: &[Binder<'a>],
) -> Result<MatchedType<'p, 'a>, ScopingFault<'a>>
    ensures { Reads type_of (named_type_at name.now id (map binder binders.now) parameters (Some (type_declaration ty.now))) result }
{
    let indices = binder_texts(alloc, names_at(name, parameters, &ty.arity, binders)?)?;
    Ok(MatchedType {
        id,
        ty,
        parameters,
        indices,
    })
}

/// The type at a place of a block, with names for its indices.
fn named_type<'p, 'a>(
    alloc: Global,
    name: &'a [u8],
    id: GlobalId,
    b: &'p Block,
    index: u32,
    binders: &[Binder<'a>],
) -> Result<MatchedType<'p, 'a>, ScopingFault<'a>>
    ensures { Reads type_of (named_type name.now id (map binder binders.now) (Some (type_in_block (block b.now) index))) result }
{
    match b.types.get(index as usize) {
        Some(ty) => named_type_at(alloc, name, id, b.params, ty, binders),
        None => Err(ScopingFault::BadPattern(name)),
    }
}

/// The type behind `in`.
fn type_within<'p, 'a>(
    alloc: Global,
    place: &Place<'p>,
    around: &Around<'a>,
    written: &Within<'a>,
) -> Result<MatchedType<'p, 'a>, ScopingFault<'a>>
    ensures { Reads type_of (type_within (place_of place.now) (around_of around.now) (within written.now)) result }
{
    let name = text(&written.inductive);
    let id = global_named(place, around, &written.inductive)?;
    match place.env.whole_block(&id) {
        Some((b, index)) => named_type(alloc, name, id, b, index, &written.names),
        None => Err(ScopingFault::BadPattern(name)),
    }
}

/// The constructor that a pattern names.
pub(crate) fn constructor_meant<'p, 'a>(
    place: &Place<'p>,
    around: &Around<'a>,
    x: &QualifiedName<'a>,
) -> Result<CtorOf<'p>, ScopingFault<'a>>
    ensures { Reads ctor_of (constructor_meant (place_of place.now) (around_of around.now) (qualified x.now)) result }
{
    let id = global_named(place, around, x)?;
    match place.env.constructor(&id) {
        Some(found) => Ok(found),
        None => Err(ScopingFault::BadPattern(text(x))),
    }
}

/// So many indices without names.
fn no_names<'a>(alloc: Global, count: u32) -> Result<Vec<Option<&'a [u8]>>, NoMemory>
    ensures { IfOk result (λ names. map option_copied names.items ≡ replicate count None) }
{
    let mut names = Vec::new(alloc);
    names.resize(count as usize, None)?;
    Ok(names)
}

/// A type with indices without names.
fn unnamed_type_at<'p, 'a>(
    alloc: Global,
    id: GlobalId,
    parameters: u32,
    ty: &'p IndType,
) -> Result<MatchedType<'p, 'a>, NoMemory>
    ensures { IfOk result (λ t. type_of t ≡ record { id = id; type = type_declaration ty.now; parameters = parameters; indices = replicate (further (type_declaration ty.now).arity parameters) None }) }
{
    let indices = no_names(alloc, further(&ty.arity, parameters)?)?;
    Ok(MatchedType {
        id,
        ty,
        parameters,
        indices,
    })
}

/// The type at a place of a block, with indices without names.
fn unnamed_type<'p, 'a>(
    alloc: Global,
    name: &'a [u8],
    id: GlobalId,
    b: &'p Block,
    index: u32,
) -> Result<MatchedType<'p, 'a>, ScopingFault<'a>>
    ensures { Reads type_of (unnamed_type name.now id (Some (type_in_block (block b.now) index))) result }
{
    match b.types.get(index as usize) {
        Some(ty) => Ok(unnamed_type_at(alloc, id, b.params, ty)?),
        None => Err(ScopingFault::BadPattern(name)),
    }
}

/// The same id, which shares its names.
fn shared_id(id: &GlobalId) -> Result<GlobalId, NoMemory>
    ensures { IfOk result (λ copy. copy ≡ id.now) }
{
    Ok(id.clone()?)
}

/// The type of this id, with indices without names.
fn type_of_owner<'p, 'a>(
    alloc: Global,
    env: &'p Env,
    name: &'a [u8],
    owner: &GlobalId,
) -> Result<MatchedType<'p, 'a>, ScopingFault<'a>>
    ensures { Reads type_of (unnamed_type name.now owner.now (whole_block (items env.now) owner.now)) result }
{
    match env.whole_block(owner) {
        Some((b, index)) => unnamed_type(alloc, name, shared_id(owner)?, b, index),
        None => Err(ScopingFault::BadPattern(name)),
    }
}

/// The type of the constructor that a pattern names.
fn type_of_pattern<'p, 'a>(
    alloc: Global,
    place: &Place<'p>,
    around: &Around<'a>,
    x: &QualifiedName<'a>,
) -> Result<MatchedType<'p, 'a>, ScopingFault<'a>>
    ensures { Reads type_of (type_of_pattern (place_of place.now) (around_of around.now) (qualified x.now)) result }
{
    let found = constructor_meant(place, around, x)?;
    type_of_owner(alloc, place.env, text(x), found.owner)
}

/// The constructor of the first pattern.
fn first_pattern<'r, 'a>(all: &'r Branches<'a>) -> Option<&'r QualifiedName<'a>>
    ensures { option_map (λ x. qualified x.now) result ≡ first_pattern (branches all.now) }
{
    match all.as_slice().first() {
        Some(branch) => Some(&branch.constructor),
        None => None,
    }
}

/// The type of a match without `in`: that of the constructor of its first pattern.
fn type_of_branches<'p, 'a>(
    alloc: Global,
    place: &Place<'p>,
    around: &Around<'a>,
    all: &Branches<'a>,
) -> Result<MatchedType<'p, 'a>, ScopingFault<'a>>
    ensures { Reads type_of (type_of_branches (place_of place.now) (around_of around.now) (first_pattern (branches all.now))) result }
{
    match first_pattern(all) {
        Some(x) => type_of_pattern(alloc, place, around, x),
        None => Err(ScopingFault::BadPattern(&[])),
    }
}

/// The type of a match: that behind `in`, or else that of the constructor of the first pattern.
pub fn matched_type<'p, 'a>(
    alloc: Global,
    place: &Place<'p>,
    around: &Around<'a>,
    behind: &Option<Within<'a>>,
    all: &Branches<'a>,
) -> Result<MatchedType<'p, 'a>, ScopingFault<'a>>
    ensures { Reads type_of (matched_type (place_of place.now) (around_of around.now) (option_map within behind.now) (branches all.now)) result }
{
    match behind {
        Some(written) => type_within(alloc, place, around, written),
        None => type_of_branches(alloc, place, around, all),
    }
}
