//! Items of an environment, with the ids that they declare and where they declare them.
ghost use Rattle.std.specs.Prelude.{◌≡◌, ◌∷◌, [], ◌++◌, ◌+◌, ◌≤◌, IfOk, OnOk, map, vec_len, vec_capacity};
ghost use Rattle.cic_env.specs.Declarations.{constructor_declaration, type_declaration, declaration};
ghost use Rattle.cic_env.specs.Items.{as_item, stripped, environment};
ghost use Rattle.cic_env.specs.calls.Places.{place_at, constructor_places, type_places, bare_places, declaration_places, one_type};

use crate::declaration::{Block, CtorDecl, Decl, IndType, shared_id};
use cic_names::{GlobalId, NoMemory};
use std::alloc::Global;

/// An item of an environment.
#[derive(Drop)]
pub enum Item {
    /// A declaration.
    Declared(Decl),
    /// A block taken bare: its types with their arities alone, without constructors and without match on them.
    Bare(Block),
}

/// Where an id is declared: the item; of a block's ids the type's place in the block, and of a
/// constructor its place among the type's constructors.
#[derive(Clone, Copy)]
pub struct Place {
    pub item: usize,
    pub index: u32,
    pub constructor: Option<u32>,
}

/// Ids with their places, in order of declaration.
pub(crate) type Named = Vec<(GlobalId, Place)>;

impl Item {
    /// The same item without an opaque body. Its terms share their parts.
    pub(crate) fn stripped(&self, alloc: Global) -> Result<Item, NoMemory>
        ensures { IfOk result (λ item. as_item item ≡ stripped (as_item self.now)) }
    {
        match self {
            Item::Declared(decl) => Ok(Item::Declared(decl.without_body(alloc)?)),
            Item::Bare(block) => Ok(Item::Bare(block.copy(alloc)?)),
        }
    }
}

/// Adds an item for which there is room.
pub(crate) fn append(kept: &mut Vec<Item>, item: Item)
    requires { vec_len kept.old + 1 ≤ vec_capacity kept.old }
    ensures { kept.new.items ≡ kept.old.items ++ item ∷ [] }
{
    if kept.push(item).is_err() {
        unreachable!();
    }
}

/// The same items without opaque bodies. Their terms share their parts.
pub(crate) fn stripped_items(alloc: Global, items: &[Item]) -> Result<Vec<Item>, NoMemory>
    ensures { IfOk result (λ made. environment made.items ≡ map stripped (environment items.now)) }
{
    let mut made = Vec::new(alloc);
    for item in items {
        made.push(item.stripped(alloc)?)?;
    }
    Ok(made)
}

/// A number as a place keeps it. A list of more than 2^32 items would not fit into memory.
fn as_place(number: usize) -> Result<u32, NoMemory>
    ensures { IfOk result (λ n. n ≡ number) }
{
    if number <= u32::MAX as usize {
        Ok(number as u32)
    } else {
        Err(NoMemory)
    }
}

/// Adds an id with its place.
fn add_name(names: &mut Named, id: &GlobalId, place: Place) -> Result<(), NoMemory>
    ensures { OnOk result (names.new.items ≡ names.old.items ++ (id.now, place) ∷ []) }
{
    names.push((shared_id(id)?, place))?;
    Ok(())
}

/// Adds the constructors of a type.
fn add_constructors(
    names: &mut Named,
    item: usize,
    index: u32,
    ctors: &[CtorDecl],
) -> Result<(), NoMemory>
    ensures { OnOk result (names.new.items ≡ names.old.items ++ constructor_places item index 0 (map constructor_declaration ctors.now)) }
{
    for (number, ctor) in ctors.iter().enumerate() {
        let place = Place {
            item,
            index,
            constructor: Some(as_place(number)?),
        };
        add_name(names, &ctor.id, place)?;
    }
    Ok(())
}

/// Adds a type, without constructors.
fn add_bare(names: &mut Named, item: usize, index: u32, ty: &IndType) -> Result<(), NoMemory>
    ensures { OnOk result (names.new.items ≡ names.old.items ++ (ty.now.id, place_at item index) ∷ []) }
{
    let place = Place {
        item,
        index,
        constructor: None,
    };
    add_name(names, &ty.id, place)
}

/// Adds a type and then its constructors.
fn add_type(names: &mut Named, item: usize, index: u32, ty: &IndType) -> Result<(), NoMemory>
    ensures { OnOk result (names.new.items ≡ names.old.items ++ one_type item index (type_declaration ty.now)) }
{
    add_bare(names, item, index, ty)?;
    add_constructors(names, item, index, ty.ctors.as_slice())
}

/// The ids of a block, each type before its constructors.
fn add_types(names: &mut Named, item: usize, types: &[IndType]) -> Result<(), NoMemory>
    ensures { OnOk result (names.new.items ≡ names.old.items ++ type_places item 0 (map type_declaration types.now)) }
{
    for (number, ty) in types.iter().enumerate() {
        add_type(names, item, as_place(number)?, ty)?;
    }
    Ok(())
}

/// The ids of the types of a block.
pub(crate) fn names_of_bare(
    alloc: Global,
    item: usize,
    types: &[IndType],
) -> Result<Named, NoMemory>
    ensures { IfOk result (λ names. names.items ≡ bare_places item 0 (map type_declaration types.now)) }
{
    let mut names = Vec::new(alloc);
    for (number, ty) in types.iter().enumerate() {
        add_bare(&mut names, item, as_place(number)?, ty)?;
    }
    Ok(names)
}

/// The ids that a declaration declares, with their places, where it is this item.
pub(crate) fn names_of(alloc: Global, item: usize, decl: &Decl) -> Result<Named, NoMemory>
    ensures { IfOk result (λ names. names.items ≡ declaration_places item (declaration decl.now)) }
{
    let mut names = Vec::new(alloc);
    let place = Place {
        item,
        index: 0,
        constructor: None,
    };
    match decl {
        Decl::Axiom { id, .. } => add_name(&mut names, id, place)?,
        Decl::Transparent { id, .. } => add_name(&mut names, id, place)?,
        Decl::Opaque { id, .. } => add_name(&mut names, id, place)?,
        Decl::Inductive(block) => add_types(&mut names, item, block.types.as_slice())?,
    }
    Ok(names)
}
