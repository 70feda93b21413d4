//! What the ids of an environment stand for.
ghost use Rattle.std.specs.Prelude.{◌≡◌};
ghost use Rattle.cic_env.specs.Items.{as_item};
ghost use Rattle.cic_env.specs.Entries.{entry_item, entry_meaning, NamesConstant};
ghost use Rattle.cic_env.specs.calls.Places.{stands_at};

use crate::declaration::{Block, Decl};
use crate::item::{Item, Place};

/// What an id stands for.
#[derive(Drop)]
pub enum Entry<'e> {
    /// The constant that this declaration declares.
    Decl(&'e Decl),
    /// The type at that place of a whole block.
    Typ(&'e Block, u32),
    /// The constructor at the second place of the type at the first place of a whole block.
    Ctor(&'e Block, u32, u32),
    /// The type at that place of a bare block.
    Bare(&'e Block, u32),
}

/// What an id stands for that the item declares at the place.
pub(crate) fn entry_at(item: &Item, place: Place) -> Entry<'_>
    ensures whose { entry_item result ≡ as_item item.now }
    ensures means { entry_meaning result ≡ stands_at (as_item item.now) place }
    ensures constants { NamesConstant result }
{
    match item {
        Item::Declared(decl) => match decl {
            Decl::Inductive(block) => match place.constructor {
                None => Entry::Typ(block, place.index),
                Some(constructor) => Entry::Ctor(block, place.index, constructor),
            },
            Decl::Axiom { .. } | Decl::Transparent { .. } | Decl::Opaque { .. } => Entry::Decl(
                decl,
            ),
        },
        Item::Bare(block) => Entry::Bare(block, place.index),
    }
}
