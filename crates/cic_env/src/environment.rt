//! Environments: items in order, each id found in one look-up.
ghost use Rattle.std.specs.Prelude.{◌≡◌};
ghost use Rattle.cic_rules.specs.Environment.{environment_ids};
ghost use Rattle.cic_rules.specs.Formed.{Distinct};
ghost use Rattle.cic_env.specs.Items.{environment};
ghost use Rattle.cic_env.specs.calls.Places.{places_from};
ghost use Rattle.cic_env.specs.calls.Distinctness.{distinct_prop};

use crate::declaration::{Block, Decl, shared_id};
use crate::entry::{Entry, entry_at};
use crate::item::{Item, append, stripped_items};
use crate::naming::{NameFault, Places, copied_places, count_before, declare, declare_bare};
use cic_names::{GlobalId, NoMemory};
use indexmap::IndexMap;
use std::alloc::Global;

/// A global environment: items in order, no two ids of which are one. Coq Reference Manual, "Typing rules".
#[derive(Drop)]
pub struct Env {
    alloc: Global,
    kept: Vec<Item>,
    places: Places,
    ghost placed: { places.entries ≡ places_from 0 (environment kept.items) },
    ghost distinct: { Distinct (environment_ids (environment kept.items)) } by { distinct_prop (environment_ids (environment kept.items)) },
}

/// Why a declaration was not added. It hands the declaration back.
#[derive(Drop)]
pub enum PushFault {
    /// One of its ids is declared already, or it declares an id twice.
    Duplicate(Decl),
    /// There was no memory.
    NoMemory(Decl),
}

impl Env {
    ghost use Rattle.std.specs.Prelude.{◌≡◌, ◌↔◌, ◌≤◌, ◌∷◌, [], ◌++◌, length, map, take, Contains, IsTrue, IfOk, OnOk, OnErr, IfErr, IfSome};
    ghost use Rattle.std.specs.Option.{option_map, option_and_then};
    ghost use Rattle.cic_rules.specs.Environment.{meaning, environment_ids, bare_ids, bare};
    ghost use Rattle.cic_rules.specs.Formed.{Distinct};
    ghost use Rattle.cic_rules.specs.Reach.{axioms};
    ghost use Rattle.cic_env.specs.Declarations.{block};
    ghost use Rattle.cic_env.specs.Items.{item, as_item, stripped};
    ghost use Rattle.cic_env.specs.Entries.{entry_item, entry_meaning, NamesConstant};
    ghost use Rattle.cic_env.specs.NewIds.{AreNew};
    ghost use Rattle.cic_env.specs.Environments.{items, item_of, IsHandedBack, OnlyDuplicate};

    /// No items.
    pub fn new(alloc: Global) -> Env
        ensures { items result ≡ [] }
    {
        Env {
            alloc,
            kept: Vec::new(alloc),
            places: IndexMap::new(alloc),
        }
    }

    /// How many items there are.
    pub fn len(&self) -> usize
        ensures count { result ≡ length (items self.now) }
        ensures distinct { Distinct (environment_ids (items self.now)) }
    {
        self.kept.len()
    }

    /// The items in order.
    pub fn items(&self) -> &[Item]
        ensures { map as_item result.now ≡ items self.now }
    {
        self.kept.as_slice()
    }

    /// What an id stands for, if it is declared, with the item that declares it. An `Entry::Decl` is that of a constant.
    pub fn get(&self, id: &GlobalId) -> Option<Entry<'_>>
        ensures whose { option_map entry_item result ≡ item_of (items self.now) id.now }
        ensures means { option_and_then entry_meaning result ≡ meaning (items self.now) id.now }
        ensures constants { IfSome result NamesConstant }
    {
        match self.places.get(id) {
            Some(place) => Some(entry_at(&self.kept[place.item], *place)),
            None => None,
        }
    }

    /// Whether an id is declared.
    pub fn declares(&self, id: &GlobalId) -> bool
        ensures { IsTrue result ↔ Contains (environment_ids (items self.now)) id.now }
    {
        self.places.contains_key(id)
    }

    /// Adds a declaration behind the others.
    pub fn push(&mut self, decl: Decl) -> Result<(), PushFault>
        ensures added { OnOk result (items self.new ≡ items self.old ++ item decl ∷ []) }
        ensures duplicate { OnlyDuplicate result (items self.old) decl }
        ensures back { IfErr result (IsHandedBack decl) }
        ensures same { OnErr result (items self.new ≡ items self.old) }
    {
        if self.kept.reserve(1).is_err() {
            return Err(PushFault::NoMemory(decl));
        }
        match declare(self.alloc, &mut self.places, self.kept.len(), &decl) {
            Ok(()) => {
                append(&mut self.kept, Item::Declared(decl));
                Ok(())
            }
            Err(NameFault::Taken) => Err(PushFault::Duplicate(decl)),
            Err(NameFault::NoMemory) => Err(PushFault::NoMemory(decl)),
        }
    }

    /// Adds one last item, the block bare. No declaration is added behind it: `cut` takes it away.
    pub fn push_bare(&mut self, b: &Block) -> Result<(), NoMemory>
        requires { AreNew (environment_ids (items self.old)) (bare_ids (block b.now).types) }
        ensures added { OnOk result (items self.new ≡ items self.old ++ bare (block b.now) ∷ []) }
        ensures same { OnErr result (items self.new ≡ items self.old) }
    {
        let bare = b.copy(self.alloc)?;
        self.kept.reserve(1)?;
        declare_bare(self.alloc, &mut self.places, self.kept.len(), &bare)?;
        append(&mut self.kept, Item::Bare(bare));
        Ok(())
    }

    /// Keeps the first `len` items.
    pub fn cut(&mut self, len: usize)
        requires { len ≤ length (items self.old) }
        ensures { items self.new ≡ take len (items self.old) }
    {
        let count = count_before(&self.places, len);
        self.places.truncate(count);
        self.kept.truncate(len);
    }

    /// The same items without the bodies of opaque constants. Its terms share their parts.
    pub fn strip(&self) -> Result<Env, NoMemory>
        ensures { IfOk result (λ env. items env ≡ map stripped (items self.now)) }
    {
        let kept = stripped_items(self.alloc, self.kept.as_slice())?;
        let places = copied_places(self.alloc, &self.places)?;
        Ok(Env {
            alloc: self.alloc,
            kept,
            places,
        })
    }

    /// The axioms, in order of declaration.
    pub fn axioms(&self) -> Result<Vec<GlobalId>, NoMemory>
        ensures { IfOk result (λ ids. ids.items ≡ axioms (items self.now)) }
    {
        let mut ids = Vec::new(self.alloc);
        for item in &self.kept {
            if let Item::Declared(Decl::Axiom { id, .. }) = item {
                ids.push(shared_id(id)?)?;
            }
        }
        Ok(ids)
    }
}
