//! Sets of names, in which the bytes of a name are looked up.
use crate::table::kept;
use cic_names::Name;
use indexmap::IndexMap;
use memory::NoMemory;
use std::alloc::Global;
use std::marker::Model;
use std::rc::RcStr;

/// Names, each once, kept under their texts.
#[derive(Drop)]
pub(crate) struct NameSet {
    alloc: Global,
    names: IndexMap<RcStr, Name>,
}

impl Model for NameSet {
    ghost use Rattle.std.specs.Prelude.{◌≡◌, List, ℕ};
    ghost use Rattle.std.specs.Map.{values_of};
    ghost use Rattle.name_scope.specs.Tables.{texts};

    ghost Value = { List (List ℕ) };

    ghost view = { λ s. texts s.names.entries };

    ghost invariant = { λ s. values_of s.names.entries ≡ texts s.names.entries };
}

impl NameSet {
    ghost use Rattle.std.specs.Prelude.{◌≡◌, ◌≤◌, [], is_some, length, take, OnOk, OnErr, IfSome};
    ghost use Rattle.gal_scoping.specs.Names.{has_own};
    ghost use Rattle.name_scope.specs.calls.Changes.{Joins, with_name, with_names, Leaves};

    /// No names.
    pub(crate) fn new(alloc: Global) -> NameSet
        ensures { result ≡ [] }
    {
        NameSet {
            alloc,
            names: IndexMap::new(alloc),
        }
    }

    /// The name of these bytes, if it is there.
    pub(crate) fn get(&self, text: &[u8]) -> Option<&Name>
        ensures found { is_some result ≡ has_own self.now text.now }
        ensures name { IfSome result (λ name. name.now ≡ text.now) }
    {
        kept(&self.names, text)
    }

    /// Puts a name behind the others, unless it is there.
    pub(crate) fn insert(&mut self, name: &Name) -> Result<(), NoMemory>
        ensures added { OnOk result (self.new ≡ with_name self.old name.now) }
        ensures joins { OnOk result (Joins name.now self.old self.new) }
        ensures same { OnErr result (self.new ≡ self.old) }
    {
        if self.names.contains_key(name.text()) {
            return Ok(());
        }
        let text = RcStr::from_str(self.alloc, name.text())?;
        let name = name.clone()?;
        self.names.insert(text, name)?;
        Ok(())
    }

    /// Takes a name away, if it is there.
    pub(crate) fn remove(&mut self, name: &Name)
        ensures { Leaves name.now self.old self.new }
    {
        let _name = self.names.swap_remove(name.text());
    }

    /// How many names there are.
    pub(crate) fn len(&self) -> usize
        ensures { result ≡ length self.now }
    {
        self.names.len()
    }

    /// Keeps the first `len` names.
    pub(crate) fn cut(&mut self, len: usize)
        ensures { self.new ≡ take len self.old }
    {
        self.names.truncate(len);
    }

    /// Puts the names behind the others that are not there, or none of them.
    pub(crate) fn insert_all(&mut self, names: &[Name]) -> Result<(), NoMemory>
        ensures added { OnOk result (self.new ≡ with_names self.old names.now) }
        ensures same { OnErr result (self.new ≡ self.old) }
    {
        let len = self.len();
        for name in names {
            if let Err(fault) = self.insert(name) {
                self.cut(len);
                return Err(fault);
            }
        }
        Ok(())
    }
}
