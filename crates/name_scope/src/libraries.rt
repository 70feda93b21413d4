//! Libraries whose names may be written with the library before them.
use crate::library::Library;
use crate::name_set::NameSet;
use crate::table::kept;
use cic_names::{LibName, Name};
use indexmap::IndexMap;
use memory::NoMemory;
use std::alloc::Global;
use std::marker::Model;
use std::rc::RcStr;

/// Libraries whose names may be written, with the levels that they declare.
#[derive(Drop)]
pub(crate) struct Libraries {
    alloc: Global,
    libraries: IndexMap<RcStr, Library>,
}

impl Model for Libraries {
    ghost use Rattle.std.specs.Prelude.{List};
    ghost use Rattle.std.specs.List.{IsDistinct};
    ghost use Rattle.std.specs.Map.{keys_of};
    ghost use Rattle.gal_scoping.specs.Scopes.{Allowed};
    ghost use Rattle.name_scope.specs.Tables.{same_text};
    ghost use Rattle.name_scope.specs.Permitted.{allowed_of, AreNamed};

    ghost Value = { List Allowed };

    ghost view = { λ s. allowed_of s.libraries.entries };

    ghost invariant = { λ s. AreNamed s.libraries.entries × IsDistinct same_text (keys_of s.libraries.entries) };
}

impl Libraries {
    ghost use Rattle.std.specs.Prelude.{◌≡◌, [], ℕ, List, false, is_some, IfSome, OnOk, OnErr};
    ghost use Rattle.gal_scoping.specs.Names.{has_own};
    ghost use Rattle.name_scope.specs.calls.Changes.{Allows, is_allowed, is_declared};

    /// No libraries.
    pub(crate) fn new(alloc: Global) -> Libraries
        ensures { result ≡ [] }
    {
        Libraries {
            alloc,
            libraries: IndexMap::new(alloc),
        }
    }

    /// The library of this name, if it is allowed.
    pub(crate) fn get(&self, name: &[u8]) -> Option<&Library>
        ensures found { is_some result ≡ is_allowed self.now name.now }
        ensures name { IfSome result (λ library. library.now.name ≡ name.now) }
        ensures levels { IfSome result (λ library. (level : List ℕ) → is_declared self.now (record { lib = name.now; name = level }) ≡ has_own library.now.levels level) }
    {
        kept(&self.libraries, name)
    }

    /// Allows one more library, which declares these levels.
    fn add(&mut self, name: &LibName, levels: &[Name]) -> Result<(), NoMemory>
        requires { is_allowed self.old name.now ≡ false }
        ensures allows { OnOk result (Allows name.now levels.now self.old self.new) }
        ensures same { OnErr result (self.new ≡ self.old) }
    {
        let mut library = Library {
            name: name.clone()?,
            levels: NameSet::new(self.alloc),
        };
        library.levels.insert_all(levels)?;
        let text = RcStr::from_str(self.alloc, name.text())?;
        self.libraries.insert(text, library)?;
        Ok(())
    }

    /// Allows a library, which declares these levels.
    pub(crate) fn allow(&mut self, name: &LibName, levels: &[Name]) -> Result<(), NoMemory>
        ensures allows { OnOk result (Allows name.now levels.now self.old self.new) }
        ensures same { OnErr result (self.new ≡ self.old) }
    {
        let Some(library) = self.libraries.get_mut(name.text()) else {
            return self.add(name, levels);
        };
        library.levels.insert_all(levels)
    }
}
