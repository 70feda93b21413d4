//! What imports bring.
use crate::brought::{Brought, id_of, next};
use crate::fault::NameFault;
use crate::table::kept;
use cic_names::GlobalId;
use indexmap::IndexMap;
use memory::NoMemory;
use std::alloc::Global;
use std::marker::Model;
use std::rc::RcStr;

/// Ids that imports brought: of each name the first, and the first that differs from it.
#[derive(Drop)]
pub(crate) struct Imports {
    alloc: Global,
    names: IndexMap<RcStr, Brought>,
}

impl Model for Imports {
    ghost use Rattle.std.specs.Prelude.{List};
    ghost use Rattle.std.specs.List.{IsDistinct};
    ghost use Rattle.std.specs.Map.{keys_of};
    ghost use Rattle.cic_names.specs.declared.name.GlobalId.{GlobalId as Id};
    ghost use Rattle.name_scope.specs.Tables.{same_text};
    ghost use Rattle.name_scope.specs.Kept.{ids_of, AreRight};

    ghost Value = { List Id };

    ghost view = { λ s. ids_of s.names.entries };

    ghost invariant = { λ s. AreRight s.names.entries × IsDistinct same_text (keys_of s.names.entries) };
}

impl Imports {
    ghost use Rattle.std.specs.Prelude.{◌≡◌, ◌++◌, ◌∷◌, [], Ok, Err, OnOk, OnErr};
    ghost use Rattle.memory.specs.Telling.{Tells};
    ghost use Rattle.name_scope.specs.Faults.{fault};
    ghost use Rattle.name_scope.specs.calls.Changes.{imported_of, Brings};

    /// Nothing is brought.
    pub(crate) fn new(alloc: Global) -> Imports
        ensures { result ≡ [] }
    {
        Imports {
            alloc,
            names: IndexMap::new(alloc),
        }
    }

    /// What imports bring for the name.
    pub(crate) fn get<'a>(&self, name: &'a [u8]) -> Result<GlobalId, NameFault<'a>>
        ensures { Tells fault result (λ id. imported_of self.now name.now ≡ Ok id) (λ f. imported_of self.now name.now ≡ Err f) }
    {
        id_of(kept(&self.names, name), name)
    }

    /// Brings one more id.
    pub(crate) fn bring(&mut self, id: &GlobalId) -> Result<(), NoMemory>
        ensures brings { OnOk result (Brings (self.old ++ id.now ∷ []) self.new) }
        ensures same { OnErr result (self.new ≡ self.old) }
    {
        let Some(brought) = next(self.names.get(id.name.text()), id)? else {
            return Ok(());
        };
        let text = RcStr::from_str(self.alloc, id.name.text())?;
        self.names.insert(text, brought)?;
        Ok(())
    }
}
