//! The names that were seen.
ghost use Rattle.std.specs.Prelude.{◌≡◌, ◌∷◌, [], false, IfOk, OnOk};
ghost use Rattle.section_terms.specs.Used.{with_those_of};
ghost use Rattle.section_uses.specs.Kept.{list_of};
ghost use Rattle.cic_names.specs.declared.name.GlobalId.{GlobalId as Id};

use crate::lists::Lists;
use cic_names::GlobalId;
use indexmap::IndexSet;
use memory::NoMemory;
use std::alloc::Global;

/// Names that were seen.
#[derive(Drop)]
pub struct Seen {
    ids: IndexSet<GlobalId>,
}

fn copied(id: &GlobalId) -> Result<GlobalId, NoMemory>
    ensures { IfOk result (λ r. r ≡ id.now) }
{
    Ok(id.clone()?)
}

impl Seen {
    ghost use Rattle.section_uses.specs.calls.Closing.{has, Sees};

    /// No names.
    pub fn new(alloc: Global) -> Seen
        ensures { (id : Id) → has result id ≡ false }
    {
        Seen {
            ids: IndexSet::new(alloc),
        }
    }

    /// Whether the name was seen.
    pub fn has(&self, id: &GlobalId) -> bool
        ensures { result ≡ has self.now id.now }
    {
        self.ids.contains(id)
    }

    fn see(&mut self, id: &GlobalId) -> Result<(), NoMemory>
        ensures { OnOk result (Sees (id.now ∷ []) self.old self.new) }
    {
        let key = copied(id)?;
        self.ids.insert(key)?;
        Ok(())
    }

    /// Sees the names.
    pub fn see_all(&mut self, ids: &[GlobalId]) -> Result<(), NoMemory>
        ensures { OnOk result (Sees ids.now self.old self.new) }
    {
        for id in ids {
            self.see(id)?;
        }
        Ok(())
    }

    fn see_one_with(&mut self, id: &GlobalId, over: &Lists) -> Result<(), NoMemory>
        ensures { OnOk result (Sees (id.now ∷ list_of over.now id.now) self.old self.new) }
    {
        self.see(id)?;
        self.see_all(over.of(id))
    }

    /// Sees the names, and what the constants of the section among them are generalised over.
    pub(crate) fn see_with(&mut self, ids: &[GlobalId], over: &Lists) -> Result<(), NoMemory>
        ensures { OnOk result (Sees (with_those_of (list_of over.now) ids.now) self.old self.new) }
    {
        for id in ids {
            self.see_one_with(id, over)?;
        }
        Ok(())
    }
}
