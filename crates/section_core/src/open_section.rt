//! An open section.
ghost use Rattle.std.specs.Prelude.{◌≡◌, [], map, IfOk, IfErr, OnOk, IsErrAnd};
ghost use Rattle.section_core.specs.Answers.{AllFit, declarations_of};
ghost use Rattle.section_core.specs.calls.Stored.{kept_entry, kept_stored, AllDeclare, IsWrongEnd};

use crate::discharging::discharge;
use crate::entry::{Entry, Kept};
use crate::fault::LeaveFault;
use cic_names::Name;
use memory::NoMemory;
use std::alloc::Global;

/// An open section. Before it stand `start` hypotheses.
#[derive(Drop)]
pub(crate) struct OpenSection {
    pub(crate) name: Name,
    pub(crate) start: usize,
    pub(crate) entries: Vec<Entry>,
}

/// The refusal of an end by that name.
fn wrong_end(found: &Name, inner: &Name) -> Result<Vec<Kept>, LeaveFault>
    ensures { IsErrAnd result (IsWrongEnd found.now inner.now) }
{
    let found = found.clone()?;
    let inner = inner.clone()?;
    Err(LeaveFault::WrongEnd { found, inner })
}

impl OpenSection {
    ghost use Rattle.section_core.specs.calls.States.{PutsEntry, IsNotKept};

    /// Puts an entry behind the others.
    pub(crate) fn put(&mut self, entry: Entry) -> Result<(), NoMemory>
        ensures { OnOk result (PutsEntry entry self.old self.new) }
    {
        self.entries.push(entry)?;
        Ok(())
    }

    /// What is kept of the section, if it has that name.
    pub(crate) fn kept(&self, alloc: Global, name: &Name) -> Result<Vec<Kept>, LeaveFault>
        requires { AllDeclare self.now.entries.items }
        ensures name { OnOk result (self.now.name ≡ name.now) }
        ensures kept { IfOk result (λ all. map kept_entry all.items ≡ kept_stored (λ c. []) self.now.entries.items) }
        ensures fits { OnOk result (AllFit (declarations_of (kept_stored (λ c. []) self.now.entries.items))) }
        ensures err { IfErr result (IsNotKept self.now name.now) }
    {
        if self.name != *name {
            return wrong_end(name, &self.name);
        }
        discharge(alloc, self.entries.as_slice())
    }
}
