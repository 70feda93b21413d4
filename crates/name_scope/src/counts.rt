//! How many anonymous levels owners have taken.
use cic_names::Name;
use indexmap::IndexMap;
use memory::NoMemory;
use std::alloc::Global;

/// How many anonymous levels an owner has taken: for what other libraries can see, and for its opaque body.
#[derive(Clone, Copy, Drop)]
pub(crate) struct Count {
    pub(crate) visible: u32,
    pub(crate) proof: u32,
}

/// The counts of owners.
#[derive(Drop)]
pub(crate) struct Counts {
    pub(crate) of: IndexMap<Name, Count>,
}

impl Count {
    ghost use Rattle.std.specs.Prelude.{◌≡◌, ◌+◌, ◌<◌, ◌^◌};
    ghost use Rattle.name_scope.specs.Counting.{part_count, with_more};

    fn part(self, opaque: bool) -> u32
        ensures { result ≡ part_count opaque self }
    {
        if opaque { self.proof } else { self.visible }
    }

    fn with_more(self, opaque: bool, more: u32) -> Count
        requires { part_count opaque self + more < 2 ^ 32 }
        ensures { result ≡ with_more opaque more self }
    {
        if opaque {
            Count {
                proof: self.proof + more,
                ..self
            }
        } else {
            Count {
                visible: self.visible + more,
                ..self
            }
        }
    }
}

impl Counts {
    ghost use Rattle.std.specs.Prelude.{◌≡◌, ◌+◌, ◌<◌, ◌^◌, [], OnOk, OnErr};
    ghost use Rattle.std.specs.Map.{lookup};
    ghost use Rattle.cic_names.specs.Sameness.{same_name};
    ghost use Rattle.name_scope.specs.Counting.{count_or_none, count_in};
    ghost use Rattle.name_scope.specs.calls.Changes.{Takes};

    /// No owner has taken any.
    pub(crate) fn new(alloc: Global) -> Counts
        ensures { result.of.entries ≡ [] }
    {
        Counts {
            of: IndexMap::new(alloc),
        }
    }

    fn of_owner(&self, owner: &Name) -> Count
        ensures { result ≡ count_or_none (lookup (same_name owner.now) self.now.of.entries) }
    {
        match self.of.get(owner) {
            None => Count {
                visible: 0,
                proof: 0,
            },
            Some(count) => *count,
        }
    }

    /// How many levels an owner has taken: in its opaque body, or elsewhere.
    pub(crate) fn taken(&self, owner: &Name, opaque: bool) -> u32
        ensures { result ≡ count_in self.now.of.entries (record { name = owner.now; opaque = opaque }) }
    {
        self.of_owner(owner).part(opaque)
    }

    /// Notes that an owner takes so many levels more.
    pub(crate) fn take(&mut self, owner: &Name, opaque: bool, count: u32) -> Result<(), NoMemory>
        requires { count_in self.old.of.entries (record { name = owner.now; opaque = opaque }) + count < 2 ^ 32 }
        ensures takes { OnOk result (Takes (record { name = owner.now; opaque = opaque }) count (count_in self.old.of.entries) (count_in self.new.of.entries)) }
        ensures same { OnErr result (self.new.of.entries ≡ self.old.of.entries) }
    {
        let taken = self.of_owner(owner).with_more(opaque, count);
        let owner = owner.clone()?;
        self.of.insert(owner, taken)?;
        Ok(())
    }
}
