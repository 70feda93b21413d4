//! Libraries, in the order in which they are put in.
use cic_names::LibName;
use indexmap::IndexSet;
use memory::NoMemory;
use std::alloc::Global;
use std::marker::Model;

/// Names of libraries, each once.
#[derive(Drop)]
pub struct Libraries {
    set: IndexSet<LibName>,
}

impl Model for Libraries {
    ghost use Rattle.std.specs.Prelude.{List, ℕ};

    ghost Value = { List (List ℕ) };

    ghost view = { λ l. l.set.keys };
}

impl Libraries {
    ghost use Rattle.std.specs.Prelude.{◌≡◌, [], OnOk};
    ghost use Rattle.gal_requires.specs.Roots.{with_library};

    pub(crate) fn new(alloc: Global) -> Libraries
        ensures { result ≡ [] }
    {
        Libraries {
            set: IndexSet::new(alloc),
        }
    }

    /// Puts the library behind the others, unless it is among them.
    pub(crate) fn insert(&mut self, library: LibName) -> Result<(), NoMemory>
        ensures { OnOk result (self.new ≡ with_library self.old library) }
    {
        match self.set.insert(library) {
            Ok(_) => Ok(()),
            Err(_) => Err(NoMemory),
        }
    }

    /// The libraries in order.
    pub fn as_slice(&self) -> &[LibName]
        ensures { result.now ≡ self.now }
    {
        self.set.as_slice()
    }
}
