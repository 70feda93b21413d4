ghost use Rattle.std.specs.Prelude.{◌≡◌, ◌++◌, ◌∷◌, [], IsTrue, ◌↔◌, Contains, OnOk, OnErr};

use memory::NoMemory;
use std::alloc::Global;
use std::marker::Model;

/// The numbers of the calls, from 1, at which a folder or a sink in memory fails.
#[derive(Debug, Drop)]
pub struct Calls {
    numbers: Vec<u64>,
}

impl Model for Calls {
    ghost use Rattle.std.specs.Prelude.{List, ℕ};

    ghost Value = { List ℕ };

    ghost view = { λ calls. calls.numbers.items };
}

impl Calls {
    /// No call.
    pub fn none(alloc: Global) -> Calls
        ensures { result ≡ [] }
    {
        Calls {
            numbers: Vec::new(alloc),
        }
    }

    /// Adds the call of that number.
    pub fn add(&mut self, number: u64) -> Result<(), NoMemory>
        ensures added { OnOk result (self.new ≡ self.old ++ number ∷ []) }
        ensures same { OnErr result (self.new ≡ self.old) }
    {
        self.numbers.push(number)?;
        Ok(())
    }

    /// Whether the call of that number is among them.
    pub(crate) fn has(&self, number: u64) -> bool
        ensures { IsTrue result ↔ Contains self.now number }
    {
        self.numbers.contains(&number)
    }
}
