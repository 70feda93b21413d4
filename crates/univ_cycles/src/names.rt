//! Level names by their places, with a table of the places.
ghost use Rattle.std.specs.Prelude.{◌≡◌, ℕ, Some, slice_get};
ghost use Rattle.std.specs.HashMap.{get};
ghost use Rattle.cic_names.specs.declared.level.LevelName.{LevelName};

use cic_names::{LevelName, NoMemory};
use std::alloc::Global;
use std::collections::HashMap;
use std::marker::Model;

/// Level names in order, each once. The table may also have places of names that were taken away.
#[derive(Drop)]
pub struct Names {
    table: HashMap<LevelName, usize>,
    names: Vec<LevelName>,
    ghost placed: { (p : ℕ) (l : LevelName) → slice_get names.items p ≡ Some l → get ⟦<LevelName as PartialEq>⟧.eq table l ≡ Some p },
}

impl Model for Names {
    ghost use Rattle.std.specs.Prelude.{List};
    ghost use Rattle.cic_names.specs.declared.level.LevelName.{LevelName};

    ghost Value = { List LevelName };

    ghost view = { λ n. n.names.items };
}

impl Names {
    ghost use Rattle.std.specs.Prelude.{◌≡◌, ◌∷◌, ◌++◌, [], ◌+◌, ◌<◌, ◌^◌, take, Some, slice_get, MatchOption, IfSome, OnOk, OnErr};
    ghost use Rattle.univ_cycles.specs.calls.Places.{IsAbsent};

    /// No names.
    pub fn new(alloc: Global) -> Names
        ensures { result ≡ [] }
    {
        Names {
            table: HashMap::new(alloc),
            names: Vec::new(alloc),
        }
    }

    /// The names in order.
    pub fn names(&self) -> &[LevelName]
        ensures { result.now ≡ self.now }
    {
        self.names.as_slice()
    }

    /// Where a name stands.
    pub fn find(&self, name: &LevelName) -> Option<usize>
        ensures place { MatchOption result (IsAbsent name.now self.now) (λ p. slice_get self.now p ≡ Some name.now) }
        ensures fits { IfSome result (λ p. p + 1 < 2 ^ 64) }
    {
        let place = *self.table.get(name)?;
        if place < self.names.len() && self.names[place] == *name {
            Some(place)
        } else {
            None
        }
    }

    /// Adds a name that is not there.
    pub fn add(&mut self, name: &LevelName) -> Result<(), NoMemory>
        requires { IsAbsent name.now self.old }
        ensures added { OnOk result (self.new ≡ self.old ++ name.now ∷ []) }
        ensures same { OnErr result (self.new ≡ self.old) }
    {
        let key = name.clone()?;
        let own = name.clone()?;
        let place = self.names.len();
        match self.table.insert(key, place) {
            Ok(_) => match self.names.push(own) {
                Ok(()) => Ok(()),
                Err(_) => Err(NoMemory),
            },
            Err(_) => Err(NoMemory),
        }
    }

    /// Takes away all names but the first ones.
    pub fn truncate(&mut self, n: usize)
        ensures { self.new ≡ take n self.old }
    {
        self.names.truncate(n);
    }
}
