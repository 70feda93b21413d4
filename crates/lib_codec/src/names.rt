//! The names that were seen.
ghost use Rattle.std.specs.Prelude.{◌≡◌, ◌++◌, ◌∷◌, [], not, true, IfOk, OnErr, Err};
ghost use Rattle.lib_format.specs.DeclarationBytes.{is_among};

use cic_names::Name;
use indexmap::IndexSet;
use std::alloc::Global;
use std::marker::Model;
use term_codec::Stop;

/// Names, each once, in the order in which they were seen.
#[derive(Drop)]
pub(crate) struct Names {
    set: IndexSet<Name>,
}

impl Model for Names {
    ghost use Rattle.std.specs.Prelude.{List, ℕ};

    ghost Value = { List (List ℕ) };

    ghost view = { λ n. n.set.keys };
}

fn copied(name: &Name) -> Result<Name, Stop>
    ensures ok { IfOk result (λ r. r ≡ name.now) }
    ensures err { OnErr result (result ≡ Err Stop.NoMemory) }
{
    Ok(name.clone()?)
}

impl Names {
    pub(crate) fn new(alloc: Global) -> Names
        ensures { result ≡ [] }
    {
        Names {
            set: IndexSet::new(alloc),
        }
    }

    /// Puts the name behind the others, unless it is among them, and says whether it is new.
    pub(crate) fn see(&mut self, name: &Name) -> Result<bool, Stop>
        ensures new { IfOk result (λ new. new ≡ not (is_among self.old name.now)) }
        ensures seen { IfOk result (λ new. new ≡ true → self.new ≡ self.old ++ name.now ∷ []) }
        ensures err { OnErr result (result ≡ Err Stop.NoMemory) }
    {
        let key = copied(name)?;
        Ok(self.set.insert(key)?)
    }
}
