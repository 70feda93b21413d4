//! Which hypotheses a declaration may use.
ghost use Rattle.std.specs.Prelude.{◌≡◌, IfOk};
ghost use Rattle.section_core.specs.calls.Names.{allowed};

use crate::naming::copied_ids;
use cic_names::GlobalId;
use memory::NoMemory;
use std::alloc::Global;

/// Which hypotheses a declaration may use beside those that its statement uses. Coq Reference Manual, "Proof using".
#[derive(Drop)]
pub enum Using {
    /// Those that its body uses.
    Free,
    /// None: `Proof using Type`.
    Statement,
    /// All that are declared before it: `Proof using All`.
    Every,
    /// These, and what they use: `Proof using h1 .. hn`.
    Listed(Vec<GlobalId>),
}

impl Using {
    pub(crate) fn copy(&self, alloc: Global) -> Result<Using, NoMemory>
        ensures { IfOk result (λ u. allowed u ≡ allowed self.now) }
    {
        match self {
            Using::Free => Ok(Using::Free),
            Using::Statement => Ok(Using::Statement),
            Using::Every => Ok(Using::Every),
            Using::Listed(ids) => Ok(Using::Listed(copied_ids(alloc, ids.as_slice())?)),
        }
    }
}
