//! Why a declaration is not added to a section, and why a section does not end.
use cic_names::{GlobalId, Name};
use memory::OutOfMemory;

/// Why a declaration is not added.
#[derive(Drop)]
pub enum AddFault {
    /// The body of `proof` uses hypotheses that it may not use, and `variable` is the first of them.
    UsesUndeclared { proof: GlobalId, variable: Name },
    NoMemory,
}

impl<E: OutOfMemory> From<E> for AddFault {
    ghost use Rattle.std.specs.Prelude.{◌≡◌};
    ghost use Rattle.section_core.specs.declared.fault.AddFault.TheVariants.{NoMemory};

    ghost from_gives = { λ _ fault. fault ≡ NoMemory };

    fn from(_fault: E) -> AddFault {
        AddFault::NoMemory
    }
}

/// Why a section does not end.
#[derive(Drop)]
pub enum LeaveFault {
    /// The name at its end is not that of the innermost section.
    WrongEnd { found: Name, inner: Name },
    /// What is kept of the declaration of this id, and of none before it, passes the limits.
    Deep { id: GlobalId },
    NoMemory,
}

impl<E: OutOfMemory> From<E> for LeaveFault {
    ghost use Rattle.std.specs.Prelude.{◌≡◌};
    ghost use Rattle.section_core.specs.declared.fault.LeaveFault.TheVariants.{NoMemory};

    ghost from_gives = { λ _ fault. fault ≡ NoMemory };

    fn from(_fault: E) -> LeaveFault {
        LeaveFault::NoMemory
    }
}
