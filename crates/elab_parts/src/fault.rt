//! Why a written term stands for no term.
ghost use Rattle.std.specs.Prelude.{◌≡◌};
ghost use Rattle.elab_parts.specs.Faults.{fault};
ghost use Rattle.name_scope.specs.Faults.{fault as name_fault};

use cic_names::{GlobalId, Name};
use memory::OutOfMemory;
use name_scope::NameFault;

/// The first fault of a written term, in the order of the source. Texts are as they are written.
#[derive(Drop)]
pub enum ScopingFault<'a> {
    /// Nothing has the name.
    Unknown(&'a [u8]),
    /// Imports bring different ids of the name, of which these are the first two.
    Ambiguous {
        name: &'a [u8],
        one: GlobalId,
        two: GlobalId,
    },
    /// The name, of a pattern or behind `in`, cannot stand there, or does not fit what stands behind it.
    BadPattern(&'a [u8]),
    /// A constructor without a branch.
    NoBranch(Name),
    NoMemory,
}

impl<'a, E: OutOfMemory> From<E> for ScopingFault<'a> {
    ghost use Rattle.elab_parts.specs.declared.fault.ScopingFault.TheVariants as F;

    ghost from_gives = { λ _ fault. fault ≡ F.NoMemory };

    fn from(_fault: E) -> ScopingFault<'a> {
        ScopingFault::NoMemory
    }
}

/// The same fault of a name.
pub fn of_name<'a>(reason: NameFault<'a>) -> ScopingFault<'a>
    ensures { fault result ≡ name_fault reason.entry }
{
    match reason {
        NameFault::Unknown(name) => ScopingFault::Unknown(name),
        NameFault::Ambiguous { name, one, two } => ScopingFault::Ambiguous { name, one, two },
        NameFault::NoMemory => ScopingFault::NoMemory,
    }
}
