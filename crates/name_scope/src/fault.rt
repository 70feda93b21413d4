//! Why a name stands for nothing.
use cic_names::GlobalId;
use memory::OutOfMemory;

/// Why a name stands for nothing. Texts are as they are written.
#[derive(Drop)]
pub enum NameFault<'a> {
    /// Nothing has the name.
    Unknown(&'a [u8]),
    /// Imports bring different ids of the name, of which these are the first two.
    Ambiguous {
        name: &'a [u8],
        one: GlobalId,
        two: GlobalId,
    },
    NoMemory,
}

impl<'a, E: OutOfMemory> From<E> for NameFault<'a> {
    ghost use Rattle.std.specs.Prelude.{◌≡◌};
    ghost use Rattle.name_scope.specs.declared.fault.NameFault.TheVariants.{NoMemory};

    ghost from_gives = { λ _ fault. fault ≡ NoMemory };

    fn from(_fault: E) -> NameFault<'a> {
        NameFault::NoMemory
    }
}
