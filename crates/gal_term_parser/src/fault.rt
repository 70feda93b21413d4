//! Why tokens are no term.
ghost use Rattle.std.specs.Prelude.{◌≡◌};
ghost use Rattle.gal_term_parser.specs.declared.fault.Fault.TheVariants.{NoMemory};

use std::alloc::{AllocError, AllocFailed};

/// Why tokens are no term. A place is said by the number of tokens from it to the end.
#[derive(Clone, Copy, Debug, PartialEq, Eq)]
pub enum Fault {
    /// The first token that nothing goes on with; no token is left where more is needed.
    Syntax { left: usize },
    /// The first token of a term past the deepest nesting.
    Nesting { left: usize },
    NoMemory,
}

impl From<AllocError> for Fault {
    ghost from_gives = { λ _ e. e ≡ NoMemory };

    fn from(_: AllocError) -> Fault {
        Fault::NoMemory
    }
}

impl<T: Drop> From<AllocFailed<T>> for Fault {
    ghost from_gives = { λ _ e. e ≡ NoMemory };

    fn from(_: AllocFailed<T>) -> Fault {
        Fault::NoMemory
    }
}
