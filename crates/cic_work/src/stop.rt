//! Why a counted call has no value.

ghost use Rattle.cic_work.specs.Verdicts.{cause_of, result_of, why, why_not};
ghost use Rattle.cic_work.specs.calls.Counting.{StopsWith};

use cic_env::{Cause, Verdict};
use cic_terms::TermFault;
use memory::OutOfMemory;
use std::alloc::Global;

/// Why a counted call has no value.
#[derive(Drop)]
pub enum Stop {
    /// It refuses its terms.
    Refused(Box<Cause>),
    /// The budget is spent.
    Spent,
    /// A term or the nesting of calls is too deep.
    Deep,
    /// There was no memory.
    NoMemory,
}

impl<E: OutOfMemory> From<E> for Stop {
    ghost use Rattle.std.specs.Prelude.{◌≡◌};
    ghost use Rattle.cic_work.specs.declared.stop.Stop.TheVariants as S;

    ghost from_gives = { λ _ stop. stop ≡ S.NoMemory };

    fn from(_fault: E) -> Stop {
        Stop::NoMemory
    }
}

impl Stop {
    ghost use Rattle.std.specs.Prelude.{◌≡◌, Err};

    /// The refusal for a cause, behind a pointer.
    #[inline(never)]
    pub fn refuse(alloc: Global, cause: Cause) -> Stop
        ensures { StopsWith result (cause_of cause) }
    {
        match Box::new(alloc, cause) {
            Ok(cause) => Stop::Refused(cause),
            Err(_) => Stop::NoMemory,
        }
    }

    /// Why a lift or a substitution has no value.
    pub fn of(fault: TermFault) -> Stop
        ensures { why result ≡ why_not fault }
    {
        match fault {
            TermFault::Deep => Stop::Deep,
            TermFault::NoMemory => Stop::NoMemory,
        }
    }

    /// The verdict of a check that ends so.
    #[inline(never)]
    pub fn verdict<T: Drop>(self) -> Verdict<T>
        ensures { result_of result ≡ Err (why self) }
    {
        match self {
            Stop::Refused(cause) => Verdict::Refused(Box::into_inner(cause)),
            Stop::Spent => Verdict::Spent,
            Stop::Deep => Verdict::Deep,
            Stop::NoMemory => Verdict::NoMemory,
        }
    }
}
