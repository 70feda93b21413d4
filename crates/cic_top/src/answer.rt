ghost use Rattle.std.specs.Prelude.{◌≡◌};
ghost use Rattle.cic_top.specs.Refusals.{status_of, refusal_status};
ghost use Rattle.cic_top.specs.Views.{answer_of, refusal_of};

use cic_env::Cause;
use cic_io::FileName;
use cic_names::{GlobalId, Name};

/// Why a command is refused, with what the refusal names.
#[derive(Drop)]
pub enum Refusal {
    /// A file that is needed is not there.
    NoFile { name: FileName },
    /// The source is none of the language so far. `place` is the first byte that is not understood, from 0.
    NotYet { name: FileName, place: u32 },
    /// The name is declared already.
    Duplicate { name: Name },
    /// The name is no binder's and not declared.
    Unknown { name: Name },
    /// The declaration is ill formed.
    Ill { id: GlobalId, cause: Cause },
    /// The check of the declaration takes more steps than the budget.
    Spent { id: GlobalId, budget: u32 },
    /// The check of the declaration nests too deep.
    Deep { id: GlobalId },
}

/// What the program answers.
#[derive(Drop)]
pub enum Answer {
    /// The command did what it is to do.
    Passed,
    /// That word, counted from 1, is not understood.
    Words(u32),
    /// The command is refused.
    Refused(Refusal),
    /// The folder failed.
    ReadFault,
    /// The sink failed.
    SinkFault,
    /// There was no memory.
    NoMemory,
}

impl Refusal {
    fn status(&self) -> u8
        ensures { result ≡ refusal_status (refusal_of self.now) }
    {
        match self {
            Refusal::NoFile { .. } => 3,
            Refusal::NotYet { .. }
            | Refusal::Duplicate { .. }
            | Refusal::Unknown { .. }
            | Refusal::Ill { .. } => 1,
            Refusal::Spent { .. } | Refusal::Deep { .. } => 4,
        }
    }
}

impl Answer {
    /// The status with which the program ends: 0 where the command passed, and from 1 to 6 else.
    pub fn status(&self) -> u8
        ensures { result ≡ status_of (answer_of self.now) }
    {
        match self {
            Answer::Passed => 0,
            Answer::Refused(refusal) => refusal.status(),
            Answer::Words(_) => 2,
            Answer::ReadFault | Answer::SinkFault => 5,
            Answer::NoMemory => 6,
        }
    }
}
