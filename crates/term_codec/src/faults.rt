//! Why no value is read.
ghost use Rattle.std.specs.Prelude.{◌≡◌};

use memory::OutOfMemory;
use seg_format::{BadFile, Defect, Segment};

/// Why no value is read: the first defect of the bytes, or there was no memory.
#[derive(Clone, Copy, Debug, PartialEq, Eq)]
pub enum DecodeFault {
    BadFile(BadFile),
    NoMemory,
}

/// Why reading on from a place ends without a value: at a defect, which stands before that byte, or there was no memory.
#[derive(Clone, Copy)]
pub enum Stop {
    Wrong(Defect, usize),
    NoMemory,
}

impl<E: OutOfMemory> From<E> for Stop {
    ghost use Rattle.term_codec.specs.declared.faults.Stop.TheVariants.{NoMemory};

    ghost from_gives = { λ _ stop. stop ≡ NoMemory };

    fn from(_fault: E) -> Stop {
        Stop::NoMemory
    }
}

ghost use Rattle.term_codec.specs.calls.Answers.{IsSmall, Names};

impl Stop {
    /// The fault as callers see it: the bytes are those of that segment.
    pub fn in_segment(self, segment: Segment) -> DecodeFault
        requires { IsSmall self }
        ensures { Names segment self result }
    {
        match self {
            Stop::Wrong(defect, place) => DecodeFault::BadFile(BadFile {
                segment,
                defect,
                place: place as u32,
            }),
            Stop::NoMemory => DecodeFault::NoMemory,
        }
    }
}
