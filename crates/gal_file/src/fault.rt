//! Why a source is no file.
ghost use Rattle.std.specs.Prelude.{◌≡◌};
ghost use Rattle.gal_file.specs.declared.fault.ParseFault.TheVariants.{NoMemory as OutOfMemory};

use memory::NoMemory;

/// Why a source is no file. A place is a byte's, counted from the source's first.
#[derive(Clone, Copy, Debug, PartialEq, Eq)]
pub enum ParseFault {
    /// No token, blank or comment begins there, or the byte is not UTF-8.
    BadChar { place: u32 },
    /// The comment that begins there is not closed.
    OpenComment { place: u32 },
    /// The identifier there has more than 255 bytes.
    LongName { place: u32 },
    /// The token there cannot go on with the file; the source's length where more is needed.
    Syntax { place: u32 },
    /// The first term past the deepest nesting begins there.
    Nesting { place: u32 },
    NoMemory,
}

impl From<NoMemory> for ParseFault {
    ghost from_gives = { λ _ fault. fault ≡ OutOfMemory };

    fn from(_fault: NoMemory) -> ParseFault {
        ParseFault::NoMemory
    }
}
