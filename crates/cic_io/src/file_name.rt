ghost use Rattle.std.specs.Prelude.{◌≡◌, ◌↔◌, IfOk, OnOk, IsErrOf};
ghost use Rattle.std.specs.Option.{SomeIff, option_copied};
ghost use Rattle.cic_io.specs.FileName.{IsFileName};

use memory::OutOfMemory;
use std::alloc::Global;
use std::marker::Model;
use thiserror::Error;

/// Why some bytes made no file name.
#[derive(Clone, Copy, Debug, PartialEq, Eq, Error)]
pub enum FileNameFault {
    /// They are the name of no file.
    #[error("no file has that name")]
    BadName,
    /// There was no memory for the name.
    #[error("out of memory")]
    NoMemory,
}

impl<E: OutOfMemory> From<E> for FileNameFault {
    ghost use Rattle.cic_io.specs.declared.file_name.FileNameFault.TheVariants.{NoMemory};

    ghost from_gives = { λ _ fault. fault ≡ NoMemory };

    fn from(_fault: E) -> FileNameFault {
        FileNameFault::NoMemory
    }
}

/// The name of a file in a folder: a text of 1 to 300 bytes without a slash and without a zero byte that is
/// neither `.` nor `..`.
#[derive(Debug, Drop)]
pub struct FileName {
    text: String,
}

impl Model for FileName {
    ghost use Rattle.std.specs.Prelude.{List, ℕ, string_bytes};
    ghost use Rattle.cic_io.specs.FileName.{IsFileName};

    ghost Value = { List ℕ };

    ghost view = { λ name. string_bytes name.text };

    ghost invariant = { λ name. IsFileName (string_bytes name.text) };
}

impl FileName {
    /// The name of those bytes. BadName comes exactly where they are the name of no file.
    pub fn new(alloc: Global, bytes: &[u8]) -> Result<FileName, FileNameFault>
        ensures name { IfOk result (λ name. name ≡ bytes.now) }
        ensures good { OnOk result (IsFileName bytes.now) }
        ensures bad { IsErrOf result FileNameFault.BadName ↔ (¬ IsFileName bytes.now) }
    {
        let text = file_name_text(bytes).ok_or(FileNameFault::BadName)?;
        Ok(FileName {
            text: String::from_str(alloc, text)?,
        })
    }

    /// The name as text.
    pub fn text(&self) -> &str
        ensures name { result.now ≡ self.now }
        ensures good { IsFileName self.now }
    {
        self.text.as_str()
    }
}

// The most bytes of the name of a file.
const LONGEST_NAME: usize = 300;

// The text of those bytes, where they are the name of a file.
fn file_name_text(bytes: &[u8]) -> Option<&str>
    ensures { SomeIff (option_copied result) (IsFileName bytes.now) bytes.now }
{
    let text = std::str::from_utf8(bytes).ok()?;
    let allowed = !bytes.is_empty()
        && bytes.len() <= LONGEST_NAME
        && !bytes.contains(&b'/')
        && !bytes.contains(&0)
        && text != "."
        && text != "..";
    allowed.then_some(text)
}
