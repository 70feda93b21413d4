use memory::OutOfMemory;
use thiserror::Error;

/// Why a call of a folder gave no answer.
#[derive(Clone, Copy, Debug, PartialEq, Eq, Error)]
pub enum FolderFault {
    /// The folder itself failed, and counted it.
    #[error("the folder failed")]
    Failed,
    /// There was no memory for the call.
    #[error("out of memory")]
    NoMemory,
}

impl<E: OutOfMemory> From<E> for FolderFault {
    ghost use Rattle.std.specs.Prelude.{◌≡◌};
    ghost use Rattle.cic_io.specs.declared.folder.FolderFault.TheVariants.{NoMemory};

    ghost from_gives = { λ _ fault. fault ≡ NoMemory };

    fn from(_fault: E) -> FolderFault {
        FolderFault::NoMemory
    }
}

/// A folder of files, each known by its name.
///
/// It may tell its files. It counts the faults of its reads, and the bytes that its reads gave; both counts
/// stay at 2^64 - 1 once they are there.
pub trait Folder {
    ghost use Rattle.std.specs.Prelude.{ℕ, Option, ◌≡◌, ◌≤◌, IfOk, length, take};
    ghost use Rattle.cic_io.specs.Files.{Files};
    ghost use Rattle.cic_io.specs.Faults.{FailedRose, OthersQuiet};
    ghost use Rattle.cic_io.specs.Reading.{SizeTold, ReadTold, CountsRead};

    /// The files, where the folder tells them.
    ghost files: { Self → Option Files };

    /// How many calls answered Failed.
    ghost read_faults: { Self → ℕ };

    /// How many bytes the reads gave.
    ghost taken: { Self → ℕ };

    /// The length of a file, or None where there is no file of that name.
    fn size(&mut self, name: &str) -> Result<Option<u64>, FolderFault>
        ensures told { IfOk result (λ size. SizeTold (files self.old) name.now size) }
        ensures failed { FailedRose result (read_faults self.old) (read_faults self.new) }
        ensures quiet { OthersQuiet result (read_faults self.old) (read_faults self.new) }
        ensures files { files self.new ≡ files self.old }
        ensures taken { taken self.new ≡ taken self.old };

    /// Puts bytes of a file, from a place on, into the front of `into`, and says how many.
    ///
    /// A folder that tells its files gives all that the file has from the place on and that fit, and none where
    /// there is no such file or the place is at its end or past it. Any other folder may give fewer. What stands
    /// in `into` behind these bytes, or after a fault, is left open.
    fn read_at(&mut self, name: &str, place: u64, into: &mut [u8]) -> Result<usize, FolderFault>
        ensures within { IfOk result (λ count. count ≤ length into.old) }
        ensures told { IfOk result (λ count.
            ReadTold (files self.old) name.now place (length into.old) (take count into.new)) }
        ensures failed { FailedRose result (read_faults self.old) (read_faults self.new) }
        ensures quiet { OthersQuiet result (read_faults self.old) (read_faults self.new) }
        ensures files { files self.new ≡ files self.old }
        ensures taken { CountsRead result (taken self.old) (taken self.new) };
}
