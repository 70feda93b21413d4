ghost use Rattle.std.specs.Prelude.{◌≡◌, ◌≤◌, IfOk, length, take};
ghost use Rattle.cic_io.specs.Faults.{FailedRose, OthersQuiet};
ghost use Rattle.cic_io.specs.Reading.{WholeTold, RisesBy};

use crate::folder::{Folder, FolderFault};
use std::alloc::Global;

/// Reads the first `count` bytes of a file, or all where it has fewer, by as many reads as are needed.
///
/// A folder that tells its files gives exactly these bytes, and none where there is no such file. Of any other
/// folder the bytes end where a read first gave none. NoMemory also comes where the bytes found no memory.
pub fn read_whole<F: Folder>(
    alloc: Global,
    folder: &mut F,
    name: &str,
    count: usize,
) -> Result<Vec<u8>, FolderFault>
    ensures within { IfOk result (λ bytes. length bytes.items ≤ count) }
    ensures told { IfOk result (λ bytes. WholeTold (F.files folder.old) name.now count bytes.items) }
    ensures failed { FailedRose result (F.read_faults folder.old) (F.read_faults folder.new) }
    ensures quiet { OthersQuiet result (F.read_faults folder.old) (F.read_faults folder.new) }
    ensures files { F.files folder.new ≡ F.files folder.old }
    ensures taken { IfOk result (λ bytes. RisesBy (F.taken folder.old) (F.taken folder.new) (length bytes.items)) }
{
    let mut bytes = vec![in alloc; 0u8; count]?;
    let read = fill(folder, name, bytes.as_mut_slice())?;
    bytes.truncate(read);
    Ok(bytes)
}

// Reads the first bytes of a file into `into`, as many as fit, and says how many.
fn fill<F: Folder>(folder: &mut F, name: &str, into: &mut [u8]) -> Result<usize, FolderFault>
    ensures within { IfOk result (λ read. read ≤ length into.old) }
    ensures told { IfOk result (λ read. WholeTold (F.files folder.old) name.now (length into.old) (take read into.new)) }
    ensures failed { FailedRose result (F.read_faults folder.old) (F.read_faults folder.new) }
    ensures quiet { OthersQuiet result (F.read_faults folder.old) (F.read_faults folder.new) }
    ensures files { F.files folder.new ≡ F.files folder.old }
    ensures taken { IfOk result (λ read. RisesBy (F.taken folder.old) (F.taken folder.new) read) }
{
    let mut read = 0;
    while read < into.len() {
        let count = folder.read_at(name, read as u64, &mut into[read..])?;
        if count == 0 {
            return Ok(read);
        }
        read += count;
    }
    Ok(read)
}
