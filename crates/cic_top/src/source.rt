ghost use Rattle.std.specs.Prelude.{◌≡◌, IfOk};
ghost use Rattle.cic_io.specs.Faults.{FailedRose, OthersQuiet};
ghost use Rattle.cic_top.specs.calls.Sources.{FoundUnder};

use cic_io::{Folder, FolderFault, read_whole};
use std::alloc::Global;

/// The most bytes that a source may have.
pub(crate) const LONGEST_SOURCE: u32 = 65536;

/// What a folder holds under the name of a source.
pub(crate) enum Source {
    /// No file.
    Absent,
    /// A file of so many bytes, which are more than a source may have.
    Long(u64),
    /// A file of these bytes.
    Text(Vec<u8>),
}

/// Asks for the size of a source, and then for its bytes. A source that is too long is not read.
pub(crate) fn source_in<F: Folder>(
    alloc: Global,
    folder: &mut F,
    name: &str,
) -> Result<Source, FolderFault>
    ensures told { IfOk result (λ source. FoundUnder (F.files folder.old) name.now source) }
    ensures failed { FailedRose result (F.read_faults folder.old) (F.read_faults folder.new) }
    ensures quiet { OthersQuiet result (F.read_faults folder.old) (F.read_faults folder.new) }
    ensures files { F.files folder.new ≡ F.files folder.old }
{
    match folder.size(name)? {
        None => Ok(Source::Absent),
        Some(size) if size > u64::from(LONGEST_SOURCE) => Ok(Source::Long(size)),
        Some(size) => {
            let text = read_whole(alloc, folder, name, size as usize)?;
            Ok(Source::Text(text))
        }
    }
}
