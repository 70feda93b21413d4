ghost use Rattle.std.specs.Prelude.{◌≡◌, ◌≤◌, length, take};
ghost use Rattle.cic_io.specs.Files.{bytes_from};

use crate::call_count::CallCount;
use crate::calls::Calls;
use crate::counting::count_taken;
use crate::folder::{Folder, FolderFault};
use crate::named_files::NamedFiles;
use memory::NoMemory;
use std::alloc::Global;

/// A folder in memory, which tells its files and fails at the calls that it is told.
///
/// The calls of `size` and of `read_at` are counted together, from 1.
#[derive(Debug, Drop)]
pub struct MemFolder {
    files: NamedFiles,
    calls: CallCount,
    taken: u64,
}

impl MemFolder {
    ghost use Rattle.std.specs.Prelude.{◌≡◌, IfOk, Some};
    ghost use Rattle.cic_io.specs.Calls.{NoneMade};
    ghost use Rattle.cic_io.specs.Memory.{folder_calls};

    /// A folder of those files, of which no call was made. It takes no memory beyond what it is given.
    pub fn new(_alloc: Global, files: NamedFiles, fail: Calls) -> Result<MemFolder, NoMemory>
        ensures files { IfOk result (λ folder. ⟦<MemFolder as Folder>⟧.files folder ≡ Some files) }
        ensures calls { IfOk result (λ folder. NoneMade (folder_calls folder) fail) }
        ensures faults { IfOk result (λ folder. ⟦<MemFolder as Folder>⟧.read_faults folder ≡ 0) }
        ensures taken { IfOk result (λ folder. ⟦<MemFolder as Folder>⟧.taken folder ≡ 0) }
    {
        Ok(MemFolder {
            files,
            calls: CallCount::new(fail),
            taken: 0,
        })
    }
}

impl Folder for MemFolder {
    ghost use Rattle.std.specs.Prelude.{◌≡◌, ◌≤◌, ◌↔◌, Some, IfOk, IsErrOf, length, take};
    ghost use Rattle.cic_io.specs.Faults.{FailedRose, OthersQuiet};
    ghost use Rattle.cic_io.specs.Reading.{SizeTold, ReadTold, CountsRead};
    ghost use Rattle.cic_io.specs.Calls.{NextFails, OneMore};
    ghost use Rattle.cic_io.specs.Memory.{folder_calls};

    ghost files = { λ folder. Some folder.files };

    ghost read_faults = { λ folder. folder.calls.faults };

    ghost taken = { λ folder. folder.taken };

    /// Failed comes exactly at the calls that are to fail.
    fn size(&mut self, name: &str) -> Result<Option<u64>, FolderFault>
        ensures told { IfOk result (λ size. SizeTold (⟦<MemFolder as Folder>⟧.files self.old) name.now size) }
        ensures failed { FailedRose result (⟦<MemFolder as Folder>⟧.read_faults self.old) (⟦<MemFolder as Folder>⟧.read_faults self.new) }
        ensures quiet { OthersQuiet result (⟦<MemFolder as Folder>⟧.read_faults self.old) (⟦<MemFolder as Folder>⟧.read_faults self.new) }
        ensures files { ⟦<MemFolder as Folder>⟧.files self.new ≡ ⟦<MemFolder as Folder>⟧.files self.old }
        ensures taken { ⟦<MemFolder as Folder>⟧.taken self.new ≡ ⟦<MemFolder as Folder>⟧.taken self.old }
        ensures fails { IsErrOf result FolderFault.Failed ↔ NextFails (folder_calls self.old) }
        ensures counted { OneMore (folder_calls self.old) (folder_calls self.new) }
    {
        if self.calls.next_fails() {
            return Err(FolderFault::Failed);
        }
        match self.files.get(name) {
            Some(bytes) => Ok(Some(bytes.len() as u64)),
            None => Ok(None),
        }
    }

    /// Failed comes exactly at the calls that are to fail.
    fn read_at(&mut self, name: &str, place: u64, into: &mut [u8]) -> Result<usize, FolderFault>
        ensures within { IfOk result (λ count. count ≤ length into.old) }
        ensures told { IfOk result (λ count.
            ReadTold (⟦<MemFolder as Folder>⟧.files self.old) name.now place (length into.old) (take count into.new)) }
        ensures failed { FailedRose result (⟦<MemFolder as Folder>⟧.read_faults self.old) (⟦<MemFolder as Folder>⟧.read_faults self.new) }
        ensures quiet { OthersQuiet result (⟦<MemFolder as Folder>⟧.read_faults self.old) (⟦<MemFolder as Folder>⟧.read_faults self.new) }
        ensures files { ⟦<MemFolder as Folder>⟧.files self.new ≡ ⟦<MemFolder as Folder>⟧.files self.old }
        ensures taken { CountsRead result (⟦<MemFolder as Folder>⟧.taken self.old) (⟦<MemFolder as Folder>⟧.taken self.new) }
        ensures fails { IsErrOf result FolderFault.Failed ↔ NextFails (folder_calls self.old) }
        ensures counted { OneMore (folder_calls self.old) (folder_calls self.new) }
    {
        if self.calls.next_fails() {
            return Err(FolderFault::Failed);
        }
        let bytes = self.files.get(name).unwrap_or(&[]);
        let count = copy_from(bytes, place, into);
        count_taken(&mut self.taken, count);
        Ok(count)
    }
}

// Copies the bytes from a place on, as many as fit, and says how many.
fn copy_from(bytes: &[u8], place: u64, into: &mut [u8]) -> usize
    ensures within { result ≤ length into.old }
    ensures front { take result into.new ≡ bytes_from bytes.now place (length into.old) }
{
    let start = bytes.len().min(place as usize);
    let rest = &bytes[start..];
    let count = rest.len().min(into.len());
    into[..count].copy_from_slice(&rest[..count]);
    count
}
