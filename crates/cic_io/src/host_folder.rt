ghost use Rattle.std.specs.Prelude.{◌≡◌, ◌≤◌, IfOk, length};

use crate::counting::{count_fault, count_taken};
use crate::folder::{Folder, FolderFault};
use std::fs::File;
use std::io::ErrorKind;
use std::os::unix::fs::FileExt;
use std::rt::Files;
use std::{fs, io};

/// The folder in which the program runs.
///
/// It tells no content, so what is said of the bytes of files holds of it only as far as the system keeps them.
/// A fault is anything that the system answers but the length, the bytes, or that there is no such file; what is
/// there under a name and is no regular file, as a folder, counts as no file for `size`.
#[derive(Drop)]
pub struct HostFolder<R> {
    rt: R,
    read_faults: u64,
    taken: u64,
}

impl<R: Files<File = File>> HostFolder<R> {
    ghost use Rattle.std.specs.Prelude.{◌≡◌};

    /// The folder in which the program runs, as the runtime reaches it.
    pub fn new(rt: R) -> HostFolder<R>
        ensures faults { ⟦<HostFolder<R> as Folder>⟧.read_faults result ≡ 0 }
        ensures taken { ⟦<HostFolder<R> as Folder>⟧.taken result ≡ 0 }
    {
        HostFolder {
            rt,
            read_faults: 0,
            taken: 0,
        }
    }
}

impl<R: Files<File = File>> Folder for HostFolder<R> {
    ghost use Rattle.std.specs.Prelude.{None};

    ghost files = { λ _. None };

    ghost read_faults = { λ folder. folder.read_faults };

    ghost taken = { λ folder. folder.taken };

    fn size(&mut self, name: &str) -> Result<Option<u64>, FolderFault> {
        match file_size(&self.rt, name) {
            Ok(size) => Ok(size),
            Err(_) => {
                count_fault(&mut self.read_faults);
                Err(FolderFault::Failed)
            }
        }
    }

    fn read_at(&mut self, name: &str, place: u64, into: &mut [u8]) -> Result<usize, FolderFault> {
        match read_file(&self.rt, name, place, into) {
            Ok(count) => {
                count_taken(&mut self.taken, count);
                Ok(count)
            }
            Err(_) => {
                count_fault(&mut self.read_faults);
                Err(FolderFault::Failed)
            }
        }
    }
}

// The length of a regular file, if there is one of that name.
fn file_size<R: Files>(rt: &R, name: &str) -> io::Result<Option<u64>> {
    match fs::metadata(rt, name) {
        Ok(found) if found.is_file() => Ok(Some(found.len())),
        Ok(_) => Ok(None),
        Err(error) if error.kind() == ErrorKind::NotFound => Ok(None),
        Err(error) => Err(error),
    }
}

// Reads bytes of a file from a place on, and no more than fit.
fn read_file<R: Files<File = File>>(
    rt: &R,
    name: &str,
    place: u64,
    into: &mut [u8],
) -> io::Result<usize>
    ensures { IfOk result (λ count. count ≤ length into.old) }
{
    File::open(rt, name)?.read_at(into, place)
}
