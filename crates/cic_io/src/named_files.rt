ghost use Rattle.std.specs.Prelude.{◌≡◌, ◌++◌, ◌∷◌, [], OnOk, OnErr};
ghost use Rattle.std.specs.Option.{option_copied};
ghost use Rattle.cic_io.specs.Files.{file_at};

use crate::file_name::FileName;
use memory::NoMemory;
use std::alloc::Global;
use std::marker::Model;

#[derive(Debug, Drop)]
struct NamedFile {
    name: FileName,
    bytes: Vec<u8>,
}

/// Files with their names, for a folder in memory. Where several have one name, the first counts.
#[derive(Debug, Drop)]
pub struct NamedFiles {
    files: Vec<NamedFile>,
}

impl Model for NamedFiles {
    ghost use Rattle.std.specs.Prelude.{map};
    ghost use Rattle.cic_io.specs.Files.{Files};
    ghost use Rattle.cic_io.specs.NamedFile.{file};

    ghost Value = { Files };

    ghost view = { λ named. map file named.files.items };
}

impl NamedFiles {
    /// No file.
    pub fn new(alloc: Global) -> NamedFiles
        ensures { result ≡ [] }
    {
        NamedFiles {
            files: Vec::new(alloc),
        }
    }

    /// Adds a file behind the others.
    pub fn add(&mut self, name: FileName, bytes: Vec<u8>) -> Result<(), NoMemory>
        ensures added { OnOk result (self.new ≡ self.old ++ record { name = name; bytes = bytes.items } ∷ []) }
        ensures same { OnErr result (self.new ≡ self.old) }
    {
        self.files.push(NamedFile { name, bytes })?;
        Ok(())
    }

    /// The bytes of the file of that name, if there is one.
    pub(crate) fn get(&self, name: &str) -> Option<&[u8]>
        ensures { option_copied result ≡ file_at self.now name.now }
    {
        for file in &self.files {
            if file.name.text() == name {
                return Some(file.bytes.as_slice());
            }
        }
        None
    }
}
