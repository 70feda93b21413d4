ghost use Rattle.std.specs.Prelude.{◌≡◌, ◌++◌, ◌≤◌, codes, map, string_bytes, IfOk, IfErr, MatchOption, MatchResult, ⊤, List, ℕ};
ghost use Rattle.cic_top.specs.CommandLine.{IsName, CommandLine, FirstNotUnderstood, source_name};
ghost use Rattle.cic_top.specs.calls.Reading.{IsLibraryOf, IsUnderstood};

use cic_names::{Name, NameFault};
use memory::{NoMemory, OutOfMemory};
use std::alloc::Global;
use std::marker::Model;

/// The words of a command line after the program's name.
#[derive(Drop)]
pub struct Words {
    items: Vec<String>,
}

impl Model for Words {
    ghost use Rattle.std.specs.Prelude.{List, ℕ, map, string_bytes};

    ghost Value = { List (List ℕ) };

    ghost view = { λ w. map string_bytes w.items.items };
}

impl Words {
    /// The words, in order.
    pub fn new(items: Vec<String>) -> Words
        ensures { result ≡ map string_bytes items.items }
    {
        Words { items }
    }
}

/// Why words are no command line.
pub(crate) enum Misread {
    /// That word, counted from 1, is not understood.
    Word(u32),
    NoMemory,
}

impl<E: OutOfMemory> From<E> for Misread {
    ghost use Rattle.cic_top.specs.declared.command_line.Misread.TheVariants as M;
    ghost use Rattle.std.specs.Prelude.{◌≡◌};

    ghost from_gives = { λ _ misread. misread ≡ M.NoMemory };

    fn from(_fault: E) -> Misread {
        Misread::NoMemory
    }
}

/// The library whose source is named.
fn library_of(alloc: Global, file: &str) -> Result<Option<Name>, NoMemory>
    ensures { IfOk result (λ found. IsLibraryOf found file.now) }
{
    match file.as_bytes() {
        [stem @ .., b'.', b'v'] => match Name::new(alloc, stem) {
            Ok(name) => Ok(Some(name)),
            Err(NameFault::NotIdent | NameFault::Long) => Ok(None),
            Err(NameFault::NoMemory) => Err(NoMemory),
        },
        _ => Ok(None),
    }
}

/// The library that the command line compiles.
pub(crate) fn command(alloc: Global, words: &Words) -> Result<Name, Misread>
    ensures { IsUnderstood words.now result }
{
    let items = words.items.as_slice();
    let Some(first) = items.first() else {
        return Err(Misread::Word(1));
    };
    if first.as_str() != "coqc" {
        return Err(Misread::Word(1));
    }
    let Some(second) = items.get(1) else {
        return Err(Misread::Word(2));
    };
    let library = library_of(alloc, second.as_str())?;
    match library {
        None => Err(Misread::Word(2)),
        Some(_) if items.len() > 2 => Err(Misread::Word(3)),
        Some(library) => Ok(library),
    }
}
