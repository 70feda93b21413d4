//! The commands `Require` of a file.
ghost use Rattle.std.specs.Prelude.{◌≡◌, ◌++◌, length, map, IfOk, OnOk};
ghost use Rattle.gal_raw.specs.Commands as C;
ghost use Rattle.gal_requires.specs.Required.{required_by, requires_of, denoted, all_denoted};

use gal_lines::{Lines, Sentences};
use gal_raw::{Command, Flag, Identifier, QualifiedName};
use memory::NoMemory;
use std::alloc::Global;

/// A command `Require`.
#[derive(Clone, Copy, Drop)]
pub struct Require<'c, 'a> {
    /// Where its sentence stands.
    pub lines: Lines,
    /// The name behind `From`.
    pub from: Option<Identifier<'a>>,
    pub flag: Flag,
    pub names: &'c [QualifiedName<'a>],
}

/// The commands `Require` of a file, in order.
#[derive(Drop)]
pub struct RequireList<'c, 'a> {
    pub items: Vec<Require<'c, 'a>>,
}

/// Puts the command behind the others, if it is a `Require`.
fn put<'c, 'a>(
    items: &mut Vec<Require<'c, 'a>>,
    command: &'c Command<'a>,
    lines: Lines,
) -> Result<(), NoMemory>
    ensures { OnOk result (map denoted items.new.items ≡ map denoted items.old.items ++ required_by (C.command command.now) lines) }
{
    if let Command::Require { from, flag, names } = command {
        items.push(Require {
            lines,
            from: *from,
            flag: *flag,
            names: names.as_slice(),
        })?;
    }
    Ok(())
}

/// What the commands of a file require, whose sentences these are.
pub fn required<'c, 'a>(
    alloc: Global,
    commands: &'c [Command<'a>],
    sentences: &Sentences,
) -> Result<RequireList<'c, 'a>, NoMemory>
    requires { length sentences.now ≡ length commands.now }
    ensures { IfOk result (λ list. all_denoted list ≡ requires_of (map C.command commands.now) sentences.now) }
{
    let mut items = Vec::new(alloc);
    for (i, command) in commands.iter().enumerate() {
        put(&mut items, command, sentences.of_command(i)[0])?;
    }
    Ok(RequireList { items })
}
