//! Where the sentences of a file stand.
ghost use Rattle.std.specs.Prelude.{◌≡◌, ◌<◌, Some, length, slice_get};

use std::marker::Model;

/// Where a sentence stands in its source, in bytes.
#[derive(Clone, Copy, Debug, PartialEq, Eq)]
pub struct Lines {
    /// The sentence's first byte in the source.
    pub place: u32,
    /// The line of that byte, from 1.
    pub line: u32,
    /// The sentence's first byte, from the line's first byte on.
    pub from: u32,
    /// What stands behind the sentence's stop, from the line's first byte on.
    pub to: u32,
}

/// The sentences of a file, command by command.
#[derive(Drop)]
pub struct Sentences {
    commands: Vec<Vec<Lines>>,
}

impl Model for Sentences {
    ghost use Rattle.std.specs.Prelude.{List};
    ghost use Rattle.gal_lines.specs.declared.places.Lines.{Lines};
    ghost use Rattle.gal_lines.specs.calls.Groups.{items_of, HaveSentences};

    ghost Value = { List (List Lines) };

    ghost view = { λ s. items_of s.commands.items };

    ghost invariant = { λ s. HaveSentences (items_of s.commands.items) };
}

impl Sentences {
    ghost use Rattle.gal_lines.specs.calls.Groups.{items_of, HaveSentences};

    pub(crate) fn new(commands: Vec<Vec<Lines>>) -> Sentences
        requires { HaveSentences (items_of commands.items) }
        ensures { result ≡ items_of commands.items }
    {
        Sentences { commands }
    }

    /// How many commands there are.
    pub fn len(&self) -> usize
        ensures { result ≡ length self.now }
    {
        self.commands.len()
    }

    /// The sentences of a command, which is counted from 0. There is at least one.
    pub fn of_command(&self, command: usize) -> &[Lines]
        requires { command < length self.now }
        ensures value { slice_get self.now command ≡ Some result.now }
        ensures some { 0 < length result.now }
    {
        self.commands[command].as_slice()
    }
}
