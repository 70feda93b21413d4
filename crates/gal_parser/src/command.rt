ghost use Rattle.std.specs.Prelude.{◌≡◌, length, IsTrue, ◌↔◌, slice_get, option_copied};

use cic_names::Name;
use std::marker::Model;
use std::slice::Iter;

/// A term as it is written, with names that are not looked up yet.
#[derive(Debug, Drop)]
pub enum Raw {
    /// The sort `Prop`.
    Prop,
    /// A name.
    Name(Name),
    /// `forall binder : ty, body`
    ForAll {
        binder: Name,
        ty: Box<Raw>,
        body: Box<Raw>,
    },
    /// `from -> to`
    Arrow(Box<Raw>, Box<Raw>),
}

/// A sentence of a source.
#[derive(Debug, Drop)]
pub enum Command {
    /// `Axiom name : ty.`
    Axiom { name: Name, ty: Raw },
}

/// The sentences of a source, in their order.
#[derive(Debug, Drop)]
pub struct Commands {
    items: Vec<Command>,
}

impl Model for Commands {
    ghost use Rattle.std.specs.Prelude.{List};
    ghost use Rattle.gal_parser.specs.declared.command.Command.{Command};
    ghost use Rattle.gal_parser.specs.contracts.command.Raw as raw;
    ghost use Rattle.std.specs.Coded.{codes};

    ghost Value = { List Command };

    ghost view = { λ c. c.items.items };

    ghost coded = { Prim.hlevel (codes, raw.the_row.coded) };
}

impl Commands {
    pub(crate) fn new(items: Vec<Command>) -> Commands
        ensures { result ≡ items.items }
    {
        Commands { items }
    }

    pub fn len(&self) -> usize
        ensures { result ≡ length self.now }
    {
        self.items.len()
    }

    pub fn is_empty(&self) -> bool
        ensures { IsTrue result ↔ (length self.now ≡ 0) }
    {
        self.items.is_empty()
    }

    /// The sentence at the place, from 0.
    pub fn get(&self, place: usize) -> Option<&Command>
        ensures { option_copied result ≡ slice_get self.now place }
    {
        self.items.get(place)
    }

    /// The sentences in order.
    pub fn as_slice(&self) -> &[Command]
        ensures { result.now ≡ self.now }
    {
        self.items.as_slice()
    }
}
