//! Commands as they are written.
ghost use Rattle.std.specs.Prelude.{◌≡◌, ◌++◌, ◌∷◌, [], OnOk, map};
ghost use Rattle.gal_raw.specs.Commands.{command, commands};

use crate::names::{Identifier, QualifiedName};
use crate::terms::{Functions, Groups, Raw};
use std::alloc::{AllocError, Global};

/// A universe in a constraint.
#[derive(Clone, Copy, Debug, Drop)]
pub enum Level<'a> {
    Set,
    Named(QualifiedName<'a>),
}

/// How two universes stand to one another.
#[derive(Clone, Copy, Debug, PartialEq, Eq)]
pub enum Relation {
    /// `<`
    Less,
    /// `<=`
    AtMost,
    /// `=`
    Equal,
}

/// A constraint between two universes.
#[derive(Clone, Copy, Debug, Drop)]
pub struct Constraint<'a> {
    pub left: Level<'a>,
    pub relation: Relation,
    pub right: Level<'a>,
}

/// A constructor, whose type may be left out.
#[derive(Drop)]
pub struct Constructor<'a> {
    pub name: Identifier<'a>,
    pub groups: Groups<'a>,
    pub ty: Option<Raw<'a>>,
}

/// An inductive type of a block.
#[derive(Drop)]
pub struct Inductive<'a> {
    pub name: Identifier<'a>,
    pub groups: Groups<'a>,
    pub ty: Raw<'a>,
    pub constructors: Vec<Constructor<'a>>,
}

/// What stands behind the word `Require`.
#[derive(Clone, Copy, Debug, PartialEq, Eq)]
pub enum Flag {
    Plain,
    Import,
    Export,
}

/// What stands behind the words `Proof using`.
#[derive(Drop)]
pub enum Using<'a> {
    NotSaid,
    Type,
    All,
    Names(Vec<Identifier<'a>>),
}

/// The word that ends a proof.
#[derive(Clone, Copy, Debug, PartialEq, Eq)]
pub enum Ending {
    Qed,
    Defined,
    Admitted,
}

/// A proof, or the word that none is given.
#[derive(Drop)]
pub enum Proof<'a> {
    Given {
        using: Using<'a>,
        body: Raw<'a>,
        ending: Ending,
    },
    Missing {
        using: Using<'a>,
    },
}

/// A command. Coq Reference Manual, "Vernacular".
#[derive(Drop)]
pub enum Command<'a> {
    /// `From from Require flag names`
    Require {
        from: Option<Identifier<'a>>,
        flag: Flag,
        names: Vec<QualifiedName<'a>>,
    },
    Universe(Vec<Identifier<'a>>),
    Constraint(Vec<Constraint<'a>>),
    Axiom(Groups<'a>),
    Variable(Groups<'a>),
    Definition {
        name: Identifier<'a>,
        groups: Groups<'a>,
        ty: Raw<'a>,
        body: Raw<'a>,
    },
    /// A definition whose body a proof gives.
    DefinitionBy {
        name: Identifier<'a>,
        groups: Groups<'a>,
        ty: Raw<'a>,
        proof: Proof<'a>,
    },
    /// `Let`
    Local {
        name: Identifier<'a>,
        groups: Groups<'a>,
        ty: Raw<'a>,
        body: Raw<'a>,
    },
    Fixpoint(Functions<'a>),
    Inductive(Vec<Inductive<'a>>),
    Theorem {
        name: Identifier<'a>,
        groups: Groups<'a>,
        ty: Raw<'a>,
        proof: Proof<'a>,
    },
    Section(Identifier<'a>),
    End(Identifier<'a>),
}

/// The commands of a file, in order.
#[derive(Drop)]
pub struct Commands<'a> {
    items: Vec<Command<'a>>,
}

fn put<T: Drop>(items: &mut Vec<T>, item: T) -> Result<(), AllocError>
    ensures { OnOk result (items.new.items ≡ items.old.items ++ (item ∷ [])) }
{
    match items.push(item) {
        Ok(()) => Ok(()),
        Err(_) => Err(AllocError),
    }
}

impl<'a> Commands<'a> {
    /// No commands.
    pub fn new(alloc: Global) -> Commands<'a>
        ensures { commands result ≡ [] }
    {
        Commands {
            items: Vec::new(alloc),
        }
    }

    /// One more command.
    #[tactic(auto, using(crate::proofs::Rows::map_more))]
    pub fn push(&mut self, last: Command<'a>) -> Result<(), AllocError>
        ensures { OnOk result (commands self.new ≡ commands self.old ++ (command last.entry ∷ [])) }
    {
        put(&mut self.items, last)
    }

    /// The commands in order.
    pub fn as_slice(&self) -> &[Command<'a>]
        ensures { commands self.now ≡ map command result.now }
    {
        self.items.as_slice()
    }
}
