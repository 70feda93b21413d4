//! Terms and commands as they are written, with names that are not looked up yet.
#![tactic(auto)]

mod commands;
mod lists;
mod making;
mod names;
mod terms;

pub use commands::{
    Command, Commands, Constraint, Constructor, Ending, Flag, Inductive, Level, Proof, Relation,
    Using,
};
pub use names::{Binder, Identifier, QualifiedName, Within};
pub use terms::{
    Application, ArrowOf, Branch, Branches, FixOf, Function, Functions, Group, Groups, LetIn,
    MatchOf, Raw,
};
