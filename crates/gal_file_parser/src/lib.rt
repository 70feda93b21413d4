//! The parser of files: it reads the commands of a file from the tokens of its source.
#![tactic(auto)]

mod assumptions;
mod blocks;
mod definitions;
mod file;
mod identifiers;
mod inductives;
mod openings;
mod proving;
mod requiring;
mod universes;
mod words;

pub use file::parse;
