//! The grammar of sources and its parser. A source is a list of sentences; `parse` gives them, or the
//! place of the first byte that no sentence reads. The grammar stands in `specs/` as a relation on texts.
#![tactic(auto)]

mod command;
mod lexer;
mod parser;
#[cfg(test)]
mod tests;

pub use command::{Command, Commands, Raw};
pub use parser::{ParseFault, parse};
