//! The parser of terms: it reads a term from the tokens of its source.
#![tactic(auto)]

mod binders;
mod fault;
mod fixes;
mod matches;
mod names;
mod reader;
mod terms;
mod whole;

pub use fault::Fault;
pub use names::one_name;
pub use reader::{Lexeme, Parser};
pub use whole::parse_term;
