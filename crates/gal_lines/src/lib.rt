//! The sentences of a source, with the line and the bytes of the line on which each stands, command by command.
#![tactic(auto)]

mod building;
mod cursor;
pub mod laws;
mod places;
mod words;

pub use building::sentences_of;
pub use places::{Lines, Sentences};
