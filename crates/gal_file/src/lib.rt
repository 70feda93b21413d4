//! The front door of the language: the bytes of a source to its commands, each with the lines of its sentences, or the
//! first fault with its place in bytes.
#![tactic(auto)]

mod fault;
mod reading;

pub use fault::ParseFault;
pub use reading::{File, read, tokens_of};
