//! The tokens of a source, which are slices of it in order.
#![tactic(auto)]

mod comment;
pub mod laws;
mod lexer;
mod piece;
mod symbol;
#[cfg(test)]
mod tests;
mod token;
mod word;

pub use lexer::lex;
pub use token::{Kind, LexFault, Mark, Token, Tokens};
