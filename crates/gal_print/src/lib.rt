//! Terms and declarations as text, over an environment that tells of the types of matches. A binder is named by its number, and a
//! product whose variable is not used is an arrow. The texts stand in `specs/` as functions of trees.
#![tactic(auto)]

mod declaration;
mod heads;
pub mod laws;
mod names;
mod output;
mod pieces;
mod printing;
mod sending;
mod term;

pub use declaration::print_decl;
pub use pieces::{push_number, push_part};
pub use sending::{PrintFault, print_decl_into, print_term_into};
pub use term::print_term;
