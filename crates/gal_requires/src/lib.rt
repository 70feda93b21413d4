//! What a file requires, and the libraries that are meant.
#![tactic(auto)]

mod libraries;
mod naming;
mod requiring;

pub use libraries::Libraries;
pub use naming::{RootFault, roots};
pub use requiring::{Require, RequireList, required};
