//! Instances of inductive types: the types of indices and of constructors' arguments with parameters put in, the goals of branches, and the sorts that a type eliminates into.
#![tactic(auto)]

mod eliminations;
mod goals;
mod instances;
pub mod laws;
mod pending;

pub use eliminations::{Targets, elimination};
pub use instances::{arguments, concludes, conclusion_indices, goal, indices};
