//! The guard of fixpoints: every call of a function of a `fix` has a smaller recursive argument.
#![tactic(auto)]

mod arguments;
mod bodies;
mod guarding;
mod mark_row;
mod smaller;
mod walking;

pub use guarding::{Unguarded, guarded};
