//! The parts of a match that is read: the type that it is on, the patterns of its branches, and its term.
#![tactic(auto)]

mod arguments;
mod branches;
mod cases;
pub mod laws;
mod matched;
mod patterns;
mod sized;
mod values;

pub use branches::{Done, ReadBranch};
pub use cases::case_of;
pub use matched::{MatchedType, matched_type};
pub use patterns::{Pattern, add_branch, pattern_read};
pub use values::value_name;
