//! Typing: inference, the check against a type, and the sort of a type, by counted calls over any evaluator. Each call answers exactly what the definition of typing answers.
#![tactic(auto)]

mod branches;
mod deeper;
mod eliminations;
mod functions;
mod inference;
mod matches;
mod motives;
mod requirements;

pub use inference::{check, infer, sort_of};
