//! Laws of the rules alone: substitution, growth, generation, validity, the guard and positivity. Each public
//! function has an empty body, and its contract is the law.
#![tactic(auto)]

pub mod conversion;
pub mod derivation;
pub mod generation;
pub mod growth;
pub mod guard;
pub mod lookups;
pub mod scope;
pub mod substitution;
pub mod validity;
