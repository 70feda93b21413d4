//! Strict positivity of a block whose types may stand among the parameters of other blocks.
#![tactic(auto)]

mod faults;
mod instances;
mod positivities;
mod small;

pub use faults::nested;
