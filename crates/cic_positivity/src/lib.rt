//! The tests of a block of inductive types: its shape, and its strict positivity without nested types, each with the first place at fault. They take no memory.
#![tactic(auto)]

mod constructor_types;
pub mod laws;
mod occurrences;
mod positivities;
mod products;
mod shapes;

pub use occurrences::{is_among, is_applied_among, occurs, occurs_behind};
pub use positivities::{Positivity, positive};
pub use products::{conclusion, under_products};
pub use shapes::{Shape, shaped};
