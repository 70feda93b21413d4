//! Written terms to terms: a written term stands for a term of the calculus, or has a first name that stands for
//! nothing.
#![tactic(auto)]

mod bare;
mod elaborating;
mod reading;

pub use elaborating::{several, telescope, term};
pub use reading::{ElabFault, elab_term};
