//! Names to terms: a written term stands for a term of the calculus in which a name is the variable of
//! its innermost binder, or else a constant of the library. `specs/Scoping.antt` says which.
#![tactic(auto)]

mod elaborating;
mod laws;
mod levels;

pub use elaborating::{ElabFault, elab_type, id_of};
pub use laws::{known_or_unknown, one_term};
