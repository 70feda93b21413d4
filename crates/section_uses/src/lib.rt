//! Which hypotheses of a section names use, closed under the types and bodies of the hypotheses. Coq Reference Manual, "Section mechanism".
#![tactic(auto)]

mod closing;
mod hypothesis;
mod lists;
mod noting;
mod seen;

pub use closing::close;
pub use hypothesis::Hypothesis;
pub use lists::Lists;
pub use noting::note_names;
pub use seen::Seen;
