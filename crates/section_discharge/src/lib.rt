//! Declarations generalised over hypotheses of a section: one walk puts each term under the binders of the hypotheses
//! that were passed, with what stands for their ids and for the constants of the section. Coq Reference Manual,
//! "Section mechanism".
#![tactic(auto)]

mod binders;
mod generalising;
mod table;

pub use generalising::generalise;
