//! What names mean at a place of a library. Coq Reference Manual, "Libraries and qualified names".
#![tactic(auto)]

mod brought;
mod counts;
mod fault;
mod imports;
mod laws;
mod libraries;
mod library;
mod lookup;
mod name_set;
mod scope;
mod table;
mod written;

pub use fault::NameFault;
pub use laws::kept_stands_for_all;
pub use scope::Scope;
