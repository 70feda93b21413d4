//! The bytes of declarations, summaries, interfaces and heads of opaques in a library file: how each is spelled, which can be stored, and
//! how bytes are read, with their first defect. Each public function has an empty body, and its contract is a law or an
//! example.
#![tactic(auto)]

pub mod examples;
pub mod laws;
mod stored;

pub use stored::{Library, Need, NeedFlag, OpaqueRow, Recorded, Summary};
