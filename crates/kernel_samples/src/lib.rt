//! Terms and declarations by code, and what the kernel makes of them, for the programs that the gate runs.
#![tactic(auto)]

mod asking;
mod terms;

pub use asking::{AMPLE, add, is_new};
pub use terms::{Made, Maker, one, two};
