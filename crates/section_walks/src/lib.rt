//! One walk over a term that puts other terms in place of its names.
#![tactic(auto)]

mod gathering;
mod sharing;
mod walking;

pub use walking::{Becoming, replace_names};
