//! Sections: hypotheses, declarations that use them, and what is kept of these when a section ends. Coq Reference
//! Manual, "Section mechanism".
#![tactic(auto)]

mod copying;
mod discharging;
mod entry;
mod examples;
mod fault;
mod keeping;
mod laws;
mod naming;
mod open_section;
mod sections;
mod state;
mod uses;
mod using;

pub use examples::{
    a_block_is_kept, a_constant_is_applied, a_let_is_bound, a_let_is_no_argument,
    sections_are_nested, what_is_allowed_is_bound, what_is_not_done, what_is_refused,
    what_is_used_is_bound,
};
pub use fault::{AddFault, LeaveFault};
pub use laws::{inner_then_outer_is_once, kept_where_nothing_is_named, what_is_never_refused};
pub use sections::Sections;
pub use using::Using;
