//! What becomes of the declarations of a section when it ends, as definitions: which hypotheses a declaration
//! uses, and the declaration generalised over them. Coq Reference Manual, "Section mechanism".
#![tactic(auto)]

mod examples;
mod laws;

pub use examples::{
    a_block_gets_parameters, a_constant_is_applied, a_let_is_bound, a_let_of_a_block_is_unfolded,
    a_variable_is_bound, used_by_constants, used_in_order, used_through_types, what_is_not_done,
};
pub use laws::{
    inner_then_outer_is_once, kept_where_nothing_is_named, one_walk_is_one_by_one, twice_is_once,
    used_are_hypotheses, used_is_closed,
};
