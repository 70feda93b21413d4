//! Parts of typing that make no counted call: the types of leaves and of sorts, products, the block of a match, the terms
//! that a match makes, and refusals.
#![tactic(auto)]

mod blocks;
mod instances;
mod leaves;
mod products;
mod readings;
mod refusals;
mod sorts;

pub use blocks::{require_shape, type_in_block, whole_block};
pub use instances::{
    argument_types, branch_type, index_types, match_type, under_indices, value_type,
};
pub use leaves::{
    arity_of_type, product_over, type_of_constant, type_of_constructor, type_of_variable,
};
pub use products::{index_count, product_count};
pub use readings::{Product, as_product, as_sort, is_same};
pub use refusals::{
    not_function, not_sort, unbound_id, unbound_variable, unguarded, universe_form,
};
pub use sorts::{type_of_product, type_of_sort};
