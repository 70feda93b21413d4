//! What names mean at a place of a library, and which term and which declarations what is written stands for:
//! definitions, with examples of them. Each function has an empty body, and its contract is what the definitions give.
#![tactic(auto)]

mod declaring;
mod examples;

pub use declaring::{assumptions, blocks, constraints, definitions, duplicates, fixpoints, proofs};
pub use examples::{
    branches_stand_in_any_order, groups_are_bound, levels_are_shared, names_are_sought_in_order,
    qualified_names, recursive_binders, what_patterns_refuse, what_stands_first_is_the_fault,
};
