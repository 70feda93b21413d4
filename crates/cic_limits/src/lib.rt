//! What conversion and typing share: terms that are made within the limits of a term, and contexts that entries are put
//! into and taken out of again.
#![tactic(auto)]

mod contexts;
mod made;

pub use contexts::{
    enter, enter_binders, enter_products, leave, leave_to, pop_one, push_assumed, push_defined,
};
pub use made::{fitting_body, lifted, put_in, shared};
