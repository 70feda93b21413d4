//! The rules of the logic, as definitions: what a reader has to believe.
//! The definitions stand in `specs/`, one file a subject. What they refuse and take, in small laws, stands in `laws`:
//! each is the contract of a function with an empty body.
#![tactic(auto)]

pub mod laws;
