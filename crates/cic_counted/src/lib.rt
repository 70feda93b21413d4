//! The check of one declaration as a definition: counted functions over the rules, within a budget of
//! steps. Each public function has an empty body, and its contract is a law of the rules or of the
//! check, or a worked example.
#![tactic(auto)]

pub mod examples;
pub mod laws;
