//! Laws of the check: that it is sound for the rules, its budgets and steps, and what it depends on. Each public
//! function has an empty body, and its contract is the law.
#![tactic(auto)]

pub mod budgets;
pub mod environments;
pub mod eta;
pub mod evaluation;
pub mod exact_tests;
pub mod inference;
pub mod kernel;
pub mod matching;
pub mod nested;
pub mod plain;
