//! Evaluation: weak head normal forms, by counted calls over the terms of the program. Each call answers exactly what the definition of evaluation answers, with the same steps taken off the budget.
#![tactic(auto)]

mod evaluation;
mod judged;
mod turns;

pub use evaluation::whnf;
