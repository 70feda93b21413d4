//! What the counted calls of evaluation and typing share: what is left of the budget, the depth of the present call and
//! the constraints found so far; why a call has no value; and what typing asks of an evaluator.
#![tactic(auto)]

mod evaluator;
mod stop;
mod work;

pub use evaluator::Evaluator;
pub use stop::Stop;
pub use work::Work;
