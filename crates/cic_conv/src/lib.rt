//! Conversion and subtyping, by counted calls over the plain evaluation, and the evaluator that they make. Each call answers exactly what the definition answers.
#![tactic(auto)]

/// A call one deeper, whose stop is this one's.
macro_rules! deeper {
    ($work:expr, $call:expr) => {{
        $work.depth += 1;
        let answer = $call;
        $work.depth -= 1;
        answer?
    }};
}

mod comparing;
mod conversion;
mod made;
mod plain;
mod shapes;
mod sorts;
mod subtyping;

pub use conversion::conv;
pub use plain::Plain;
pub use sorts::sorts_at_most;
pub use subtyping::cumul;
