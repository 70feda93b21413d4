//! Applications in a row, and terms put in for several binders at once. Where several terms are put in, or the functions of a `fix`, the result alone is judged by the limits of a term, and no term on the way to it.
#![tactic(auto)]

mod applications;
mod branches;
mod fixes;
mod functions;
pub mod laws;
mod several;

pub use applications::{apply, argument_count, arguments, head};
pub use branches::branch_result;
pub use fixes::unfolded;
pub use functions::{full_body, function_type};
pub use several::{substitute_all, substitute_part};
