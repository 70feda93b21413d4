//! Evidence that the rules of the logic say something: what they derive and refuse, by example and by law.
//! Each public function has an empty body, and its contract is an example or a law.
#![tactic(auto)]

pub mod examples;
pub mod refusals;
