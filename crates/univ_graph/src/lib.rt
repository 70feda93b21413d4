//! Universe constraints with certificates: a numbering shows that constraints are consistent, and a cycle that they are not.
#![tactic(auto)]

mod board;
mod choose;
mod conflict;
mod fault;
mod graph;
mod join;
mod merge;
mod moving;
mod plan;
mod search;
mod settle;
mod shift;
mod spread;
mod take;
mod told;

pub use fault::GraphFault;
pub use graph::Graph;
pub use univ_cycles::{Cycle, LevelNumber, Tag, Tagged, level_number, meets};
