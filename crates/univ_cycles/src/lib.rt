//! Universe constraints with the reasons for them, walks and cycles of these, numbers of levels, and a table of level names.
#![tactic(auto)]

mod cycle;
mod laws;
mod names;
mod numbers;
mod path;
mod walk;

pub use cycle::{Cycle, Tag, Tagged};
pub use laws::{clones_are_equal, consistency_passes_to_parts, no_numbering_meets_a_cycle};
pub use names::Names;
pub use numbers::{LevelNumber, level_number, meets};
