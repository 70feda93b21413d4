//! Names, universe levels and sorts, and constraints between levels, with the orders of their byte strings. Copies share the text of names.
#![tactic(auto)]

mod constraint;
mod display;
mod laws;
mod level;
mod name;
mod order;

pub use constraint::{Constraint, Constraints};
pub use laws::{
    clones_are_equal, equal_decides_equality, ids_are_told_apart_by_text, orders_are_total,
    orders_decide_equality, tests_decide_equality,
};
pub use level::{Atom, Expr, Level, LevelName, Part, Sort};
pub use memory::NoMemory;
pub use name::{GlobalId, LibName, Name, NameFault};
pub use order::{constraint_order, level_order, name_order};
