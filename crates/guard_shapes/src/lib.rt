//! The guard of fixpoints: what is known of smaller terms, read off declared types as written.
#![tactic(auto)]

mod branches;
mod comparing;
pub mod laws;
mod marks;
mod rows;
mod types;

pub use branches::recursive_marks;
pub use comparing::{is_of_shape, same_shape};
pub use marks::{Mark, constructor_marks, under_shapes};
pub use rows::{ShapeRow, TypeShape};
pub use types::shape_of_type;
