//! The container of library files: the head, the table of segments, their digests, and the segments as lent slices.
//! What a segment holds is another crate's.
#![tactic(auto)]

mod faults;
mod fields;
mod front;
pub mod laws;
mod layout;
mod packing;
mod pieces;
mod reading;
mod rows;
mod tables;

pub use faults::{BadFile, Defect};
pub use front::Head;
pub use layout::{Kind, Segment};
pub use packing::{Bytes, LONGEST, PackFault, pack};
pub use pieces::Packed;
pub use reading::{Lent, Segments};
pub use rows::Row;
pub use tables::Table;
