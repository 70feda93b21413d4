//! Terms and lists of constraints as the bytes of a library file, and back.
#![tactic(auto)]

mod constraints;
mod encoding;
mod faults;
mod fields;
mod making;
mod reading;
mod terms;
mod writing;
mod writing_terms;

pub use constraints::read_constraints;
pub use encoding::{encode_constraints, encode_term};
pub use faults::{DecodeFault, Stop};
pub use fields::{byte_at, limited_at, number_at, read_name};
pub use reading::{decode_constraints, decode_term, level_at, name_at, term_at};
pub use seg_format::Bytes;
pub use terms::read_owned;
pub use writing::{put_byte, put_name, put_number};
pub use writing_terms::put_term;
