//! Declarations, interfaces and summaries of libraries as the bytes of a library file, and back.
#![tactic(auto)]

mod declarations;
mod decoding;
mod encoding;
mod interfaces;
mod names;
mod opaques;
mod summaries;
mod writing;

pub use decoding::{decode_library, decode_opaque_head, decode_summary};
pub use encoding::{encode_library, encode_summary};
pub use lib_format::{Library, Need, NeedFlag, OpaqueRow, Recorded, Summary};
pub use term_codec::{Bytes, DecodeFault};
