//! A value that is read from bytes is written as these bytes.
ghost use Rattle.std.specs.Prelude.{◌<◌, ◌^◌, length};

use std::alloc::Global;
use term_codec::{DecodeFault, decode_constraints, decode_term, encode_constraints, encode_term};

/// Whether the term that the bytes spell is written as the same bytes.
pub(crate) fn again(alloc: Global, b: &[u8]) -> Result<bool, DecodeFault>
    requires { length b.now < 2 ^ 32 }
{
    let term = decode_term(alloc, b)?;
    match encode_term(alloc, &term) {
        Ok(bytes) => Ok(bytes.as_slice() == b),
        Err(_) => Err(DecodeFault::NoMemory),
    }
}

/// The same of a list of constraints.
pub(crate) fn constraints_again(alloc: Global, b: &[u8]) -> Result<bool, DecodeFault>
    requires { length b.now < 2 ^ 32 }
{
    let all = decode_constraints(alloc, b)?;
    match encode_constraints(alloc, &all) {
        Ok(bytes) => Ok(bytes.as_slice() == b),
        Err(_) => Err(DecodeFault::NoMemory),
    }
}
