//! A value that is read from bytes is written as these bytes.
ghost use Rattle.std.specs.Prelude.{◌<◌, ◌^◌, length};

use lib_codec::{DecodeFault, decode_library, decode_summary, encode_library, encode_summary};
use std::alloc::Global;

/// What the bytes are to spell.
#[derive(Clone, Copy, Debug)]
pub(crate) enum Spelled {
    Interface,
    Summary,
}

/// Whether the interface that the bytes spell is written as the same bytes.
fn interface_again(alloc: Global, b: &[u8]) -> Result<bool, DecodeFault>
    requires { length b.now < 2 ^ 32 }
{
    let library = decode_library(alloc, b)?;
    match encode_library(alloc, &library) {
        Ok(bytes) => Ok(bytes.as_slice() == b),
        Err(_) => Err(DecodeFault::NoMemory),
    }
}

/// The same of a summary.
fn summary_again(alloc: Global, b: &[u8]) -> Result<bool, DecodeFault>
    requires { length b.now < 2 ^ 32 }
{
    let summary = decode_summary(alloc, b)?;
    match encode_summary(alloc, &summary) {
        Ok(bytes) => Ok(bytes.as_slice() == b),
        Err(_) => Err(DecodeFault::NoMemory),
    }
}

/// Whether the value that the bytes spell is written as the same bytes.
pub(crate) fn again(alloc: Global, spelled: Spelled, b: &[u8]) -> Result<bool, DecodeFault>
    requires { length b.now < 2 ^ 32 }
{
    match spelled {
        Spelled::Interface => interface_again(alloc, b),
        Spelled::Summary => summary_again(alloc, b),
    }
}
