//! What callers write: summaries and interfaces.
ghost use Rattle.std.specs.Prelude.{◌≡◌, IfOk};
ghost use Rattle.lib_format.specs.Contents.{summary_bytes, summary_contents, IsSummary, library_bytes, library_contents, IsLibrary};

use crate::interfaces::put_library;
use crate::summaries::put_summary;
use cic_names::NoMemory;
use lib_format::{Library, Summary};
use seg_format::Bytes;
use std::alloc::Global;

/// The bytes of a summary.
pub fn encode_summary(alloc: Global, summary: &Summary) -> Result<Bytes, NoMemory>
    requires { IsSummary (summary_contents summary.now) }
    ensures { IfOk result (λ bytes. bytes.items ≡ summary_bytes (summary_contents summary.now)) }
{
    let mut bytes = Vec::new(alloc);
    put_summary(&mut bytes, summary)?;
    Ok(bytes)
}

/// The bytes of an interface.
pub fn encode_library(alloc: Global, library: &Library) -> Result<Bytes, NoMemory>
    requires { IsLibrary (library_contents library.now) }
    ensures { IfOk result (λ bytes. bytes.items ≡ library_bytes (library_contents library.now)) }
{
    let mut bytes = Vec::new(alloc);
    put_library(alloc, &mut bytes, library)?;
    Ok(bytes)
}
