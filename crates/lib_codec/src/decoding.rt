//! What callers read: summaries and interfaces.
ghost use Rattle.std.specs.Prelude.{◌≡◌, ◌+◌, ◌*◌, ◌-◌, ◌<◌, ◌^◌, [], IfOk, IfErr, length, drop};
ghost use Rattle.seg_format.specs.declared.layout.Segment.TheVariants.{Opaques, Summary as SummaryName, Library as LibraryName};
ghost use Rattle.term_format.specs.Reading.{value, whole};
ghost use Rattle.term_codec.specs.calls.Answers.{Stops, Refuses};
ghost use Rattle.lib_format.specs.Contents.{summary_contents, IsSummary, library_contents, IsLibrary};
ghost use Rattle.lib_format.specs.ContentsReading.{read_summary, read_library};
ghost use Rattle.lib_format.specs.OpaqueHeads.{read_head, IsHead};

use crate::interfaces::read_library;
use crate::opaques::read_head;
use crate::summaries::read_summary;
use lib_format::{Library, OpaqueRow, Summary};
use seg_format::{Defect, Segment};
use std::alloc::Global;
use term_codec::{DecodeFault, Stop};

/// The summary that all of the bytes spell.
#[tactic(auto, using(term_codec::proofs::Refusing::whole_stops, term_codec::proofs::Refusing::whole_ends, term_codec::proofs::Refusing::nothing_left))]
fn whole_summary(alloc: Global, b: &[u8]) -> Result<Summary, Stop>
    ensures value { IfOk result (λ s. whole (read_summary b.now) ≡ value (summary_contents s) []) }
    ensures storable { IfOk result (λ s. IsSummary (summary_contents s)) }
    ensures stops { IfErr result (λ stop. Stops (length b.now) (whole (read_summary b.now)) stop) }
{
    let mut place = 0;
    let summary = read_summary(alloc, b, &mut place)?;
    if place < b.len() {
        return Err(Stop::Wrong(Defect::Trailing, place));
    }
    Ok(summary)
}

/// The summary that all of the bytes spell, or their first defect.
#[tactic(auto, using(term_codec::proofs::Refusing::small_of, term_codec::proofs::Refusing::refuses_of))]
pub fn decode_summary(alloc: Global, b: &[u8]) -> Result<Summary, DecodeFault>
    requires { length b.now < 2 ^ 32 }
    ensures value { IfOk result (λ s. whole (read_summary b.now) ≡ value (summary_contents s) []) }
    ensures storable { IfOk result (λ s. IsSummary (summary_contents s)) }
    ensures fault { IfErr result (λ f. Refuses SummaryName (length b.now) (whole (read_summary b.now)) f) }
{
    match whole_summary(alloc, b) {
        Ok(summary) => Ok(summary),
        Err(stop) => Err(stop.in_segment(Segment::Summary)),
    }
}

/// The interface that all of the bytes spell.
#[tactic(auto, using(term_codec::proofs::Refusing::whole_stops, term_codec::proofs::Refusing::whole_ends, term_codec::proofs::Refusing::nothing_left))]
fn whole_library(alloc: Global, b: &[u8]) -> Result<Library, Stop>
    ensures value { IfOk result (λ l. whole (read_library b.now) ≡ value (library_contents l) []) }
    ensures storable { IfOk result (λ l. IsLibrary (library_contents l)) }
    ensures stops { IfErr result (λ stop. Stops (length b.now) (whole (read_library b.now)) stop) }
{
    let mut place = 0;
    let library = read_library(alloc, b, &mut place)?;
    if place < b.len() {
        return Err(Stop::Wrong(Defect::Trailing, place));
    }
    Ok(library)
}

/// The interface that all of the bytes spell, or their first defect.
#[tactic(auto, using(term_codec::proofs::Refusing::small_of, term_codec::proofs::Refusing::refuses_of))]
pub fn decode_library(alloc: Global, b: &[u8]) -> Result<Library, DecodeFault>
    requires { length b.now < 2 ^ 32 }
    ensures value { IfOk result (λ l. whole (read_library b.now) ≡ value (library_contents l) []) }
    ensures storable { IfOk result (λ l. IsLibrary (library_contents l)) }
    ensures fault { IfErr result (λ f. Refuses LibraryName (length b.now) (whole (read_library b.now)) f) }
{
    match whole_library(alloc, b) {
        Ok(library) => Ok(library),
        Err(stop) => Err(stop.in_segment(Segment::Library)),
    }
}

/// The head of `count` opaque bodies, where the bytes are those of the whole segment: the bodies follow the head. Or their
/// first defect, up to where the bodies end.
#[tactic(auto, using(term_codec::proofs::Refusing::small_of, term_codec::proofs::Refusing::refuses_of, crate::proofs::Heads::head_is))]
pub fn decode_opaque_head(
    alloc: Global,
    count: u32,
    b: &[u8],
) -> Result<Vec<OpaqueRow>, DecodeFault>
    requires { length b.now < 2 ^ 32 }
    ensures value { IfOk result (λ rows. read_head count b.now ≡ value rows.items (drop (4 + 24 * count) b.now)) }
    ensures storable { IfOk result (λ rows. IsHead (length b.now - (4 + 24 * count)) count rows.items) }
    ensures fault { IfErr result (λ f. Refuses Opaques (length b.now) (read_head count b.now) f) }
{
    let mut place = 0;
    match read_head(alloc, b, &mut place, count) {
        Ok(rows) => Ok(rows),
        Err(stop) => Err(stop.in_segment(Segment::Opaques)),
    }
}
