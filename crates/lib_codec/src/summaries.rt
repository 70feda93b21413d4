//! Summaries, read and written.
ghost use Rattle.std.specs.Prelude.{◌≡◌, ◌++◌, ◌≤◌, ◌<◌, ◌^◌, OnOk, length, drop};
ghost use Rattle.lib_format.specs.Lists.{list_bytes};
ghost use Rattle.lib_format.specs.Contents.{recorded_bytes, summary_bytes, summary_contents};
ghost use Rattle.lib_format.specs.ContentsReading.{read_digest, read_recorded, read_closure, read_summary};
ghost use Rattle.term_codec.specs.calls.Answers.{Reads};
ghost use Rattle.lib_codec.specs.calls.Lists.{closure_of};

use cic_names::NoMemory;
use lib_format::{Recorded, Summary};
use seg_format::{Bytes, Defect};
use std::alloc::Global;
use term_codec::{Stop, number_at, put_name, put_number, read_name};

#[tactic(auto, using(crate::proofs::Digests::digest_cut, crate::proofs::Digests::digest_there))]
pub(crate) fn read_digest(b: &[u8], place: &mut usize) -> Result<[u8; 16], Stop>
    requires { place.old ≤ length b.now }
    ensures { Reads (λ v. v) b.now (read_digest (drop place.old b.now)) place.new result }
{
    let at = *place;
    if b.len() - at < 16 {
        return Err(Stop::Wrong(Defect::Short, b.len()));
    }
    let mut digest = [0; 16];
    digest.copy_from_slice(&b[at..at + 16]);
    *place = at + 16;
    Ok(digest)
}

/// A library that was loaded, with its digest.
#[tactic(auto, unfolding(lib_format::specs::ContentsReading::read_recorded))]
fn read_recorded(alloc: Global, b: &[u8], place: &mut usize) -> Result<Recorded, Stop>
    requires { place.old ≤ length b.now }
    ensures { Reads (λ v. v) b.now (read_recorded (drop place.old b.now)) place.new result }
{
    let lib = read_name(alloc, b, place)?;
    let digest = read_digest(b, place)?;
    Ok(Recorded { lib, digest })
}

/// The libraries that were loaded. The count takes no memory before they are read.
#[tactic(auto, unfolding(lib_format::specs::Lists::read_list))]
fn read_closure(alloc: Global, b: &[u8], place: &mut usize) -> Result<Vec<Recorded>, Stop>
    requires { place.old ≤ length b.now }
    ensures { Reads closure_of b.now (read_closure (drop place.old b.now)) place.new result }
{
    let count = number_at(b, place)?;
    let mut items = Vec::new(alloc);
    for _i in 0..count {
        let one = read_recorded(alloc, b, place)?;
        items.push(one)?;
    }
    Ok(items)
}

/// A summary.
#[tactic(auto, unfolding(lib_format::specs::ContentsReading::read_summary))]
pub(crate) fn read_summary(alloc: Global, b: &[u8], place: &mut usize) -> Result<Summary, Stop>
    requires { place.old ≤ length b.now }
    ensures { Reads summary_contents b.now (read_summary (drop place.old b.now)) place.new result }
{
    let name = read_name(alloc, b, place)?;
    let source = read_digest(b, place)?;
    let budget = number_at(b, place)?;
    let closure = read_closure(alloc, b, place)?;
    Ok(Summary {
        name,
        source,
        budget,
        closure,
    })
}

fn put_recorded(bytes: &mut Bytes, one: &Recorded) -> Result<(), NoMemory>
    ensures { OnOk result (bytes.new.items ≡ bytes.old.items ++ recorded_bytes one.now) }
{
    put_name(bytes, &one.lib)?;
    Ok(bytes.extend_from_slice(&one.digest)?)
}

fn put_closure(bytes: &mut Bytes, all: &[Recorded]) -> Result<(), NoMemory>
    requires { length all.now < 2 ^ 32 }
    ensures { OnOk result (bytes.new.items ≡ bytes.old.items ++ list_bytes (λ before r. recorded_bytes r) all.now) }
{
    put_number(bytes, all.len() as u32)?;
    for one in all {
        put_recorded(bytes, one)?;
    }
    Ok(())
}

/// Writes a summary.
pub(crate) fn put_summary(bytes: &mut Bytes, summary: &Summary) -> Result<(), NoMemory>
    requires { length summary.now.closure.items < 2 ^ 32 }
    ensures { OnOk result (bytes.new.items ≡ bytes.old.items ++ summary_bytes (summary_contents summary.now)) }
{
    put_name(bytes, &summary.name)?;
    bytes.extend_from_slice(&summary.source)?;
    put_number(bytes, summary.budget)?;
    put_closure(bytes, summary.closure.as_slice())
}
