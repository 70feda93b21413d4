//! Heads of opaques, read.
ghost use Rattle.std.specs.Prelude.{◌≡◌, ◌+◌, ◌≤◌, ◌<◌, ◌^◌, length, drop, IfOk};
ghost use Rattle.term_codec.specs.calls.Answers.{Reads};
ghost use Rattle.lib_format.specs.OpaqueHeads.{read_row, read_filled, read_rows, read_head};
ghost use Rattle.lib_codec.specs.calls.Lists.{rows_of};

use crate::declarations::read_place;
use crate::summaries::read_digest;
use lib_format::OpaqueRow;
use seg_format::Defect;
use std::alloc::Global;
use term_codec::{Stop, limited_at, number_at};

/// A row whose body begins at `end`, where `room` bytes stand behind the head.
#[tactic(auto, using(crate::proofs::Heads::length_fits), unfolding(lib_format::specs::OpaqueHeads::read_row))]
fn read_row(b: &[u8], place: &mut usize, room: u32, end: u32) -> Result<OpaqueRow, Stop>
    requires place { place.old ≤ length b.now }
    requires within { end ≤ room }
    ensures value { Reads (λ v. v) b.now (read_row room end (drop place.old b.now)) place.new result }
    ensures fits { IfOk result (λ row. end + row.length ≤ room) }
{
    let begins = read_place(b, place, end as usize)?;
    let length = limited_at(b, place, room - end)?;
    let digest = read_digest(b, place)?;
    Ok(OpaqueRow {
        place: begins,
        length,
        digest,
    })
}

/// Rows whose bodies fill what stands behind the head. The count takes no memory before they are read.
fn read_filled(
    alloc: Global,
    b: &[u8],
    place: &mut usize,
    room: u32,
    count: u32,
) -> Result<Vec<OpaqueRow>, Stop>
    requires { place.old ≤ length b.now }
    ensures { Reads rows_of b.now (read_filled room count (drop place.old b.now)) place.new result }
{
    let mut end = 0;
    let mut items = Vec::new(alloc);
    for _i in 0..count {
        let one = read_row(b, place, room, end)?;
        end += one.length;
        items.push(one)?;
    }
    let left = b.len() - *place;
    if (end as usize) < left {
        return Err(Stop::Wrong(Defect::Trailing, b.len() - (left - end as usize)));
    }
    Ok(items)
}

/// The rows of a head, which must all be there.
#[tactic(auto, using(crate::proofs::Heads::rows_cut, crate::proofs::Heads::rows_there))]
fn read_rows(alloc: Global, b: &[u8], place: &mut usize, count: u32) -> Result<Vec<OpaqueRow>, Stop>
    requires small { length b.now < 2 ^ 32 }
    requires place { place.old ≤ length b.now }
    ensures { Reads rows_of b.now (read_rows count (drop place.old b.now)) place.new result }
{
    let left = b.len() - *place;
    let size = 24 * count as usize;
    if left < size {
        return Err(Stop::Wrong(Defect::Short, b.len()));
    }
    read_filled(alloc, b, place, (left - size) as u32, count)
}

/// The head of so many bodies, behind which they stand.
#[tactic(auto, unfolding(lib_format::specs::OpaqueHeads::read_head))]
pub(crate) fn read_head(
    alloc: Global,
    b: &[u8],
    place: &mut usize,
    count: u32,
) -> Result<Vec<OpaqueRow>, Stop>
    requires small { length b.now < 2 ^ 32 }
    requires place { place.old ≤ length b.now }
    ensures { Reads rows_of b.now (read_head count (drop place.old b.now)) place.new result }
{
    let at = *place;
    let number = number_at(b, place)?;
    if number != count {
        return Err(Stop::Wrong(Defect::Number, at));
    }
    read_rows(alloc, b, place, number)
}
