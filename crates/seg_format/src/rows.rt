//! The rows of the table of a library file.
ghost use Rattle.std.specs.Prelude.{◌≡◌, ◌+◌, ◌-◌, ◌≤◌, ◌<◌, ◌^◌, length, Some, None, OnOk, IfOk, IfErr};

use crate::faults::{BadFile, Defect};
use crate::fields::{judge, number_at, whole};
use crate::layout::Segment;
use md5::{Digest, Md5};

/// A row of the table: a segment, the place of its first byte in the file, its length in bytes, and its digest.
#[derive(Clone, Copy, Debug, PartialEq, Eq)]
pub struct Row {
    pub segment: Segment,
    pub place: u32,
    pub length: u32,
    pub digest: [u8; 16],
}

impl Default for Row {
    ghost use Rattle.std.specs.Prelude.{⊤};

    ghost is_default = { λ _. ⊤ };

    fn default() -> Row {
        Row {
            segment: Segment::Head,
            place: 0,
            length: 0,
            digest: [0; 16],
        }
    }
}

impl Row {
    ghost use Rattle.seg_format.specs.Defects.{first_unmet, row_demands, row_at};
    ghost use Rattle.seg_format.specs.calls.Rows.{LendsRow, RowFails};

    /// Reads the row of a segment that is to begin at `start`. `bytes` are those of the file from the row's place on.
    pub(crate) fn of(
        segment: Segment,
        size: u32,
        place: u32,
        start: u64,
        bytes: &[u8],
    ) -> Result<Row, BadFile>
        requires small { place + 28 < 2 ^ 32 }
        requires reaches { place + 28 ≤ size → 28 ≤ length bytes.now }
        requires front { size < place + 28 → size ≤ place + length bytes.now }
        ensures passes { OnOk result (first_unmet (row_demands size place start segment bytes.now) ≡ None) }
        ensures row { IfOk result (λ row. row ≡ row_at segment bytes.now) }
        ensures fits { OnOk result (place + 28 ≤ size) }
        ensures begins { IfOk result (λ row. row.place ≡ start) }
        ensures narrow_place { IfOk result (λ row. row.place < 2 ^ 32) }
        ensures narrow_length { IfOk result (λ row. row.length < 2 ^ 32) }
        ensures fault { IfErr result (λ fault. first_unmet (row_demands size place start segment bytes.now) ≡ Some fault) }
    {
        let at = u64::from(place);
        whole(Segment::Table, size, at + 4)?;
        judge(
            number_at(bytes, 0) == segment.number(),
            Segment::Table,
            Defect::Layout,
            place,
        )?;
        whole(Segment::Table, size, at + 8)?;
        let begins = number_at(bytes, 4);
        judge(
            u64::from(begins) == start,
            Segment::Table,
            Defect::Layout,
            place + 4,
        )?;
        whole(Segment::Table, size, at + 12)?;
        whole(Segment::Table, size, at + 28)?;
        Ok(Row {
            segment,
            place: begins,
            length: number_at(bytes, 8),
            digest: sixteen(&bytes[12..28]),
        })
    }

    /// Lends the segment of this row from a range of the file that begins at `from`.
    pub(crate) fn lend<'b>(&self, from: u32, range: &'b [u8]) -> Result<&'b [u8], BadFile>
        requires begins { from ≤ self.now.place }
        requires reaches { self.now.place + self.now.length ≤ from + length range.now }
        ensures lent { IfOk result (λ lent. LendsRow self.now from range.now lent.now) }
        ensures fault { IfErr result (λ fault. RowFails self.now from range.now fault) }
    {
        let start = (self.place - from) as usize;
        let lent = &range[start..start + self.length as usize];
        let found = Md5::digest(digested(self.segment, lent));
        if found == self.digest {
            return Ok(lent);
        }
        Err(BadFile {
            segment: self.segment,
            defect: Defect::Digest {
                stated: self.digest,
                found,
            },
            place: self.place,
        })
    }
}

ghost use Rattle.seg_format.specs.Files.{digested, opaques_head};

/// Sixteen bytes as an array.
fn sixteen(bytes: &[u8]) -> [u8; 16]
    requires { length bytes.now ≡ 16 }
    ensures { result ≡ bytes.now }
{
    let mut array = [0; 16];
    array.copy_from_slice(bytes);
    array
}

/// The bytes of a segment that its digest is of.
fn digested(segment: Segment, bytes: &[u8]) -> &[u8]
    ensures { result.now ≡ digested segment bytes.now }
{
    match segment {
        Segment::Opaques => opaques_head(bytes),
        _ => bytes,
    }
}

/// The head of the opaques, or all of their bytes where the head would pass their end.
fn opaques_head(bytes: &[u8]) -> &[u8]
    ensures { result.now ≡ opaques_head bytes.now }
{
    if bytes.len() < 4 {
        return bytes;
    }
    let end = 4 + 24 * number_at(bytes, 0) as usize;
    if end < bytes.len() {
        &bytes[..end]
    } else {
        bytes
    }
}
