//! A library file as its segments.
ghost use Rattle.std.specs.Prelude.{◌≡◌, ◌+◌, ◌≤◌, ◌<◌, ◌^◌, ℕ, List, length, All, map, Some, None, OnOk, IfOk, IfErr};
ghost use Rattle.std.specs.Borrow.{Bor};
ghost use Rattle.seg_format.specs.Files.{first_place, contents};
ghost use Rattle.seg_format.specs.Defects.{first_unmet, digest_demand};
ghost use Rattle.seg_format.specs.calls.Lending.{part_of, part_at};

use crate::faults::BadFile;
use crate::front::Head;
use crate::layout::{Kind, Segment};
use crate::tables::Table;
use arrayvec::ArrayVec;

/// A segment of a library file and its bytes, which are lent from the file's.
#[derive(Clone, Copy, Debug)]
pub struct Lent<'b> {
    pub segment: Segment,
    pub bytes: &'b [u8],
}

impl Default for Lent<'_> {
    ghost use Rattle.std.specs.Prelude.{⊤};

    ghost is_default = { λ _. ⊤ };

    fn default() -> Self {
        Lent {
            segment: Segment::Head,
            bytes: &[],
        }
    }
}

/// The segments of a library file whose head, table and digests are right, in order.
#[derive(Drop)]
pub struct Segments<'b> {
    pub kind: Kind,
    pub parts: ArrayVec<Lent<'b>, 4>,
    pub ghost fits: { first_place kind + length (contents (map part_of parts.items)) < 2 ^ 32 },
}

impl<'b> Segments<'b> {
    ghost use Rattle.std.specs.Option.{option_map};
    ghost use Rattle.std.specs.Prelude.{IsOkAnd};
    ghost use Rattle.seg_format.specs.Files.{File, Spells, segment_in, place_in};
    ghost use Rattle.seg_format.specs.Defects.{first_defect};
    ghost use Rattle.seg_format.specs.calls.Views.{file_of};

    /// Takes a library file apart. Nothing is copied, and nothing is judged of what the segments hold.
    pub fn of(bytes: &'b [u8]) -> Result<Segments<'b>, BadFile>
        requires small { length bytes.now < 2 ^ 32 }
        ensures spells { IfOk result (λ segments. Spells bytes.now (file_of segments)) }
        ensures only { (file : File) → Spells bytes.now file → IsOkAnd result (λ segments. file_of segments ≡ file) }
        ensures fault { IfErr result (λ fault. first_defect bytes.now ≡ Some fault) }
    {
        Segments::take_apart(bytes)
    }

    /// Judges the head, the table and each digest in turn, and lends the segments.
    fn take_apart(bytes: &'b [u8]) -> Result<Segments<'b>, BadFile>
        requires small { length bytes.now < 2 ^ 32 }
        ensures spells { IfOk result (λ segments. Spells bytes.now (file_of segments)) }
        ensures fault { IfErr result (λ fault. first_defect bytes.now ≡ Some fault) }
    {
        let head = Head::of(bytes, bytes.len() as u64)?;
        let table = head.table(&bytes[16..])?;
        let parts = lend_all(&table, bytes)?;
        Ok(Segments {
            kind: head.kind,
            parts,
        })
    }

    /// The bytes of a segment, if files of this kind have it.
    pub fn get(&self, segment: Segment) -> Option<&'b [u8]>
        ensures { option_map (λ (bytes : Bor (List ℕ)). bytes.now) result ≡ segment_in (file_of self.now).parts segment }
    {
        'parts: for part in self.parts.as_slice() {
            if part.segment.number() == segment.number() {
                return Some(part.bytes);
            }
        }
        None
    }

    /// The place of a segment's first byte in the file, if files of this kind have it.
    pub fn place(&self, segment: Segment) -> Option<u32>
        ensures { result ≡ place_in (first_place self.now.kind) (file_of self.now).parts segment }
    {
        let mut place = self.kind.first_place();
        'parts: for part in self.parts.as_slice() {
            if part.segment.number() == segment.number() {
                return Some(place);
            }
            place += part.bytes.len() as u32;
        }
        None
    }
}

/// Lends each segment of a table, in order, from the bytes of the whole file.
fn lend_all<'b>(table: &Table, bytes: &'b [u8]) -> Result<ArrayVec<Lent<'b>, 4>, BadFile>
    requires inside { All (λ row. row.place + row.length ≤ length bytes.now) table.now.rows.items }
    requires few { length table.now.rows.items ≤ 4 }
    ensures passes { OnOk result (first_unmet (map (digest_demand bytes.now) table.now.rows.items) ≡ None) }
    ensures parts { IfOk result (λ parts. map part_of parts.items ≡ map (part_at bytes.now) table.now.rows.items) }
    ensures fault { IfErr result (λ fault. first_unmet (map (digest_demand bytes.now) table.now.rows.items) ≡ Some fault) }
{
    let mut parts = ArrayVec::new();
    'rows: for row in table.rows.as_slice() {
        let bytes = row.lend(0, bytes)?;
        parts.push(Lent {
            segment: row.segment,
            bytes,
        });
    }
    Ok(parts)
}
