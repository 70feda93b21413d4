//! The head of a library file.
ghost use Rattle.std.specs.Prelude.{◌≡◌, ◌≤◌, ◌<◌, ◌^◌, length, min, Some, None, OnOk, IfOk, IfErr};

use crate::faults::{BadFile, Defect};
use crate::fields::{judge, number_at, whole};
use crate::layout::{Kind, Segment};

/// The bytes with which each library file begins.
pub(crate) const MAGIC: &[u8] = b"CICV";

/// The version of the format.
pub(crate) const VERSION: u32 = 1;

/// What the first 16 bytes of a library file say: its kind, beside its size in bytes.
#[derive(Clone, Copy, Debug, PartialEq, Eq)]
pub struct Head {
    pub kind: Kind,
    pub size: u32,
}

impl Head {
    ghost use Rattle.seg_format.specs.Defects.{first_unmet, head_demands, kind_at};

    /// Judges the head of a file of that size. `first` has the first 16 bytes of the file, or all where it is shorter;
    /// bytes after them are not looked at.
    pub fn of(first: &[u8], size: u64) -> Result<Head, BadFile>
        requires small { size < 2 ^ 32 }
        requires reaches { min size 16 ≤ length first.now }
        ensures passes { OnOk result (first_unmet (head_demands size first.now) ≡ None) }
        ensures fits { OnOk result (16 ≤ size) }
        ensures kind { IfOk result (λ head. kind_at first.now ≡ Some head.kind) }
        ensures size { IfOk result (λ head. head.size ≡ size) }
        ensures fault { IfErr result (λ fault. first_unmet (head_demands size first.now) ≡ Some fault) }
    {
        let size = size as u32;
        whole(Segment::Head, size, 4)?;
        judge(&first[..4] == MAGIC, Segment::Head, Defect::Magic, 0)?;
        whole(Segment::Head, size, 8)?;
        judge(
            number_at(first, 4) == VERSION,
            Segment::Head,
            Defect::Version,
            4,
        )?;
        whole(Segment::Head, size, 12)?;
        let kind = named_kind(number_at(first, 8))?;
        whole(Segment::Head, size, 16)?;
        let count = kind.segments().len();
        judge(
            number_at(first, 12) as usize == count,
            Segment::Head,
            Defect::Layout,
            12,
        )?;
        Ok(Head { kind, size })
    }
}

ghost use Rattle.seg_format.specs.declared.layout.Segment.TheVariants.{Head as HeadName};
ghost use Rattle.seg_format.specs.declared.faults.Defect.TheVariants.{Kind as NoKind};
ghost use Rattle.seg_format.specs.Defects.{bad, kind_of};

/// The kind that the number of a head names.
fn named_kind(number: u32) -> Result<Kind, BadFile>
    ensures passes { IfOk result (λ kind. kind_of number ≡ Some kind) }
    ensures unknown { IfErr result (λ _. kind_of number ≡ None) }
    ensures fault { IfErr result (λ fault. fault ≡ bad HeadName NoKind 8) }
{
    match Kind::of_number(number) {
        Some(kind) => Ok(kind),
        None => Err(BadFile {
            segment: Segment::Head,
            defect: Defect::Kind,
            place: 8,
        }),
    }
}
