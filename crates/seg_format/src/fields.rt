//! Fields of four bytes, and the two ways in which a field is at fault.
ghost use Rattle.std.specs.Prelude.{◌≡◌, ◌+◌, ◌≤◌, ◌<◌, length, true, false, OnOk, IfErr};
ghost use Rattle.seg_format.specs.declared.faults.Defect.TheVariants.{Short};
ghost use Rattle.seg_format.specs.Numbers.{number_at};
ghost use Rattle.seg_format.specs.Defects.{bad};

use crate::faults::{BadFile, Defect};
use crate::layout::Segment;

/// The number that is spelled at a place.
pub(crate) fn number_at(bytes: &[u8], place: usize) -> u32
    requires { place + 4 ≤ length bytes.now }
    ensures { result ≡ number_at bytes.now place }
{
    u32::from_be_bytes([
        bytes[place],
        bytes[place + 1],
        bytes[place + 2],
        bytes[place + 3],
    ])
}

/// Judges whether a file of that size has all bytes before `end`.
pub(crate) fn whole(segment: Segment, size: u32, end: u64) -> Result<(), BadFile>
    ensures passes { OnOk result (end ≤ size) }
    ensures cut { IfErr result (λ _. size < end) }
    ensures fault { IfErr result (λ fault. fault ≡ bad segment Short size) }
{
    if end <= u64::from(size) {
        return Ok(());
    }
    Err(BadFile {
        segment,
        defect: Defect::Short,
        place: size,
    })
}

/// Judges a field by whether it is right.
pub(crate) fn judge(
    right: bool,
    segment: Segment,
    defect: Defect,
    place: u32,
) -> Result<(), BadFile>
    ensures passes { OnOk result (right ≡ true) }
    ensures wrong { IfErr result (λ _. right ≡ false) }
    ensures fault { IfErr result (λ fault. fault ≡ bad segment defect place) }
{
    if right {
        return Ok(());
    }
    Err(BadFile {
        segment,
        defect,
        place,
    })
}
