//! A library file made of its segments.
ghost use Rattle.std.specs.Prelude.{◌≡◌, ◌+◌, ◌-◌, ◌≤◌, ◌<◌, ◌^◌, ◌++◌, min, length, IfOk, OnOk};
ghost use Rattle.seg_format.specs.Files.{segments_of, first_place, row, table, contents, head};

use crate::front::{MAGIC, VERSION};
use crate::layout::{Kind, Segment};
use crate::pieces::{Packed, Pieces};
use std::alloc::{AllocError, Global};

/// The bytes of a file.
pub type Bytes = Vec<u8>;

/// The longest file in bytes, 16 MiB.
pub const LONGEST: u64 = 16 * 1024 * 1024;

/// Why no file is made.
#[derive(Clone, Copy, Debug, PartialEq, Eq)]
pub enum PackFault {
    /// The file would have that many bytes, or more where the number is the greatest of its type.
    Limit(u64),
    NoMemory,
}

impl From<AllocError> for PackFault {
    ghost use Rattle.seg_format.specs.declared.packing.PackFault.TheVariants.{NoMemory};

    ghost from_gives = { λ _ fault. fault ≡ NoMemory };

    fn from(_fault: AllocError) -> PackFault {
        PackFault::NoMemory
    }
}

ghost use Rattle.memory.specs.Telling.{IfReason};
ghost use Rattle.seg_format.specs.Numbers.{number};
ghost use Rattle.seg_format.specs.Files.{Spells};
ghost use Rattle.seg_format.specs.calls.Packing.{packed, packed_parts, packed_size, limit, longest};

/// Makes a library file. Its size is known before the first byte of it is made.
pub fn pack(alloc: Global, kind: Kind, parts: &Packed) -> Result<Bytes, PackFault>
    ensures file { IfOk result (λ bytes. Spells bytes.items (packed kind parts.now)) }
    ensures fits { OnOk result (packed_size kind parts.now ≤ longest) }
    ensures too_long { IfReason limit result (λ _. longest < packed_size kind parts.now) }
    ensures told { IfReason limit result (λ number. number ≡ min (packed_size kind parts.now) (2 ^ 64 - 1)) }
{
    let size = size_of(kind, parts);
    if size > LONGEST {
        return Err(PackFault::Limit(size));
    }
    let mut bytes = Vec::with_capacity(alloc, size as usize)?;
    write_head(&mut bytes, kind)?;
    write_table(&mut bytes, kind, parts)?;
    write_contents(&mut bytes, kind, parts)?;
    Ok(bytes)
}

/// The number of bytes of the file, or the greatest of its type where there are more.
fn size_of(kind: Kind, parts: &Packed) -> u64
    ensures { result ≡ min (first_place kind + length (contents (packed_parts parts.now (segments_of kind)))) (2 ^ 64 - 1) }
{
    let mut size = u64::from(kind.first_place());
    'parts: for segment in kind.segments() {
        let pieces = parts.pieces(*segment);
        size = size
            .saturating_add(pieces.front.len() as u64)
            .saturating_add(pieces.rest.len() as u64);
    }
    size
}

/// Writes a number of four bytes.
#[tactic(auto, unfolding(crate::specs::Numbers::number))]
fn write_number(bytes: &mut Bytes, value: u32) -> Result<(), AllocError>
    ensures { OnOk result (bytes.new.items ≡ bytes.old.items ++ number value) }
{
    bytes.extend_from_slice(&value.to_be_bytes())
}

/// Writes the head of a file.
fn write_head(bytes: &mut Bytes, kind: Kind) -> Result<(), AllocError>
    ensures { OnOk result (bytes.new.items ≡ bytes.old.items ++ head kind (length (segments_of kind))) }
{
    bytes.extend_from_slice(MAGIC)?;
    write_number(bytes, VERSION)?;
    write_number(bytes, kind.number())?;
    write_number(bytes, kind.segments().len() as u32)?;
    Ok(())
}

/// Writes the table of a file.
fn write_table(bytes: &mut Bytes, kind: Kind, parts: &Packed) -> Result<(), AllocError>
    requires { first_place kind + length (contents (packed_parts parts.now (segments_of kind))) < 2 ^ 32 }
    ensures { OnOk result (bytes.new.items ≡ bytes.old.items ++ table (first_place kind) (packed_parts parts.now (segments_of kind))) }
{
    let mut place = kind.first_place();
    'parts: for segment in kind.segments() {
        let pieces = parts.pieces(*segment);
        write_row(bytes, *segment, place, &pieces)?;
        place += pieces.len() as u32;
    }
    Ok(())
}

/// Writes the row of a segment.
fn write_row(
    bytes: &mut Bytes,
    segment: Segment,
    place: u32,
    pieces: &Pieces,
) -> Result<(), AllocError>
    requires { length pieces.now.front.now + length pieces.now.rest.now < 2 ^ 32 }
    ensures { OnOk result (bytes.new.items ≡ bytes.old.items ++ row place (record { segment = segment; bytes = pieces.now.front.now ++ pieces.now.rest.now })) }
{
    write_number(bytes, segment.number())?;
    write_number(bytes, place)?;
    write_number(bytes, pieces.len() as u32)?;
    bytes.extend_from_slice(&pieces.digest(segment))?;
    Ok(())
}

/// Writes the segments of a file.
fn write_contents(bytes: &mut Bytes, kind: Kind, parts: &Packed) -> Result<(), AllocError>
    ensures { OnOk result (bytes.new.items ≡ bytes.old.items ++ contents (packed_parts parts.now (segments_of kind))) }
{
    'parts: for segment in kind.segments() {
        let pieces = parts.pieces(*segment);
        bytes.extend_from_slice(pieces.front)?;
        bytes.extend_from_slice(pieces.rest)?;
    }
    Ok(())
}
