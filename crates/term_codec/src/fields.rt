//! Bytes, numbers, names, ids and levels at a place, which moves past what was read.
ghost use Rattle.std.specs.Prelude.{◌≡◌, ◌+◌, ◌≤◌, ◌<◌, length, drop};
ghost use Rattle.term_format.specs.Reading.{read_byte, read_number, read_limited, read_name, read_id, read_part, read_named, read_level_name, read_level};
ghost use Rattle.term_codec.specs.calls.Answers.{Reads};

use crate::faults::Stop;
use cic_names::{GlobalId, Level, LevelName, Name, NameFault, Part};
use seg_format::Defect;
use std::alloc::Global;

/// The byte at a place.
pub fn byte_at(b: &[u8], place: &mut usize) -> Result<u8, Stop>
    requires { place.old ≤ length b.now }
    ensures { Reads (λ v. v) b.now (read_byte (drop place.old b.now)) place.new result }
{
    let at = *place;
    if at >= b.len() {
        return Err(Stop::Wrong(Defect::Short, b.len()));
    }
    *place = at + 1;
    Ok(b[at])
}

/// The number of four bytes at a place.
pub fn number_at(b: &[u8], place: &mut usize) -> Result<u32, Stop>
    requires { place.old ≤ length b.now }
    ensures { Reads (λ v. v) b.now (read_number (drop place.old b.now)) place.new result }
{
    let at = *place;
    if b.len() - at < 4 {
        return Err(Stop::Wrong(Defect::Short, b.len()));
    }
    *place = at + 4;
    Ok(u32::from_be_bytes([b[at], b[at + 1], b[at + 2], b[at + 3]]))
}

/// A number of at most `most`.
#[tactic(auto, unfolding(term_format::specs::Reading::read_limited))]
pub fn limited_at(b: &[u8], place: &mut usize, most: u32) -> Result<u32, Stop>
    requires { place.old ≤ length b.now }
    ensures { Reads (λ v. v) b.now (read_limited most (drop place.old b.now)) place.new result }
{
    let at = *place;
    let number = number_at(b, place)?;
    if number > most {
        return Err(Stop::Wrong(Defect::Number, at));
    }
    Ok(number)
}

/// The name at a place.
#[tactic(auto, unfolding(term_format::specs::Reading::read_name))]
pub fn read_name(alloc: Global, b: &[u8], place: &mut usize) -> Result<Name, Stop>
    requires { place.old ≤ length b.now }
    ensures { Reads (λ v. v) b.now (read_name (drop place.old b.now)) place.new result }
{
    let at = *place;
    let count = usize::from(byte_at(b, place)?);
    let start = *place;
    if b.len() - start < count {
        return Err(Stop::Wrong(Defect::Short, b.len()));
    }
    *place = start + count;
    name_of(alloc, &b[start..start + count], at)
}

ghost use Rattle.std.specs.Prelude.{IfOk, IfErr, OnOk};
ghost use Rattle.cic_names.specs.Identifier.{IsIdentifier};
ghost use Rattle.term_codec.specs.calls.Answers.{IsNoName};

/// The name that these bytes are, whose length stands at `at`.
fn name_of(alloc: Global, bytes: &[u8], at: usize) -> Result<Name, Stop>
    requires { length bytes.now ≤ 255 }
    ensures value { IfOk result (λ name. name ≡ bytes.now) }
    ensures identifier { OnOk result (IsIdentifier bytes.now) }
    ensures wrong { IfErr result (λ stop. IsNoName bytes.now at stop) }
{
    match Name::new(alloc, bytes) {
        Ok(name) => Ok(name),
        Err(NameFault::NoMemory) => Err(Stop::NoMemory),
        Err(NameFault::NotIdent | NameFault::Long) => Err(Stop::Wrong(Defect::Name, at)),
    }
}

#[tactic(auto, unfolding(term_format::specs::Reading::read_id))]
pub(crate) fn read_id(alloc: Global, b: &[u8], place: &mut usize) -> Result<GlobalId, Stop>
    requires { place.old ≤ length b.now }
    ensures { Reads (λ v. v) b.now (read_id (drop place.old b.now)) place.new result }
{
    let lib = read_name(alloc, b, place)?;
    let name = read_name(alloc, b, place)?;
    Ok(GlobalId { lib, name })
}

/// What follows the owner of a level whose part has that byte.
fn read_part(b: &[u8], place: &mut usize, tag: u8) -> Result<Part, Stop>
    requires { place.old ≤ length b.now }
    ensures { Reads (λ v. v) b.now (read_part tag (drop place.old b.now)) place.new result }
{
    match tag {
        1 => Ok(Part::Declared),
        2 => Ok(Part::Visible(number_at(b, place)?)),
        _ => Ok(Part::Proof(number_at(b, place)?)),
    }
}

/// A named level after the byte of its part.
#[tactic(auto, unfolding(term_format::specs::Reading::read_named))]
fn read_named(alloc: Global, b: &[u8], place: &mut usize, tag: u8) -> Result<LevelName, Stop>
    requires { place.old ≤ length b.now }
    ensures { Reads (λ v. v) b.now (read_named tag (drop place.old b.now)) place.new result }
{
    let lib = read_name(alloc, b, place)?;
    let owner = read_name(alloc, b, place)?;
    let part = read_part(b, place, tag)?;
    Ok(LevelName { lib, owner, part })
}

/// A level that must have a name.
#[tactic(auto, unfolding(term_format::specs::Reading::read_level_name))]
pub(crate) fn read_level_name(alloc: Global, b: &[u8], place: &mut usize) -> Result<LevelName, Stop>
    requires { place.old ≤ length b.now }
    ensures { Reads (λ v. v) b.now (read_level_name (drop place.old b.now)) place.new result }
{
    let at = *place;
    let tag = byte_at(b, place)?;
    if tag < 1 || tag > 3 {
        return Err(Stop::Wrong(Defect::Tag, at));
    }
    read_named(alloc, b, place, tag)
}

#[tactic(auto, unfolding(term_format::specs::Reading::read_level))]
pub(crate) fn read_level(alloc: Global, b: &[u8], place: &mut usize) -> Result<Level, Stop>
    requires { place.old ≤ length b.now }
    ensures { Reads (λ v. v) b.now (read_level (drop place.old b.now)) place.new result }
{
    let at = *place;
    let tag = byte_at(b, place)?;
    match tag {
        0 => Ok(Level::Set),
        1 | 2 | 3 => Ok(Level::Named(read_named(alloc, b, place, tag)?)),
        _ => Err(Stop::Wrong(Defect::Tag, at)),
    }
}
