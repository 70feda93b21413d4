//! Bytes, numbers, names, ids, levels and constraints, written behind what is there.
ghost use Rattle.std.specs.Prelude.{◌≡◌, ◌++◌, ◌∷◌, [], OnOk, length, ◌<◌, ◌^◌};
ghost use Rattle.cic_names.specs.Orders.{digits, name_bytes, number_bytes, named_bytes, part_byte, level_bytes, constraint_bytes, strict_byte};
ghost use Rattle.term_format.specs.Spelling.{id_bytes};

use cic_names::{Constraint, GlobalId, Level, LevelName, Name, NoMemory, Part};
use seg_format::Bytes;

/// Writes a byte.
pub fn put_byte(bytes: &mut Bytes, byte: u8) -> Result<(), NoMemory>
    ensures { OnOk result (bytes.new.items ≡ bytes.old.items ++ byte ∷ []) }
{
    Ok(bytes.push(byte)?)
}

/// Writes a number as four bytes.
#[tactic(auto, using(crate::proofs::Numbers::bytes_are_digits))]
pub fn put_number(bytes: &mut Bytes, n: u32) -> Result<(), NoMemory>
    ensures { OnOk result (bytes.new.items ≡ bytes.old.items ++ digits n) }
{
    Ok(bytes.extend_from_slice(&n.to_be_bytes())?)
}

/// Writes a name behind its length.
pub fn put_name(bytes: &mut Bytes, name: &Name) -> Result<(), NoMemory>
    ensures { OnOk result (bytes.new.items ≡ bytes.old.items ++ name_bytes name.now) }
{
    let text = name.bytes();
    put_byte(bytes, text.len() as u8)?;
    Ok(bytes.extend_from_slice(text)?)
}

pub(crate) fn put_id(bytes: &mut Bytes, id: &GlobalId) -> Result<(), NoMemory>
    ensures { OnOk result (bytes.new.items ≡ bytes.old.items ++ id_bytes id.now) }
{
    put_name(bytes, &id.lib)?;
    put_name(bytes, &id.name)
}

fn part_byte(part: Part) -> u8
    ensures { result ≡ part_byte part }
{
    match part {
        Part::Declared => 1,
        Part::Visible(_) => 2,
        Part::Proof(_) => 3,
    }
}

/// The number of an anonymous level.
fn put_part(bytes: &mut Bytes, part: Part) -> Result<(), NoMemory>
    ensures { OnOk result (bytes.new.items ≡ bytes.old.items ++ number_bytes part) }
{
    match part {
        Part::Declared => Ok(()),
        Part::Visible(n) | Part::Proof(n) => put_number(bytes, n),
    }
}

pub(crate) fn put_level_name(bytes: &mut Bytes, l: &LevelName) -> Result<(), NoMemory>
    ensures { OnOk result (bytes.new.items ≡ bytes.old.items ++ part_byte l.now.part ∷ named_bytes l.now) }
{
    put_byte(bytes, part_byte(l.part))?;
    put_name(bytes, &l.lib)?;
    put_name(bytes, &l.owner)?;
    put_part(bytes, l.part)
}

pub(crate) fn put_level(bytes: &mut Bytes, l: &Level) -> Result<(), NoMemory>
    ensures { OnOk result (bytes.new.items ≡ bytes.old.items ++ level_bytes l.now) }
{
    match l {
        Level::Set => put_byte(bytes, 0),
        Level::Named(l) => put_level_name(bytes, l),
    }
}

pub(crate) fn put_constraint(bytes: &mut Bytes, c: &Constraint) -> Result<(), NoMemory>
    ensures { OnOk result (bytes.new.items ≡ bytes.old.items ++ constraint_bytes c.now) }
{
    put_level(bytes, &c.left)?;
    put_byte(bytes, u8::from(c.strict))?;
    put_level(bytes, &c.right)
}
