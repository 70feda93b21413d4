//! A text that is made from its end to its begin, so that what a binder binds is known before the binder is
//! printed: whether its variable is used is then told by a flag.
ghost use Rattle.std.specs.Prelude.{◌≡◌, ◌+◌, ◌≤◌, ◌<◌, ◌^◌, ◌++◌, OnOk, length, replicate, take, false};
ghost use Rattle.gal_print.specs.Printing.{names_text, parameters_text};
ghost use Rattle.gal_print.specs.calls.Output.{piece_text, in_front, Puts};

use cic_names::{GlobalId, Sort};
use memory::NoMemory;

/// A piece of a text.
#[derive(Clone, Copy)]
pub(crate) enum Piece<'t> {
    Word(&'t str),
    /// The name of the binder of this number.
    Name(u64),
    /// A variable of no binder.
    Unbound(u64),
    Id(&'t GlobalId),
    OfSort(&'t Sort),
}

/// The pieces so far, the last of the text first, and for each binder that is open, by its number, whether it was
/// used so far.
#[derive(Drop)]
pub(crate) struct Output<'t> {
    pub(crate) pieces: Vec<Piece<'t>>,
    pub(crate) used: Vec<bool>,
}

/// Puts a piece in front.
#[inline(never)]
pub(crate) fn put<'t>(out: &mut Output<'t>, piece: Piece<'t>) -> Result<(), NoMemory>
    ensures puts { OnOk result (Puts (piece_text piece.entry) out.old out.new) }
    ensures length { OnOk result (length out.new.used.items ≡ length out.old.used.items) }
{
    Ok(out.pieces.push(piece)?)
}

/// Puts a word in front.
#[inline(never)]
pub(crate) fn word(out: &mut Output<'_>, word: &'static str) -> Result<(), NoMemory>
    ensures puts { OnOk result (Puts word.now out.old out.new) }
    ensures length { OnOk result (length out.new.used.items ≡ length out.old.used.items) }
{
    put(out, Piece::Word(word))
}

/// Puts a `_` for each parameter in front.
#[inline(never)]
pub(crate) fn put_parameters(out: &mut Output<'_>, count: u32) -> Result<(), NoMemory>
    ensures puts { OnOk result (Puts (parameters_text count) out.old out.new) }
    ensures length { OnOk result (length out.new.used.items ≡ length out.old.used.items) }
{
    for _i in 0..count {
        word(out, " _")?;
    }
    Ok(())
}

/// Puts the names of so many binders in front.
#[inline(never)]
pub(crate) fn put_names(out: &mut Output<'_>, first: u64, count: u64) -> Result<(), NoMemory>
    requires { first + count < 2 ^ 64 }
    ensures puts { OnOk result (Puts (names_text first count) out.old out.new) }
    ensures length { OnOk result (length out.new.used.items ≡ length out.old.used.items) }
{
    for i in (0..count).rev() {
        put(out, Piece::Name(first + i))?;
        word(out, " ")?;
    }
    Ok(())
}

/// Opens so many binders, none of which is used so far.
#[inline(never)]
pub(crate) fn open(out: &mut Output<'_>, count: u64) -> Result<(), NoMemory>
    ensures used { OnOk result (out.new.used.items ≡ out.old.used.items ++ replicate count false) }
    ensures length { OnOk result (length out.new.used.items ≡ length out.old.used.items + count) }
    ensures front { OnOk result (in_front out.new ≡ in_front out.old) }
{
    let length = (out.used.len() as u64).checked_add(count).ok_or(NoMemory)?;
    Ok(out.used.resize(length as usize, false)?)
}

/// Closes the binders from a number on.
#[inline(never)]
pub(crate) fn close(out: &mut Output<'_>, first: u64)
    ensures used { out.new.used.items ≡ take first out.old.used.items }
    ensures length { first ≤ length out.old.used.items → length out.new.used.items ≡ first }
    ensures front { in_front out.new ≡ in_front out.old }
{
    out.used.truncate(first as usize);
}
