//! The piece at the front of a text: a blank, a comment or a token.
ghost use Rattle.std.specs.Prelude.{◌≡◌, ◌≤◌, ◌<◌, ◌^◌, ℕ, true, false, length, drop, IfOk, IfErr, IfSome, IfNone};
ghost use Rattle.cic_names.specs.Identifier.{is_first};
ghost use Rattle.gal_lexer.specs.Comments.{begins_comment, Inside};
ghost use Rattle.gal_lexer.specs.Words.{StartsWithNo, Word};
ghost use Rattle.gal_lexer.specs.Pieces.{is_blank, begins_blank, begins_stop, ends_sentence, name_kind, Identifier, Joined, NoPart, Parts, Piece, NoPiece};
ghost use Rattle.gal_lexer.specs.calls.Names.{IsLongPart, place_of};

use crate::comment::{after_comment, begins_comment};
use crate::symbol::{reserved, spelling_length, symbol};
use crate::token::{Kind, LexFault, Mark};
use crate::word::{rest_of, word_length};

/// What stands at the front of a text: a token of the kind, or a blank or a comment; and how many bytes it has.
#[derive(Clone, Copy, Drop)]
pub struct Found {
    pub kind: Option<Kind>,
    pub length: usize,
}

const LONGEST_NAME: usize = 255;

fn is_blank(byte: u8) -> bool
    ensures { result ≡ is_blank byte }
{
    matches!(byte, b' ' | b'\t' | b'\n' | b'\r')
}

fn begins_blank(text: &[u8]) -> bool
    ensures { result ≡ begins_blank text.now }
{
    match text.split_first() {
        None => false,
        Some((byte, _)) => is_blank(*byte),
    }
}

/// Whether a dot that ends a sentence is at the front of the text.
fn begins_stop(text: &[u8]) -> bool
    ensures { result ≡ begins_stop text.now }
{
    match text.split_first() {
        None => false,
        Some((byte, rest)) => *byte == b'.' && ends_sentence(rest),
    }
}

fn ends_sentence(text: &[u8]) -> bool
    ensures { result ≡ ends_sentence text.now }
{
    match text.split_first() {
        None => true,
        Some((byte, _)) => is_blank(*byte) || begins_comment(text),
    }
}

/// How many bytes the identifier has that a dot at the front of the text joins to a name.
fn joined(text: &[u8]) -> Option<usize>
    ensures some { IfSome result (λ n. Joined n text.now) }
    ensures within { IfSome result (λ n. n < length text.now) }
    ensures none { IfNone result (NoPart text.now) }
{
    match text.split_first() {
        None => None,
        Some((dot, rest)) => { if *dot == b'.' { free_word(rest) } else { None } }
    }
}

/// How many bytes the identifier at the front of the text has, whatever its length.
fn free_word(text: &[u8]) -> Option<usize>
    ensures some { IfSome result (λ n. Identifier n text.now) }
    ensures within { IfSome result (λ n. (0 < n) × (n ≤ length text.now)) }
    ensures none { IfNone result ((n : ℕ) → Identifier n text.now → ⊥) }
{
    let n = word_length(text)?;
    match reserved(&text[..n]) {
        Some(_) => None,
        None => Some(n),
    }
}

/// How many bytes the further parts of a name have, or where a long part begins.
fn further_parts(text: &[u8]) -> Result<usize, usize>
    ensures parts { IfOk result (Parts text.now) }
    ensures all { IfOk result (λ m. NoPart (drop m text.now)) }
    ensures long { IfErr result (IsLongPart text.now) }
    ensures within { IfOk result (λ m. m ≤ length text.now) }
    ensures inside { IfErr result (λ k. k ≤ length text.now) }
{
    let mut at = 0;
    while let Some(n) = joined(rest_of(text, at)) {
        if n > LONGEST_NAME {
            return Err(at + 1);
        }
        at += 1 + n;
    }
    Ok(at)
}

fn name_kind(more: usize) -> Kind
    ensures { result ≡ name_kind more }
{
    if more == 0 {
        Kind::Ident
    } else {
        Kind::Qualified
    }
}

/// The name that begins with the identifier of so many bytes.
fn name(text: &[u8], n: usize) -> Result<Found, LexFault>
    requires identifier { Identifier n text.now }
    requires within { (0 < n) × (n ≤ length text.now) }
    requires short { length text.now < 2 ^ 32 }
    ensures piece { IfOk result (λ f. Piece f.kind f.length text.now) }
    ensures within { IfOk result (λ f. (0 < f.length) × (f.length ≤ length text.now)) }
    ensures fault { IfErr result (λ f. NoPiece f text.now) }
    ensures inside { IfErr result (λ f. place_of f ≤ length text.now) }
{
    if n > LONGEST_NAME {
        return Err(LexFault::LongName { place: 0 });
    }
    match further_parts(rest_of(text, n)) {
        Ok(more) => Ok(Found {
            kind: Some(name_kind(more)),
            length: n + more,
        }),
        Err(long) => Err(LexFault::LongName {
            place: (n + long) as u32,
        }),
    }
}

/// The token that begins with the word of so many bytes.
fn word(text: &[u8], n: usize) -> Result<Found, LexFault>
    requires word { Word n text.now }
    requires within { (0 < n) × (n ≤ length text.now) }
    requires short { length text.now < 2 ^ 32 }
    ensures piece { IfOk result (λ f. Piece f.kind f.length text.now) }
    ensures within { IfOk result (λ f. (0 < f.length) × (f.length ≤ length text.now)) }
    ensures fault { IfErr result (λ f. NoPiece f text.now) }
    ensures inside { IfErr result (λ f. place_of f ≤ length text.now) }
{
    match reserved(&text[..n]) {
        Some(mark) => Ok(Found {
            kind: Some(Kind::Mark(mark)),
            length: n,
        }),
        None => name(text, n),
    }
}

/// The comment at the front of the text.
#[inline(never)]
fn comment(text: &[u8]) -> Result<Found, LexFault>
    requires begins { begins_comment text.now ≡ true }
    requires short { length text.now < 2 ^ 32 }
    ensures piece { IfOk result (λ f. Piece f.kind f.length text.now) }
    ensures within { IfOk result (λ f. (0 < f.length) × (f.length ≤ length text.now)) }
    ensures fault { IfErr result (λ f. NoPiece f text.now) }
    ensures inside { IfErr result (λ f. place_of f ≤ length text.now) }
{
    match after_comment(rest_of(text, 2)) {
        None => Err(LexFault::OpenComment { place: 0 }),
        Some(after) => closed_comment(text, text.len() - after.len()),
    }
}

/// The comment of so many bytes at the front of the text.
fn closed_comment(text: &[u8], n: usize) -> Result<Found, LexFault>
    requires begins { begins_comment text.now ≡ true }
    requires closed { Inside (drop 2 text.now) (drop n text.now) }
    requires within { (0 < n) × (n ≤ length text.now) }
    requires short { length text.now < 2 ^ 32 }
    ensures piece { IfOk result (λ f. Piece f.kind f.length text.now) }
    ensures within { IfOk result (λ f. (0 < f.length) × (f.length ≤ length text.now)) }
    ensures fault { IfErr result (λ f. NoPiece f text.now) }
    ensures inside { IfErr result (λ f. place_of f ≤ length text.now) }
{
    match str::from_utf8(&text[..n]) {
        Ok(_) => Ok(Found {
            kind: None,
            length: n,
        }),
        Err(fault) => Err(LexFault::BadChar {
            place: fault.valid_up_to() as u32,
        }),
    }
}

/// The symbol at the front of a text that begins with no blank, word or comment.
fn mark(text: &[u8]) -> Result<Found, LexFault>
    requires no_blank { begins_blank text.now ≡ false }
    requires no_comment { begins_comment text.now ≡ false }
    requires no_word { StartsWithNo is_first text.now }
    ensures piece { IfOk result (λ f. Piece f.kind f.length text.now) }
    ensures within { IfOk result (λ f. (0 < f.length) × (f.length ≤ length text.now)) }
    ensures fault { IfErr result (λ f. NoPiece f text.now) }
    ensures inside { IfErr result (λ f. place_of f ≤ length text.now) }
{
    match symbol(text) {
        Some(mark) => Ok(Found {
            kind: Some(Kind::Mark(mark)),
            length: spelling_length(mark),
        }),
        None => {
            if begins_stop(text) {
                Ok(Found {
                    kind: Some(Kind::Mark(Mark::Stop)),
                    length: 1,
                })
            } else {
                Err(LexFault::BadChar { place: 0 })
            }
        }
    }
}

/// The piece at the front of the text, or why none begins there.
pub fn front(text: &[u8]) -> Result<Found, LexFault>
    requires some { 0 < length text.now }
    requires short { length text.now < 2 ^ 32 }
    ensures piece { IfOk result (λ f. Piece f.kind f.length text.now) }
    ensures within { IfOk result (λ f. (0 < f.length) × (f.length ≤ length text.now)) }
    ensures fault { IfErr result (λ f. NoPiece f text.now) }
    ensures inside { IfErr result (λ f. place_of f ≤ length text.now) }
{
    if begins_blank(text) {
        return Ok(Found {
            kind: None,
            length: 1,
        });
    }
    match word_length(text) {
        Some(n) => word(text, n),
        None => {
            if begins_comment(text) {
                comment(text)
            } else {
                mark(text)
            }
        }
    }
}
