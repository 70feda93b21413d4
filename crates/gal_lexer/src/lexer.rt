//! The tokens of a whole source.
ghost use Rattle.std.specs.Prelude.{◌≡◌, ◌≢◌, ◌<◌, ◌+◌, ◌^◌, length, IfOk, IfErr, OnOk};
ghost use Rattle.gal_lexer.specs.Tokens.{TokensOf, IsFault, behind};
ghost use Rattle.gal_lexer.specs.calls.Names.{place_of, with_piece};
ghost use Rattle.gal_lexer.specs.declared.token.LexFault.TheVariants as F;

use crate::piece::{Found, front};
use crate::token::{LexFault, Token, Tokens};
use crate::word::rest_of;
use std::alloc::Global;

/// For so many bytes of a source there is room for one token at the start.
const BYTES_FOR_ONE: usize = 4;

/// The fault, so many bytes further on.
fn behind(fault: LexFault, at: u32) -> LexFault
    requires { at + place_of fault < 2 ^ 32 }
    ensures { result ≡ behind at fault }
{
    match fault {
        LexFault::BadChar { place } => LexFault::BadChar { place: at + place },
        LexFault::OpenComment { place } => LexFault::OpenComment { place: at + place },
        LexFault::LongName { place } => LexFault::LongName { place: at + place },
        LexFault::NoMemory => LexFault::NoMemory,
    }
}

/// Puts the piece at the place behind the tokens, if it is one.
fn put(tokens: &mut Vec<Token>, piece: Found, at: usize) -> Result<(), LexFault>
    requires { at + piece.length < 2 ^ 32 }
    ensures added { OnOk result (tokens.new.items ≡ with_piece piece.kind at piece.length tokens.old.items) }
    ensures fault { IfErr result (λ fault. fault ≡ F.NoMemory) }
{
    match piece.kind {
        None => Ok(()),
        Some(kind) => {
            tokens.push(Token {
                kind,
                place: at as u32,
                length: piece.length as u32,
            })?;
            Ok(())
        }
    }
}

/// The tokens of the source, or the first place where it has none.
pub fn lex(alloc: Global, source: &[u8]) -> Result<Tokens, LexFault>
    requires { length source.now < 2 ^ 32 }
    ensures tokens { IfOk result (TokensOf source.now) }
    ensures fault { IfErr result (λ fault. fault ≢ F.NoMemory → IsFault source.now fault) }
{
    let mut tokens = Vec::with_capacity(alloc, source.len() / BYTES_FOR_ONE)?;
    let mut at = 0;
    while at < source.len() {
        match front(rest_of(source, at)) {
            Err(fault) => return Err(behind(fault, at as u32)),
            Ok(piece) => {
                put(&mut tokens, piece, at)?;
                at += piece.length;
            }
        }
    }
    Ok(Tokens::new(tokens))
}
