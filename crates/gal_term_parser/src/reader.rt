//! The tokens that are left, and single tokens of them.
ghost use Rattle.std.specs.Prelude.{◌≡◌, ◌≤◌, ◌<◌, List, [], ◌∷◌, length, take, drop, true, false, MatchBool, OnOk};
ghost use Rattle.std.specs.Option.{MatchOption};
ghost use Rattle.gal_grammar.specs.Tokens as T;
ghost use Rattle.gal_grammar.specs.Tokens.{spelled, all_spelled};
ghost use Rattle.gal_grammar.specs.Tests.{mark};
ghost use Rattle.gal_grammar.specs.Rules.{m};
ghost use Rattle.gal_term_parser.specs.declared.fault.Fault.TheVariants as F;
ghost use Rattle.gal_term_parser.specs.Left.{left, lexeme};
ghost use Rattle.gal_term_parser.specs.calls.Steps.{Takes, begins};

use crate::fault::Fault;
use gal_lexer::{Kind, Mark, Token};
use gal_raw::Identifier;
use std::alloc::Global;

/// A token with its text.
#[derive(Clone, Copy)]
pub enum Lexeme<'a> {
    Mark(Mark),
    /// An identifier.
    Short(Identifier<'a>),
    /// A qualified name with a prefix.
    Long(Identifier<'a>),
}

/// A source and those of its tokens that are left to be read.
#[derive(Drop)]
pub struct Parser<'a> {
    /// Takes the memory for what is read.
    pub alloc: Global,
    /// The bytes that the tokens are slices of.
    pub source: &'a [u8],
    /// The tokens that are left.
    pub rest: &'a [Token],
}

// The token's slice of the source.
#[inline(always)]
fn text_of<'a>(source: &'a [u8], token: &Token) -> Identifier<'a>
    ensures place { result.place ≡ token.now.place }
    ensures text { result.text.now ≡ take token.now.length (drop token.now.place source.now) }
{
    let start = source.len().min(token.place as usize);
    let behind = source.split_at(start).1;
    let count = behind.len().min(token.length as usize);
    Identifier {
        place: token.place,
        text: behind.split_at(count).0,
    }
}

#[inline(always)]
fn lexeme_of<'a>(source: &'a [u8], token: &Token) -> Lexeme<'a>
    ensures { lexeme result ≡ spelled source.now token.now }
{
    match token.kind {
        Kind::Mark(mark) => Lexeme::Mark(mark),
        Kind::Ident => Lexeme::Short(text_of(source, token)),
        Kind::Qualified => Lexeme::Long(text_of(source, token)),
    }
}

// The first token with its text, and those behind it.
#[inline(always)]
pub(crate) fn split_first<'a>(
    source: &'a [u8],
    tokens: &'a [Token],
) -> Option<(Lexeme<'a>, &'a [Token])>
    ensures { MatchOption result (all_spelled source.now tokens.now ≡ []) (λ p. all_spelled source.now tokens.now ≡ lexeme p.0 ∷ all_spelled source.now p.1.now) }
{
    match tokens.split_first() {
        None => None,
        Some((token, rest)) => Some((lexeme_of(source, token), rest)),
    }
}

impl<'a> Parser<'a> {
    /// All tokens of the source are left.
    pub fn new(alloc: Global, source: &'a [u8], tokens: &'a [Token]) -> Parser<'a>
        ensures { left result ≡ all_spelled source.now tokens.now }
    {
        Parser {
            alloc,
            source,
            rest: tokens,
        }
    }

    /// How many tokens are left.
    #[tactic(auto, using(crate::proofs::Marks::length_spelled))]
    pub fn len(&self) -> usize
        ensures { result ≡ length (left self.now) }
    {
        self.rest.len()
    }

    /// The fault that nothing goes on with the next token.
    pub fn stuck(&self) -> Fault
        ensures { result ≡ F.Syntax (length (left self.now)) }
    {
        Fault::Syntax { left: self.len() }
    }

    /// The next token, and those behind it. Nothing is read: the caller sets `rest` to those behind.
    #[inline(always)]
    pub fn split(&self) -> Option<(Lexeme<'a>, &'a [Token])>
        ensures { MatchOption result (left self.now ≡ []) (λ p. left self.now ≡ lexeme p.0 ∷ all_spelled self.now.source.now p.1.now) }
    {
        split_first(self.source, self.rest)
    }

    /// Reads the mark if it is the next token.
    #[tactic(auto, using(crate::proofs::Marks::same_mark, crate::proofs::Marks::other_mark))]
    #[inline]
    pub fn take(&mut self, expected: Mark) -> bool
        ensures { MatchBool result (left self.old ≡ T.mark expected ∷ left self.new) ((begins (mark expected) (left self.old) ≡ false) × (left self.new ≡ left self.old)) }
    {
        match self.split() {
            Some((Lexeme::Mark(found), rest)) => {
                if found == expected {
                    self.rest = rest;
                    true
                } else {
                    false
                }
            }
            _ => false,
        }
    }

    /// Reads the mark.
    #[tactic(auto, using(crate::proofs::Marks::mark_taken, crate::proofs::Marks::refused))]
    #[inline]
    pub fn mark(&mut self, expected: Mark) -> Result<(), Fault>
        ensures reads { Takes (λ vs. vs) (λ _ vs. vs) result (m expected ∷ []) (left self.old) (left self.new) }
        ensures on { length (left self.new) ≤ length (left self.old) }
        ensures more { OnOk result (length (left self.new) < length (left self.old)) }
    {
        if self.take(expected) {
            Ok(())
        } else {
            Err(self.stuck())
        }
    }
}
