//! Tokens, and why a source has none.
ghost use Rattle.std.specs.Prelude.{◌≡◌, IsTrue, ◌↔◌, length};
ghost use Rattle.gal_lexer.specs.declared.token.LexFault.TheVariants.{NoMemory};

use std::alloc::{AllocError, AllocFailed};
use std::marker::Model;

/// A reserved word or a symbol.
#[derive(Clone, Copy, Debug, PartialEq, Eq)]
pub enum Mark {
    /// `:=`
    Assign,
    /// `=>`
    Gives,
    /// `->`
    Arrow,
    /// `<=`
    AtMost,
    /// `@{`
    LevelOpen,
    /// `(`
    Open,
    /// `)`
    Close,
    /// `{`
    BraceOpen,
    /// `}`
    BraceClose,
    /// `,`
    Comma,
    /// `:`
    Colon,
    /// `|`
    Bar,
    /// `@`
    At,
    /// `=`
    Equal,
    /// `<`
    Less,
    /// `_`
    Blank,
    /// The dot that ends a sentence.
    Stop,
    Prop,
    Set,
    /// `Type`
    Typ,
    Forall,
    Fun,
    Let,
    In,
    Fix,
    With,
    For,
    Match,
    As,
    Return,
    End,
}

/// What a token is.
#[derive(Clone, Copy, Debug, PartialEq, Eq)]
pub enum Kind {
    Mark(Mark),
    /// An identifier.
    Ident,
    /// Two identifiers or more, joined by dots.
    Qualified,
}

/// A token: what it is, its first byte's place in the source, and how many bytes it has.
#[derive(Clone, Copy, Debug, PartialEq, Eq)]
pub struct Token {
    pub kind: Kind,
    pub place: u32,
    pub length: u32,
}

/// Why a source has no tokens.
#[derive(Clone, Copy, Debug, PartialEq, Eq)]
pub enum LexFault {
    /// No token, blank or comment begins at the place, or the byte there is not UTF-8.
    BadChar { place: u32 },
    /// The comment that begins at the place is not closed.
    OpenComment { place: u32 },
    /// The identifier at the place has more than 255 bytes.
    LongName { place: u32 },
    NoMemory,
}

impl From<AllocError> for LexFault {
    ghost from_gives = { λ _ e. e ≡ NoMemory };

    fn from(_: AllocError) -> LexFault {
        LexFault::NoMemory
    }
}

impl<T: Drop> From<AllocFailed<T>> for LexFault {
    ghost from_gives = { λ _ e. e ≡ NoMemory };

    fn from(_: AllocFailed<T>) -> LexFault {
        LexFault::NoMemory
    }
}

/// The tokens of a source, in order.
#[derive(Debug, Drop)]
pub struct Tokens {
    items: Vec<Token>,
}

impl Model for Tokens {
    ghost use Rattle.std.specs.Prelude.{List};
    ghost use Rattle.gal_lexer.specs.declared.token.Token.{Token};

    ghost Value = { List Token };

    ghost view = { λ t. t.items.items };
}

impl Tokens {
    pub(crate) fn new(items: Vec<Token>) -> Tokens
        ensures { result ≡ items.items }
    {
        Tokens { items }
    }

    pub fn len(&self) -> usize
        ensures { result ≡ length self.now }
    {
        self.items.len()
    }

    pub fn is_empty(&self) -> bool
        ensures { IsTrue result ↔ (length self.now ≡ 0) }
    {
        self.items.is_empty()
    }

    pub fn as_slice(&self) -> &[Token]
        ensures { result.now ≡ self.now }
    {
        self.items.as_slice()
    }
}
