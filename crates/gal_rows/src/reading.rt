//! Reads a source, and says as a text how many commands it has or which fault.
use anyhow::bail;
use gal_file_parser::parse;
use gal_lexer::{LexFault, Token, lex};
use gal_term_parser::Fault;
use std::alloc::Global;
use std::fmt;

/// How many bytes a source has at most.
const LONGEST_SOURCE: usize = 65_536;

/// What there is of a source. Places are in bytes from its start.
#[derive(Clone, Copy)]
pub(crate) enum Reading {
    Commands(usize),
    BadChar { place: u32 },
    OpenComment { place: u32 },
    LongName { place: u32 },
    Syntax { place: usize },
    Nesting { place: usize },
}

impl fmt::Display for Reading {
    fn fmt<W: fmt::Write>(&self, f: &mut fmt::Formatter<W>) -> fmt::Result {
        match self {
            Reading::Commands(count) => write!(f, "read {count}"),
            Reading::BadChar { place } => write!(f, "bad character at byte {place}"),
            Reading::OpenComment { place } => write!(f, "open comment at byte {place}"),
            Reading::LongName { place } => write!(f, "long name at byte {place}"),
            Reading::Syntax { place } => write!(f, "syntax at byte {place}"),
            Reading::Nesting { place } => write!(f, "nesting at byte {place}"),
        }
    }
}

/// Where the token stands behind which so many are left, itself among them; the end where none is left.
fn place_of(source: &[u8], tokens: &[Token], left: usize) -> usize {
    match tokens.get(tokens.len().saturating_sub(left)) {
        Some(token) => token.place as usize,
        None => source.len(),
    }
}

fn reading_of(alloc: Global, source: &[u8], tokens: &[Token]) -> anyhow::Result<Reading> {
    match parse(alloc, source, tokens) {
        Ok(found) => Ok(Reading::Commands(found.as_slice().len())),
        Err(Fault::Syntax { left }) => Ok(Reading::Syntax {
            place: place_of(source, tokens, left),
        }),
        Err(Fault::Nesting { left }) => Ok(Reading::Nesting {
            place: place_of(source, tokens, left),
        }),
        Err(Fault::NoMemory) => bail!("no memory"),
    }
}

pub(crate) fn read(alloc: Global, source: &[u8]) -> anyhow::Result<Reading> {
    if source.len() > LONGEST_SOURCE {
        bail!("a source is too long");
    }
    match lex(alloc, source) {
        Ok(tokens) => reading_of(alloc, source, tokens.as_slice()),
        Err(LexFault::BadChar { place }) => Ok(Reading::BadChar { place }),
        Err(LexFault::OpenComment { place }) => Ok(Reading::OpenComment { place }),
        Err(LexFault::LongName { place }) => Ok(Reading::LongName { place }),
        Err(LexFault::NoMemory) => bail!("no memory"),
    }
}

/// Where each token of the source ends.
pub(crate) fn ends_of_tokens(alloc: Global, source: &[u8]) -> anyhow::Result<Vec<usize>> {
    if source.len() > LONGEST_SOURCE {
        bail!("a source is too long");
    }
    let Ok(tokens) = lex(alloc, source) else {
        bail!("a source without tokens");
    };
    let mut ends = Vec::new(alloc);
    for token in tokens.as_slice() {
        ends.push(token.place as usize + token.length as usize)?;
    }
    Ok(ends)
}
