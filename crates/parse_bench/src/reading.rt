//! Reads a source, and says how many tokens and commands it has.
use anyhow::bail;
use gal_file_parser::parse;
use gal_lexer::lex;
use std::alloc::Global;
use std::fmt;

/// How many bytes a source has at most.
const LONGEST_SOURCE: usize = 268_435_456;

#[derive(Clone, Copy)]
pub(crate) struct Counts {
    tokens: usize,
    commands: usize,
}

impl fmt::Display for Counts {
    fn fmt<W: fmt::Write>(&self, f: &mut fmt::Formatter<W>) -> fmt::Result {
        write!(f, "{} tokens, {} commands", self.tokens, self.commands)
    }
}

pub(crate) fn read(alloc: Global, source: &[u8]) -> anyhow::Result<Counts> {
    if source.len() > LONGEST_SOURCE {
        bail!("the source is too long");
    }
    let Ok(tokens) = lex(alloc, source) else {
        bail!("a source without tokens");
    };
    match parse(alloc, source, tokens.as_slice()) {
        Ok(commands) => Ok(Counts {
            tokens: tokens.len(),
            commands: commands.as_slice().len(),
        }),
        Err(_) => bail!("a source that is no file"),
    }
}
