//! Sources to files.
ghost use Rattle.std.specs.Prelude.{◌≡◌, ◌<◌, ◌^◌, ◌-◌, length, IfOk, IfErr};
ghost use Rattle.gal_lexer.specs.Tokens.{TokensOf};
ghost use Rattle.gal_file.specs.Reading.{IsFile, IsLexical, IsGrammatical, place_at};
ghost use Rattle.gal_file.specs.calls.Faults.{fault_of, placed};
ghost use Rattle.gal_grammar.specs.Tokens.{all_spelled};
ghost use Rattle.gal_grammar.specs.Grammar as G;
ghost use Rattle.gal_raw.specs.Commands as C;

use crate::fault::ParseFault;
use gal_file_parser::parse;
use gal_lexer::{LexFault, Token, Tokens, lex};
use gal_lines::{Sentences, sentences_of};
use gal_raw::Commands;
use gal_term_parser::Fault;
use std::alloc::Global;

/// The commands of a source, and where the sentences of each stand.
#[derive(Drop)]
pub struct File<'a> {
    pub commands: Commands<'a>,
    pub sentences: Sentences,
}

fn fault_of(fault: LexFault) -> ParseFault
    ensures { result ≡ fault_of fault }
{
    match fault {
        LexFault::BadChar { place } => ParseFault::BadChar { place },
        LexFault::OpenComment { place } => ParseFault::OpenComment { place },
        LexFault::LongName { place } => ParseFault::LongName { place },
        LexFault::NoMemory => ParseFault::NoMemory,
    }
}

/// The tokens of a source, or the first place where it has none.
#[tactic(auto, using(crate::proofs::Faulty::lexical))]
pub fn tokens_of(alloc: Global, source: &[u8]) -> Result<Tokens, ParseFault>
    requires { length source.now < 2 ^ 32 }
    ensures tokens { IfOk result (TokensOf source.now) }
    ensures fault { IfErr result (IsLexical source.now) }
{
    match lex(alloc, source) {
        Ok(tokens) => Ok(tokens),
        Err(fault) => Err(fault_of(fault)),
    }
}

/// Where the token stands from which on so many are left, or the source's length where none is left.
#[tactic(auto, using(crate::proofs::Faulty::place_in, crate::proofs::Faulty::place_behind))]
fn place_of(source: &[u8], tokens: &[Token], left: usize) -> u32
    requires { length source.now < 2 ^ 32 }
    ensures { result ≡ place_at source.now tokens.now (length tokens.now - left) }
{
    match tokens.get(tokens.len().saturating_sub(left)) {
        Some(token) => token.place,
        None => source.len() as u32,
    }
}

fn placed(source: &[u8], tokens: &[Token], fault: Fault) -> ParseFault
    requires { length source.now < 2 ^ 32 }
    ensures { result ≡ placed source.now tokens.now fault }
{
    match fault {
        Fault::Syntax { left } => ParseFault::Syntax {
            place: place_of(source, tokens, left),
        },
        Fault::Nesting { left } => ParseFault::Nesting {
            place: place_of(source, tokens, left),
        },
        Fault::NoMemory => ParseFault::NoMemory,
    }
}

#[tactic(auto, using(crate::proofs::Faulty::grammatical))]
fn commands_of<'a>(
    alloc: Global,
    source: &'a [u8],
    tokens: &'a [Token],
) -> Result<Commands<'a>, ParseFault>
    requires { length source.now < 2 ^ 32 }
    ensures file { IfOk result (λ cs. G.File (all_spelled source.now tokens.now) (C.commands cs)) }
    ensures fault { IfErr result (IsGrammatical source.now tokens.now) }
{
    match parse(alloc, source, tokens) {
        Ok(commands) => Ok(commands),
        Err(fault) => Err(placed(source, tokens, fault)),
    }
}

/// The commands that the source is, with the lines of their sentences, or the fault and its place.
#[tactic(auto, using(gal_lines::proofs::Commanded::command_each))]
pub fn read<'a>(alloc: Global, source: &'a [u8], tokens: &'a Tokens) -> Result<File<'a>, ParseFault>
    requires short { length source.now < 2 ^ 32 }
    requires tokens { TokensOf source.now tokens.now }
    ensures file { IfOk result (IsFile source.now tokens.now) }
    ensures each { IfOk result (λ file. length file.sentences ≡ length (C.commands file.commands)) }
    ensures fault { IfErr result (IsGrammatical source.now tokens.now) }
{
    let commands = commands_of(alloc, source, tokens.as_slice())?;
    let sentences = sentences_of(alloc, source, tokens.as_slice())?;
    Ok(File {
        commands,
        sentences,
    })
}
