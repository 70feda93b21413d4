//! Sentences and their terms, read from the tokens, and the whole source.

ghost use Rattle.std.specs.Prelude.{◌≡◌, ◌≤◌, ◌<◌, ℕ, List, length, IfOk, OnOk};
ghost use Rattle.gal_parser.specs.calls.Reading.{ReadsOrLacks, SpellsBinding, ReadsOrLeaves, ReadsAll};
ghost use Rattle.gal_parser.specs.Answers.{OnNotYet};
ghost use Rattle.gal_parser.specs.Grammar.{Sentence, SpellsTerm, SpellsAtom, SpellsSentence, Reads, NotYetAt};
ghost use Rattle.gal_parser.specs.Views.{raw_term, sentence_of, sentences_of};

use crate::command::{Command, Commands, Raw};
use crate::lexer::{Fault, Reader, after_blanks};
use memory::{NoMemory, OutOfMemory};
use std::alloc::Global;

/// Why a source gives no sentences.
#[derive(Debug, Drop)]
pub enum ParseFault {
    /// The source is not understood from this byte on, counted from 0; or it has more than 65,536 bytes,
    /// and this is 65,536.
    NotYet { place: u32 },
    NoMemory,
}

impl<E: OutOfMemory> From<E> for ParseFault {
    ghost use Rattle.gal_parser.specs.declared.parser.ParseFault.TheVariants as P;

    ghost from_gives = { λ _ fault. fault ≡ P.NoMemory };

    fn from(_fault: E) -> ParseFault {
        ParseFault::NoMemory
    }
}

/// The most bytes that a source may have.
const LONGEST_SOURCE: u32 = 65536;

/// How many terms may stand within one another in a sentence.
const DEEPEST_NESTING: u16 = 500;

// A term. The room says how many terms may stand within one another, this one among them.
#[cycle(terms)]
fn term(alloc: Global, room: u16, reader: &mut Reader) -> Result<Raw, Fault>
    ensures { ReadsOrLacks (SpellsTerm room) raw_term result reader.old.rest.now reader.new.rest.now }
{
    if room == 0 {
        return Err(Fault::NoMatch);
    }
    if reader.takes_keyword(b"forall") {
        return binding(alloc, room - 1, reader);
    }
    let from = atom(alloc, room - 1, reader)?;
    if reader.takes_symbol(b"->") {
        let to = term(alloc, room - 1, reader)?;
        return Ok(Raw::Arrow(Box::new(alloc, from)?, Box::new(alloc, to)?));
    }
    Ok(from)
}

// What follows the word `forall`: the binder with its type, and the body.
#[cycle(terms)]
fn binding(alloc: Global, room: u16, reader: &mut Reader) -> Result<Raw, Fault>
    ensures { ReadsOrLacks (SpellsBinding room) raw_term result reader.old.rest.now reader.new.rest.now }
{
    let binder = reader.identifier(alloc)?;
    reader.colon()?;
    let ty = term(alloc, room, reader)?;
    reader.symbol(b",")?;
    let body = term(alloc, room, reader)?;
    Ok(Raw::ForAll {
        binder,
        ty: Box::new(alloc, ty)?,
        body: Box::new(alloc, body)?,
    })
}

// A term that needs no parentheses around it: a word, or a term that has them.
#[cycle(terms)]
fn atom(alloc: Global, room: u16, reader: &mut Reader) -> Result<Raw, Fault>
    ensures { ReadsOrLacks (SpellsAtom room) raw_term result reader.old.rest.now reader.new.rest.now }
{
    if reader.takes_keyword(b"Prop") {
        return Ok(Raw::Prop);
    }
    if reader.takes_symbol(b"(") {
        let inner = term(alloc, room, reader)?;
        reader.symbol(b")")?;
        return Ok(inner);
    }
    let name = reader.identifier(alloc)?;
    Ok(Raw::Name(name))
}

fn sentence(alloc: Global, reader: &mut Reader) -> Result<Command, Fault>
    ensures { ReadsOrLacks SpellsSentence sentence_of result reader.old.rest.now reader.new.rest.now }
{
    reader.keyword(b"Axiom")?;
    let name = reader.identifier(alloc)?;
    reader.colon()?;
    let ty = term(alloc, DEEPEST_NESTING, reader)?;
    reader.stop()?;
    Ok(Command::Axiom { name, ty })
}

// The next sentence, or nothing where none begins.
fn next_sentence(alloc: Global, reader: &mut Reader) -> Result<Option<Command>, NoMemory>
    ensures { IfOk result (λ o. ReadsOrLeaves SpellsSentence sentence_of o reader.old.rest.now reader.new.rest.now) }
{
    let start = reader.rest;
    match sentence(alloc, reader) {
        Ok(command) => Ok(Some(command)),
        Err(Fault::NoMatch) => {
            reader.rest = start;
            Ok(None)
        }
        Err(Fault::NoMemory) => Err(NoMemory),
    }
}

// The sentences up to where none begins.
fn sentences(alloc: Global, reader: &mut Reader) -> Result<Vec<Command>, NoMemory>
    ensures { IfOk result (λ v. ReadsAll reader.old.rest.now reader.new.rest.now (sentences_of v.items)) }
{
    let mut items = Vec::new(alloc);
    while let Some(command) = next_sentence(alloc, reader)? {
        items.push(command)?;
    }
    Ok(items)
}

/// The sentences of the source. Coq Reference Manual, "Lexical conventions" and "Assumptions".
pub fn parse(alloc: Global, source: &[u8]) -> Result<Commands, ParseFault>
    ensures found { IfOk result (λ c. Reads source.now (sentences_of c)) }
    ensures only { IfOk result (λ c. (cs : List Sentence) → Reads source.now cs → sentences_of c ≡ cs) }
    ensures all_read { OnOk result ((place : ℕ) → NotYetAt source.now place → ⊥) }

    ensures fault { OnNotYet result (NotYetAt source.now) }
    ensures one_place { OnNotYet result (λ place. (q : ℕ) → NotYetAt source.now q → q ≡ place) }
    ensures unread { OnNotYet result (λ _. (cs : List Sentence) → Reads source.now cs → ⊥) }
{
    if source.len() > LONGEST_SOURCE as usize {
        return Err(ParseFault::NotYet {
            place: LONGEST_SOURCE,
        });
    }
    let mut reader = Reader { rest: source };
    let items = sentences(alloc, &mut reader)?;
    let unread = after_blanks(reader.rest);
    if unread.is_empty() {
        Ok(Commands::new(items))
    } else {
        Err(ParseFault::NotYet {
            place: (source.len() - unread.len()) as u32,
        })
    }
}
