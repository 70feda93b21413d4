//! The sentences of a file, made in one pass over its tokens and bytes.
ghost use Rattle.std.specs.Prelude.{◌≡◌, ◌≤◌, ◌<◌, ◌+◌, ◌-◌, ◌^◌, length, unwrap_or, Some, IfOk, OnOk};
ghost use Rattle.gal_lexer.specs.Tokens.{TokensOf};
ghost use Rattle.gal_lines.specs.Sentences.{is_stop, command_lines};
ghost use Rattle.gal_lines.specs.calls.Cursors.{IsAt};
ghost use Rattle.gal_lines.specs.calls.Building.{state_of, start, opening, lines_up_to, put_in, closed, token_behind, IsOpenBefore};

use crate::cursor::Cursor;
use crate::places::{Lines, Sentences};
use crate::words::goes_on;
use gal_lexer::{Kind, Mark, Token};
use memory::NoMemory;
use std::alloc::Global;

/// A sentence whose stop is not read yet.
#[derive(Clone, Copy, Drop)]
pub(crate) struct Opened {
    place: u32,
    line: u32,
    from: u32,
    /// Whether it goes on with the command before it.
    further: bool,
}

/// What is read so far: the sentence that is open, those of the command that is open, and those of the commands before.
#[derive(Drop)]
pub(crate) struct Building {
    alloc: Global,
    opened: Option<Opened>,
    current: Vec<Lines>,
    done: Vec<Vec<Lines>>,
}

fn is_stop(token: &Token) -> bool
    ensures { result ≡ is_stop token.now }
{
    match token.kind {
        Kind::Mark(Mark::Stop) => true,
        _ => false,
    }
}

/// The sentence that begins with the token, at which the cursor is.
fn opening(source: &[u8], cursor: Cursor, token: &Token) -> Opened
    requires at { IsAt source.now cursor }
    requires there { cursor.at ≡ token.now.place }
    requires within { token.now.place < length source.now }
    requires short { length source.now < 2 ^ 32 }
    ensures value { result ≡ opening source.now token.now }
    ensures from { result.from ≤ result.place }
{
    Opened {
        place: token.place,
        line: (cursor.feeds + 1) as u32,
        from: cursor.column as u32,
        further: goes_on(source, token),
    }
}

/// The sentence in which the token stands: the one that is open, or else the one that it begins, to which the cursor goes.
fn opened_by(
    source: &[u8],
    cursor: Cursor,
    begun: Option<Opened>,
    token: &Token,
) -> (Cursor, Opened)
    requires at { IsAt source.now cursor }
    requires begun { IsOpenBefore begun cursor.at }
    requires ahead { cursor.at ≤ token.now.place }
    requires within { token.now.place < length source.now }
    requires short { length source.now < 2 ^ 32 }
    ensures at { IsAt source.now result.0 }
    ensures ahead { result.0.at ≤ token.now.place }
    ensures opened { result.1 ≡ unwrap_or begun (opening source.now token.now) }
    ensures before { IsOpenBefore (Some result.1) result.0.at }
{
    match begun {
        Some(opened) => (cursor, opened),
        None => {
            let there = cursor.forward(source, token.place as usize);
            (there, opening(source, there, token))
        }
    }
}

/// The sentence whose stop stands at the place.
fn lines_up_to(opened: Opened, stop: u32) -> Lines
    requires behind { opened.place ≤ stop }
    requires from { opened.from ≤ opened.place }
    requires short { stop + 1 < 2 ^ 32 }
    ensures { result ≡ lines_up_to opened stop }
{
    Lines {
        place: opened.place,
        line: opened.line,
        from: opened.from,
        to: opened.from + (stop + 1 - opened.place),
    }
}

impl Building {
    fn new(alloc: Global) -> Building
        ensures { state_of result ≡ start }
    {
        Building {
            alloc,
            opened: None,
            current: Vec::new(alloc),
            done: Vec::new(alloc),
        }
    }

    /// Ends the command that is open.
    fn close(&mut self) -> Result<(), NoMemory>
        ensures { OnOk result (state_of self.new ≡ closed (state_of self.old)) }
    {
        if !self.current.is_empty() {
            let command = std::mem::replace(&mut self.current, Vec::new(self.alloc));
            self.done.push(command)?;
        }
        Ok(())
    }

    /// One more sentence.
    fn put(&mut self, lines: Lines, further: bool) -> Result<(), NoMemory>
        ensures { OnOk result (state_of self.new ≡ put_in lines further (state_of self.old)) }
    {
        if !further {
            self.close()?;
        }
        self.current.push(lines)?;
        Ok(())
    }
}

impl Building {
    /// One more token, which stands in the sentence.
    fn put_token(&mut self, opened: Opened, token: &Token) -> Result<(), NoMemory>
        requires behind { opened.place ≤ token.now.place }
        requires from { opened.from ≤ opened.place }
        requires short { token.now.place + 1 < 2 ^ 32 }
        ensures { OnOk result (state_of self.new ≡ token_behind opened token.now (state_of self.old)) }
    {
        if is_stop(token) {
            self.opened = None;
            self.put(lines_up_to(opened, token.place), opened.further)
        } else {
            self.opened = Some(opened);
            Ok(())
        }
    }
}

/// Where the sentences of a file stand, command by command.
pub fn sentences_of(alloc: Global, source: &[u8], tokens: &[Token]) -> Result<Sentences, NoMemory>
    requires short { length source.now < 2 ^ 32 }
    requires tokens { TokensOf source.now tokens.now }
    ensures { IfOk result (λ sentences. sentences ≡ command_lines source.now tokens.now) }
{
    let mut building = Building::new(alloc);
    let mut cursor = Cursor::start(source);
    for token in tokens {
        let (at, opened) = opened_by(source, cursor, building.opened, token);
        cursor = at;
        building.put_token(opened, token)?;
    }
    building.close()?;
    let Building {
        alloc: _,
        opened: _,
        current: _,
        done,
    } = building;
    Ok(Sentences::new(done))
}
