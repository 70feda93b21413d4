//! The tokens of a source, read from the front of what is left of it.

ghost use Rattle.std.specs.Prelude.{◌≡◌, ◌≤◌, ◌<◌, ◌↔◌, ◌||◌, ◌==◌, ℕ, List, length, IsTrue, IfOk, take_while};
ghost use Rattle.std.specs.List.{prefix_len};
ghost use Rattle.gal_parser.specs.calls.Reading.{ReadsOrLacks, ReadsIf, ReadsOrLeaves};
ghost use Rattle.gal_parser.specs.declared.lexer.Fault.TheVariants.{NoMemory};
ghost use Rattle.gal_parser.specs.Tokens.{is_blank, after_blanks, begins_word, continues_word, first_passes, ends_or_blank, SpellsWord, SpellsIdentifier, SpellsColon, SpellsStop, SpellsSymbol};

use cic_names::{Name, NameFault};
use memory::OutOfMemory;
use std::alloc::Global;

/// Why something could not be read: what is left does not begin with it, or memory ran out.
#[derive(Debug, Drop)]
pub enum Fault {
    NoMatch,
    NoMemory,
}

impl<E: OutOfMemory> From<E> for Fault {
    ghost from_gives = { λ _ fault. fault ≡ NoMemory };

    fn from(_fault: E) -> Fault {
        Fault::NoMemory
    }
}

fn is_blank(byte: u8) -> bool
    ensures { result ≡ is_blank byte }
{
    matches!(byte, b' ' | b'\t' | b'\r' | b'\n')
}

fn begins_word(byte: u8) -> bool
    ensures { result ≡ begins_word byte }
{
    byte.is_ascii_alphabetic() || byte == b'_'
}

fn continues_word(byte: u8) -> bool
    ensures { result ≡ continues_word byte }
{
    byte.is_ascii_alphanumeric() || byte == b'_' || byte == b'\''
}

/// The text without the blanks with which it begins.
pub fn after_blanks(text: &[u8]) -> &[u8]
    ensures { result.now ≡ after_blanks text.now }
{
    let mut rest = text;
    while let Some((first, after)) = rest.split_first() {
        if !is_blank(*first) {
            break;
        }
        rest = after;
    }
    rest
}

// How many bytes from the front on may stand in a word.
fn word_length(text: &[u8]) -> usize
    ensures value { result ≡ prefix_len continues_word text.now }
    ensures within { result ≤ length text.now }
{
    text.iter()
        .take_while(|byte| continues_word(**byte))
        .count()
}

/// What is left of a source. Each method reads blanks and one token, and may leave it anywhere after a fault.
#[derive(Drop)]
pub struct Reader<'a> {
    pub rest: &'a [u8],
}

impl<'a> Reader<'a> {
    /// The longest word, if a word is next; else the reader stays.
    pub fn word(&mut self) -> Option<&'a [u8]>
        ensures { ReadsOrLeaves (λ s r w. SpellsWord (after_blanks s) r w) (λ w. w.now) result self.old.rest.now self.new.rest.now }
    {
        let text = after_blanks(self.rest);
        match text.first() {
            Some(first) if begins_word(*first) => {}
            _ => return None,
        }
        let (word, rest) = text.split_at(word_length(text));
        self.rest = rest;
        Some(word)
    }

    /// ReadsOrLacks the word if it is the next one; else the reader stays.
    pub fn takes_keyword(&mut self, expected: &[u8]) -> bool
        ensures { ReadsIf (λ s r. SpellsWord (after_blanks s) r expected.now) result self.old.rest.now self.new.rest.now }
    {
        let start = self.rest;
        let Some(word) = self.word() else {
            return false;
        };
        if word == expected {
            return true;
        }
        self.rest = start;
        false
    }

    /// The word that is expected.
    pub fn keyword(&mut self, expected: &[u8]) -> Result<(), Fault>
        ensures { ReadsOrLacks (λ s r _. SpellsWord (after_blanks s) r expected.now) (λ u. u) result self.old.rest.now self.new.rest.now }
    {
        if self.takes_keyword(expected) {
            Ok(())
        } else {
            Err(Fault::NoMatch)
        }
    }

    /// ReadsOrLacks the symbol if it is the next one; else the reader stays.
    pub fn takes_symbol(&mut self, expected: &[u8]) -> bool
        ensures { ReadsIf (λ s r. SpellsSymbol expected.now (after_blanks s) r) result self.old.rest.now self.new.rest.now }
    {
        match after_blanks(self.rest).strip_prefix(expected) {
            Some(rest) => {
                self.rest = rest;
                true
            }
            None => false,
        }
    }

    /// The symbol that is expected.
    pub fn symbol(&mut self, expected: &[u8]) -> Result<(), Fault>
        ensures { ReadsOrLacks (λ s r _. SpellsSymbol expected.now (after_blanks s) r) (λ u. u) result self.old.rest.now self.new.rest.now }
    {
        if self.takes_symbol(expected) {
            Ok(())
        } else {
            Err(Fault::NoMatch)
        }
    }

    /// An identifier of at most 255 bytes. Coq Reference Manual, "Lexical conventions".
    pub fn identifier(&mut self, alloc: Global) -> Result<Name, Fault>
        ensures { ReadsOrLacks (λ s r x. SpellsIdentifier (after_blanks s) r x) (λ x. x) result self.old.rest.now self.new.rest.now }
    {
        let Some(word) = self.word() else {
            return Err(Fault::NoMatch);
        };
        match Name::new(alloc, word) {
            Ok(name) => Ok(name),
            Err(NameFault::NotIdent) => Err(Fault::NoMatch),
            Err(NameFault::Long) => Err(Fault::NoMatch),
            Err(NameFault::NoMemory) => Err(Fault::NoMemory),
        }
    }

    /// The symbol `:`, where the longer `:=` does not stand.
    pub fn colon(&mut self) -> Result<(), Fault>
        ensures { ReadsOrLacks (λ s r _. SpellsColon (after_blanks s) r) (λ u. u) result self.old.rest.now self.new.rest.now }
    {
        match after_blanks(self.rest) {
            [b':', rest @ ..] if rest.first() != Some(&b'=') => {
                self.rest = rest;
                Ok(())
            }
            _ => Err(Fault::NoMatch),
        }
    }

    /// The dot that ends a sentence: a blank or the end of the source follows it.
    pub fn stop(&mut self) -> Result<(), Fault>
        ensures { ReadsOrLacks (λ s r _. SpellsStop (after_blanks s) r) (λ u. u) result self.old.rest.now self.new.rest.now }
    {
        match after_blanks(self.rest) {
            [b'.', rest @ ..] if rest.first().is_none_or(|byte| is_blank(*byte)) => {
                self.rest = rest;
                Ok(())
            }
            _ => Err(Fault::NoMatch),
        }
    }
}
