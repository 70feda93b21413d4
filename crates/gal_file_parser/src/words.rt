//! Words that the grammar knows by their place.
ghost use Rattle.std.specs.Prelude.{◌≡◌, ◌≤◌, ◌<◌, [], ◌∷◌, length, OnOk, codes};
ghost use Rattle.std.specs.Str.{bytes_eq};
ghost use Rattle.gal_grammar.specs.Tests.{word};
ghost use Rattle.gal_grammar.specs.Kinds.{tok};
ghost use Rattle.gal_term_parser.specs.Left.{left};
ghost use Rattle.gal_file_parser.specs.calls.Words.{word_text};
ghost use Rattle.gal_term_parser.specs.calls.Steps.{Takes};
ghost use Rattle.gal_file_parser.specs.calls.Steps.{TakesWord};

use gal_term_parser::{Fault, Lexeme, Parser};

/// A word that is none of the reserved ones.
#[derive(Clone, Copy)]
pub(crate) enum Word {
    From,
    Require,
    Import,
    Export,
    Proof,
    Using,
    All,
    Exact,
    Qed,
    Defined,
    Admitted,
}

fn is_from(text: &[u8]) -> bool
    ensures { result ≡ bytes_eq (codes "From") text.now }
{
    b"From".as_slice() == text
}

fn is_require(text: &[u8]) -> bool
    ensures { result ≡ bytes_eq (codes "Require") text.now }
{
    b"Require".as_slice() == text
}

fn is_import(text: &[u8]) -> bool
    ensures { result ≡ bytes_eq (codes "Import") text.now }
{
    b"Import".as_slice() == text
}

fn is_export(text: &[u8]) -> bool
    ensures { result ≡ bytes_eq (codes "Export") text.now }
{
    b"Export".as_slice() == text
}

fn is_proof(text: &[u8]) -> bool
    ensures { result ≡ bytes_eq (codes "Proof") text.now }
{
    b"Proof".as_slice() == text
}

fn is_using(text: &[u8]) -> bool
    ensures { result ≡ bytes_eq (codes "using") text.now }
{
    b"using".as_slice() == text
}

fn is_all(text: &[u8]) -> bool
    ensures { result ≡ bytes_eq (codes "All") text.now }
{
    b"All".as_slice() == text
}

fn is_exact(text: &[u8]) -> bool
    ensures { result ≡ bytes_eq (codes "exact") text.now }
{
    b"exact".as_slice() == text
}

fn is_qed(text: &[u8]) -> bool
    ensures { result ≡ bytes_eq (codes "Qed") text.now }
{
    b"Qed".as_slice() == text
}

fn is_defined(text: &[u8]) -> bool
    ensures { result ≡ bytes_eq (codes "Defined") text.now }
{
    b"Defined".as_slice() == text
}

fn is_admitted(text: &[u8]) -> bool
    ensures { result ≡ bytes_eq (codes "Admitted") text.now }
{
    b"Admitted".as_slice() == text
}

// Whether the text is the word.
fn is_word(word: Word, text: &[u8]) -> bool
    ensures { result ≡ bytes_eq (codes (word_text word)) text.now }
{
    match word {
        Word::From => is_from(text),
        Word::Require => is_require(text),
        Word::Import => is_import(text),
        Word::Export => is_export(text),
        Word::Proof => is_proof(text),
        Word::Using => is_using(text),
        Word::All => is_all(text),
        Word::Exact => is_exact(text),
        Word::Qed => is_qed(text),
        Word::Defined => is_defined(text),
        Word::Admitted => is_admitted(text),
    }
}

// Reads the word if it is the next token.
pub(crate) fn take_word(parser: &mut Parser<'_>, expected: Word) -> bool
    ensures { TakesWord (word_text expected) result (left parser.old) (left parser.new) }
{
    match parser.split() {
        Some((Lexeme::Short(found), rest)) => {
            if is_word(expected, found.text) {
                parser.rest = rest;
                true
            } else {
                false
            }
        }
        _ => false,
    }
}

// Reads the word.
#[tactic(auto, using(gal_term_parser::proofs::Marks::refused))]
pub(crate) fn read_word(parser: &mut Parser<'_>, expected: Word) -> Result<(), Fault>
    ensures reads { Takes (λ vs. vs) (λ _ vs. vs) result (tok (word (word_text expected)) ∷ []) (left parser.old) (left parser.new) }
    ensures on { length (left parser.new) ≤ length (left parser.old) }
    ensures more { OnOk result (length (left parser.new) < length (left parser.old)) }
{
    if take_word(parser, expected) {
        Ok(())
    } else {
        Err(parser.stuck())
    }
}
