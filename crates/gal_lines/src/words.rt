//! The first words of sentences that go on with a command.
ghost use Rattle.std.specs.Prelude.{◌≡◌, take, drop};
ghost use Rattle.gal_grammar.specs.Tokens.{spelled};
ghost use Rattle.gal_lines.specs.Sentences.{is_proof_word, goes_on};

use gal_lexer::{Kind, Token};

/// The token's slice of the source.
fn text_of<'a>(source: &'a [u8], token: &Token) -> &'a [u8]
    ensures { result.now ≡ take token.now.length (drop token.now.place source.now) }
{
    let start = source.len().min(token.place as usize);
    let behind = source.split_at(start).1;
    let count = behind.len().min(token.length as usize);
    behind.split_at(count).0
}

fn is_proof_word(text: &[u8]) -> bool
    ensures { result ≡ is_proof_word text.now }
{
    b"Proof".as_slice() == text
        || b"exact".as_slice() == text
        || b"Qed".as_slice() == text
        || b"Defined".as_slice() == text
        || b"Admitted".as_slice() == text
}

/// Whether a sentence that begins with the token goes on with the command before it.
pub(crate) fn goes_on(source: &[u8], token: &Token) -> bool
    ensures { result ≡ goes_on (spelled source.now token.now) }
{
    match token.kind {
        Kind::Ident => is_proof_word(text_of(source, token)),
        _ => false,
    }
}
