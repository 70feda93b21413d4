//! Where a word ends.
ghost use Rattle.std.specs.Prelude.{◌≡◌, ◌≤◌, ◌<◌, ◌-◌, ◌==◌, length, drop, IfSome, IfNone};
ghost use Rattle.std.specs.List.{prefix_len};
ghost use Rattle.cic_names.specs.Identifier.{is_first, is_further};
ghost use Rattle.gal_lexer.specs.Words.{StartsWithNo, Word};
ghost use Rattle.gal_lexer.specs.calls.Runs.{begins_word, continues_word, StartsWith, Run};

/// The text without its first bytes.
pub fn rest_of(text: &[u8], at: usize) -> &[u8]
    requires { at ≤ length text.now }
    ensures value { result.now ≡ drop at text.now }
    ensures length { length result.now ≡ length text.now - at }
{
    text.split_at(at).1
}

fn begins_word(byte: u8) -> bool
    ensures { result ≡ begins_word byte }
{
    byte.is_ascii_alphabetic() || byte == b'_'
}

fn continues_word(byte: u8) -> bool
    ensures { result ≡ continues_word byte }
{
    byte.is_ascii_alphanumeric() || byte == b'_' || byte == b'\''
}

/// How many bytes from the front on are of ASCII and may stand in a word.
fn ascii_length(text: &[u8]) -> usize
    ensures value { result ≡ prefix_len continues_word text.now }
    ensures within { result ≤ length text.now }
{
    text.iter()
        .take_while(|byte| continues_word(**byte))
        .count()
}

/// How many bytes the first character has, if it is past ASCII and may begin a word; else 0.
#[inline(never)]
fn first_letter(text: &[u8]) -> Option<usize>
    ensures some { IfSome result (λ n. StartsWith is_first n text.now) }
    ensures within { IfSome result (λ n. (0 < n) × (n ≤ length text.now)) }
    ensures none { IfNone result (StartsWithNo is_first text.now) }
{
    match bstr::decode_utf8(text) {
        (Some(c), n) => { if is_first(c) { Some(n) } else { None } }
        (None, _) => None,
    }
}

#[inline(never)]
fn further_letter(text: &[u8]) -> Option<usize>
    ensures some { IfSome result (λ n. StartsWith is_further n text.now) }
    ensures within { IfSome result (λ n. (0 < n) × (n ≤ length text.now)) }
    ensures none { IfNone result (StartsWithNo is_further text.now) }
{
    match bstr::decode_utf8(text) {
        (Some(c), n) => { if is_further(c) { Some(n) } else { None } }
        (None, _) => None,
    }
}

fn is_first(c: char) -> bool
    ensures { result ≡ is_first c }
{
    let letter = if c.is_ascii() {
        c.is_ascii_alphabetic()
    } else {
        unicode_ident::is_xid_start(c)
    };
    letter || c == '_'
}

fn is_further(c: char) -> bool
    ensures { result ≡ is_further c }
{
    if c.is_ascii() {
        c.is_ascii_alphanumeric() || c == '_' || c == '\''
    } else {
        unicode_ident::is_xid_continue(c)
    }
}

/// How many bytes the first character has, if it may begin a word.
fn first_length(text: &[u8]) -> Option<usize>
    ensures some { IfSome result (λ n. StartsWith is_first n text.now) }
    ensures within { IfSome result (λ n. (0 < n) × (n ≤ length text.now)) }
    ensures none { IfNone result (StartsWithNo is_first text.now) }
{
    match text.split_first() {
        None => None,
        Some((byte, _)) => {
            if *byte >= 128 {
                first_letter(text)
            } else if begins_word(*byte) {
                Some(1)
            } else {
                None
            }
        }
    }
}

/// How many bytes from the front on may stand in a word.
fn further_length(text: &[u8]) -> usize
    ensures run { Run result text.now }
    ensures longest { StartsWithNo is_further (drop result text.now) }
{
    let mut at = ascii_length(text);
    while at < text.len() && text[at] >= 128 {
        match further_letter(rest_of(text, at)) {
            None => return at,
            Some(n) => at += n,
        }
        at += ascii_length(rest_of(text, at));
    }
    at
}

/// How many bytes the word at the front of the text has, if one begins there.
pub fn word_length(text: &[u8]) -> Option<usize>
    ensures word { IfSome result (λ n. Word n text.now) }
    ensures within { IfSome result (λ n. (0 < n) × (n ≤ length text.now)) }
    ensures none { IfNone result (StartsWithNo is_first text.now) }
{
    let first = first_length(text)?;
    Some(first + further_length(rest_of(text, first)))
}
