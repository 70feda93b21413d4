//! Symbols and reserved words.
ghost use Rattle.std.specs.Prelude.{◌≡◌, IfSome, length};
ghost use Rattle.gal_lexer.specs.Marks.{symbol_of, reserved_of, spelling};

use crate::token::Mark;

/// The longest symbol that the text begins with.
pub fn symbol(text: &[u8]) -> Option<Mark>
    ensures { result ≡ symbol_of text.now }
{
    match text {
        [b'(', ..] => Some(Mark::Open),
        [b')', ..] => Some(Mark::Close),
        [b':', b'=', ..] => Some(Mark::Assign),
        [b':', ..] => Some(Mark::Colon),
        [b'=', b'>', ..] => Some(Mark::Gives),
        [b'=', ..] => Some(Mark::Equal),
        [b',', ..] => Some(Mark::Comma),
        [b'|', ..] => Some(Mark::Bar),
        [b'-', b'>', ..] => Some(Mark::Arrow),
        [b'{', ..] => Some(Mark::BraceOpen),
        [b'}', ..] => Some(Mark::BraceClose),
        [b'@', b'{', ..] => Some(Mark::LevelOpen),
        [b'@', ..] => Some(Mark::At),
        [b'<', b'=', ..] => Some(Mark::AtMost),
        [b'<', ..] => Some(Mark::Less),
        _ => None,
    }
}

/// How many bytes the mark is written with.
pub fn spelling_length(mark: Mark) -> usize
    ensures { result ≡ length (spelling mark) }
{
    match mark {
        Mark::Open
        | Mark::Close
        | Mark::BraceOpen
        | Mark::BraceClose
        | Mark::Comma
        | Mark::Colon
        | Mark::Bar
        | Mark::At
        | Mark::Equal
        | Mark::Less
        | Mark::Blank
        | Mark::Stop => 1,
        Mark::Assign
        | Mark::Gives
        | Mark::Arrow
        | Mark::AtMost
        | Mark::LevelOpen
        | Mark::In
        | Mark::As => 2,
        Mark::Set | Mark::Fun | Mark::Let | Mark::Fix | Mark::For | Mark::End => 3,
        Mark::Prop | Mark::Typ | Mark::With => 4,
        Mark::Match => 5,
        Mark::Forall | Mark::Return => 6,
    }
}

fn of_two(word: &[u8]) -> Option<Mark>
    requires { length word.now ≡ 2 }
    ensures { result ≡ reserved_of word.now }
{
    match word {
        b"in" => Some(Mark::In),
        b"as" => Some(Mark::As),
        _ => None,
    }
}

fn of_three(word: &[u8]) -> Option<Mark>
    requires { length word.now ≡ 3 }
    ensures { result ≡ reserved_of word.now }
{
    match word {
        b"fun" => Some(Mark::Fun),
        b"let" => Some(Mark::Let),
        b"fix" => Some(Mark::Fix),
        b"for" => Some(Mark::For),
        b"end" => Some(Mark::End),
        b"Set" => Some(Mark::Set),
        _ => None,
    }
}

fn of_four(word: &[u8]) -> Option<Mark>
    requires { length word.now ≡ 4 }
    ensures { result ≡ reserved_of word.now }
{
    match word {
        b"Prop" => Some(Mark::Prop),
        b"Type" => Some(Mark::Typ),
        b"with" => Some(Mark::With),
        _ => None,
    }
}

/// The reserved word that the bytes are.
pub fn reserved(word: &[u8]) -> Option<Mark>
    ensures { result ≡ reserved_of word.now }
{
    match word.len() {
        1 if word == b"_".as_slice() => Some(Mark::Blank),
        2 => of_two(word),
        3 => of_three(word),
        4 => of_four(word),
        5 if word == b"match".as_slice() => Some(Mark::Match),
        6 if word == b"forall".as_slice() => Some(Mark::Forall),
        6 if word == b"return".as_slice() => Some(Mark::Return),
        _ => None,
    }
}
