ghost use Rattle.std.specs.Prelude.{◌<◌, ◌^◌, length};

use crate::{Kind, LexFault, Mark, lex};
use std::alloc::Global;
use std::process::Abort;

/// What a source gives: how many tokens it has, with the place and the length of the last one, or the fault.
#[derive(Clone, Copy, Debug, PartialEq)]
enum Outcome {
    Tokens(usize, u32, u32),
    Fault(LexFault),
}

fn outcome_of(alloc: Global, source: &[u8]) -> Outcome
    requires { length source.now < 2 ^ 32 }
{
    match lex(alloc, source) {
        Ok(tokens) => match tokens.as_slice().last() {
            None => Outcome::Tokens(0, 0, 0),
            Some(last) => Outcome::Tokens(tokens.len(), last.place, last.length),
        },
        Err(fault) => Outcome::Fault(fault),
    }
}

fn gives(rt: &impl Abort, alloc: Global, source: &[u8], expected: Outcome)
    requires { length source.now < 2 ^ 32 }
{
    assert_eq!(rt; outcome_of(alloc, source), expected);
}

fn bad(rt: &impl Abort, alloc: Global, source: &[u8], place: u32)
    requires { length source.now < 2 ^ 32 }
{
    gives(
        rt,
        alloc,
        source,
        Outcome::Fault(LexFault::BadChar { place }),
    );
}

fn open(rt: &impl Abort, alloc: Global, source: &[u8], place: u32)
    requires { length source.now < 2 ^ 32 }
{
    gives(
        rt,
        alloc,
        source,
        Outcome::Fault(LexFault::OpenComment { place }),
    );
}

fn are_kinds(rt: &impl Abort, alloc: Global, source: &[u8], kinds: &[Kind])
    requires { length source.now < 2 ^ 32 }
{
    match lex(alloc, source) {
        Err(_) => assert!(rt; false),
        Ok(tokens) => {
            assert_eq!(rt; tokens.len(), kinds.len());
            for (token, kind) in tokens.as_slice().iter().zip(kinds) {
                assert_eq!(rt; token.kind, *kind);
            }
        }
    }
}

#[test]
fn blanks_and_comments(rt: HostRuntime) {
    let alloc = rt.alloc();
    gives(&rt, alloc, b"", Outcome::Tokens(0, 0, 0));
    gives(&rt, alloc, b" \t\r\n", Outcome::Tokens(0, 0, 0));
    gives(&rt, alloc, b"(**)a", Outcome::Tokens(1, 4, 1));
    gives(&rt, alloc, b"(* (* *) ( * *) a", Outcome::Tokens(1, 16, 1));
    gives(&rt, alloc, b"a.(* b *)", Outcome::Tokens(2, 1, 1));
    open(&rt, alloc, b"(*)", 0);
    open(&rt, alloc, b"a (* b (* c *)", 2);
    open(&rt, alloc, b"a.(* x", 2);
    open(&rt, alloc, b"(* \xff", 0);
    bad(&rt, alloc, b"(* \xff *)", 3);
    bad(&rt, alloc, b"a \x0b", 2);
}

#[test]
fn names(rt: HostRuntime) {
    let alloc = rt.alloc();
    gives(&rt, alloc, b"A.b.c'1", Outcome::Tokens(1, 0, 7));
    gives(&rt, alloc, b"A.b. c", Outcome::Tokens(3, 5, 1));
    gives(
        &rt,
        alloc,
        "\u{e9}t\u{e9}.".as_bytes(),
        Outcome::Tokens(2, 5, 1),
    );
    gives(&rt, alloc, "a\u{3bb}1".as_bytes(), Outcome::Tokens(1, 0, 4));
    bad(&rt, alloc, "\u{feff}a".as_bytes(), 0);
    bad(&rt, alloc, "a\u{2192}b".as_bytes(), 1);
    bad(&rt, alloc, b"a\xc3", 1);
    bad(&rt, alloc, b"a.forall", 1);
    bad(&rt, alloc, b"a._", 1);
    bad(&rt, alloc, b"Prop.x", 4);
    bad(&rt, alloc, b"a.1", 1);
    bad(&rt, alloc, b"1", 0);
    bad(&rt, alloc, b"a.\xff", 1);
    bad(&rt, alloc, b"a \" \xff", 2);
}

#[test]
fn long_names(rt: HostRuntime) {
    let alloc = rt.alloc();
    let mut source = [b'a'; 260];
    gives(&rt, alloc, &source[..255], Outcome::Tokens(1, 0, 255));
    gives(
        &rt,
        alloc,
        &source[..256],
        Outcome::Fault(LexFault::LongName { place: 0 }),
    );
    source[0] = b' ';
    source[2] = b'.';
    gives(
        &rt,
        alloc,
        &source,
        Outcome::Fault(LexFault::LongName { place: 3 }),
    );
    gives(&rt, alloc, &source[..258], Outcome::Tokens(1, 1, 257));
}

#[test]
fn marks(rt: HostRuntime) {
    let alloc = rt.alloc();
    are_kinds(
        &rt,
        alloc,
        b":==>->=>=<=<@{@(){},|: _x _ _.",
        &[
            Kind::Mark(Mark::Assign),
            Kind::Mark(Mark::Gives),
            Kind::Mark(Mark::Arrow),
            Kind::Mark(Mark::Gives),
            Kind::Mark(Mark::Equal),
            Kind::Mark(Mark::AtMost),
            Kind::Mark(Mark::Less),
            Kind::Mark(Mark::LevelOpen),
            Kind::Mark(Mark::At),
            Kind::Mark(Mark::Open),
            Kind::Mark(Mark::Close),
            Kind::Mark(Mark::BraceOpen),
            Kind::Mark(Mark::BraceClose),
            Kind::Mark(Mark::Comma),
            Kind::Mark(Mark::Bar),
            Kind::Mark(Mark::Colon),
            Kind::Ident,
            Kind::Mark(Mark::Blank),
            Kind::Mark(Mark::Blank),
            Kind::Mark(Mark::Stop),
        ],
    );
}

#[test]
fn words(rt: HostRuntime) {
    let alloc = rt.alloc();
    are_kinds(
        &rt,
        alloc,
        b"Prop Set Type forall fun let in fix with for match as return end Definition Props A.Prop'",
        &[
            Kind::Mark(Mark::Prop),
            Kind::Mark(Mark::Set),
            Kind::Mark(Mark::Typ),
            Kind::Mark(Mark::Forall),
            Kind::Mark(Mark::Fun),
            Kind::Mark(Mark::Let),
            Kind::Mark(Mark::In),
            Kind::Mark(Mark::Fix),
            Kind::Mark(Mark::With),
            Kind::Mark(Mark::For),
            Kind::Mark(Mark::Match),
            Kind::Mark(Mark::As),
            Kind::Mark(Mark::Return),
            Kind::Mark(Mark::End),
            Kind::Ident,
            Kind::Ident,
            Kind::Qualified,
        ],
    );
}
