use crate::command::{Command, Raw};
use crate::parser::{ParseFault, parse};
use std::alloc::Global;
use std::process::Abort;
use std::test::Fail;

#[derive(Clone, Copy, Debug, PartialEq)]
enum Outcome {
    Sentences(usize),
    NotYet(u32),
    NoMemory,
}

fn outcome_of(alloc: Global, source: &[u8]) -> Outcome {
    match parse(alloc, source) {
        Ok(commands) => Outcome::Sentences(commands.len()),
        Err(ParseFault::NotYet { place }) => Outcome::NotYet(place),
        Err(ParseFault::NoMemory) => Outcome::NoMemory,
    }
}

fn answers(rt: &impl Abort, alloc: Global, source: &[u8], expected: Outcome) {
    assert_eq!(rt; outcome_of(alloc, source), expected);
}

#[test]
fn sentences_in_order(rt: HostRuntime) -> Result<(), Fail> {
    let source = b"\n Axiom P : Prop. Axiom Axiom:Prop\t.\r\n";
    let commands = match parse(rt.alloc(), source) {
        Ok(commands) => commands,
        Err(fault) => return Err(Fail::from(fault)),
    };
    assert_eq!(rt; commands.len(), 2);
    assert!(rt; !commands.is_empty());
    let names = [b"P".as_slice(), b"Axiom".as_slice()];
    for (command, expected) in commands.as_slice().iter().zip(names) {
        let Command::Axiom { name, ty: _ } = command;
        assert_eq!(rt; name.bytes(), expected);
    }
    assert!(rt; commands.get(1).is_some());
    assert!(rt; commands.get(2).is_none());
    Ok(())
}

#[test]
fn sources(rt: HostRuntime) {
    let alloc = rt.alloc();
    answers(&rt, alloc, b"", Outcome::Sentences(0));
    answers(&rt, alloc, b" \t\r\n", Outcome::Sentences(0));
    answers(&rt, alloc, b"Axiom _a'1 : Prop.", Outcome::Sentences(1));
}

#[test]
fn places(rt: HostRuntime) {
    let alloc = rt.alloc();
    let first_of_two = Outcome::NotYet(16);
    answers(
        &rt,
        alloc,
        b"Axiom a : Prop. Definition b : Prop := a.",
        first_of_two,
    );
    answers(&rt, alloc, b"Axiom a : Prop. Axiom b :", first_of_two);
    answers(&rt, alloc, b"Axiom a : Prop. \xff", first_of_two);
    answers(&rt, alloc, b"\n Axiom a : Prop", Outcome::NotYet(2));
    answers(&rt, alloc, b"Axiom a : Prop.x", Outcome::NotYet(0));
    answers(
        &rt,
        alloc,
        b"Axiom a : Prop.Axiom b : Prop.",
        Outcome::NotYet(0),
    );
}

// The term in prefix form: `>` before the sides of an arrow, `!` before a binder, its type and the body.
fn write_prefix_form(raw: &Raw, text: &mut Vec<u8>) -> Result<(), Fail> {
    match raw {
        Raw::Prop => text.push(b'*')?,
        Raw::Name(name) => text.extend_from_slice(name.bytes())?,
        Raw::ForAll { binder, ty, body } => {
            text.push(b'!')?;
            text.extend_from_slice(binder.bytes())?;
            write_prefix_form(ty, text)?;
            write_prefix_form(body, text)?;
        }
        Raw::Arrow(from, to) => {
            text.push(b'>')?;
            write_prefix_form(from, text)?;
            write_prefix_form(to, text)?;
        }
    }
    Ok(())
}

// The types of a source's axioms, each in prefix form and then a dot.
fn types_of(alloc: Global, source: &[u8]) -> Result<Vec<u8>, Fail> {
    let commands = match parse(alloc, source) {
        Ok(commands) => commands,
        Err(fault) => return Err(Fail::from(fault)),
    };
    let mut text = Vec::new(alloc);
    for command in commands.as_slice() {
        let Command::Axiom { name: _, ty } = command;
        write_prefix_form(ty, &mut text)?;
        text.push(b'.')?;
    }
    Ok(text)
}

#[test]
fn types(rt: HostRuntime) -> Result<(), Fail> {
    let rows = [
        (
            b"Axiom P : Prop. Axiom p : P -> P. Axiom q : forall x : Prop, x.".as_slice(),
            b"*.>PP.!x*x.".as_slice(),
        ),
        (b"Axiom r : (P -> P) -> P.", b">>PPP."),
        (
            b"Axiom s : forall x : Prop, forall y : Prop, x -> y -> x.",
            b"!x*!y*>x>yx.",
        ),
        (b"Axiom t : P -> forall x:P->P,(Q).", b">P!x>PPQ."),
        (b"Axiom u : P-> P. Axiom v : P ->P.", b">PP.>PP."),
    ];
    for (source, expected) in rows {
        let text = types_of(rt.alloc(), source)?;
        assert_eq!(rt; text.as_slice(), expected);
    }
    Ok(())
}

#[test]
fn broken_types(rt: HostRuntime) {
    let rows = [
        b"Axiom a : forall forall : Prop, P.".as_slice(),
        b"Axiom a : forall.",
        b"Axiom a : forall x:=Prop, x.",
        b"Axiom a : forall x : Prop x.",
        b"Axiom a : forall x : Prop,.",
        b"Axiom a : P.Q.",
        b"Axiom a : P - P.",
        b"Axiom a : P - > P.",
        b"Axiom a : P ->.",
        b"Axiom a : -> P.",
        b"Axiom a : P Q.",
        b"Axiom a : (P.",
        b"Axiom a : P).",
        b"Axiom a : ().",
        b"Axiom a : (* *) P.",
    ];
    for source in rows {
        answers(&rt, rt.alloc(), source, Outcome::NotYet(0));
    }
}

// An axiom whose type has the opening so many times before a name and the closing as often after it.
fn nested(alloc: Global, times: usize, opening: &[u8], closing: &[u8]) -> Result<Outcome, Fail> {
    let mut source = b"Axiom a : ".to_vec(alloc)?;
    for _ in 0..times {
        source.extend_from_slice(opening)?;
    }
    source.push(b'P')?;
    for _ in 0..times {
        source.extend_from_slice(closing)?;
    }
    source.push(b'.')?;
    Ok(outcome_of(alloc, source.as_slice()))
}

#[test]
fn nestings(rt: HostRuntime) -> Result<(), Fail> {
    let rows = [
        (499, b"(".as_slice(), b")".as_slice()),
        (499, b"P -> ", b""),
        (499, b"forall x : P, ", b""),
        (499, b"forall x : ", b", P"),
        (249, b"(P -> ", b")"),
    ];
    for (most, opening, closing) in rows {
        let deepest = nested(rt.alloc(), most, opening, closing)?;
        assert_eq!(rt; deepest, Outcome::Sentences(1));
        let too_deep = nested(rt.alloc(), most + 1, opening, closing)?;
        assert_eq!(rt; too_deep, Outcome::NotYet(0));
    }
    Ok(())
}

#[test]
fn words(rt: HostRuntime) {
    let alloc = rt.alloc();
    answers(&rt, alloc, b"Axiom forall : Prop.", Outcome::NotYet(0));
    answers(&rt, alloc, b"Axiom _ : Prop.", Outcome::NotYet(0));
    answers(&rt, alloc, b"Axiom \xc3\xa9 : Prop.", Outcome::NotYet(0));
    answers(&rt, alloc, b"AxiomP : Prop.", Outcome::NotYet(0));
}

fn named(alloc: Global, letters: usize) -> Result<Outcome, Fail> {
    let mut source = b"Axiom ".to_vec(alloc)?;
    for _ in 0..letters {
        source.push(b'a')?;
    }
    source.extend_from_slice(b" : Prop.")?;
    Ok(outcome_of(alloc, source.as_slice()))
}

#[test]
fn lengths_of_names(rt: HostRuntime) -> Result<(), Fail> {
    assert_eq!(rt; named(rt.alloc(), 255)?, Outcome::Sentences(1));
    assert_eq!(rt; named(rt.alloc(), 256)?, Outcome::NotYet(0));
    Ok(())
}

#[test]
fn lengths_of_sources(rt: HostRuntime) -> Result<(), Fail> {
    let mut blanks = Vec::new(rt.alloc());
    for _ in 0..65536 {
        blanks.push(b' ')?;
    }
    answers(&rt, rt.alloc(), blanks.as_slice(), Outcome::Sentences(0));
    blanks.push(b' ')?;
    answers(&rt, rt.alloc(), blanks.as_slice(), Outcome::NotYet(65536));
    Ok(())
}
