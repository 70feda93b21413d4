//! Sources that are made here: cuts of others, nested parentheses and long names.
use crate::reading::{ends_of_tokens, read};
use crate::row;
use std::alloc::{AllocError, Global};

/// Reads the source up to the end of each of its tokens.
fn cuts_of(rt: &HostRuntime, text: &str) -> anyhow::Result<()> {
    let alloc = rt.alloc();
    let source = text.as_bytes();
    println!(rt; "{text}")?;
    for end in ends_of_tokens(alloc, source)? {
        let (cut, _) = source.split_at(end.min(source.len()));
        let reading = read(alloc, cut)?;
        println!(rt; "  up to byte {end}: {reading}")?;
    }
    Ok(())
}

pub(crate) fn cuts(rt: &HostRuntime) -> anyhow::Result<()> {
    let sources = [
        "From L Require Export A B.c. Section s.",
        "Inductive a (P : Set) : Set := | c (x : P) : a P | d with b : Set := .",
        "Theorem t : A -> @A. Proof using B. exact (fix f (x _ : A) {struct x} : A := x). Defined.",
    ];
    for source in sources {
        cuts_of(rt, source)?;
    }
    Ok(())
}

fn push_all(source: &mut Vec<u8>, byte: u8, count: usize) -> Result<(), AllocError> {
    for _ in 0..count {
        if source.push(byte).is_err() {
            return Err(AllocError);
        }
    }
    Ok(())
}

/// A definition of what stands in so many parentheses.
fn nested(alloc: Global, depth: usize, inside: &[u8]) -> anyhow::Result<Vec<u8>> {
    let mut source = b"Definition d : Prop := ".to_vec(alloc)?;
    push_all(&mut source, b'(', depth)?;
    source.extend_from_slice(inside)?;
    push_all(&mut source, b')', depth)?;
    source.push(b'.')?;
    Ok(source)
}

pub(crate) fn nestings(rt: &HostRuntime) -> anyhow::Result<()> {
    for depth in [499, 500, 501] {
        let source = nested(rt.alloc(), depth, b"Prop")?;
        println!(rt; "{depth} parentheses")?;
        row(rt, source.as_slice())?;
    }
    println!(rt; "500 parentheses with nothing in them")?;
    let source = nested(rt.alloc(), 500, b"")?;
    row(rt, source.as_slice())
}

/// A section whose name is the text with so many letters behind it.
fn named(alloc: Global, front: &[u8], letters: usize) -> anyhow::Result<Vec<u8>> {
    let mut source = front.to_vec(alloc)?;
    push_all(&mut source, b'a', letters)?;
    source.push(b'.')?;
    Ok(source)
}

pub(crate) fn long_names(rt: &HostRuntime) -> anyhow::Result<()> {
    for letters in [255, 256] {
        println!(rt; "a name of {letters} letters")?;
        let source = named(rt.alloc(), b"Section ", letters)?;
        row(rt, source.as_slice())?;
        println!(rt; "a qualified name whose last part has {letters} letters")?;
        let source = named(rt.alloc(), b"Require A.", letters)?;
        row(rt, source.as_slice())?;
    }
    Ok(())
}
