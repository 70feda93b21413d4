//! The sources.
use crate::printing::row;
use std::alloc::{AllocError, Global};

/// Prints the name of a source and what the source is.
fn named(rt: &HostRuntime, name: &str, source: &[u8]) -> anyhow::Result<()> {
    println!(rt; "{name}")?;
    row(rt, source)
}

/// Lines and places on them.
pub(crate) fn lines(rt: &HostRuntime) -> anyhow::Result<()> {
    named(rt, "nothing", b"")?;
    named(
        rt,
        "line feeds",
        b"Axiom a : Prop.\n  Axiom b : Prop. Axiom c : Prop.\n",
    )?;
    named(
        rt,
        "carriage returns and line feeds",
        b"Axiom a : Prop.\r\nAxiom b : Prop.\r\n",
    )?;
    named(
        rt,
        "a carriage return alone",
        b"Axiom a : Prop.\rAxiom b : Prop.",
    )?;
    named(
        rt,
        "comments with line feeds",
        b"(* a\nb *) Axiom a : Prop. (* c\n\n*)\n Axiom (* d\n *) b : Prop.",
    )?;
    named(
        rt,
        "letters past ASCII",
        b"Section \xc3\xa9.\nEnd \xc3\xa9.",
    )?;
    named(rt, "universes", b"Universe u. Constraint u <= Set.")
}

/// Commands of several sentences.
pub(crate) fn proofs(rt: &HostRuntime) -> anyhow::Result<()> {
    named(
        rt,
        "proofs on lines of their own",
        b"Definition d : A.\nProof using Type.\n  exact a. Qed.\nTheorem t : A.\nProof a.\n",
    )?;
    named(
        rt,
        "a proof on one line",
        b"Theorem t : A. Proof. exact a. Defined. Section s.",
    )?;
    named(rt, "no proof", b"Theorem t : A. Admitted.")?;
    named(
        rt,
        "words of proofs as names",
        b"Section exact.\nEnd exact.",
    )
}

/// What files require.
pub(crate) fn requires_of_files(rt: &HostRuntime) -> anyhow::Result<()> {
    named(
        rt,
        "names that come again",
        b"Require A B. Require Import A C. Require Export B.",
    )?;
    named(rt, "a prefix behind From", b"From P Require Import A P.B.")?;
    named(
        rt,
        "a prefix before a name",
        b"Require P.A A.\nFrom P Require P.A.",
    )?;
    named(rt, "another prefix", b"Require A.\nRequire B Q.C D.\n")?;
    named(rt, "another prefix behind From", b"From Q Require A.")?;
    named(rt, "two dots", b"Require P.A.B.")
}

/// Sources that are no files.
pub(crate) fn faults(rt: &HostRuntime) -> anyhow::Result<()> {
    named(rt, "a byte order mark", b"\xef\xbb\xbfSection s.")?;
    named(rt, "a bad character", b"Section s. $")?;
    named(rt, "an open comment", b"Section s. (* (* *)")?;
    named(rt, "a stop too early", b"Section s. Section.")?;
    named(rt, "no stop", b"Section s")
}

fn push_all(source: &mut Vec<u8>, byte: u8, count: usize) -> Result<(), AllocError> {
    for _ in 0..count {
        if source.push(byte).is_err() {
            return Err(AllocError);
        }
    }
    Ok(())
}

/// A name of 256 letters.
pub(crate) fn long_name(rt: &HostRuntime) -> anyhow::Result<()> {
    let mut source = b"Section ".to_vec(rt.alloc())?;
    push_all(&mut source, b'a', 256)?;
    source.push(b'.')?;
    named(rt, "a name of 256 letters", source.as_slice())
}

/// A term in 500 parentheses.
fn nested(alloc: Global) -> anyhow::Result<Vec<u8>> {
    let mut source = b"Definition d : A := ".to_vec(alloc)?;
    push_all(&mut source, b'(', 500)?;
    source.push(b'a')?;
    push_all(&mut source, b')', 500)?;
    source.push(b'.')?;
    Ok(source)
}

pub(crate) fn nesting(rt: &HostRuntime) -> anyhow::Result<()> {
    let source = nested(rt.alloc())?;
    named(rt, "500 parentheses", source.as_slice())
}
