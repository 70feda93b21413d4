//! Reads terms and lists of constraints from bytes that were written out by the table of the format, writes them again,
//! and prints what each answers.
#![tactic(auto)]

mod round;

use round::{again, constraints_again};
use seg_format::{BadFile, Bytes, Defect};
use std::alloc::AllocError;
use std::io;
use term_codec::DecodeFault;

/// The most levels of a term.
const LEVELS: usize = 4_000;

/// The id `A.n`.
const ID: [u8; 4] = [1, 65, 1, 110];

/// `Set <= A.u`, and `A.u < Set`.
const BELOW: [u8; 7] = [0, 0, 1, 1, 65, 1, 117];

const ABOVE: [u8; 7] = [1, 1, 65, 1, 117, 1, 0];

/// A match on `A.n` with one branch under two arguments.
const CASE: [u8; 28] = [
    11, 1, 65, 1, 110, 0, 0, 0, 0, 1, 0, 0, 0, 0, 0, 0, 0, 0, 1, 0, 0, 0, 2, 0, 0, 0, 0, 1,
];

/// A fix of one function with one domain.
const FIX: [u8; 24] = [
    12, 0, 0, 0, 0, 0, 0, 0, 1, 0, 0, 0, 0, 0, 0, 0, 1, 2, 1, 0, 0, 0, 0, 1,
];

fn fault(rt: &HostRuntime, what: &str, fault: DecodeFault) -> io::Result<()> {
    match fault {
        DecodeFault::NoMemory => println!(rt; "{what}: no memory"),
        DecodeFault::BadFile(
            BadFile {
                segment,
                defect,
                place,
            },
        ) => match defect {
            Defect::Digest { .. } => println!(rt; "{what}: {segment:?}, Digest, at {place}"),
            defect => println!(rt; "{what}: {segment:?}, {defect:?}, at {place}"),
        },
    }
}

/// Prints whether the term is read and written as the same bytes, or why not.
fn term(rt: &HostRuntime, what: &str, bytes: &[u8]) -> io::Result<()> {
    if bytes.len() >= 1 << 32 {
        return println!(rt; "{what}: too long");
    }
    match again(rt.alloc(), bytes) {
        Ok(same) => println!(rt; "{what}: read, and the same again: {same}"),
        Err(bad) => fault(rt, what, bad),
    }
}

/// The same of a list of constraints.
fn constraints(rt: &HostRuntime, what: &str, bytes: &[u8]) -> io::Result<()> {
    if bytes.len() >= 1 << 32 {
        return println!(rt; "{what}: too long");
    }
    match constraints_again(rt.alloc(), bytes) {
        Ok(same) => println!(rt; "{what}: read, and the same again: {same}"),
        Err(bad) => fault(rt, what, bad),
    }
}

/// The bytes of several pieces.
fn joined(rt: &HostRuntime, pieces: &[&[u8]]) -> Result<Bytes, AllocError> {
    let mut bytes = Vec::new(rt.alloc());
    for piece in pieces {
        bytes.extend_from_slice(piece)?;
    }
    Ok(bytes)
}

/// The bytes with another byte at a place.
fn changed(rt: &HostRuntime, bytes: &[u8], place: usize, byte: u8) -> Result<Bytes, AllocError> {
    let mut copy = Vec::new(rt.alloc());
    for (i, old) in bytes.iter().enumerate() {
        copy.push(if i == place { byte } else { *old })?;
    }
    Ok(copy)
}

/// A piece so many times, and a last one.
fn tower(rt: &HostRuntime, piece: &[u8], times: usize, last: &[u8]) -> Result<Bytes, AllocError> {
    let mut bytes = Vec::new(rt.alloc());
    for _i in 0..times {
        bytes.extend_from_slice(piece)?;
    }
    bytes.extend_from_slice(last)?;
    Ok(bytes)
}

/// Each row of the table.
fn rows(rt: &HostRuntime) -> io::Result<()> {
    term(rt, "variable", &[0, 0, 0, 0, 3])?;
    term(rt, "the highest variable", &[0, 0, 16, 0, 0])?;
    term(rt, "Prop", &[1])?;
    term(rt, "Set", &[2])?;
    term(rt, "Type, declared", &[3, 1, 1, 65, 1, 117])?;
    term(rt, "Type, visible", &[3, 2, 1, 65, 1, 99, 0, 0, 1, 2])?;
    term(
        rt,
        "Type, of a proof",
        &[3, 3, 1, 65, 1, 99, 255, 255, 255, 255],
    )?;
    term(rt, "product", &[4, 2, 1])?;
    term(rt, "abstraction", &[5, 2, 0, 0, 0, 0, 0])?;
    term(rt, "let", &[6, 1, 2, 0, 0, 0, 0, 0])?;
    term(rt, "application", &[7, 1, 2])?;
    term(rt, "constant", &joined(rt, &[&[8], &ID])?)?;
    term(rt, "inductive type", &joined(rt, &[&[9], &ID])?)?;
    term(rt, "constructor", &joined(rt, &[&[10], &ID])?)?;
    term(rt, "match", &CASE)?;
    term(
        rt,
        "match without branches",
        &[11, 1, 65, 1, 110, 0, 0, 0, 0, 1, 1, 0, 0, 0, 0],
    )?;
    term(rt, "fix", &FIX)
}

/// Each defect of a term.
fn defects(rt: &HostRuntime) -> io::Result<()> {
    term(rt, "nothing", &[])?;
    term(rt, "no kind", &[13])?;
    term(rt, "a variable too high", &[0, 0, 16, 0, 1])?;
    term(rt, "Type at Set", &[3, 0])?;
    term(rt, "no part of a level", &[3, 4, 1, 65, 1, 117])?;
    term(rt, "a name without bytes", &[8, 0, 1, 110])?;
    term(rt, "a name that is none", &[8, 1, 65, 2, 49, 97])?;
    term(rt, "a reserved word", &[8, 3, 102, 117, 110, 1, 110])?;
    term(rt, "arity too high", &changed(rt, &CASE, 6, 17)?)?;
    term(rt, "too many binders", &changed(rt, &CASE, 20, 17)?)?;
    term(rt, "no such function", &changed(rt, &FIX, 4, 1)?)?;
    term(rt, "no function", &changed(rt, &FIX, 8, 0)?)?;
    term(rt, "no such domain", &changed(rt, &FIX, 12, 1)?)?;
    term(rt, "no domain", &changed(rt, &FIX, 16, 0)?)?;
    term(
        rt,
        "many branches, and none there",
        &changed(rt, &CASE[..19], 15, 255)?,
    )?;
    term(rt, "a byte more", &[1, 1])
}

/// How often a cut of the bytes is short at its end.
fn cuts(rt: &HostRuntime, what: &str, bytes: &[u8]) -> io::Result<()> {
    let mut short = 0_u32;
    for end in 0..bytes.len() {
        let cut = &bytes[..end];
        if cut.len() < 1 << 32 {
            if let Err(DecodeFault::BadFile(bad)) = again(rt.alloc(), cut) {
                if bad.defect == Defect::Short && bad.place as usize == end {
                    short = short.saturating_add(1);
                }
            }
        }
    }
    println!(rt;
        "{what}: {short} of {} cuts are short at their end",
        bytes.len()
    )
}

/// Terms of the most levels, and of one more, down each part.
fn depths(rt: &HostRuntime, levels: usize) -> io::Result<()> {
    let more = levels.saturating_sub(1);
    term(rt, "abstractions", &tower(rt, &[5, 1], more, &[1])?)?;
    let arguments = tower(rt, &[1], more, &[1])?;
    term(
        rt,
        "functions of applications",
        &tower(rt, &[7], more, &arguments)?,
    )?;
    term(rt, "rests of a let", &tower(rt, &[6, 1, 2], more, &[1])?)?;
    let branch = [11, 1, 65, 1, 110, 0, 0, 0, 0, 1, 1, 0, 0, 0, 1, 0, 0, 0, 0];
    term(rt, "branches", &tower(rt, &branch, more, &[1])?)?;
    let body = [12, 0, 0, 0, 0, 0, 0, 0, 1, 0, 0, 0, 0, 0, 0, 0, 1, 2, 1];
    term(rt, "bodies of a fix", &tower(rt, &body, more, &[1])?)?;
    let after_domains = tower(rt, &[1, 1], more, &[1])?;
    term(
        rt,
        "domains of a fix",
        &tower(rt, &body[..17], more, &after_domains)?,
    )
}

fn lists(rt: &HostRuntime) -> io::Result<()> {
    constraints(rt, "no constraint", &[0, 0, 0, 0])?;
    constraints(
        rt,
        "two constraints",
        &joined(rt, &[&[0, 0, 0, 2], &BELOW, &ABOVE])?,
    )?;
    constraints(
        rt,
        "the other way round",
        &joined(rt, &[&[0, 0, 0, 2], &ABOVE, &BELOW])?,
    )?;
    constraints(
        rt,
        "one twice",
        &joined(rt, &[&[0, 0, 0, 2], &ABOVE, &ABOVE])?,
    )?;
    constraints(rt, "neither strict nor not", &[0, 0, 0, 1, 0, 2, 0])?;
    constraints(rt, "one of two", &joined(rt, &[&[0, 0, 0, 2], &BELOW])?)?;
    constraints(
        rt,
        "one more",
        &joined(rt, &[&[0, 0, 0, 1], &BELOW, &ABOVE])?,
    )
}

fn main(rt: HostRuntime) -> io::Result<()> {
    rows(&rt)?;
    defects(&rt)?;
    cuts(&rt, "match", &CASE)?;
    cuts(&rt, "fix", &FIX)?;
    lists(&rt)?;
    depths(&rt, LEVELS)?;
    depths(&rt, LEVELS + 1)
}
