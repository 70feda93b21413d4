//! Reads interfaces and summaries from bytes that were written out by the table of the format, and from damaged copies,
//! writes them again, and prints what each answers.
#![tactic(auto)]

mod round;

use lib_codec::{Bytes, DecodeFault};
use round::{Spelled, again};
use seg_format::{BadFile, Defect};
use std::alloc::AllocError;
use std::io;

/// The library `A`: it requires `B`, and `C` for those too that require it; it declares two levels, an axiom, a constant
/// that unfolds, one that does not, a block of two types with two constructors, and another that does not unfold, and
/// has one constraint.
const INTERFACE: [u8; 106] = [
    1, 65, 0, 0, 0, 2, 0, 1, 66, 2, 1, 67, 0, 0, 0, 2, 1, 117, 1, 118, 0, 0, 0, 5, 1, 1, 97, 1, 2,
    1, 98, 2, 5, 2, 0, 0, 0, 0, 0, 3, 1, 99, 1, 0, 0, 0, 0, 4, 0, 0, 0, 1, 0, 0, 0, 2, 1, 110, 4,
    2, 2, 0, 0, 0, 2, 1, 111, 1, 1, 115, 8, 1, 65, 1, 97, 1, 109, 3, 1, 1, 65, 1, 117, 0, 0, 0, 0,
    3, 1, 100, 1, 0, 0, 0, 1, 0, 0, 0, 1, 0, 0, 1, 1, 65, 1, 117,
];

/// The summary of `A`, for which `B` and `C` were loaded.
const SUMMARY: [u8; 62] = [
    1, 65, 100, 101, 102, 103, 104, 105, 106, 107, 108, 109, 110, 111, 112, 113, 114, 115, 0, 15,
    66, 64, 0, 0, 0, 2, 1, 66, 7, 7, 7, 7, 7, 7, 7, 7, 7, 7, 7, 7, 7, 7, 7, 7, 1, 67, 9, 9, 9, 9,
    9, 9, 9, 9, 9, 9, 9, 9, 9, 9, 9, 9,
];

/// The library `A` without anything.
const EMPTY: [u8; 18] = [1, 65, 0, 0, 0, 0, 0, 0, 0, 0, 0, 0, 0, 0, 0, 0, 0, 0];

/// A library of how many declarations.
const MANY: u32 = 2_000;

fn fault(rt: &HostRuntime, what: &str, fault: DecodeFault) -> io::Result<()> {
    match fault {
        DecodeFault::NoMemory => println!(rt; "{what}: no memory"),
        DecodeFault::BadFile(
            BadFile {
                segment,
                defect,
                place,
            },
        ) => match defect {
            Defect::Digest { .. } => println!(rt; "{what}: {segment:?}, Digest, at {place}"),
            defect => println!(rt; "{what}: {segment:?}, {defect:?}, at {place}"),
        },
    }
}

/// Prints whether a value is read and written as the same bytes, or why not.
fn report(rt: &HostRuntime, what: &str, spelled: Spelled, bytes: &[u8]) -> io::Result<()> {
    if bytes.len() >= 1 << 32 {
        return println!(rt; "{what}: too long");
    }
    match again(rt.alloc(), spelled, bytes) {
        Ok(same) => println!(rt; "{what}: read, and the same again: {same}"),
        Err(bad) => fault(rt, what, bad),
    }
}

/// The bytes with other bytes from a place on.
fn changed(
    rt: &HostRuntime,
    bytes: &[u8],
    place: usize,
    others: &[u8],
) -> Result<Bytes, AllocError> {
    let mut copy = Vec::new(rt.alloc());
    for (i, old) in bytes.iter().enumerate() {
        let other = if i < place {
            None
        } else {
            others.get(i - place)
        };
        copy.push(*other.unwrap_or(old))?;
    }
    Ok(copy)
}

/// The bytes with others behind them.
fn joined(rt: &HostRuntime, bytes: &[u8], others: &[u8]) -> Result<Bytes, AllocError> {
    let mut copy = Vec::new(rt.alloc());
    copy.extend_from_slice(bytes)?;
    copy.extend_from_slice(others)?;
    Ok(copy)
}

/// The interface with other bytes from a place on.
fn interface_with(rt: &HostRuntime, what: &str, place: usize, others: &[u8]) -> io::Result<()> {
    report(
        rt,
        what,
        Spelled::Interface,
        &changed(rt, &INTERFACE, place, others)?,
    )
}

/// Each defect of an interface.
fn defects(rt: &HostRuntime) -> io::Result<()> {
    interface_with(rt, "no way to require", 6, &[3])?;
    interface_with(rt, "a required library without a name", 7, &[0])?;
    interface_with(rt, "a level twice", 19, &[117])?;
    interface_with(rt, "a level as a declaration", 26, &[117])?;
    interface_with(rt, "no kind of declaration", 24, &[5])?;
    interface_with(rt, "a declaration twice", 30, &[97])?;
    interface_with(rt, "a declaration as a type", 57, &[97])?;
    interface_with(rt, "a constructor as its type", 66, &[110])?;
    interface_with(rt, "a constructor twice", 69, &[111])?;
    interface_with(rt, "a type as a constructor before it", 76, &[115])?;
    interface_with(rt, "a declaration as a constructor before it", 89, &[115])?;
    interface_with(rt, "a name that is none", 41, &[49])?;
    interface_with(rt, "the second body first", 46, &[1])?;
    interface_with(rt, "the first body twice", 94, &[0])?;
    interface_with(rt, "too many parameters", 49, &[17])?;
    interface_with(rt, "no type", 52, &[0, 0, 0, 0])?;
    interface_with(rt, "a type that is none", 27, &[13])?;
    interface_with(rt, "declarations counted as none", 20, &[0, 0, 0, 0])?;
    let longer = joined(rt, &INTERFACE, &[0])?;
    report(rt, "a byte more", Spelled::Interface, &longer)?;
    let longer = joined(rt, &SUMMARY, &[0])?;
    report(rt, "a byte more", Spelled::Summary, &longer)
}

/// Each list with more items than four bytes can count.
fn counts(rt: &HostRuntime) -> io::Result<()> {
    for place in [2, 12, 20, 52, 61, 83, 95] {
        interface_with(rt, "many items", place, &[255; 4])?;
    }
    let longer = changed(rt, &SUMMARY, 22, &[255; 4])?;
    report(rt, "many libraries", Spelled::Summary, &longer)
}

/// How often a cut of the bytes is short at its end.
fn cuts(rt: &HostRuntime, spelled: Spelled, bytes: &[u8]) -> io::Result<()> {
    let mut short = 0_u32;
    for end in 0..bytes.len() {
        let cut = &bytes[..end];
        if cut.len() < 1 << 32 {
            if let Err(DecodeFault::BadFile(bad)) = again(rt.alloc(), spelled, cut) {
                if bad.defect == Defect::Short && bad.place as usize == end {
                    short = short.saturating_add(1);
                }
            }
        }
    }
    println!(rt;
        "{spelled:?}: {short} of {} cuts are short at their end",
        bytes.len()
    )
}

/// What came of changes: how many have a defect, are written as the same bytes, or as others.
#[derive(Clone, Copy)]
struct Tally {
    defects: u32,
    same: u32,
    others: u32,
}

/// Counts what comes of one change.
fn count(rt: &HostRuntime, tally: Tally, spelled: Spelled, bytes: &[u8]) -> Tally {
    if bytes.len() >= 1 << 32 {
        return tally;
    }
    match again(rt.alloc(), spelled, bytes) {
        Ok(true) => Tally {
            same: tally.same.saturating_add(1),
            ..tally
        },
        Ok(false) => Tally {
            others: tally.others.saturating_add(1),
            ..tally
        },
        Err(_) => Tally {
            defects: tally.defects.saturating_add(1),
            ..tally
        },
    }
}

/// Sets each byte to several others, one at a time.
fn bytes_changed(rt: &HostRuntime, spelled: Spelled, bytes: &[u8]) -> io::Result<()> {
    let mut tally = Tally {
        defects: 0,
        same: 0,
        others: 0,
    };
    for (place, old) in bytes.iter().enumerate() {
        for byte in [0, 1, 127, 255, old.wrapping_add(1)] {
            let copy = changed(rt, bytes, place, &[byte])?;
            tally = count(rt, tally, spelled, &copy);
        }
    }
    println!(rt;
        "{spelled:?}, one byte changed: {} have a defect, {} are the same again, {} are not",
        tally.defects, tally.same, tally.others
    )
}

/// A library of many axioms, whose names are their numbers.
fn many(rt: &HostRuntime) -> Result<Bytes, AllocError> {
    let mut bytes = Vec::new(rt.alloc());
    bytes.extend_from_slice(&EMPTY[..10])?;
    bytes.extend_from_slice(&MANY.to_be_bytes())?;
    for number in 0..MANY {
        let digits = [
            1,
            6,
            b'a',
            letter(number, 1_000),
            letter(number, 100),
            letter(number, 10),
            letter(number, 1),
            b'z',
            1,
        ];
        bytes.extend_from_slice(&digits)?;
    }
    bytes.extend_from_slice(&[0; 4])?;
    Ok(bytes)
}

/// The digit of a number at a power of ten, which is not 0.
fn letter(number: u32, power: u32) -> u8 {
    if power == 0 {
        return b'0';
    }
    b'0' + (number / power % 10) as u8
}

fn main(rt: HostRuntime) -> io::Result<()> {
    report(&rt, "an interface", Spelled::Interface, &INTERFACE)?;
    report(&rt, "an empty interface", Spelled::Interface, &EMPTY)?;
    report(&rt, "a summary", Spelled::Summary, &SUMMARY)?;
    report(&rt, "many declarations", Spelled::Interface, &many(&rt)?)?;
    defects(&rt)?;
    counts(&rt)?;
    cuts(&rt, Spelled::Interface, &INTERFACE)?;
    cuts(&rt, Spelled::Summary, &SUMMARY)?;
    bytes_changed(&rt, Spelled::Interface, &INTERFACE)?;
    bytes_changed(&rt, Spelled::Summary, &SUMMARY)
}
