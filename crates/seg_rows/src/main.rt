//! Packs library files, takes them and damaged copies of them apart, and prints what each answers.
#![tactic(auto)]

use seg_format::{BadFile, Bytes, Defect, Head, Kind, PackFault, Packed, Segment, Segments, pack};
use std::alloc::{AllocError, Global};
use std::io;

/// The summary of the library `A`: its name, the digest of an empty source, the budget 1,000,000, and no libraries.
const SUMMARY: [u8; 26] = [
    1, 65, 0xd4, 0x1d, 0x8c, 0xd9, 0x8f, 0x00, 0xb2, 0x04, 0xe9, 0x80, 0x09, 0x98, 0xec, 0xf8,
    0x42, 0x7e, 0x00, 0x0f, 0x42, 0x40, 0, 0, 0, 0,
];

/// The library `A` without requires, levels, declarations and constraints.
const LIBRARY: [u8; 18] = [1, 65, 0, 0, 0, 0, 0, 0, 0, 0, 0, 0, 0, 0, 0, 0, 0, 0];

/// An empty list.
const NONE: [u8; 4] = [0; 4];

/// The head of opaques with one body of one byte.
const ONE_BODY: [u8; 28] = [
    0, 0, 0, 1, 0, 0, 0, 0, 0, 0, 0, 1, 9, 9, 9, 9, 9, 9, 9, 9, 9, 9, 9, 9, 9, 9, 9, 9,
];

/// The longest file in bytes.
const LONGEST: usize = 16 * 1024 * 1024;

/// The segments of the library `A` with other opaques.
fn parts_with<'b>(head: &'b [u8], bodies: &'b [u8]) -> Packed<'b> {
    Packed {
        summary: &SUMMARY,
        library: &LIBRARY,
        proofs: &NONE,
        opaques_head: head,
        opaques_bodies: bodies,
    }
}

/// The file, or no bytes where none is made.
fn file_of(alloc: Global, kind: Kind, parts: &Packed) -> Bytes {
    match pack(alloc, kind, parts) {
        Ok(bytes) => bytes,
        Err(_) => Vec::new(alloc),
    }
}

/// The file with other bytes from a place on.
fn changed(alloc: Global, file: &[u8], place: usize, bytes: &[u8]) -> Result<Bytes, AllocError> {
    let mut copy = Vec::new(alloc);
    for (i, byte) in file.iter().enumerate() {
        let other = if i < place {
            None
        } else {
            bytes.get(i - place)
        };
        copy.push(*other.unwrap_or(byte))?;
    }
    Ok(copy)
}

/// Prints a fault.
fn fault(rt: &HostRuntime, what: &str, bad: BadFile) -> io::Result<()> {
    match bad.defect {
        Defect::Digest { .. } => println!(rt;
            "{what}: {:?}, Digest, at {}",
            bad.segment, bad.place
        ),
        defect => println!(rt; "{what}: {:?}, {defect:?}, at {}", bad.segment, bad.place),
    }
}

/// Prints what taking the file apart answers.
fn report(rt: &HostRuntime, what: &str, file: &[u8]) -> io::Result<()> {
    if file.len() >= 1 << 32 {
        return println!(rt; "{what}: too long");
    }
    match Segments::of(file) {
        Ok(segments) => println!(rt;
            "{what}: {:?}, {} segments",
            segments.kind,
            segments.parts.len()
        ),
        Err(bad) => fault(rt, what, bad),
    }
}

/// Prints the place and the length of a segment of the file.
fn place(rt: &HostRuntime, file: &[u8], segment: Segment) -> io::Result<()> {
    if file.len() >= 1 << 32 {
        return println!(rt; "too long");
    }
    match Segments::of(file) {
        Ok(segments) => match (segments.place(segment), segments.get(segment)) {
            (Some(place), Some(bytes)) => println!(rt;
                "{segment:?} at {place}, {} bytes",
                bytes.len()
            ),
            (None, None) => println!(rt; "{segment:?} is not there"),
            _ => println!(rt; "{segment:?} is there and is not"),
        },
        Err(bad) => fault(rt, "no file", bad),
    }
}

/// Prints what a reader gets that reads the head, then the table, and then a segment of the bytes after them.
fn front(rt: &HostRuntime, what: &str, file: &[u8], segment: Segment) -> io::Result<()> {
    if file.len() < 16 || file.len() >= 1 << 32 {
        return println!(rt; "{what}: no head");
    }
    let head = match Head::of(&file[..16], file.len() as u64) {
        Ok(head) => head,
        Err(bad) => return fault(rt, what, bad),
    };
    let table = match head.table(&file[16..]) {
        Ok(table) => table,
        Err(bad) => return fault(rt, what, bad),
    };
    let first = table.kind.first_place();
    if file.len() < first as usize {
        return println!(rt; "{what}: no segments");
    }
    let range = &file[first as usize..];
    match table.row(segment) {
        None => println!(rt; "{what}: {segment:?} is not there"),
        Some(row)
            if u64::from(row.place) + u64::from(row.length)
                > u64::from(first) + range.len() as u64 => println!(rt; "{what}: past the end"),
        Some(row) => match table.lend(segment, range) {
            Ok(lent) => println!(rt;
                "{what}: {segment:?} at {}, {} bytes",
                row.place,
                lent.len()
            ),
            Err(bad) => fault(rt, what, bad),
        },
    }
}

/// Prints what the file answers with other bytes from a place on.
fn damage(rt: &HostRuntime, what: &str, file: &[u8], place: usize, bytes: &[u8]) -> io::Result<()> {
    let copy = changed(rt.alloc(), file, place, bytes)?;
    report(rt, what, &copy)
}

/// Prints each of the damages that a file of kind vo may have.
fn damages(rt: &HostRuntime, vo: &[u8]) -> io::Result<()> {
    damage(rt, "first byte X", vo, 0, b"X")?;
    damage(rt, "version 3", vo, 4, &[0, 0, 0, 3])?;
    damage(rt, "version 1, low byte first", vo, 4, &[1, 0, 0, 0])?;
    damage(rt, "kind 9", vo, 8, &[0, 0, 0, 9])?;
    damage(rt, "kind 0", vo, 8, &[0, 0, 0, 0])?;
    damage(rt, "kind vos", vo, 8, &[0, 0, 0, 2])?;
    damage(rt, "five segments", vo, 12, &[0, 0, 0, 5])?;
    damage(rt, "first row of the library", vo, 16, &[0, 0, 0, 2])?;
    damage(rt, "first segment at 129", vo, 20, &[0, 0, 0, 129])?;
    damage(rt, "first segment longer", vo, 24, &[0, 0, 0, 27])?;
    damage(rt, "third row of the library", vo, 72, &[0, 0, 0, 2])?;
    damage(rt, "last segment longer", vo, 108, &[0, 0, 0, 5])?;
    damage(rt, "last segment shorter", vo, 108, &[0, 0, 0, 3])?;
    damage(rt, "stated digest of the summary", vo, 28, &[0])?;
    damage(rt, "byte 128", vo, 128, &[0])?;
    damage(rt, "byte 154", vo, 154, &[2])?;
    damage(rt, "byte 172", vo, 172, &[1])?;
    damage(rt, "last byte", vo, 179, &[1])?;
    damage(rt, "two digests", vo, 171, &[1, 1])
}

/// What the cuts of a file answer.
#[derive(Clone, Copy)]
struct Cuts {
    head: u32,
    table: u32,
    end: u32,
    other: u32,
}

/// Counts what the cuts of a file answer, each at its length.
fn count_cuts(file: &[u8]) -> Cuts {
    let mut counts = Cuts {
        head: 0,
        table: 0,
        end: 0,
        other: 0,
    };
    let mut place: u32 = 0;
    for n in 0..file.len() {
        let cut = &file[..n];
        if cut.len() >= 1 << 32 {
            return counts;
        }
        let kind = match Segments::of(cut) {
            Ok(_) => None,
            Err(bad) if bad.place != place => None,
            Err(bad) => Some((bad.segment, bad.defect)),
        };
        match kind {
            Some((Segment::Head, Defect::Short)) => counts.head = counts.head.wrapping_add(1),
            Some((Segment::Table, Defect::Short)) => counts.table = counts.table.wrapping_add(1),
            Some((Segment::Table, Defect::Layout)) => counts.end = counts.end.wrapping_add(1),
            _ => counts.other = counts.other.wrapping_add(1),
        }
        place = place.wrapping_add(1);
    }
    counts
}

/// Prints what packing so many bytes as the summary of an interface answers.
fn limit(rt: &HostRuntime, length: usize) -> io::Result<()> {
    let alloc = rt.alloc();
    let summary = vec![in alloc; 0; length]?;
    let parts = Packed {
        summary: &summary,
        library: &[],
        proofs: &[],
        opaques_head: &[],
        opaques_bodies: &[],
    };
    match pack(alloc, Kind::Vos, &parts) {
        Ok(bytes) => println!(rt; "packed {} bytes", bytes.len()),
        Err(PackFault::Limit(size)) => println!(rt; "limit at {size} bytes"),
        Err(PackFault::NoMemory) => println!(rt; "no memory"),
    }
}

/// Prints the bytes in hexadecimal digits.
fn hex(rt: &HostRuntime, bytes: &[u8]) -> io::Result<()> {
    for byte in bytes {
        print!(rt; "{byte:02x}")?;
    }
    println!(rt;)
}

fn main(rt: HostRuntime) -> io::Result<()> {
    let alloc = rt.alloc();
    let parts = parts_with(&NONE, &[]);
    let vo = file_of(alloc, Kind::Vo, &parts);
    let vos = file_of(alloc, Kind::Vos, &parts);
    let vok = file_of(alloc, Kind::Vok, &parts);
    println!(rt; "sizes {} {} {}", vo.len(), vos.len(), vok.len())?;
    hex(&rt, &vok)?;
    report(&rt, "vo", &vo)?;
    report(&rt, "vos", &vos)?;
    report(&rt, "vok", &vok)?;
    let counts = count_cuts(&vo);
    println!(rt;
        "cuts: head short {}, table short {}, table layout {}, other {}",
        counts.head, counts.table, counts.end, counts.other
    )?;
    damages(&rt, &vo)?;
    let mut longer = changed(alloc, &vo, 0, &[])?;
    longer.push(0)?;
    report(&rt, "one byte more", &longer)?;
    report(&rt, "five wrong bytes", b"XXXXX")?;
    report(&rt, "two wrong bytes", b"XX")?;
    let body = file_of(alloc, Kind::Vo, &parts_with(&ONE_BODY, &[1]));
    report(&rt, "one body", &body)?;
    damage(&rt, "its body", &body, 204, &[2])?;
    damage(&rt, "its head", &body, 203, &[2])?;
    let past = file_of(alloc, Kind::Vo, &parts_with(&[0, 0, 0, 9], &[1, 2, 3]));
    report(&rt, "head past the end", &past)?;
    damage(&rt, "its last byte", &past, 182, &[4])?;
    for segment in [
        Segment::Head,
        Segment::Summary,
        Segment::Library,
        Segment::Proofs,
        Segment::Opaques,
    ] {
        place(&rt, &vok, segment)?;
    }
    front(&rt, "by its front", &body, Segment::Opaques)?;
    front(&rt, "by its front", &vos, Segment::Proofs)?;
    let wrong = changed(alloc, &vo, 154, &[2])?;
    front(&rt, "with another library", &wrong, Segment::Summary)?;
    front(&rt, "with another library", &wrong, Segment::Library)?;
    front(&rt, "with another library", &wrong, Segment::Proofs)?;
    front(&rt, "cut", &vo[..100.min(vo.len())], Segment::Summary)?;
    limit(&rt, LONGEST - 72)?;
    limit(&rt, LONGEST - 71)
}
