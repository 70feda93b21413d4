//! Runs command lines one after another, over the folder of the host and over folders in memory, and prints after each
//! the status it ends with.
#![tactic(auto)]

use cic_io::{Calls, FileName, Folder, HostFolder, HostSink, MemFolder, MemSink, NamedFiles, Sink};
use cic_top::{Answer, Words, run};
use memory::NoMemory;
use std::alloc::Global;

/// The words of a line.
fn words_of(alloc: Global, line: &str) -> Result<Words, NoMemory> {
    let mut items = Vec::new(alloc);
    for word in line.split_whitespace() {
        items.push(String::from_str(alloc, word)?)?;
    }
    Ok(Words::new(items))
}

/// How a run ended: its status, and what failed, if anything did.
#[derive(Clone, Copy)]
struct Ending {
    status: u8,
    failed: &'static str,
}

fn failed_in(answer: &Answer) -> &'static str {
    match answer {
        Answer::ReadFault => ", the folder failed",
        Answer::SinkFault => ", the sink failed",
        _ => "",
    }
}

/// Runs the words.
fn end_of<F: Folder, O: Sink>(alloc: Global, words: &Words, folder: &mut F, out: &mut O) -> Ending {
    let answer = run(alloc, words, folder, out);
    Ending {
        status: answer.status(),
        failed: failed_in(&answer),
    }
}

fn print_ending(rt: &HostRuntime, ending: Ending) -> anyhow::Result<()> {
    println!(rt; "status {}{}", ending.status, ending.failed)?;
    Ok(())
}

/// Runs the words of a line over the folder that the program runs in.
fn host_row(rt: &HostRuntime, line: &str) -> anyhow::Result<()> {
    let words = words_of(rt.alloc(), line)?;
    let mut folder = HostFolder::new(rt);
    let mut out = HostSink::new(rt);
    let ending = end_of(rt.alloc(), &words, &mut folder, &mut out);
    print_ending(rt, ending)
}

/// Calls of which one fails, counted from 1. None fails at 0.
fn failing(alloc: Global, number: u64) -> Result<Calls, NoMemory> {
    let mut calls = Calls::none(alloc);
    calls.add(number)?;
    Ok(calls)
}

/// A folder that holds A.v alone.
fn folder_of(alloc: Global, source: &[u8], failing_read: u64) -> anyhow::Result<MemFolder> {
    let mut files = NamedFiles::new(alloc);
    files.add(FileName::new(alloc, b"A.v")?, source.to_vec(alloc)?)?;
    Ok(MemFolder::new(alloc, files, failing(alloc, failing_read)?)?)
}

fn sink_of(alloc: Global, failing_write: u64) -> Result<MemSink, NoMemory> {
    MemSink::new(alloc, failing(alloc, failing_write)?)
}

/// Runs the words over a folder and a sink in memory, and prints what the sink took.
fn print_run(
    rt: &HostRuntime,
    words: &Words,
    folder: &mut MemFolder,
    sink: &mut MemSink,
) -> anyhow::Result<()> {
    let ending = end_of(rt.alloc(), words, folder, sink);
    HostSink::new(rt).write(sink.sent())?;
    print_ending(rt, ending)
}

fn into_sink(
    rt: &HostRuntime,
    words: &Words,
    folder: &mut MemFolder,
    failing_write: u64,
) -> anyhow::Result<()> {
    let mut sink = sink_of(rt.alloc(), failing_write)?;
    print_run(rt, words, folder, &mut sink)
}

fn over_folder(
    rt: &HostRuntime,
    words: &Words,
    source: &[u8],
    failing_read: u64,
    failing_write: u64,
) -> anyhow::Result<()> {
    let mut folder = folder_of(rt.alloc(), source, failing_read)?;
    into_sink(rt, words, &mut folder, failing_write)
}

/// Compiles A.v over a folder and a sink of which each fails at one call, counted from 1, or at none, which is 0.
fn faulty_row(
    rt: &HostRuntime,
    source: &[u8],
    failing_read: u64,
    failing_write: u64,
) -> anyhow::Result<()> {
    let words = words_of(rt.alloc(), "coqc A.v")?;
    over_folder(rt, &words, source, failing_read, failing_write)
}

/// Compiles A.v where nothing fails.
fn row(rt: &HostRuntime, source: &[u8]) -> anyhow::Result<()> {
    faulty_row(rt, source, 0, 0)
}

fn host_rows(rt: &HostRuntime) -> anyhow::Result<()> {
    let lines = [
        "",
        "coqc",
        "coqc A.w",
        "coqc A.v B",
        "coqc A.v",
        "coqc E.v",
        "coqc M.v",
        "coqc D.v",
        "coqc N.v",
        "coqc R.v",
        "coqc I.v",
        "coqc U.v",
        "coqc L.v",
        "coqc F.v",
        "coqc G.v",
    ];
    for line in lines {
        host_row(rt, line)?;
    }
    Ok(())
}

/// Sources as they are written.
fn written(rt: &HostRuntime) -> anyhow::Result<()> {
    let sources = [
        " \t\r\n",
        "Axiom P : Prop. Axiom Q : Prop.",
        "Axiom Q : Prop. Axiom P : Prop.",
        "Axiom a_ : Prop. Axiom a' : Prop. Axiom B : Prop. Axiom a : Prop.",
        "Axiom a : Prop. Axiom a : b.",
        "Axiom a : Prop. Axiom b",
        "Axiom fun : Prop.",
    ];
    for source in sources {
        row(rt, source.as_bytes())?;
    }
    row(rt, b"Axiom \xff : Prop.")
}

/// A source that declares a name of so many letters.
fn named(alloc: Global, letters: usize) -> Result<Vec<u8>, NoMemory> {
    let mut source = b"Axiom ".to_vec(alloc)?;
    for _ in 0..letters {
        source.push(b'a')?;
    }
    for byte in b" : Prop." {
        source.push(*byte)?;
    }
    Ok(source)
}

/// The longest name and the longest source, and one byte more of each.
fn longest(rt: &HostRuntime) -> anyhow::Result<()> {
    let alloc = rt.alloc();
    for letters in [255, 256] {
        let source = named(alloc, letters)?;
        row(rt, source.as_slice())?;
    }
    for length in [65_536, 65_537] {
        let blanks = vec![in alloc; b' '; length]?;
        row(rt, blanks.as_slice())?;
    }
    Ok(())
}

/// A fault at each read, at a read that is not made, and at the write.
fn faults(rt: &HostRuntime) -> anyhow::Result<()> {
    let source = b"Axiom P : Prop.".as_slice();
    faulty_row(rt, source, 1, 0)?;
    faulty_row(rt, source, 2, 0)?;
    faulty_row(rt, source, 3, 2)?;
    faulty_row(rt, source, 0, 1)
}

fn main(rt: HostRuntime) -> anyhow::Result<()> {
    host_rows(&rt)?;
    written(&rt)?;
    longest(&rt)?;
    faults(&rt)
}
