//! Reads a source, and prints what it is.
use anyhow::bail;
use cic_names::Name;
use gal_file::{File, ParseFault, read, tokens_of};
use gal_lines::Lines;
use gal_requires::{RequireList, RootFault, required, roots};
use std::alloc::Global;

/// How many bytes a source has at most.
const LONGEST_SOURCE: usize = 65_536;

fn text_of(bytes: &[u8]) -> &str {
    str::from_utf8(bytes).unwrap_or("?")
}

fn print_fault(rt: &HostRuntime, fault: ParseFault) -> anyhow::Result<()> {
    match fault {
        ParseFault::BadChar { place } => println!(rt; "  bad character at byte {place}")?,
        ParseFault::OpenComment { place } => println!(rt; "  open comment at byte {place}")?,
        ParseFault::LongName { place } => println!(rt; "  long name at byte {place}")?,
        ParseFault::Syntax { place } => println!(rt; "  syntax at byte {place}")?,
        ParseFault::Nesting { place } => println!(rt; "  nesting at byte {place}")?,
        ParseFault::NoMemory => bail!("no memory"),
    }
    Ok(())
}

fn print_sentence(rt: &HostRuntime, lines: Lines) -> anyhow::Result<()> {
    println!(rt;
        "    byte {}: line {}, characters {}-{}",
        lines.place, lines.line, lines.from, lines.to
    )?;
    Ok(())
}

fn print_sentences(rt: &HostRuntime, file: &File<'_>) -> anyhow::Result<()> {
    for command in 0..file.sentences.len() {
        println!(rt; "  command {command}")?;
        for lines in file.sentences.of_command(command) {
            print_sentence(rt, *lines)?;
        }
    }
    Ok(())
}

fn print_roots(
    rt: &HostRuntime,
    list: &RequireList<'_, '_>,
    prefix: Option<&Name>,
) -> anyhow::Result<()> {
    match roots(rt.alloc(), list, prefix) {
        Ok(libraries) => {
            for library in libraries.as_slice() {
                println!(rt; "    {library}")?;
            }
            Ok(())
        }
        Err(RootFault::Unknown { name, lines }) => {
            println!(rt;
                "    unknown {} in line {}, characters {}-{}",
                text_of(name.text),
                lines.line,
                lines.from,
                lines.to
            )?;
            Ok(())
        }
        Err(RootFault::NoMemory) => bail!("no memory"),
    }
}

fn print_requires(rt: &HostRuntime, file: &File<'_>) -> anyhow::Result<()> {
    let commands = file.commands.as_slice();
    if file.sentences.len() != commands.len() {
        bail!("commands without sentences");
    }
    let list = required(rt.alloc(), commands, &file.sentences)?;
    if list.items.is_empty() {
        return Ok(());
    }
    println!(rt; "  roots")?;
    print_roots(rt, &list, None)?;
    println!(rt; "  roots behind the prefix P")?;
    let prefix = Name::new(rt.alloc(), b"P")?;
    print_roots(rt, &list, Some(&prefix))
}

fn print_file(rt: &HostRuntime, file: &File<'_>) -> anyhow::Result<()> {
    print_sentences(rt, file)?;
    print_requires(rt, file)
}

/// Reads the source, and prints what it is.
pub(crate) fn row(rt: &HostRuntime, source: &[u8]) -> anyhow::Result<()> {
    if source.len() > LONGEST_SOURCE {
        bail!("a source is too long");
    }
    let tokens = match tokens_of(rt.alloc(), source) {
        Ok(tokens) => tokens,
        Err(fault) => return print_fault(rt, fault),
    };
    match read(rt.alloc(), source, &tokens) {
        Ok(file) => print_file(rt, &file),
        Err(fault) => print_fault(rt, fault),
    }
}
