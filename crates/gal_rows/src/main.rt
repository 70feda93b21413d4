//! Reads the sources that stand here, and prints for each how many commands it has, or its fault and the place of it in
//! bytes.
#![tactic(auto)]

mod made;
mod reading;
mod sources;

/// Reads the source, and prints what it is.
pub(crate) fn row(rt: &HostRuntime, source: &[u8]) -> anyhow::Result<()> {
    let reading = reading::read(rt.alloc(), source)?;
    println!(rt; "  {reading}")?;
    Ok(())
}

fn main(rt: HostRuntime) -> anyhow::Result<()> {
    sources::commands(&rt)?;
    sources::terms(&rt)?;
    sources::words(&rt)?;
    sources::texts(&rt)?;
    made::cuts(&rt)?;
    made::nestings(&rt)?;
    made::long_names(&rt)
}
