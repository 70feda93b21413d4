//! Reads the sources that stand here, and prints for each where the sentences of its commands stand, and what it requires;
//! or its fault, with the place of it in bytes.
#![tactic(auto)]

mod printing;
mod sources;

fn main(rt: HostRuntime) -> anyhow::Result<()> {
    sources::lines(&rt)?;
    sources::proofs(&rt)?;
    sources::requires_of_files(&rt)?;
    sources::faults(&rt)?;
    sources::long_name(&rt)?;
    sources::nesting(&rt)
}
