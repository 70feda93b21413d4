//! Rows of names, levels, constraints and terms, and each call on terms of the greatest depth, on the stack that every program has. It prints what came of them.
#![tactic(auto)]

mod names;
mod samples;
mod towers;

use cic_names::{GlobalId, Name};

fn main(rt: HostRuntime) -> anyhow::Result<()> {
    let alloc = rt.alloc();
    let id = GlobalId {
        lib: Name::new(alloc, b"Init")?,
        name: Name::new(alloc, b"nat")?,
    };
    for levels in [4_000, 4_001] {
        towers::print_rows(&rt, &id, levels)?;
        towers::print_places(&rt, &id, levels)?;
    }
    samples::print_rows(&rt, &id)?;
    names::print_rows(&rt)
}
