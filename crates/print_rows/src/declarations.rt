//! Declarations of each kind, as a sink is sent them.

use crate::blocks::numbers;
use cic_env::{Decl, Env};
use cic_io::{Calls, MemSink};
use cic_names::NoMemory;
use gal_print::print_decl_into;
use kernel_samples::Maker;

/// Sends a declaration to a sink, and prints what it was sent.
fn print_row(
    rt: &HostRuntime,
    maker: Maker,
    env: &Env,
    decl: Result<Decl, NoMemory>,
) -> anyhow::Result<()> {
    let decl = decl?;
    let mut sink = MemSink::new(maker.alloc, Calls::none(maker.alloc))?;
    print_decl_into(maker.alloc, env, &decl, &mut sink)?;
    print!(rt; "{}", std::str::from_utf8(sink.sent())?)?;
    Ok(())
}

pub(crate) fn print_rows(rt: &HostRuntime, m: Maker, env: &Env) -> anyhow::Result<()> {
    print_row(rt, m, env, m.axiom("a", m.product(m.ind("N"), m.set())))?;
    print_row(rt, m, env, m.definition("d", m.ind("N"), m.ctor("Z")))?;
    print_row(rt, m, env, m.theorem("t", m.ind("N"), m.ctor("Z")))?;
    print_row(rt, m, env, numbers(m))
}
