//! Makes a term of so many nodes, and lifts, substitutes or compares it so often: `term_bench NODES TIMES CALL`.
#![tactic(auto)]

ghost use Rattle.std.specs.Prelude.{◌≤◌};

use anyhow::bail;
use cic_terms::{Term, TermFault, lift_shared, same, subst_shared};
use std::alloc::Global;
use std::env;
use std::rc::Rc;

fn node(alloc: Global, t: Term) -> Result<Rc<Term>, TermFault> {
    match Rc::new(alloc, t) {
        Ok(node) => Ok(node),
        Err(_) => Err(TermFault::NoMemory),
    }
}

/// Applications of the variable 3, as flat as can be, of `nodes` nodes, or one less where `nodes` is even.
fn whole(alloc: Global, nodes: u32) -> Result<Rc<Term>, TermFault> {
    if nodes < 3 {
        return node(alloc, Term::Rel(3));
    }
    let left = (nodes - 1) / 2;
    let f = whole(alloc, left)?;
    let x = whole(alloc, nodes - 1 - left)?;
    node(alloc, Term::App(f, x))
}

fn main(rt: HostRuntime) -> anyhow::Result<()> {
    let alloc = rt.alloc();
    let mut words = env::args(&rt)?;
    let (Some(_), Some(nodes), Some(times), Some(call)) = (
        words.next(),
        words.next(),
        words.next(),
        words.next(),
    ) else {
        bail!("term_bench NODES TIMES CALL, where CALL is keep, lift, subst or same");
    };
    let nodes: u32 = nodes.as_str().parse()?;
    let times: u32 = times.as_str().parse()?;
    let t = whole(alloc, nodes)?;
    let other = whole(alloc, nodes)?;
    let with = node(alloc, Term::Rel(5))?;
    let mut done: u32 = 0;
    for i in 0..times {
        let ok = match call.as_str() {
            "keep" => lift_shared(alloc, &t, 100 + i % 100, 1).is_ok(),
            "lift" => lift_shared(alloc, &t, 0, 1 + i % 100).is_ok(),
            "subst" => subst_shared(alloc, &t, i % 3, &with).is_ok(),
            "same" if i % 2 == 0 => same(&t, &other),
            _ => same(&other, &t),
        };
        done = done.saturating_add(u32::from(ok));
    }
    println!(rt; "{nodes} nodes, {call} {times} times, {done} done")?;
    Ok(())
}
