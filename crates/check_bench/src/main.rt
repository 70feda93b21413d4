//! Builds declarations by code and checks them: `check_bench SHAPE SIZE`, which prints their steps too, or each shape at a
//! size of its own, and calls that nest as deep as they may. It prints what came of them.
#![tactic(auto)]

mod blocks;
mod checking;
mod depth;
mod shapes;

use crate::checking::Count;
use crate::shapes::Checked;
use anyhow::bail;
use cic_env::Env;
use cic_names::NoMemory;
use kernel_samples::Maker;
use std::env;

fn run_shape(checked: &mut Checked<'_>, shape: &str, size: u32) -> Result<(), NoMemory> {
    checked.common()?;
    match shape {
        "sums" => checked.sums(size),
        "chain" => checked.chain(size),
        "uses" => checked.uses(size),
        "alike" => checked.alike(size),
        "evenness" => checked.evenness(size),
        "trees" => checked.trees(size),
        _ => Ok(()),
    }
}

fn print_shape(rt: &HostRuntime, shape: &str, size: u32) -> anyhow::Result<Count> {
    let maker = Maker { alloc: rt.alloc() };
    let mut env = Env::new(maker.alloc);
    let mut count = Count::new();
    let mut checked = Checked {
        maker,
        env: &mut env,
        count: &mut count,
    };
    run_shape(&mut checked, shape, size)?;
    println!(rt; "{shape} {size}: {count}")?;
    Ok(count)
}

fn print_all(rt: &HostRuntime) -> anyhow::Result<()> {
    print_shape(rt, "common", 0)?;
    print_shape(rt, "sums", 200)?;
    print_shape(rt, "chain", 17)?;
    print_shape(rt, "uses", 1_000)?;
    print_shape(rt, "alike", 12)?;
    print_shape(rt, "evenness", 200)?;
    print_shape(rt, "trees", 7)?;
    depth::print_rows(rt)
}

fn main(rt: HostRuntime) -> anyhow::Result<()> {
    let mut words = env::args(&rt)?;
    match (words.next(), words.next(), words.next()) {
        (_, None, _) => print_all(&rt),
        (_, Some(shape), Some(size)) => {
            let size: u32 = size.as_str().parse()?;
            let count = print_shape(&rt, shape.as_str(), size)?;
            println!(rt; "{} steps", count.steps)?;
            Ok(())
        }
        _ => bail!("check_bench SHAPE SIZE"),
    }
}
