//! Makes a source of a shape and a size, reads it, and prints how many bytes, tokens and commands it has:
//! `parse_bench SHAPE SIZE`, or each shape at two sizes.
#![tactic(auto)]

mod plan;
mod reading;
mod shape;

use crate::shape::{Shape, plan_of, shape_of, sizes_of};
use anyhow::bail;
use std::env;

fn print_row(rt: &HostRuntime, shape: Shape, size: usize) -> anyhow::Result<()> {
    let alloc = rt.alloc();
    let source = plan_of(shape, size).source(alloc)?;
    let counts = reading::read(alloc, source.as_slice())?;
    println!(rt; "{shape} {size}: {} bytes, {counts}", source.len())?;
    Ok(())
}

fn print_all(rt: &HostRuntime) -> anyhow::Result<()> {
    for shape in Shape::ALL {
        let (small, large) = sizes_of(shape);
        print_row(rt, shape, small)?;
        print_row(rt, shape, large)?;
    }
    Ok(())
}

fn main(rt: HostRuntime) -> anyhow::Result<()> {
    let mut words = env::args(&rt)?;
    match (words.next(), words.next(), words.next()) {
        (_, None, _) => print_all(&rt),
        (_, Some(word), Some(size)) => {
            let size: usize = size.as_str().parse()?;
            match shape_of(word.as_str()) {
                Some(shape) => print_row(&rt, shape, size),
                None => bail!("no shape has this name"),
            }
        }
        _ => bail!("parse_bench SHAPE SIZE"),
    }
}
