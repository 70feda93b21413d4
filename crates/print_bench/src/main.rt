//! Makes a chain of so many products or applications, prints it, and says how long the text is: `print_bench SIZE`.
#![tactic(auto)]

use anyhow::bail;
use cic_env::Env;
use cic_names::NoMemory;
use cic_terms::Term;
use gal_print::print_term;
use kernel_samples::{Made, Maker};
use std::env;

/// Products, each over the variable of the one around it.
fn products(maker: Maker, size: u32) -> Made {
    let mut t = maker.variable(0);
    for _i in 0..size {
        t = maker.product(maker.variable(0), t);
    }
    t
}

/// Applications, each the argument of the one around it.
fn applications(maker: Maker, size: u32) -> Made {
    let mut t = maker.prop();
    for _i in 0..size {
        t = maker.apply(maker.constant("c"), t);
    }
    t
}

fn length_of(maker: Maker, t: &Term) -> Result<usize, NoMemory> {
    let env = Env::new(maker.alloc);
    let mut text = String::new(maker.alloc);
    print_term(&mut text, &env, 0, t)?;
    Ok(text.len())
}

fn main(rt: HostRuntime) -> anyhow::Result<()> {
    let maker = Maker { alloc: rt.alloc() };
    let mut words = env::args(&rt)?;
    let (Some(_), Some(size)) = (words.next(), words.next()) else {
        bail!("print_bench SIZE");
    };
    let size: u32 = size.as_str().parse()?;
    let chain = products(maker, size)?;
    println!(rt; "{size} products: {} bytes", length_of(maker, &chain)?)?;
    let chain = applications(maker, size)?;
    println!(rt; "{size} applications: {} bytes", length_of(maker, &chain)?)?;
    Ok(())
}
