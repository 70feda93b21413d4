//! Terms 4,000 deep: how long their texts are.

use crate::samples::text_of;
use cic_env::Env;
use cic_names::NoMemory;
use cic_terms::{Term, depth};
use kernel_samples::{Made, Maker, one};

/// Where each level of a tower stands in the one around it.
#[derive(Clone, Copy)]
enum Place {
    Codomain,
    Domain,
    Body,
    Argument,
    Branch,
    FixDomain,
    FixBody,
}

impl Place {
    fn name(self) -> &'static str {
        match self {
            Place::Codomain => "the codomain of a product",
            Place::Domain => "the domain of a product",
            Place::Body => "the body of a function",
            Place::Argument => "the argument of an application",
            Place::Branch => "the branch of a match",
            Place::FixDomain => "the domain of a fix",
            Place::FixBody => "the body of a fix",
        }
    }
}

/// A term with this one at a place.
fn around(maker: Maker, place: Place, t: Made) -> Made {
    match place {
        Place::Codomain => maker.product(maker.prop(), t),
        Place::Domain => maker.product(t, maker.prop()),
        Place::Body => maker.lambda(maker.prop(), t),
        Place::Argument => maker.apply(maker.prop(), t),
        Place::Branch => maker.matching(
            "M",
            maker.prop(),
            maker.prop(),
            one(maker.alloc, maker.branch(0, t)),
        ),
        Place::FixDomain => in_domain(maker, t),
        Place::FixBody => in_body(maker, t),
    }
}

fn in_domain(maker: Maker, t: Made) -> Made {
    let domains = one(maker.alloc, maker.domain(t));
    let only = maker.function(domains, maker.prop(), maker.prop());
    maker.fix(one(maker.alloc, only))
}

fn in_body(maker: Maker, t: Made) -> Made {
    let domains = one(maker.alloc, maker.domain(maker.prop()));
    let only = maker.function(domains, maker.prop(), t);
    maker.fix(one(maker.alloc, only))
}

/// A tower of so many levels over a variable of no binder.
fn tower(maker: Maker, place: Place, levels: u32) -> Made {
    let mut t = maker.variable(1_000_000);
    for _i in 1..levels {
        t = around(maker, place, t);
    }
    t
}

fn length_of(env: &Env, maker: Maker, t: &Term) -> Result<usize, NoMemory> {
    let text = text_of(maker.alloc, env, 0, t)?;
    Ok(text.len())
}

fn print_row(rt: &HostRuntime, maker: Maker, env: &Env, place: Place) -> anyhow::Result<()> {
    let t = tower(maker, place, 4_000)?;
    let length = length_of(env, maker, &t)?;
    println!(rt; "{} levels in {}: {length} bytes", depth(&t), place.name())?;
    Ok(())
}

pub(crate) fn print_rows(rt: &HostRuntime, maker: Maker, env: &Env) -> anyhow::Result<()> {
    for place in [
        Place::Codomain,
        Place::Domain,
        Place::Body,
        Place::Argument,
        Place::Branch,
        Place::FixDomain,
        Place::FixBody,
    ] {
        print_row(rt, maker, env, place)?;
    }
    Ok(())
}
