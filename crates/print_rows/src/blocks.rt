//! The types that the matches are on.

use cic_env::{Decl, Env};
use cic_names::NoMemory;
use kernel_samples::{Maker, add, one, two};

/// `A.N`, with the constructors `A.Z` and `A.S`.
pub(crate) fn numbers(maker: Maker) -> Result<Decl, NoMemory> {
    let zero = maker.constructor("Z", maker.ind("N"));
    let successor = maker.constructor("S", maker.product(maker.ind("N"), maker.ind("N")));
    maker.inductive(0, "N", maker.set(), two(maker.alloc, zero, successor))
}

/// `A.V`, of two parameters and one index, with the constructor `A.nil`. The types do not matter here.
fn vectors(maker: Maker) -> Result<Decl, NoMemory> {
    let nil = maker.constructor("nil", maker.ind("V"));
    maker.inductive(2, "V", maker.set(), one(maker.alloc, nil))
}

/// `A.N` and `A.V`.
pub(crate) fn environment(maker: Maker) -> Result<Env, NoMemory> {
    let mut env = Env::new(maker.alloc);
    add(&mut env, numbers(maker)?)?;
    add(&mut env, vectors(maker)?)?;
    Ok(env)
}
