//! Axioms over an environment of two, P : Prop and p : P.

use crate::session::judged;
use cic_env::{Decl, Env};
use cic_names::NoMemory;
use kernel_samples::{AMPLE, Made, Maker};

/// P -> P
pub fn arrow(maker: Maker) -> Made {
    maker.product(maker.constant("P"), maker.constant("P"))
}

/// The constant P under as many products, one in the codomain of another.
fn chain(maker: Maker, count: u32) -> Made {
    let mut all = maker.constant("P");
    'links: for _ in 0..count {
        all = maker.product(maker.constant("P"), all);
    }
    all
}

fn add(env: &mut Env, decl: Result<Decl, NoMemory>) -> Result<(), NoMemory> {
    match env.push(decl?) {
        Ok(()) => Ok(()),
        Err(_) => Err(NoMemory),
    }
}

fn sample(maker: Maker) -> Result<Env, NoMemory> {
    let mut env = Env::new(maker.alloc);
    add(&mut env, maker.axiom("P", maker.prop()))?;
    add(&mut env, maker.axiom("p", maker.constant("P")))?;
    Ok(env)
}

/// The row of an axiom of that type.
fn row(rt: &HostRuntime, maker: Maker, name: &str, ty: Made, budget: u32) -> anyhow::Result<()> {
    let decl = maker.axiom("d", ty)?;
    let mut env = sample(maker)?;
    let outcome = judged(maker.alloc, &mut env, &decl, budget)?;
    println!(rt; "{name}, within {budget} steps: {outcome}")?;
    Ok(())
}

/// Types that are accepted, each within the steps that its check takes, and within one fewer.
pub fn accepted(rt: &HostRuntime, maker: Maker) -> anyhow::Result<()> {
    for budget in [3, 2] {
        row(rt, maker, "Prop", maker.prop(), budget)?;
        row(rt, maker, "P", maker.constant("P"), budget)?;
    }
    for budget in [9, 8] {
        row(rt, maker, "P -> P", arrow(maker), budget)?;
        let both = maker.product(maker.prop(), maker.prop());
        row(rt, maker, "Prop -> Prop", both, budget)?;
        let bound = maker.product(maker.prop(), maker.variable(0));
        row(rt, maker, "forall x0 : Prop, x0", bound, budget)?;
    }
    for budget in [21, 20] {
        let both = maker.product(arrow(maker), arrow(maker));
        row(rt, maker, "(P -> P) -> P -> P", both, budget)?;
    }
    Ok(())
}

/// Types that are refused.
pub fn refused(rt: &HostRuntime, maker: Maker) -> anyhow::Result<()> {
    row(rt, maker, "p", maker.constant("p"), AMPLE)?;
    let ty = maker.product(maker.constant("p"), maker.constant("P"));
    row(rt, maker, "p -> P", ty, AMPLE)?;
    let ty = maker.product(maker.constant("P"), maker.variable(0));
    row(rt, maker, "forall x0 : P, x0", ty, AMPLE)?;
    let ty = maker.product(maker.variable(0), maker.variable(0));
    let ty = maker.product(maker.prop(), ty);
    row(rt, maker, "forall x0 : Prop, forall x1 : x0, x1", ty, AMPLE)?;
    let ty = maker.product(maker.constant("P"), maker.variable(1));
    row(rt, maker, "P -> ?0", ty, AMPLE)?;
    row(rt, maker, "q", maker.constant("q"), AMPLE)
}

/// 999 products want 2,000 calls within one another, and one more wants 2,001, of which the last is entered after
/// 4,997 steps.
pub fn deepest(rt: &HostRuntime, maker: Maker) -> anyhow::Result<()> {
    for budget in [5_997, 5_996] {
        row(rt, maker, "999 products", chain(maker, 999), budget)?;
    }
    for budget in [AMPLE, 4_997, 4_996] {
        row(rt, maker, "1,000 products", chain(maker, 1_000), budget)?;
    }
    Ok(())
}
