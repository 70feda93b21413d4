//! A function is convertible with its expansion.

use crate::axioms::arrow;
use crate::session::declare;
use cic_env::Env;
use kernel_samples::Maker;

pub fn expansion(rt: &HostRuntime, maker: Maker, env: &mut Env) -> anyhow::Result<()> {
    let axiom = maker.axiom("P", maker.prop());
    declare(rt, env, "P : Prop", axiom)?;
    let axiom = maker.axiom("f", arrow(maker));
    declare(rt, env, "f : P -> P", axiom)?;
    let axiom = maker.axiom("Q", maker.product(arrow(maker), maker.prop()));
    declare(rt, env, "Q : (P -> P) -> Prop", axiom)?;
    let applied = maker.apply(maker.constant("f"), maker.variable(0));
    let expanded = maker.lambda(maker.constant("P"), applied);
    let axiom = maker.axiom("q", maker.apply(maker.constant("Q"), expanded));
    declare(rt, env, "q : Q (fun x : P => f x)", axiom)?;
    let ty = maker.apply(maker.constant("Q"), maker.constant("f"));
    let same = maker.definition("r", ty, maker.constant("q"));
    declare(rt, env, "r : Q f := q", same)
}
