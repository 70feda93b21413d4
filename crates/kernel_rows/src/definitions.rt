//! Constants with bodies.

use crate::axioms::arrow;
use crate::session::{ask, declare};
use cic_env::Env;
use kernel_samples::Maker;

/// Functions, applied and unfolded.
pub fn functions(rt: &HostRuntime, maker: Maker, env: &mut Env) -> anyhow::Result<()> {
    let axiom = maker.axiom("P", maker.prop());
    declare(rt, env, "P : Prop", axiom)?;
    let body = maker.lambda(maker.prop(), maker.variable(0));
    let ty = maker.product(maker.prop(), maker.prop());
    let identity = maker.definition("Id", ty, body);
    declare(rt, env, "Id : Prop -> Prop := fun x : Prop => x", identity)?;
    let applied = maker.apply(maker.constant("Id"), maker.constant("P"));
    let ty = maker.product(maker.constant("P"), applied);
    let body = maker.lambda(maker.constant("P"), maker.variable(0));
    let unfolded = maker.definition("t", ty, body);
    declare(rt, env, "t : P -> Id P := fun h : P => h", unfolded)?;
    let again = maker.axiom("t", maker.prop());
    ask(rt, env, "t : Prop", again)?;
    let wrong = maker.definition("w", arrow(maker), maker.prop());
    ask(rt, env, "w : P -> P := Prop", wrong)?;
    let applied = maker.apply(maker.constant("P"), maker.constant("P"));
    let wrong = maker.definition("w", maker.prop(), applied);
    ask(rt, env, "w : Prop := P P", wrong)?;
    let wrong = maker.definition("w", maker.constant("t"), maker.constant("q"));
    ask(rt, env, "w : t := q", wrong)
}

/// Universes: a level below another, a product that is too large for Set, and none that is too large for Prop.
pub fn universes(rt: &HostRuntime, maker: Maker, env: &mut Env) -> anyhow::Result<()> {
    let below = maker.definition("below", maker.universe("v"), maker.universe("u"));
    declare(rt, env, "below : Type@{v} := Type@{u}", below)?;
    let all = maker.product(maker.set(), maker.variable(0));
    let large = maker.definition("large", maker.set(), all);
    ask(rt, env, "large : Set := forall x0 : Set, x0", large)?;
    let all = maker.product(maker.set(), maker.constant("P"));
    let small = maker.definition("small", maker.prop(), all);
    declare(rt, env, "small : Prop := Set -> P", small)?;
    let both = maker.definition("both", maker.prop(), arrow(maker));
    declare(rt, env, "both : Prop := P -> P", both)
}

/// Opaque bodies: their constraints are their own, and they do not unfold.
pub fn opaque(rt: &HostRuntime, maker: Maker, env: &mut Env) -> anyhow::Result<()> {
    let hidden = maker.theorem("hidden", maker.universe("v"), maker.universe("u"));
    declare(
        rt,
        env,
        "hidden : Type@{v}. Proof. exact Type@{u}. Qed.",
        hidden,
    )?;
    let shown = maker.definition("R", maker.prop(), maker.constant("P"));
    declare(rt, env, "R : Prop := P", shown)?;
    let kept = maker.theorem("Q", maker.prop(), maker.constant("P"));
    declare(rt, env, "Q : Prop. Proof. exact P. Qed.", kept)?;
    let identity = maker.lambda(maker.constant("P"), maker.variable(0));
    let ty = maker.product(maker.constant("P"), maker.constant("R"));
    let unfolds = maker.definition("r", ty, identity);
    declare(rt, env, "r : P -> R := fun h : P => h", unfolds)?;
    let identity = maker.lambda(maker.constant("P"), maker.variable(0));
    let ty = maker.product(maker.constant("P"), maker.constant("Q"));
    let stays = maker.definition("s", ty, identity);
    ask(rt, env, "s : P -> Q := fun h : P => h", stays)
}
