//! Inductive types, matches on them and recursion over them.

use crate::session::{ask, declare};
use cic_env::{Decl, Env};
use cic_names::NoMemory;
use kernel_samples::{Made, Maker, one, two};

/// A type of two constructors without arguments.
fn choice(
    maker: Maker,
    name: &str,
    sort: Made,
    first: &str,
    second: &str,
) -> Result<Decl, NoMemory> {
    let first = maker.constructor(first, maker.ind(name));
    let second = maker.constructor(second, maker.ind(name));
    maker.inductive(0, name, sort, two(maker.alloc, first, second))
}

/// A type of one constructor.
fn single(maker: Maker, name: &str, sort: Made, ctor: &str, ty: Made) -> Result<Decl, NoMemory> {
    let only = maker.constructor(ctor, ty);
    maker.inductive(0, name, sort, one(maker.alloc, only))
}

fn nat(maker: Maker) -> Result<Decl, NoMemory> {
    let zero = maker.constructor("O", maker.ind("nat"));
    let ty = maker.product(maker.ind("nat"), maker.ind("nat"));
    let next = maker.constructor("S", ty);
    maker.inductive(0, "nat", maker.set(), two(maker.alloc, zero, next))
}

/// Lists over a type at the level u.
fn list(maker: Maker) -> Result<Decl, NoMemory> {
    let arity = maker.product(maker.universe("u"), maker.universe("u"));
    let of = maker.apply(maker.ind("list"), maker.variable(0));
    let nil = maker.constructor("nil", maker.product(maker.universe("u"), of));
    let tail = maker.apply(maker.ind("list"), maker.variable(1));
    let all = maker.apply(maker.ind("list"), maker.variable(2));
    let ty = maker.product(maker.variable(0), maker.product(tail, all));
    let cons = maker.constructor("cons", maker.product(maker.universe("u"), ty));
    maker.inductive(1, "list", arity, two(maker.alloc, nil, cons))
}

/// Equality over a type at the level u.
fn equal(maker: Maker) -> Result<Decl, NoMemory> {
    let to = maker.product(maker.variable(1), maker.prop());
    let arity = maker.product(maker.universe("u"), maker.product(maker.variable(0), to));
    let at = maker.apply_two(maker.ind("eq"), maker.variable(1), maker.variable(0));
    let itself = maker.apply(at, maker.variable(0));
    let ty = maker.product(
        maker.universe("u"),
        maker.product(maker.variable(0), itself),
    );
    let only = maker.constructor("eq_refl", ty);
    maker.inductive(2, "eq", arity, one(maker.alloc, only))
}

pub fn numbers(rt: &HostRuntime, maker: Maker, env: &mut Env) -> anyhow::Result<()> {
    declare(rt, env, "nat : Set := O | S (n : nat)", nat(maker))?;
    let both = choice(maker, "bool", maker.set(), "true", "false");
    declare(rt, env, "bool : Set := true | false", both)?;
    declare(
        rt,
        env,
        "list (A : Type@{u}) : Type@{u} := nil | cons (a : A) (l : list A)",
        list(maker),
    )?;
    let either = choice(maker, "either", maker.prop(), "left", "right");
    declare(rt, env, "either : Prop := left | right", either)?;
    let ty = maker.product(maker.prop(), maker.ind("some"));
    let some = single(maker, "some", maker.prop(), "any", ty);
    declare(rt, env, "some : Prop := any (x : Prop)", some)
}

/// fun n : nat => match n return nat with O => O | S m => m end
fn predecessor(maker: Maker) -> Made {
    let zero = maker.branch(0, maker.ctor("O"));
    let next = maker.branch(1, maker.variable(0));
    let branches = two(maker.alloc, zero, next);
    let body = maker.matching("nat", maker.ind("nat"), maker.variable(0), branches);
    maker.lambda(maker.ind("nat"), body)
}

/// A function of a choice, with two branches without arguments.
fn by_choice(maker: Maker, name: &str, into: Made, first: Made, second: Made) -> Made {
    let first = maker.branch(0, first);
    let second = maker.branch(0, second);
    let branches = two(maker.alloc, first, second);
    let body = maker.matching(name, into, maker.variable(0), branches);
    maker.lambda(maker.ind(name), body)
}

pub fn matches(rt: &HostRuntime, maker: Maker, env: &mut Env) -> anyhow::Result<()> {
    let ty = maker.product(maker.ind("nat"), maker.ind("nat"));
    let pred = maker.definition("pred", ty, predecessor(maker));
    declare(
        rt,
        env,
        "pred : nat -> nat := fun n => match n with O => O | S m => m end",
        pred,
    )?;
    let ty = maker.product(maker.ind("bool"), maker.ind("bool"));
    let swap = by_choice(
        maker,
        "bool",
        maker.ind("bool"),
        maker.ctor("false"),
        maker.ctor("true"),
    );
    let negation = maker.definition("neg", ty, swap);
    declare(
        rt,
        env,
        "neg : bool -> bool := fun b => match b with true => false | false => true end",
        negation,
    )?;
    let ty = maker.product(maker.ind("either"), maker.ind("either"));
    let swap = by_choice(
        maker,
        "either",
        maker.ind("either"),
        maker.ctor("right"),
        maker.ctor("left"),
    );
    let other = maker.definition("other", ty, swap);
    declare(
        rt,
        env,
        "other : either -> either := fun e => match e with left => right | right => left end",
        other,
    )
}

/// fix add (n m : nat) : nat := match n with O => m | S p => S (add p m) end
fn addition(maker: Maker) -> Made {
    let recursive = maker.apply_two(maker.variable(3), maker.variable(0), maker.variable(1));
    let zero = maker.branch(0, maker.variable(0));
    let next = maker.branch(1, maker.apply(maker.ctor("S"), recursive));
    let branches = two(maker.alloc, zero, next);
    let body = maker.matching("nat", maker.ind("nat"), maker.variable(1), branches);
    let first = maker.domain(maker.ind("nat"));
    let second = maker.domain(maker.ind("nat"));
    let only = maker.function(two(maker.alloc, first, second), maker.ind("nat"), body);
    maker.fix(one(maker.alloc, only))
}

/// fix loop (n : nat) : nat := loop n
fn endless(maker: Maker) -> Made {
    let body = maker.apply(maker.variable(1), maker.variable(0));
    let only = maker.domain(maker.ind("nat"));
    let only = maker.function(one(maker.alloc, only), maker.ind("nat"), body);
    maker.fix(one(maker.alloc, only))
}

pub fn recursion(rt: &HostRuntime, maker: Maker, env: &mut Env) -> anyhow::Result<()> {
    let to = maker.product(maker.ind("nat"), maker.ind("nat"));
    let ty = maker.product(maker.ind("nat"), to);
    let add = maker.definition("add", ty, addition(maker));
    declare(
        rt,
        env,
        "add : nat -> nat -> nat := fix add (n m : nat) := match n with O => m | S p => S (add p m) end",
        add,
    )?;
    let ty = maker.product(maker.ind("nat"), maker.ind("nat"));
    let wrong = maker.definition("loop", ty, endless(maker));
    ask(
        rt,
        env,
        "loop : nat -> nat := fix loop (n : nat) := loop n",
        wrong,
    )
}

fn numeral(maker: Maker, count: u32) -> Made {
    let mut all = maker.ctor("O");
    'links: for _ in 0..count {
        all = maker.apply(maker.ctor("S"), all);
    }
    all
}

/// add COUNT COUNT = SUM
fn sum_is(maker: Maker, count: u32, sum: u32) -> Made {
    let added = maker.apply_two(
        maker.constant("add"),
        numeral(maker, count),
        numeral(maker, count),
    );
    let at = maker.apply_two(maker.ind("eq"), maker.ind("nat"), added);
    maker.apply(at, numeral(maker, sum))
}

/// eq_refl at a number.
fn by_reflexivity(maker: Maker, number: u32) -> Made {
    maker.apply_two(
        maker.ctor("eq_refl"),
        maker.ind("nat"),
        numeral(maker, number),
    )
}

pub fn equality(rt: &HostRuntime, maker: Maker, env: &mut Env) -> anyhow::Result<()> {
    declare(
        rt,
        env,
        "eq (A : Type@{u}) (x : A) : A -> Prop := eq_refl : eq A x x",
        equal(maker),
    )?;
    let two = maker.theorem("two", sum_is(maker, 1, 2), by_reflexivity(maker, 2));
    declare(
        rt,
        env,
        "two : add 1 1 = 2. Proof. exact (eq_refl nat 2). Qed.",
        two,
    )?;
    let three = maker.theorem("three", sum_is(maker, 1, 3), by_reflexivity(maker, 2));
    ask(
        rt,
        env,
        "three : add 1 1 = 3. Proof. exact (eq_refl nat 2). Qed.",
        three,
    )
}

/// Blocks that are refused.
pub fn refused(rt: &HostRuntime, maker: Maker, env: &mut Env) -> anyhow::Result<()> {
    let no_sort = single(maker, "a", maker.ind("nat"), "c", maker.ind("a"));
    ask(rt, env, "a : nat := c", no_sort)?;
    let other_type = single(maker, "a", maker.set(), "c", maker.ind("nat"));
    ask(rt, env, "a : Set := c : nat", other_type)?;
    let inner = maker.product(maker.ind("a"), maker.ind("a"));
    let negative = single(
        maker,
        "a",
        maker.set(),
        "c",
        maker.product(inner, maker.ind("a")),
    );
    ask(rt, env, "a : Set := c (f : a -> a)", negative)?;
    let ty = maker.product(maker.set(), maker.ind("a"));
    let large = single(maker, "a", maker.set(), "c", ty);
    ask(rt, env, "a : Set := c (x : Set)", large)?;
    let ty = maker.product(maker.constant("q"), maker.ind("a"));
    let unknown = single(maker, "a", maker.set(), "c", ty);
    ask(rt, env, "a : Set := c (x : q)", unknown)?;
    let twice = choice(maker, "a", maker.set(), "c", "c");
    ask(rt, env, "a : Set := c | c", twice)?;
    let unknown = maker.axiom("d", maker.ind("a"));
    ask(rt, env, "d : a", unknown)
}

/// Matches that are refused.
pub fn refused_matches(rt: &HostRuntime, maker: Maker, env: &mut Env) -> anyhow::Result<()> {
    let ty = maker.product(maker.ind("either"), maker.ind("nat"));
    let into_set = by_choice(
        maker,
        "either",
        maker.ind("nat"),
        maker.ctor("O"),
        maker.ctor("O"),
    );
    let wrong = maker.definition("m", ty, into_set);
    ask(
        rt,
        env,
        "m : either -> nat := fun e => match e with left => O | right => O end",
        wrong,
    )?;
    let ty = maker.product(maker.ind("nat"), maker.ind("nat"));
    let no_argument = by_choice(
        maker,
        "nat",
        maker.ind("nat"),
        maker.ctor("O"),
        maker.ctor("O"),
    );
    let wrong = maker.definition("m", ty, no_argument);
    ask(
        rt,
        env,
        "m : nat -> nat := fun n => match n with O => O | S => O end",
        wrong,
    )?;
    let zero = maker.branch(0, maker.ctor("O"));
    let next = maker.branch(0, maker.ctor("O"));
    let branches = two(maker.alloc, zero, next);
    let body = maker.matching("bool", maker.ind("nat"), maker.ctor("O"), branches);
    let wrong = maker.definition("m", maker.ind("nat"), body);
    ask(
        rt,
        env,
        "m : nat := match O with true => O | false => O end",
        wrong,
    )
}
