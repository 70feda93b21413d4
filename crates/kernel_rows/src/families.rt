//! Blocks of several types and nested types, functions that call each other, and what a match may go into.

use crate::made::{block_of_two, by_second, matching_at_one, second_of, type_in_set};
use crate::session::{ask, declare};
use cic_env::{Decl, Env};
use cic_names::NoMemory;
use cic_terms::{Branch, FixBody};
use kernel_samples::{Made, Maker, one, two};

fn nat(maker: Maker) -> Made {
    maker.ind("nat")
}

/// Inductive tree : Set := node (f : forest) with forest : Set := empty | more (t : tree) (f : forest).
fn trees(maker: Maker) -> Result<Decl, NoMemory> {
    let ty = maker.product(maker.ind("forest"), maker.ind("tree"));
    let node = maker.constructor("node", ty);
    let tree = type_in_set(maker, "tree", one(maker.alloc, node));
    let empty = maker.constructor("empty", maker.ind("forest"));
    let to = maker.product(maker.ind("forest"), maker.ind("forest"));
    let more = maker.constructor("more", maker.product(maker.ind("tree"), to));
    let forest = type_in_set(maker, "forest", two(maker.alloc, empty, more));
    block_of_two(maker, tree, forest)
}

/// Trees whose nodes have lists of trees.
fn nested_trees(maker: Maker) -> Result<Decl, NoMemory> {
    let of = maker.apply(maker.ind("list"), maker.ind("rose"));
    let only = maker.constructor("rnode", maker.product(of, maker.ind("rose")));
    maker.inductive(0, "rose", maker.universe("u"), one(maker.alloc, only))
}

/// fix sizes (l : list rose) : nat := match l with nil => O | cons x l => add (size x) (sizes l) end
fn sizes(maker: Maker) -> Made {
    let of_head = maker.apply(maker.variable(6), maker.variable(1));
    let of_tail = maker.apply(maker.variable(3), maker.variable(0));
    let sum = maker.apply_two(maker.constant("add"), of_head, of_tail);
    let branches = two(
        maker.alloc,
        maker.branch(0, maker.ctor("O")),
        maker.branch(2, sum),
    );
    let body = maker.matching("list", nat(maker), maker.variable(0), branches);
    let of = maker.domain(maker.apply(maker.ind("list"), maker.ind("rose")));
    let function = maker.function(one(maker.alloc, of), nat(maker), body);
    maker.fix(one(maker.alloc, function))
}

/// fix size (r : rose) : nat := match r with rnode l => S (sizes l) end
fn size(maker: Maker) -> Made {
    let inner = maker.apply(sizes(maker), maker.variable(0));
    let branch = maker.branch(1, maker.apply(maker.ctor("S"), inner));
    let branches = one(maker.alloc, branch);
    let body = maker.matching("rose", nat(maker), maker.variable(0), branches);
    let of = maker.domain(maker.ind("rose"));
    let function = maker.function(one(maker.alloc, of), nat(maker), body);
    maker.fix(one(maker.alloc, function))
}

pub fn blocks(rt: &HostRuntime, maker: Maker, env: &mut Env) -> anyhow::Result<()> {
    declare(
        rt,
        env,
        "tree : Set := node (f : forest) with forest : Set := empty | more (t : tree) (f : forest)",
        trees(maker),
    )?;
    declare(
        rt,
        env,
        "rose : Type@{u} := rnode (l : list rose)",
        nested_trees(maker),
    )?;
    let ty = maker.product(maker.ind("rose"), nat(maker));
    let defined = maker.definition("size", ty, size(maker));
    declare(
        rt,
        env,
        "size : rose -> nat := fix size r := match r with rnode l => S (sizes l) end",
        defined,
    )
}

/// match n with O => ZERO | S p => OTHER p end, where the other function is a variable.
fn side(maker: Maker, zero: &str, other: u32) -> Result<FixBody, NoMemory> {
    let of_zero = maker.branch(0, maker.ctor(zero));
    let call = maker.apply(maker.variable(other), maker.variable(0));
    let branches = two(maker.alloc, of_zero, maker.branch(1, call));
    let body = maker.matching("nat", maker.ind("bool"), maker.variable(0), branches);
    let only = maker.domain(nat(maker));
    maker.function(one(maker.alloc, only), maker.ind("bool"), body)
}

fn both_sides(maker: Maker) -> Result<Vec<FixBody>, NoMemory> {
    two(maker.alloc, side(maker, "true", 2), side(maker, "false", 3))
}

/// fix g (m n : nat) : nat := match n with O => m | S p => g m p end
fn descending(maker: Maker) -> Result<FixBody, NoMemory> {
    let call = maker.apply_two(maker.variable(3), maker.variable(2), maker.variable(0));
    let branches = two(
        maker.alloc,
        maker.branch(0, maker.variable(1)),
        maker.branch(1, call),
    );
    let body = maker.matching("nat", nat(maker), maker.variable(0), branches);
    let domains = two(
        maker.alloc,
        maker.domain(nat(maker)),
        maker.domain(nat(maker)),
    );
    maker.function(domains, nat(maker), body)
}

pub fn recursion(rt: &HostRuntime, maker: Maker, env: &mut Env) -> anyhow::Result<()> {
    let ty = maker.product(nat(maker), maker.ind("bool"));
    let even = maker.definition("even", ty, maker.fix(both_sides(maker)));
    declare(
        rt,
        env,
        "even n := match n with O => true | S p => odd p end with odd n := .., even",
        even,
    )?;
    let ty = maker.product(nat(maker), maker.ind("bool"));
    let odd = maker.definition("odd", ty, second_of(maker, both_sides(maker)));
    declare(rt, env, "the same, odd", odd)?;
    let ty = maker.product(nat(maker), maker.product(nat(maker), nat(maker)));
    let first = maker.fix(one(maker.alloc, descending(maker)));
    let wrong = maker.definition("g", ty, first);
    ask(
        rt,
        env,
        "g m n := match n with O => m | S p => g m p end, by m",
        wrong,
    )?;
    let ty = maker.product(nat(maker), maker.product(nat(maker), nat(maker)));
    let second = maker.fix(one(maker.alloc, by_second(descending(maker))));
    let right = maker.definition("g", ty, second);
    declare(rt, env, "the same, by n", right)
}

/// Two numbers are equal.
fn equal(maker: Maker, a: Made, b: Made) -> Made {
    maker.apply(maker.apply_two(maker.ind("eq"), nat(maker), a), b)
}

fn itself(maker: Maker, number: Made) -> Made {
    maker.apply_two(maker.ctor("eq_refl"), nat(maker), number)
}

/// A number with nothing added to it.
fn with_zero(maker: Maker, number: Made) -> Made {
    maker.apply_two(maker.constant("add"), number, maker.ctor("O"))
}

fn next(maker: Maker, number: Made) -> Made {
    maker.apply(maker.ctor("S"), number)
}

/// add n O = n, where n is the innermost variable.
fn statement(maker: Maker) -> Made {
    let sum = with_zero(maker, maker.variable(0));
    equal(maker, sum, maker.variable(0))
}

/// match f p in eq _ _ y return S (add p O) = S y with eq_refl => eq_refl nat (S (add p O)) end
fn successor_case(maker: Maker) -> Result<Branch, NoMemory> {
    let sum = next(maker, with_zero(maker, maker.variable(2)));
    let motive = equal(maker, sum, next(maker, maker.variable(1)));
    let call = maker.apply(maker.variable(2), maker.variable(0));
    let again = itself(maker, next(maker, with_zero(maker, maker.variable(0))));
    let branch = maker.branch(0, again);
    maker.branch(1, matching_at_one(maker, "eq", motive, call, branch))
}

/// fix f (n : nat) : add n O = n := match n as k return add k O = k with O => eq_refl nat O | S p => .. end
fn induction(maker: Maker) -> Made {
    let of_zero = maker.branch(0, itself(maker, maker.ctor("O")));
    let branches = two(maker.alloc, of_zero, successor_case(maker));
    let body = maker.matching("nat", statement(maker), maker.variable(0), branches);
    let only = maker.domain(nat(maker));
    let function = maker.function(one(maker.alloc, only), statement(maker), body);
    maker.fix(one(maker.alloc, function))
}

/// fun (x y : nat) (h : x = y) => match h in eq _ _ z return nat with eq_refl => O end
fn by_equality(maker: Maker) -> Made {
    let branch = maker.branch(0, maker.ctor("O"));
    let body = matching_at_one(maker, "eq", nat(maker), maker.variable(0), branch);
    let hypothesis = equal(maker, maker.variable(1), maker.variable(0));
    let inner = maker.lambda(nat(maker), maker.lambda(hypothesis, body));
    maker.lambda(nat(maker), inner)
}

/// forall x y : nat, x = y -> nat
fn from_equality(maker: Maker) -> Made {
    let hypothesis = equal(maker, maker.variable(1), maker.variable(0));
    let inner = maker.product(nat(maker), maker.product(hypothesis, nat(maker)));
    maker.product(nat(maker), inner)
}

pub fn equality(rt: &HostRuntime, maker: Maker, env: &mut Env) -> anyhow::Result<()> {
    let ty = maker.product(nat(maker), statement(maker));
    let theorem = maker.theorem("plus_n_O", ty, induction(maker));
    declare(
        rt,
        env,
        "plus_n_O : forall n, add n O = n. Proof. exact (fix f n := ..). Qed.",
        theorem,
    )?;
    let defined = maker.definition("e", from_equality(maker), by_equality(maker));
    declare(
        rt,
        env,
        "e : forall x y, x = y -> nat := fun x y h => match h with eq_refl => O end",
        defined,
    )
}

/// A function of a type without parameters by a match with one branch, or with none.
fn by_match(
    maker: Maker,
    name: &str,
    into: Made,
    branch: Option<Result<Branch, NoMemory>>,
) -> Made {
    let branches = match branch {
        Some(branch) => one(maker.alloc, branch),
        None => Ok(Vec::new(maker.alloc)),
    };
    let body = maker.matching(name, into, maker.variable(0), branches);
    maker.lambda(maker.ind(name), body)
}

pub fn eliminations(rt: &HostRuntime, maker: Maker, env: &mut Env) -> anyhow::Result<()> {
    let none = maker.inductive(0, "False", maker.prop(), Ok(Vec::new(maker.alloc)));
    declare(rt, env, "False : Prop :=", none)?;
    let ty = maker.product(maker.ind("False"), nat(maker));
    let body = by_match(maker, "False", nat(maker), None);
    let absurd = maker.definition("absurd", ty, body);
    declare(
        rt,
        env,
        "absurd : False -> nat := fun h => match h with end",
        absurd,
    )?;
    let ty = maker.product(maker.ind("some"), nat(maker));
    let branch = Some(maker.branch(1, maker.ctor("O")));
    let into_set = maker.definition("m", ty, by_match(maker, "some", nat(maker), branch));
    ask(
        rt,
        env,
        "m : some -> nat := fun s => match s with any x => O end",
        into_set,
    )?;
    let ty = maker.product(nat(maker), nat(maker));
    let branch = Some(maker.branch(0, maker.ctor("O")));
    let few = maker.definition("m", ty, by_match(maker, "nat", nat(maker), branch));
    ask(
        rt,
        env,
        "m : nat -> nat := fun n => match n with O => O end",
        few,
    )
}

pub fn anything(rt: &HostRuntime, maker: Maker, env: &mut Env) -> anyhow::Result<()> {
    let ty = maker.product(maker.ind("some"), maker.ind("some"));
    let again = maker.apply(maker.ctor("any"), maker.variable(0));
    let branch = Some(maker.branch(1, again));
    let body = by_match(maker, "some", maker.ind("some"), branch);
    let again = maker.definition("again", ty, body);
    declare(
        rt,
        env,
        "again : some -> some := fun s => match s with any x => any x end",
        again,
    )
}
