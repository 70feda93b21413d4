//! Declarations that the shapes stand on: numbers, truth values, equality of numbers, lists and trees.

use cic_env::{CtorDecl, Decl};
use cic_names::NoMemory;
use cic_terms::FixBody;
use kernel_samples::{Made, Maker, one, two};

type Declared = Result<Decl, NoMemory>;

pub fn nat(maker: Maker) -> Made {
    maker.ind("nat")
}

pub fn truth(maker: Maker) -> Made {
    maker.ind("bool")
}

/// `Inductive nat : Set := O | S : nat -> nat.`
pub fn numbers(maker: Maker) -> Declared {
    let zero = maker.constructor("O", nat(maker));
    let successor = maker.constructor("S", maker.product(nat(maker), nat(maker)));
    maker.inductive(0, "nat", maker.set(), two(maker.alloc, zero, successor))
}

/// `Inductive bool : Set := true | false.`
pub fn truth_values(maker: Maker) -> Declared {
    let first = maker.constructor("true", truth(maker));
    let second = maker.constructor("false", truth(maker));
    maker.inductive(0, "bool", maker.set(), two(maker.alloc, first, second))
}

/// `a` and `b` are equal.
pub fn equation(maker: Maker, eq: &str, a: Made, b: Made) -> Made {
    maker.apply_two(maker.ind(eq), a, b)
}

/// `Inductive EQ (a : TYPE) : TYPE -> Prop := REFL : EQ a a.`
fn equality(maker: Maker, eq: &str, refl: &str, ty: &str) -> Declared {
    let arity = maker.product(maker.ind(ty), maker.product(maker.ind(ty), maker.prop()));
    let same = equation(maker, eq, maker.variable(0), maker.variable(0));
    let only = maker.constructor(refl, maker.product(maker.ind(ty), same));
    maker.inductive(1, eq, arity, one(maker.alloc, only))
}

pub fn equal_numbers(maker: Maker) -> Declared {
    equality(maker, "eq", "refl", "nat")
}

pub fn equal_truth_values(maker: Maker) -> Declared {
    equality(maker, "eqb", "reflb", "bool")
}

/// The theorem that a number is `b`, with the proof that `b` is itself.
pub fn equal(maker: Maker, name: &str, a: Made, b: Made, again: Made) -> Declared {
    let ty = equation(maker, "eq", a, b);
    maker.theorem(name, ty, maker.apply(maker.ctor("refl"), again))
}

/// The theorem that a truth value is `true`.
pub fn is_true(maker: Maker, name: &str, a: Made) -> Declared {
    let ty = equation(maker, "eqb", a, maker.ctor("true"));
    maker.theorem(
        name,
        ty,
        maker.apply(maker.ctor("reflb"), maker.ctor("true")),
    )
}

pub fn successor(maker: Maker, n: Made) -> Made {
    maker.apply(maker.ctor("S"), n)
}

/// The term under so many successors.
pub fn successors(maker: Maker, of: Made, count: u32) -> Made {
    let mut made = of;
    'links: for _ in 0..count {
        made = successor(maker, made);
    }
    made
}

/// A number.
pub fn number(maker: Maker, n: u32) -> Made {
    successors(maker, maker.ctor("O"), n)
}

pub fn plus(maker: Maker, a: Made, b: Made) -> Made {
    maker.apply_two(maker.constant("plus"), a, b)
}

/// `Fixpoint plus (n m : nat) : nat := match n with O => m | S p => S (plus p m) end.`
pub fn addition(maker: Maker) -> Declared {
    let again = maker.apply_two(maker.variable(3), maker.variable(0), maker.variable(1));
    let of_zero = maker.branch(0, maker.variable(0));
    let of_successor = maker.branch(1, successor(maker, again));
    let branches = two(maker.alloc, of_zero, of_successor);
    let body = maker.matching("nat", nat(maker), maker.variable(1), branches);
    let first = maker.domain(nat(maker));
    let second = maker.domain(nat(maker));
    let only = maker.function(two(maker.alloc, first, second), nat(maker), body);
    let ty = maker.product(nat(maker), maker.product(nat(maker), nat(maker)));
    maker.definition("plus", ty, maker.fix(one(maker.alloc, only)))
}

/// `match n with O => ZERO | S p => OTHER p end`, where the other function is a variable.
fn side(maker: Maker, zero: &str, other: u32) -> Result<FixBody, NoMemory> {
    let of_zero = maker.branch(0, maker.ctor(zero));
    let call = maker.apply(maker.variable(other), maker.variable(0));
    let branches = two(maker.alloc, of_zero, maker.branch(1, call));
    let body = maker.matching("nat", truth(maker), maker.variable(0), branches);
    let only = maker.domain(nat(maker));
    maker.function(one(maker.alloc, only), truth(maker), body)
}

/// `Fixpoint even (n : nat) : bool := match n with O => true | S p => odd p end with odd (n : nat) ..`
pub fn parity(maker: Maker) -> Declared {
    let even = side(maker, "true", 2);
    let odd = side(maker, "false", 3);
    let ty = maker.product(nat(maker), truth(maker));
    maker.definition("even", ty, maker.fix(two(maker.alloc, even, odd)))
}

fn list(maker: Maker, of: Made) -> Made {
    maker.apply(maker.ind("list"), of)
}

/// `Inductive list (A : Set) : Set := nil | cons : A -> list A -> list A.`
pub fn lists(maker: Maker) -> Declared {
    let arity = maker.product(maker.set(), maker.set());
    let nil = maker.product(maker.set(), list(maker, maker.variable(0)));
    let tail = maker.product(
        list(maker, maker.variable(1)),
        list(maker, maker.variable(2)),
    );
    let cons = maker.product(maker.set(), maker.product(maker.variable(0), tail));
    let first = maker.constructor("nil", nil);
    let second = maker.constructor("cons", cons);
    maker.inductive(1, "list", arity, two(maker.alloc, first, second))
}

fn tree(maker: Maker) -> Made {
    maker.ind("tree")
}

/// `Inductive tree : Set := node : list tree -> tree.`
pub fn trees(maker: Maker) -> Declared {
    let node = maker.product(list(maker, tree(maker)), tree(maker));
    let only = maker.constructor("node", node);
    maker.inductive(0, "tree", maker.set(), one(maker.alloc, only))
}

fn nil(maker: Maker) -> Made {
    maker.apply(maker.ctor("nil"), tree(maker))
}

fn cons(maker: Maker, head: Made, tail: Made) -> Made {
    maker.apply_two(maker.apply(maker.ctor("cons"), tree(maker)), head, tail)
}

/// A tree so many levels deep, of which each node has two trees, or none.
pub fn whole_tree(maker: Maker, levels: u32) -> Made {
    let mut made = maker.apply(maker.ctor("node"), nil(maker));
    for _ in 1..levels {
        let part = made?;
        let again = part.clone()?;
        let both = cons(maker, Ok(again), cons(maker, Ok(part), nil(maker)));
        made = maker.apply(maker.ctor("node"), both);
    }
    made
}

/// `fix sizes (r : list tree) : nat := match r with nil => O | cons x r => plus (size x) (sizes r) end`
fn sizes(maker: Maker) -> Made {
    let of_head = maker.apply(maker.variable(6), maker.variable(1));
    let of_tail = maker.apply(maker.variable(3), maker.variable(0));
    let of_nil = maker.branch(0, maker.ctor("O"));
    let of_cons = maker.branch(2, plus(maker, of_head, of_tail));
    let branches = two(maker.alloc, of_nil, of_cons);
    let body = maker.matching("list", nat(maker), maker.variable(0), branches);
    let only = maker.domain(list(maker, tree(maker)));
    let function = maker.function(one(maker.alloc, only), nat(maker), body);
    maker.fix(one(maker.alloc, function))
}

/// `Fixpoint size (t : tree) : nat := match t with node r => S (sizes r) end.`
pub fn size(maker: Maker) -> Declared {
    let inner = maker.apply(sizes(maker), maker.variable(0));
    let of_node = maker.branch(1, successor(maker, inner));
    let branches = one(maker.alloc, of_node);
    let body = maker.matching("tree", nat(maker), maker.variable(0), branches);
    let only = maker.domain(tree(maker));
    let function = maker.function(one(maker.alloc, only), nat(maker), body);
    let ty = maker.product(tree(maker), nat(maker));
    maker.definition("size", ty, maker.fix(one(maker.alloc, function)))
}
