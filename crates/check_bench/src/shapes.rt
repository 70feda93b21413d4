//! The declarations of each shape.

use crate::blocks::{
    addition, equal, equal_numbers, equal_truth_values, is_true, lists, nat, number, numbers,
    parity, plus, size, successor, trees, truth, truth_values, whole_tree,
};
use crate::checking::{Count, declare};
use cic_env::{Decl, Env};
use cic_names::NoMemory;
use kernel_samples::{Made, Maker, two};

/// An environment, with what came of its declarations.
#[derive(Drop)]
pub struct Checked<'a> {
    pub maker: Maker,
    pub env: &'a mut Env,
    pub count: &'a mut Count,
}

impl<'a> Checked<'a> {
    fn declare(&mut self, decl: Result<Decl, NoMemory>) -> Result<(), NoMemory> {
        declare(self.maker.alloc, self.env, decl, self.count)
    }

    /// The types, and the functions, that every shape stands on.
    pub fn common(&mut self) -> Result<(), NoMemory> {
        self.declare(numbers(self.maker))?;
        self.declare(truth_values(self.maker))?;
        self.declare(equal_numbers(self.maker))?;
        self.declare(equal_truth_values(self.maker))?;
        self.declare(addition(self.maker))?;
        self.declare(parity(self.maker))?;
        self.declare(lists(self.maker))?;
        self.declare(trees(self.maker))?;
        self.declare(size(self.maker))
    }

    /// `n + n` is twice n, by evaluation.
    pub fn sums(&mut self, n: u32) -> Result<(), NoMemory> {
        let maker = self.maker;
        let twice = n.saturating_mul(2);
        let sum = plus(maker, number(maker, n), number(maker, n));
        self.declare(equal(
            maker,
            "sum",
            sum,
            number(maker, twice),
            number(maker, twice),
        ))
    }

    /// A chain of truth values, each a match on the one before; the last is `true`, by evaluation.
    pub fn chain(&mut self, n: u32) -> Result<(), NoMemory> {
        let maker = self.maker;
        self.declare(maker.definition("b0", truth(maker), maker.ctor("true")))?;
        for i in 1..n {
            let before = format!(in maker.alloc; "b{}", i - 1)?;
            let name = format!(in maker.alloc; "b{i}")?;
            let body = given_back(maker, before.as_str());
            self.declare(maker.definition(name.as_str(), truth(maker), body))?;
        }
        let last = format!(in maker.alloc; "b{}", n.saturating_sub(1))?;
        self.declare(is_true(maker, "last", maker.constant(last.as_str())))
    }

    /// Definitions, each the successor of the one before, and a theorem on each.
    pub fn uses(&mut self, n: u32) -> Result<(), NoMemory> {
        let maker = self.maker;
        self.declare(maker.definition("d0", nat(maker), maker.ctor("O")))?;
        for i in 1..n {
            let before = format!(in maker.alloc; "d{}", i - 1)?;
            let name = format!(in maker.alloc; "d{i}")?;
            let about = format!(in maker.alloc; "t{i}")?;
            let next = successor(maker, maker.constant(before.as_str()));
            self.declare(maker.definition(name.as_str(), nat(maker), next))?;
            let next = successor(maker, maker.constant(before.as_str()));
            let found = maker.constant(name.as_str());
            let again = maker.constant(name.as_str());
            self.declare(equal(maker, about.as_str(), found, next, again))?;
        }
        Ok(())
    }

    /// A sum of so many levels is an equal one that is built apart.
    pub fn alike(&mut self, levels: u32) -> Result<(), NoMemory> {
        let maker = self.maker;
        let one = flat_sum(maker, levels);
        let other = flat_sum(maker, levels);
        self.declare(equal(maker, "alike", one, other, flat_sum(maker, levels)))
    }

    /// Twice n is even, by evaluation of two functions that call each other.
    pub fn evenness(&mut self, n: u32) -> Result<(), NoMemory> {
        let maker = self.maker;
        let twice = number(maker, n.saturating_mul(2));
        let even = maker.apply(maker.constant("even"), twice);
        self.declare(is_true(maker, "evenness", even))
    }

    /// The number of nodes of a tree of so many levels, by evaluation.
    pub fn trees(&mut self, levels: u32) -> Result<(), NoMemory> {
        let maker = self.maker;
        let nodes = 1u32.checked_shl(levels).unwrap_or(0).saturating_sub(1);
        let found = maker.apply(maker.constant("size"), whole_tree(maker, levels));
        self.declare(equal(
            maker,
            "nodes",
            found,
            number(maker, nodes),
            number(maker, nodes),
        ))
    }
}

/// A match on a truth value, which gives it back in each branch.
fn given_back(maker: Maker, of: &str) -> Made {
    let first = maker.branch(0, maker.constant(of));
    let second = maker.branch(0, maker.constant(of));
    let branches = two(maker.alloc, first, second);
    maker.matching("bool", truth(maker), maker.constant(of), branches)
}

/// A sum of zeros, of so many levels of sums.
fn flat_sum(maker: Maker, levels: u32) -> Made {
    let mut made = maker.ctor("O");
    for _ in 0..levels {
        let part = made?;
        let again = part.clone()?;
        made = plus(maker, Ok(again), Ok(part));
    }
    made
}
