//! The orders of names, levels and constraints by their byte strings, without making the strings.
ghost use Rattle.std.specs.Prelude.{◌≡◌};
ghost use Rattle.std.specs.Ordering.{nat_cmp};
ghost use Rattle.cic_names.specs.Orders.{byte_order, part_byte, number_bytes, owner_bytes, named_bytes, right_bytes, name_order, level_order, constraint_order};

use crate::constraint::Constraint;
use crate::level::{Level, LevelName, Part};
use crate::name::Name;
use std::cmp::Ordering;

fn part_byte(part: Part) -> u8
    ensures { result ≡ part_byte part }
{
    match part {
        Part::Declared => 1,
        Part::Visible(_) => 2,
        Part::Proof(_) => 3,
    }
}

/// Orders names by their lengths, and names of one length by their bytes.
pub fn name_order(a: &Name, b: &Name) -> Ordering
    ensures { result ≡ name_order a.now b.now }
{
    let (a, b) = (a.bytes(), b.bytes());
    match a.len().cmp(&b.len()) {
        Ordering::Equal => a.cmp(b),
        unequal => unequal,
    }
}

/// Orders parts of one kind by their numbers.
#[tactic(auto, using(crate::proofs::OrderLaws::digits_order))]
fn number_order(a: Part, b: Part) -> Ordering
    requires { part_byte a ≡ part_byte b }
    ensures { result ≡ byte_order (number_bytes a) (number_bytes b) }
{
    match (a, b) {
        (Part::Visible(a), Part::Visible(b)) => a.cmp(&b),
        (Part::Proof(a), Part::Proof(b)) => a.cmp(&b),
        _ => Ordering::Equal,
    }
}

fn owner_order(a: &LevelName, b: &LevelName) -> Ordering
    requires { part_byte a.now.part ≡ part_byte b.now.part }
    ensures { result ≡ byte_order (owner_bytes a.now) (owner_bytes b.now) }
{
    match name_order(&a.owner, &b.owner) {
        Ordering::Equal => number_order(a.part, b.part),
        unequal => unequal,
    }
}

/// Orders the named levels of one kind.
fn named_order(a: &LevelName, b: &LevelName) -> Ordering
    requires { part_byte a.now.part ≡ part_byte b.now.part }
    ensures { result ≡ byte_order (named_bytes a.now) (named_bytes b.now) }
{
    match name_order(&a.lib, &b.lib) {
        Ordering::Equal => owner_order(a, b),
        unequal => unequal,
    }
}

/// Orders levels: Set, then the declared ones, the visible ones, and those of proofs; each of these by library, owner and number.
pub fn level_order(a: &Level, b: &Level) -> Ordering
    ensures { result ≡ level_order a.now b.now }
{
    match (a, b) {
        (Level::Set, Level::Set) => Ordering::Equal,
        (Level::Set, Level::Named(_)) => Ordering::Less,
        (Level::Named(_), Level::Set) => Ordering::Greater,
        (Level::Named(a), Level::Named(b)) => match part_byte(a.part).cmp(&part_byte(b.part)) {
            Ordering::Equal => named_order(a, b),
            unequal => unequal,
        },
    }
}

/// Orders constraints by the left level, then `<=` before `<`, then by the right level.
pub fn constraint_order(a: &Constraint, b: &Constraint) -> Ordering
    ensures { result ≡ constraint_order a.now b.now }
{
    match level_order(&a.left, &b.left) {
        Ordering::Equal => right_order(a, b),
        unequal => unequal,
    }
}

fn right_order(a: &Constraint, b: &Constraint) -> Ordering
    ensures { result ≡ byte_order (right_bytes a.now) (right_bytes b.now) }
{
    match a.strict.cmp(&b.strict) {
        Ordering::Equal => level_order(&a.right, &b.right),
        unequal => unequal,
    }
}
