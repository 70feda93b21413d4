//! Constraints and lists of them, read and written.
ghost use Rattle.std.specs.Prelude.{◌≡◌, ◌≤◌, IfOk, OnOk, OnErr, Err, Some, length, drop};
ghost use Rattle.cic_names.specs.Orders.{insert_constraint};
ghost use Rattle.term_format.specs.ConstraintReading.{read_strict, read_constraint, read_constraints, is_above};
ghost use Rattle.term_codec.specs.calls.Answers.{Reads};
ghost use Rattle.term_codec.specs.calls.Items.{read_next};

use crate::faults::Stop;
use crate::fields::{byte_at, number_at, read_level};
use cic_names::{Constraint, Constraints, constraint_order};
use seg_format::Defect;
use std::alloc::Global;

/// Whether a constraint is strict.
#[tactic(auto, unfolding(term_format::specs::ConstraintReading::read_strict))]
fn read_strict(b: &[u8], place: &mut usize) -> Result<bool, Stop>
    requires { place.old ≤ length b.now }
    ensures { Reads (λ v. v) b.now (read_strict (drop place.old b.now)) place.new result }
{
    let at = *place;
    match byte_at(b, place)? {
        0 => Ok(false),
        1 => Ok(true),
        _ => Err(Stop::Wrong(Defect::Tag, at)),
    }
}

#[tactic(auto, unfolding(term_format::specs::ConstraintReading::read_constraint))]
fn read_constraint(alloc: Global, b: &[u8], place: &mut usize) -> Result<Constraint, Stop>
    requires { place.old ≤ length b.now }
    ensures { Reads (λ v. v) b.now (read_constraint (drop place.old b.now)) place.new result }
{
    let left = read_level(alloc, b, place)?;
    let strict = read_strict(b, place)?;
    let right = read_level(alloc, b, place)?;
    Ok(Constraint {
        left,
        strict,
        right,
    })
}

/// Whether a constraint is above the one before it, if there is one.
fn is_above(before: &Option<Constraint>, one: &Constraint) -> bool
    ensures { result ≡ is_above before.now one.now }
{
    match before {
        None => true,
        Some(before) => constraint_order(before, one).is_lt(),
    }
}

/// One constraint more of a list, after that one.
fn next_constraint(
    alloc: Global,
    b: &[u8],
    place: &mut usize,
    before: &Option<Constraint>,
) -> Result<Constraint, Stop>
    requires { place.old ≤ length b.now }
    ensures { Reads (λ v. v) b.now (read_next before.now (drop place.old b.now)) place.new result }
{
    let at = *place;
    let one = read_constraint(alloc, b, place)?;
    if is_above(before, &one) {
        Ok(one)
    } else {
        Err(Stop::Wrong(Defect::Order, at))
    }
}

fn copied(one: &Constraint) -> Result<Constraint, Stop>
    ensures ok { IfOk result (λ r. r ≡ one.now) }
    ensures err { OnErr result (result ≡ Err Stop.NoMemory) }
{
    Ok(one.clone()?)
}

/// Puts a constraint into the set. It is then the one before the next.
fn keep(all: &mut Constraints, before: &mut Option<Constraint>, one: Constraint) -> Result<(), Stop>
    ensures before { OnOk result (before.new ≡ Some one) }
    ensures all { OnOk result (all.new ≡ insert_constraint all.old one) }
    ensures err { OnErr result (result ≡ Err Stop.NoMemory) }
{
    *before = Some(copied(&one)?);
    all.insert(one)?;
    Ok(())
}

/// A list of constraints. The count takes no memory before its items are read.
#[tactic(auto, unfolding(term_format::specs::ConstraintReading::read_constraints))]
pub fn read_constraints(alloc: Global, b: &[u8], place: &mut usize) -> Result<Constraints, Stop>
    requires { place.old ≤ length b.now }
    ensures { Reads (λ v. v) b.now (read_constraints (drop place.old b.now)) place.new result }
{
    let count = number_at(b, place)?;
    let mut all = Constraints::new(alloc);
    let mut before = None;
    for _i in 0..count {
        let one = next_constraint(alloc, b, place, &before)?;
        keep(&mut all, &mut before, one)?;
    }
    Ok(all)
}
