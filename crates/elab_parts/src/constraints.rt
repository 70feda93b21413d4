//! Constraints between universes, as a command states them.
ghost use Rattle.std.specs.Prelude.{◌≡◌, ◌++◌, ◌∷◌, [], OnOk, map};
ghost use Rattle.gal_grammar.specs.Commands as C;
ghost use Rattle.gal_raw.specs.Commands.{level as written_level, relation as written_relation, constraint as written};
ghost use Rattle.gal_scoping.specs.Declarations.{level_read, related, constraints_of};
ghost use Rattle.name_scope.specs.Held.{scope_of};
ghost use Rattle.elab_parts.specs.calls.Readings.{Reads};

use crate::fault::{ScopingFault, of_name};
use cic_names::{Constraint, Level};
use gal_raw::{Constraint as Written, Level as WrittenLevel, Relation};
use memory::NoMemory;
use name_scope::Scope;
use std::alloc::Global;

/// The universe that is written.
fn level_meant<'a>(scope: &Scope, x: &WrittenLevel<'a>) -> Result<Level, ScopingFault<'a>>
    ensures { Reads (λ level. level) (level_read (scope_of scope.now) (written_level x.now)) result }
{
    match x {
        WrittenLevel::Set => Ok(Level::Set),
        WrittenLevel::Named(x) => match scope.level(x) {
            Ok(level) => Ok(level),
            Err(reason) => Err(of_name(reason)),
        },
    }
}

/// One constraint more.
fn add(made: &mut Vec<Constraint>, left: Level, strict: bool, right: Level) -> Result<(), NoMemory>
    ensures { OnOk result (made.new.items ≡ made.old.items ++ record { left = left; strict = strict; right = right } ∷ []) }
{
    made.push(Constraint {
        left,
        strict,
        right,
    })?;
    Ok(())
}

/// The two constraints of an equation more.
#[tactic(auto, using(crate::proofs::Stated::two_more))]
fn add_equation(made: &mut Vec<Constraint>, left: Level, right: Level) -> Result<(), NoMemory>
    ensures { OnOk result (made.new.items ≡ made.old.items ++ related C.equal left right) }
{
    let turned_left = right.clone()?;
    let turned_right = left.clone()?;
    add(made, left, false, right)?;
    add(made, turned_left, false, turned_right)?;
    Ok(())
}

/// The constraints of one relation more.
fn add_related(
    made: &mut Vec<Constraint>,
    left: Level,
    relation: Relation,
    right: Level,
) -> Result<(), NoMemory>
    ensures { OnOk result (made.new.items ≡ made.old.items ++ related (written_relation relation) left right) }
{
    match relation {
        Relation::Less => add(made, left, true, right),
        Relation::AtMost => add(made, left, false, right),
        Relation::Equal => add_equation(made, left, right),
    }
}

/// The constraints that a command `Constraint` states, in order, or its first fault. Coq Reference Manual, "Sorts".
pub fn read_constraints<'a>(
    alloc: Global,
    scope: &Scope,
    all: &[Written<'a>],
) -> Result<Vec<Constraint>, ScopingFault<'a>>
    ensures { Reads (λ made. made.items) (constraints_of (scope_of scope.now) (map written all.now)) result }
{
    let mut made = Vec::new(alloc);
    for one in all {
        let left = level_meant(scope, &one.left)?;
        let right = level_meant(scope, &one.right)?;
        add_related(&mut made, left, one.relation, right)?;
    }
    Ok(made)
}
