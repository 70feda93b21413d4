//! Levels with their numbers, and whether these meet a constraint.
ghost use Rattle.std.specs.Prelude.{◌≡◌, ◌↔◌, IsTrue};
ghost use Rattle.cic_rules.specs.Numbering as rules;
ghost use Rattle.univ_cycles.specs.Numbers.{numbering};

use cic_names::{Constraint, Level, LevelName};

/// A named level and its number.
#[derive(Debug, Drop)]
pub struct LevelNumber {
    pub level: LevelName,
    pub number: u32,
}

fn named_number(numbers: &[LevelNumber], name: &LevelName) -> u32
    ensures { result ≡ rules.level_number (numbering numbers.now) (Level.Named name.now) }
{
    for entry in numbers {
        if entry.level == *name {
            return entry.number;
        }
    }
    1
}

/// The number of a level: 0 for Set, and 1 for a named level that is not in the list.
pub fn level_number(numbers: &[LevelNumber], level: &Level) -> u32
    ensures { result ≡ rules.level_number (numbering numbers.now) level.now }
{
    match level {
        Level::Set => 0,
        Level::Named(name) => named_number(numbers, name),
    }
}

/// Whether the numbers meet a constraint.
pub fn meets(numbers: &[LevelNumber], constraint: &Constraint) -> bool
    ensures { IsTrue result ↔ rules.Meets (numbering numbers.now) constraint.now }
{
    let left = level_number(numbers, &constraint.left);
    let right = level_number(numbers, &constraint.right);
    if constraint.strict {
        left < right
    } else {
        left <= right
    }
}
