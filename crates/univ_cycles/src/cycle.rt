//! Constraints with the reason why they are there, and cycles of them.
ghost use Rattle.std.specs.Prelude.{◌≡◌};

use cic_names::{Constraint, LibName};
use std::marker::Model;

/// Why a constraint has to hold.
#[derive(Clone, Debug, Drop)]
pub enum Tag {
    /// Each named level is above Set.
    Levels,
    /// What other libraries can see of this one.
    Visible(LibName),
    /// The opaque bodies of this library.
    Proofs(LibName),
}

/// A constraint with its reason.
#[derive(Clone, Debug, Drop)]
pub struct Tagged {
    pub constraint: Constraint,
    pub tag: Tag,
}

/// Tagged constraints in the order of a cycle: each begins where the one before ends, the first where the last ends, and it begins at its least level.
#[derive(Debug, Drop)]
pub struct Cycle {
    pub(crate) steps: Vec<Tagged>,
}

impl Model for Cycle {
    ghost use Rattle.std.specs.Prelude.{List};
    ghost use Rattle.univ_cycles.specs.declared.cycle.Tagged.{Tagged};

    ghost Value = { List Tagged };

    ghost view = { λ c. c.steps.items };
}

impl Cycle {
    /// The steps in order.
    pub fn steps(&self) -> &[Tagged]
        ensures { result.now ≡ self.now }
    {
        self.steps.as_slice()
    }
}
