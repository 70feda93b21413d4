//! Laws on numberings, cycles and clones, each as the contract of a function that does nothing.
ghost use Rattle.std.specs.Prelude.{◌≡◌, List};
ghost use Rattle.cic_names.specs.declared.constraint.Constraint.{Constraint};
ghost use Rattle.cic_rules.specs.Numbering.{Consistent, IsCycle};
ghost use Rattle.univ_cycles.specs.Numbers.{IsWithin};
ghost use Rattle.univ_cycles.specs.declared.cycle.Tag.{Tag};
ghost use Rattle.univ_cycles.specs.declared.cycle.Tagged.{Tagged};

use crate::cycle::{Tag, Tagged};

/// A cycle shows that the constraints that have it are not consistent.
pub fn no_numbering_meets_a_cycle()
    ensures { (cycle constraints : List Constraint) → IsCycle cycle → IsWithin cycle constraints → Consistent constraints → ⊥ }
{}

/// Constraints among consistent ones are consistent.
pub fn consistency_passes_to_parts()
    ensures { (part whole : List Constraint) → IsWithin part whole → Consistent whole → Consistent part }
{}

/// A clone is equal to what it was made from.
#[tactic(auto, using(crate::proofs::TagClones::tag_clone_is, crate::proofs::TagClones::tagged_clone_is))]
pub fn clones_are_equal()
    ensures tags { (a b : Tag) → ⟦<Tag as Clone>⟧.is_clone a b → b ≡ a }
    ensures constraints { (a b : Tagged) → ⟦<Tagged as Clone>⟧.is_clone a b → b ≡ a }
{}
