//! Small examples of the definitions: each function has an empty body, and its contract is the example.
ghost use Rattle.std.specs.Prelude.{◌≡◌, [], ◌∷◌, None, Some, true, false};
ghost use Rattle.cic_terms.specs.Tree.{prod, prop, rel, set, sort};
ghost use Rattle.cic_counted.specs.BlockTests.{bad_constructor_at};
ghost use Rattle.cic_positivity.specs.Faults.{positivity_fault_in, shape_fault_in};
ghost use Rattle.cic_positivity.specs.calls.Parts.{begins_alike, has_arguments, WithoutLast};

use crate::positivities::Positivity;
use crate::shapes::Shape;

/// A good block has no fault, and a place at fault is told by its numbers.
pub fn faults_of_answers()
    ensures good { shape_fault_in Shape.Good ≡ None }
    ensures bad { shape_fault_in (Shape.BadConstructor 1 2) ≡ Some (bad_constructor_at 1 2) }
    ensures positive { positivity_fault_in Positivity.Yes ≡ None }
{}

/// Types begin alike where their first domains are the same, whatever stands after these; not where one has too few.
pub fn alike_types()
    ensures same { begins_alike 1 (prod (sort set) (sort prop)) (prod (sort set) (sort set)) ≡ true }
    ensures differs { begins_alike 1 (prod (sort prop) (sort set)) (prod (sort set) (sort set)) ≡ false }
    ensures fewer { begins_alike 1 (prod (sort set) (sort prop)) (sort prop) ≡ false }
{}

/// The arguments of a conclusion: one parameter under two more binders, and one index.
pub fn small_arguments()
    ensures parameter_first { has_arguments 1 2 1 (rel 2 ∷ sort set ∷ []) ≡ true }
    ensures not_lifted { has_arguments 1 2 1 (rel 0 ∷ sort set ∷ []) ≡ false }
    ensures too_many { has_arguments 1 2 1 (rel 2 ∷ sort set ∷ sort set ∷ []) ≡ false }
    ensures front { WithoutLast 1 (rel 2 ∷ sort set ∷ []) (rel 2 ∷ []) }
{}
