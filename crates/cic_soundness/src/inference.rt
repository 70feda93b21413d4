//! Laws: what the counted functions of typing are done with is derivable.
ghost use Rattle.std.specs.Prelude.{◌≡◌, ℕ, List, length, None};
ghost use Rattle.cic_terms.specs.Tree.{Tree, TreeSort, sort};
ghost use Rattle.cic_rules.specs.Numbering.{Numbering, MeetsAll};
ghost use Rattle.cic_rules.specs.Environment.{Environment, Context};
ghost use Rattle.cic_rules.specs.Telescopes.{Function, full_bodies};
ghost use Rattle.cic_rules.specs.Guard.{Guarded};
ghost use Rattle.cic_rules.specs.Typing.{Typed, AllTyped, HasSort, WellFormedContext};
ghost use Rattle.cic_counted.specs.Outcome.{Budget, done};
ghost use Rattle.cic_counted.specs.GuardTest.{guard_fault};
ghost use Rattle.cic_counted.specs.Inference.{calls_at};
ghost use Rattle.cic_metatheory.specs.WellTypedLookups.{WellTypedLookups};

/// A term has the type that its inference is done with, at every numbering that meets the constraints found,
/// over an environment that shows what is right and in a well formed context, where neither holds a universe
/// of a derivation's own (Coq Reference Manual, "Typing rules").
#[tactic(auto, using(crate::proofs::inferences::Calls::inference_is_right))]
pub fn inferred_terms_are_typed()
    ensures { (E : Environment) (N : Numbering) (G : Context) (k : ℕ) (t T : Tree) (b b' : Budget) → WellTypedLookups E N → WellFormedContext E N G → (calls_at k E).infer G t b ≡ done T b' → MeetsAll N b'.found → Typed E N G t T }
{}

/// In the same way a term has the type that it is checked against, where that type has a sort.
#[tactic(auto, using(crate::proofs::inferences::Calls::check_is_right))]
pub fn checked_terms_are_typed()
    ensures { (E : Environment) (N : Numbering) (G : Context) (k : ℕ) (t T : Tree) (u : Unit {0}) (b b' : Budget) → WellTypedLookups E N → WellFormedContext E N G → HasSort E N G T → (calls_at k E).check G t T b ≡ done u b' → MeetsAll N b'.found → Typed E N G t T }
{}

/// In the same way a type has the sort that is found for it.
#[tactic(auto, using(crate::proofs::inferences::Calls::sort_is_right))]
pub fn sorted_types_have_sorts()
    ensures { (E : Environment) (N : Numbering) (G : Context) (k : ℕ) (t : Tree) (s : TreeSort) (b b' : Budget) → WellTypedLookups E N → WellFormedContext E N G → (calls_at k E).sort_of G t b ≡ done s b' → MeetsAll N b'.found → Typed E N G t (sort s) }
{}

/// A Fix that the test of the guard passes is guarded, where its bodies have types under its functions.
#[tactic(auto, using(crate::proofs::fixpoints::Parts::passed_fix_is_guarded))]
pub fn passed_fixes_are_guarded()
    ensures { (E : Environment) (N : Numbering) (G : Context) (fs : List Function) (types : List Tree) → AllTyped E N G (full_bodies (length fs) fs) types → guard_fault E fs ≡ None → Guarded E fs }
{}
