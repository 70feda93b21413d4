ghost use Rattle.std.specs.Prelude.{◌≡◌, ℕ};
ghost use Rattle.cic_terms.specs.Tree.{Tree};
ghost use Rattle.cic_rules.specs.Numbering.{Numbering, MeetsAll};
ghost use Rattle.cic_rules.specs.Environment.{Environment, Context};
ghost use Rattle.cic_rules.specs.Conversion.{Convertible, AtMost};
ghost use Rattle.cic_counted.specs.Outcome.{Budget, done};
ghost use Rattle.cic_counted.specs.Evaluation.{whnf_at, conv_at, cumul_at};
ghost use Rattle.cic_metatheory.specs.StepsTo.{StepsTo, ClosedBodies};

/// A term reaches what its evaluation to weak head normal form is done with, by steps of the rules.
pub fn evaluation_is_by_steps()
    ensures { (E : Environment) (G : Context) (k : ℕ) (t v : Tree) (b b' : Budget) → ClosedBodies E → whnf_at k E G t b ≡ done v b' → StepsTo E G t v }
{}

/// Terms whose conversion is done are convertible at every numbering that meets the constraints found.
pub fn converted_terms_are_convertible()
    ensures { (E : Environment) (N : Numbering) (G : Context) (k : ℕ) (t t' : Tree) (u : Unit {0}) (b b' : Budget) → ClosedBodies E → conv_at k E G t t' b ≡ done u b' → MeetsAll N b'.found → Convertible E N G t t' }
{}

/// A term whose subtyping to another is done is at most it at every numbering that meets the constraints
/// found.
pub fn subtypes_are_at_most()
    ensures { (E : Environment) (N : Numbering) (G : Context) (k : ℕ) (t t' : Tree) (u : Unit {0}) (b b' : Budget) → ClosedBodies E → cumul_at k E G t t' b ≡ done u b' → MeetsAll N b'.found → AtMost E N G t t' }
{}
