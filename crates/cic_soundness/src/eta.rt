//! Laws: eta for functions, against the check without it.
#![tactic(auto, unfolding(crate::specs::WithoutEta::check_declaration, crate::specs::WithoutEta::calls_at, crate::specs::WithoutEta::cumul_at, crate::specs::WithoutEta::conv_at, cic_counted::specs::Evaluation::whnf_at))]

ghost use Rattle.std.specs.Prelude.{◌≡◌, ℕ, [], ◌∷◌};
ghost use Rattle.cic_terms.specs.Tree.{Tree, TreeSort};
ghost use Rattle.cic_rules.specs.Environment.{Environment, Context, Declaration};
ghost use Rattle.cic_counted.specs.Outcome.{Budget, done, mismatch};
ghost use Rattle.cic_counted.specs.Evaluation.{conv_at, cumul_at};
ghost use Rattle.cic_counted.specs.Inference.{calls_at};
ghost use Rattle.cic_counted.specs.Checking.{Found, accepts, check_declaration};
ghost use Rattle.cic_counted.specs.calls.Examples.{environment, accepted_in, refuses, axiom_P, axiom_f, axiom_Q, axiom_q, definition_r, applied_f};
ghost use Rattle.cic_counted.specs.calls.EtaExamples.{f};
ghost use Rattle.cic_soundness.specs.WithoutEta;

/// A declaration that the check without eta accepts is accepted by the check with it, with the same constraints
/// and the same steps. One that was refused may now be accepted, or be refused otherwise.
pub fn declarations_accepted_without_eta_are_accepted()
    ensures { (E : Environment) (d : Declaration) (budget : ℕ) (found : Found) → WithoutEta.check_declaration E d budget ≡ accepts found → check_declaration E d budget ≡ accepts found }
{}

/// Each counted call that is done without eta is done with it, with the same value, as much left of the budget,
/// and the same constraints.
pub fn calls_done_without_eta_are_done()
    ensures conversion { (E : Environment) (k : ℕ) (G : Context) (t t' : Tree) (u : Unit {0}) (b b' : Budget) → WithoutEta.conv_at k E G t t' b ≡ done u b' → conv_at k E G t t' b ≡ done u b' }
    ensures subtyping { (E : Environment) (k : ℕ) (G : Context) (t t' : Tree) (u : Unit {0}) (b b' : Budget) → WithoutEta.cumul_at k E G t t' b ≡ done u b' → cumul_at k E G t t' b ≡ done u b' }
    ensures inference { (E : Environment) (k : ℕ) (G : Context) (t T : Tree) (b b' : Budget) → (WithoutEta.calls_at k E).infer G t b ≡ done T b' → (calls_at k E).infer G t b ≡ done T b' }
    ensures check { (E : Environment) (k : ℕ) (G : Context) (t T : Tree) (u : Unit {0}) (b b' : Budget) → (WithoutEta.calls_at k E).check G t T b ≡ done u b' → (calls_at k E).check G t T b ≡ done u b' }
    ensures sort { (E : Environment) (k : ℕ) (G : Context) (t : Tree) (s : TreeSort) (b b' : Budget) → (WithoutEta.calls_at k E).sort_of G t b ≡ done s b' → (calls_at k E).sort_of G t b ≡ done s b' }
{}

/// By example: without eta the axioms cost as much as with it, and the definition is refused, since an
/// abstraction is found where a constant is wanted.
pub fn refused_without_eta()
    ensures proposition { WithoutEta.check_declaration [] axiom_P 3 ≡ accepted_in 3 }
    ensures arrow { WithoutEta.check_declaration (environment (axiom_P ∷ [])) axiom_f 9 ≡ accepted_in 9 }
    ensures on_functions { WithoutEta.check_declaration (environment (axiom_P ∷ axiom_f ∷ [])) axiom_Q 15 ≡ accepted_in 15 }
    ensures application { WithoutEta.check_declaration (environment (axiom_P ∷ axiom_f ∷ axiom_Q ∷ [])) axiom_q 17 ≡ accepted_in 17 }
    ensures definition { WithoutEta.check_declaration (environment (axiom_P ∷ axiom_f ∷ axiom_Q ∷ axiom_q ∷ [])) definition_r 1000 ≡ refuses (mismatch 0 applied_f f) }
{}
