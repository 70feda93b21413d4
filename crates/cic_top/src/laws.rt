//! Laws of the check of an axiom of the language. Each function has an empty body, and its contract is the law.

ghost use Rattle.std.specs.Prelude.{◌≡◌, ℕ, [], ◌∷◌, ◌++◌};
ghost use Rattle.cic_terms.specs.Tree.{TreeSort, Tree};
ghost use Rattle.cic_names.specs.declared.name.GlobalId.{GlobalId};
ghost use Rattle.cic_rules.specs.Environment.{Environment, Declaration, axiom_of, declared, environment_ids};
ghost use Rattle.cic_rules.specs.Formed.{Distinct, Formed};
ghost use Rattle.cic_rules.specs.Numbering.{Numbering};
ghost use Rattle.cic_counted.specs.Checking.{Found, accepts, rejects, check_declaration};
ghost use Rattle.cic_counted.specs.Inference.{calls_from};
ghost use Rattle.cic_counted.specs.Outcome.{Budget, Cause, done, refused};
ghost use Rattle.cic_top.specs.Language.{IsOfLanguage, EnvironmentOfLanguage, IsUniverse, CauseOfLanguage, left};

/// An accepted declaration of the language needs no constraint.
pub fn no_constraint_is_found()
    ensures { (E : Environment) (d : Declaration) (budget : ℕ) (found : Found) → EnvironmentOfLanguage E → IsOfLanguage d → check_declaration E d budget ≡ accepts found → (found.visible ≡ []) × (found.proofs ≡ []) }
{}

/// The sort of the type of an accepted axiom is Prop or the universe above Set.
pub fn types_of_axioms_have_universes()
    ensures { (E : Environment) (id : GlobalId) (type : Tree) (budget : ℕ) (found : Found) → EnvironmentOfLanguage E → IsOfLanguage (axiom_of id type) → check_declaration E (axiom_of id type) budget ≡ accepts found → (s : TreeSort) × (b : Budget) × ((calls_from 1 E).sort_of [] type (left budget) ≡ done s b) × IsUniverse s }
{}

/// A declaration of the language behind an environment of the language.
pub fn environment_grows()
    ensures { (E : Environment) (d : Declaration) → EnvironmentOfLanguage E → IsOfLanguage d → EnvironmentOfLanguage (E ++ declared d ∷ []) }
{}

/// A declaration of the language is refused only for what is missing, or for a term of the language that is no sort.
pub fn causes_are_of_the_language()
    ensures { (E : Environment) (d : Declaration) (budget : ℕ) (cause : Cause) → EnvironmentOfLanguage E → IsOfLanguage d → check_declaration E d budget ≡ rejects (refused cause) → CauseOfLanguage cause }
{}

/// An accepted declaration of the language may be appended to an environment that is formed at a numbering, whatever
/// the numbering, since no constraint is found.
pub fn accepted_axioms_are_formed()
    ensures { (E : Environment) (N : Numbering) (d : Declaration) (budget : ℕ) (found : Found) → EnvironmentOfLanguage E → IsOfLanguage d → Formed N E → Distinct (environment_ids (E ++ declared d ∷ [])) → check_declaration E d budget ≡ accepts found → Formed N (E ++ declared d ∷ []) }
{}
