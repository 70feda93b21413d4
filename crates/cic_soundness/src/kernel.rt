//! The kernel law: what the check of one declaration accepts is right by the rules.
ghost use Rattle.std.specs.Prelude.{◌≡◌, ℕ, [], ◌∷◌, ◌++◌};
ghost use Rattle.cic_rules.specs.Numbering.{Numbering, MeetsAll};
ghost use Rattle.cic_rules.specs.Environment.{Environment, Declaration, declared, environment_ids};
ghost use Rattle.cic_rules.specs.Formed.{Distinct, Formed};
ghost use Rattle.cic_counted.specs.Checking.{Found, accepts, check_declaration};

/// A declaration that is accepted over a formed environment may be appended to it: what it makes is formed, at
/// every numbering that meets the constraints found, those that everyone sees and those of an opaque body..
#[tactic(auto, using(crate::proofs::declarations::Judgement::accepted_is_formed))]
pub fn accepted_declarations_are_right()
    ensures { (E : Environment) (N : Numbering) (d : Declaration) (budget : ℕ) (found : Found) → Formed N E → Distinct (environment_ids (E ++ declared d ∷ [])) → check_declaration E d budget ≡ accepts found → MeetsAll N found.visible → MeetsAll N found.proofs → Formed N (E ++ declared d ∷ []) }
{}
