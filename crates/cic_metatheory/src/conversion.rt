//! Laws: steps, conversion and subtyping stay where the environment grows, and under renaming and
//! substitution of variables.
ghost use Rattle.std.specs.Prelude.{◌∷◌, ℕ};
ghost use Rattle.cic_terms.specs.Tree.{Tree};
ghost use Rattle.cic_terms.specs.Lift.{lift_tree, subst_tree};
ghost use Rattle.cic_rules.specs.Numbering.{Numbering};
ghost use Rattle.cic_rules.specs.Environment.{Environment, Context, Entry, assumed, defined};
ghost use Rattle.cic_rules.specs.Step.{Step};
ghost use Rattle.cic_rules.specs.Conversion.{Convertible, AtMost};
ghost use Rattle.cic_metatheory.specs.Substitution.{rename, substitute};
ghost use Rattle.cic_metatheory.specs.Growth.{Grows, RenamesContext, StepsAtMostOnce, SubstitutesContext};

/// What steps, is convertible or is at most another over an environment does so over one that shows all
/// that it shows (Coq Reference Manual, "Typing rules": weakening of the global environment).
#[tactic(auto, using(crate::proofs::conversions::Stability::step_grows, crate::proofs::conversions::Stability::convertible_grows, crate::proofs::conversions::Stability::at_most_grows))]
pub fn growth_keeps_conversion()
    ensures step { (E E' : Environment) (G : Context) (t t' : Tree) → Grows E E' → Step E G t t' → Step E' G t t' }
    ensures conversion { (E E' : Environment) (N : Numbering) (G : Context) (a b : Tree) → Grows E E' → Convertible E N G a b → Convertible E' N G a b }
    ensures subtyping { (E E' : Environment) (N : Numbering) (G : Context) (a b : Tree) → Grows E E' → AtMost E N G a b → AtMost E' N G a b }
{}

/// The same where variables are renamed from one context to another.
#[tactic(auto, using(crate::proofs::conversions::Stability::step_renamed, crate::proofs::conversions::Stability::convertible_renamed, crate::proofs::conversions::Stability::at_most_renamed))]
pub fn renaming_keeps_conversion()
    ensures step { (E E' : Environment) (r : ℕ → ℕ) (G D : Context) (t t' : Tree) → Grows E E' → RenamesContext r G D → Step E G t t' → Step E' D (rename r t) (rename r t') }
    ensures conversion { (E E' : Environment) (N : Numbering) (r : ℕ → ℕ) (G D : Context) (a b : Tree) → Grows E E' → RenamesContext r G D → Convertible E N G a b → Convertible E' N D (rename r a) (rename r b) }
    ensures subtyping { (E E' : Environment) (N : Numbering) (r : ℕ → ℕ) (G D : Context) (a b : Tree) → Grows E E' → RenamesContext r G D → AtMost E N G a b → AtMost E' N D (rename r a) (rename r b) }
{}

/// The same under one more entry of the context, of any kind.
#[tactic(auto, using(crate::proofs::conversions::Stability::step_weakens, crate::proofs::conversions::Stability::convertible_weakens, crate::proofs::conversions::Stability::at_most_weakens))]
pub fn weakening_keeps_conversion()
    ensures step { (E : Environment) (G : Context) (e : Entry) (t t' : Tree) → Step E G t t' → Step E (e ∷ G) (lift_tree 0 1 t) (lift_tree 0 1 t') }
    ensures conversion { (E : Environment) (N : Numbering) (G : Context) (e : Entry) (a b : Tree) → Convertible E N G a b → Convertible E N (e ∷ G) (lift_tree 0 1 a) (lift_tree 0 1 b) }
    ensures subtyping { (E : Environment) (N : Numbering) (G : Context) (e : Entry) (a b : Tree) → AtMost E N G a b → AtMost E N (e ∷ G) (lift_tree 0 1 a) (lift_tree 0 1 b) }
{}

/// The same where terms are put in for variables. A step may then vanish: that of a variable to its body,
/// where the body was put in.
#[tactic(auto, using(crate::proofs::conversions::Stability::step_substituted, crate::proofs::conversions::Stability::convertible_substituted, crate::proofs::conversions::Stability::at_most_substituted))]
pub fn substitution_keeps_conversion()
    ensures step { (E : Environment) (s : ℕ → Tree) (G D : Context) (t t' : Tree) → SubstitutesContext E s G D → Step E G t t' → StepsAtMostOnce E D (substitute s t) (substitute s t') }
    ensures conversion { (E : Environment) (N : Numbering) (s : ℕ → Tree) (G D : Context) (a b : Tree) → SubstitutesContext E s G D → Convertible E N G a b → Convertible E N D (substitute s a) (substitute s b) }
    ensures subtyping { (E : Environment) (N : Numbering) (s : ℕ → Tree) (G D : Context) (a b : Tree) → SubstitutesContext E s G D → AtMost E N G a b → AtMost E N D (substitute s a) (substitute s b) }
{}

/// So what is convertible, or at most another, under x : A is so with any term put in for x, and what is so
/// under x := t : A with t put in for x.
#[tactic(auto, using(crate::proofs::conversions::Stability::convertible_at_assumed, crate::proofs::conversions::Stability::at_most_at_assumed, crate::proofs::conversions::Stability::convertible_at_defined, crate::proofs::conversions::Stability::at_most_at_defined))]
pub fn instance_keeps_conversion()
    ensures of_assumption { (E : Environment) (N : Numbering) (G : Context) (a u b b' : Tree) → Convertible E N (assumed a ∷ G) b b' → Convertible E N G (subst_tree 0 u b) (subst_tree 0 u b') }
    ensures of_let { (E : Environment) (N : Numbering) (G : Context) (a t b b' : Tree) → Convertible E N (defined t a ∷ G) b b' → Convertible E N G (subst_tree 0 t b) (subst_tree 0 t b') }
    ensures subtyping_of_assumption { (E : Environment) (N : Numbering) (G : Context) (a u b b' : Tree) → AtMost E N (assumed a ∷ G) b b' → AtMost E N G (subst_tree 0 u b) (subst_tree 0 u b') }
    ensures subtyping_of_let { (E : Environment) (N : Numbering) (G : Context) (a t b b' : Tree) → AtMost E N (defined t a ∷ G) b b' → AtMost E N G (subst_tree 0 t b) (subst_tree 0 t b') }
{}
