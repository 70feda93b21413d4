//! Laws: typing stays where the environment grows, and under renaming and substitution of variables.
ghost use Rattle.std.specs.Prelude.{◌∷◌, ℕ};
ghost use Rattle.cic_terms.specs.Tree.{Tree, TreeSort};
ghost use Rattle.cic_terms.specs.Lift.{lift_tree, subst_tree};
ghost use Rattle.cic_rules.specs.Numbering.{Numbering};
ghost use Rattle.cic_rules.specs.Environment.{Environment, Context, Entry, TypeDeclaration, assumed, defined};
ghost use Rattle.cic_rules.specs.Typing.{Typed, Eliminated};
ghost use Rattle.cic_metatheory.specs.Substitution.{rename, substitute};
ghost use Rattle.cic_metatheory.specs.Growth.{Grows};
ghost use Rattle.cic_metatheory.specs.TypedContexts.{RenamesTypedContext, SubstitutesTypedContext};

/// What is typed over an environment is so over one that shows all that it shows, and what is typed under a
/// context is so under one more entry of any kind (Coq Reference Manual, "Typing rules": weakening).
#[tactic(auto, using(crate::proofs::typings::Weakening::typed_grows, crate::proofs::typings::Weakening::typed_weakens, crate::proofs::typings::Weakening::elimination_grows))]
pub fn weakening_keeps_typing()
    ensures of_environment { (E E' : Environment) (N : Numbering) (G : Context) (t a : Tree) → Grows E E' → Typed E N G t a → Typed E' N G t a }
    ensures elimination { (E E' : Environment) (N : Numbering) (parameters : ℕ) (T : TypeDeclaration) (s : TreeSort) → Grows E E' → Eliminated E N parameters T s → Eliminated E' N parameters T s }
    ensures of_context { (E : Environment) (N : Numbering) (G : Context) (e : Entry) (t a : Tree) → Typed E N G t a → Typed E N (e ∷ G) (lift_tree 0 1 t) (lift_tree 0 1 a) }
{}

/// The same where variables are renamed from one context to another.
#[tactic(auto, using(crate::proofs::typings::Weakening::typed_renamed))]
pub fn renaming_keeps_typing()
    ensures { (E E' : Environment) (N : Numbering) (r : ℕ → ℕ) (G D : Context) (t a : Tree) → Grows E E' → RenamesTypedContext r G D → Typed E N G t a → Typed E' N D (rename r t) (rename r a) }
{}

/// The same where terms are put in for variables, each of the variable's type.
#[tactic(auto, using(crate::proofs::typings::Weakening::typed_substituted))]
pub fn substitution_keeps_typing()
    ensures { (E E' : Environment) (N : Numbering) (s : ℕ → Tree) (G D : Context) (t a : Tree) → Grows E E' → SubstitutesTypedContext E' N s G D → Typed E N G t a → Typed E' N D (substitute s t) (substitute s a) }
{}

/// So what is typed under x : A is so with any term of type A put in for x, and what is typed under
/// x := u : A with u put in for x.
#[tactic(auto, using(crate::proofs::typings::Weakening::typed_at_assumed, crate::proofs::typings::Weakening::typed_at_defined))]
pub fn instance_keeps_typing()
    ensures of_assumption { (E : Environment) (N : Numbering) (G : Context) (a u t b : Tree) → Typed E N (assumed a ∷ G) t b → Typed E N G u a → Typed E N G (subst_tree 0 u t) (subst_tree 0 u b) }
    ensures of_let { (E : Environment) (N : Numbering) (G : Context) (a u t b : Tree) → Typed E N (defined u a ∷ G) t b → Typed E N G u a → Typed E N G (subst_tree 0 u t) (subst_tree 0 u b) }
{}
