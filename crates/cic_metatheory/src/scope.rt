//! Laws: a term that has a type has no free variable past its context, and no id that is not declared.
ghost use Rattle.std.specs.Prelude.{◌≡◌, ◌<◌, ℕ, [], length, Contains};
ghost use Rattle.cic_terms.specs.Tree.{Tree, rel};
ghost use Rattle.cic_terms.specs.Lift.{lift_tree, subst_tree};
ghost use Rattle.cic_terms.specs.Mentions.{Mentions};
ghost use Rattle.cic_names.specs.declared.name.GlobalId.{GlobalId};
ghost use Rattle.cic_rules.specs.Numbering.{Numbering};
ghost use Rattle.cic_rules.specs.Environment.{Environment, Context, environment_ids};
ghost use Rattle.cic_rules.specs.Typing.{Typed};
ghost use Rattle.cic_metatheory.specs.Substitution.{substitute};

/// A substitution that keeps the variables of a context keeps each term that has a type there. So one that
/// has a type in the empty context is closed: no lift and no substitution changes it.
#[tactic(auto, using(crate::proofs::typings::Scopes::typed_keeps_under, crate::proofs::typings::Scopes::closed_lifts, crate::proofs::typings::Scopes::closed_keeps_under_subst))]
pub fn typed_terms_are_scoped()
    ensures in_context { (E : Environment) (N : Numbering) (G : Context) (t a : Tree) (s : ℕ → Tree) → ((x : ℕ) → x < length G → s x ≡ rel x) → Typed E N G t a → substitute s t ≡ t }
    ensures closed_lift { (E : Environment) (N : Numbering) (t a : Tree) (from by : ℕ) → Typed E N [] t a → lift_tree from by t ≡ t }
    ensures closed_subst { (E : Environment) (N : Numbering) (t a : Tree) (at : ℕ) (u : Tree) → Typed E N [] t a → subst_tree at u t ≡ t }
{}

/// Each id that stands in a term that has a type is declared.
#[tactic(auto, using(crate::proofs::environments::Mentions::typed_mentions))]
pub fn typed_terms_mention_what_is_declared()
    ensures { (E : Environment) (N : Numbering) (G : Context) (t a : Tree) (id : GlobalId) → Typed E N G t a → Mentions id t → Contains (environment_ids E) id }
{}
