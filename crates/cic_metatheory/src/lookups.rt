//! Laws: what a formed environment shows of each id is right, and closed.
ghost use Rattle.std.specs.Prelude.{◌≡◌, ℕ, Some, [], ◌∷◌, ◌++◌};
ghost use Rattle.cic_terms.specs.Tree.{Tree};
ghost use Rattle.cic_terms.specs.Lift.{lift_tree};
ghost use Rattle.cic_names.specs.declared.name.GlobalId.{GlobalId};
ghost use Rattle.cic_rules.specs.Numbering.{Numbering};
ghost use Rattle.cic_rules.specs.Environment.{Environment, Block, InductiveType, Constructor, declared, bare, inductive, environment_ids, constant_type, inductive_type_of, constructor_of};
ghost use Rattle.cic_rules.specs.Inductive.{Each};
ghost use Rattle.cic_rules.specs.Typing.{HasSort};
ghost use Rattle.cic_rules.specs.Formed.{Distinct, Formed};
ghost use Rattle.cic_metatheory.specs.Growth.{KnowsItsTypes, Grows};
ghost use Rattle.cic_metatheory.specs.StepsTo.{ClosedBodies};
ghost use Rattle.cic_metatheory.specs.WellTypedLookups.{WellTypedLookups};

/// All that a formed environment shows is right over the whole of it, and so is all that it shows with a
/// block taken bare after it whose arities have sorts.
#[tactic(auto, using(crate::proofs::environments::Lookups::formed_shows_right, crate::proofs::environments::Lookups::bare_shows_right))]
pub fn formed_environments_show_what_is_right()
    ensures formed { (E : Environment) (N : Numbering) → Formed N E → WellTypedLookups E N }
    ensures with_bare_block { (E : Environment) (N : Numbering) (block : Block) → Formed N E → Each (λ t. HasSort E N [] t.arity) block.types → WellTypedLookups (E ++ bare block ∷ []) N }
{}

/// In a formed environment what stands in the types of constructors stands for something.
pub fn formed_environments_know_their_types()
    ensures { (E : Environment) (N : Numbering) → Formed N E → KnowsItsTypes E }
{}

/// A whole block shows all that it shows taken bare, where no id is declared twice.
#[tactic(auto, using(crate::proofs::environments::Lookups::bare_grows_whole))]
pub fn whole_block_shows_what_it_shows_bare()
    ensures { (E : Environment) (block : Block) → KnowsItsTypes E → Distinct (environment_ids (E ++ declared (inductive block) ∷ [])) → Grows (E ++ bare block ∷ []) (E ++ declared (inductive block) ∷ []) }
{}

/// What is shown right is closed: no lift changes it.
#[tactic(auto, using(crate::proofs::environments::ClosedLookups::closed_bodies, crate::proofs::environments::ClosedLookups::closed_constant_types, crate::proofs::environments::ClosedLookups::closed_arities, crate::proofs::environments::ClosedLookups::closed_constructor_types))]
pub fn what_is_shown_is_closed()
    ensures bodies { (E : Environment) (N : Numbering) → WellTypedLookups E N → ClosedBodies E }
    ensures constant_types { (E : Environment) (N : Numbering) (c : GlobalId) (t : Tree) (from by : ℕ) → WellTypedLookups E N → constant_type E c ≡ Some t → lift_tree from by t ≡ t }
    ensures arities { (E : Environment) (N : Numbering) (c : GlobalId) (A : InductiveType) (from by : ℕ) → WellTypedLookups E N → inductive_type_of E c ≡ Some A → lift_tree from by A.arity ≡ A.arity }
    ensures constructor_types { (E : Environment) (N : Numbering) (c : GlobalId) (K : Constructor) (from by : ℕ) → WellTypedLookups E N → constructor_of E c ≡ Some K → lift_tree from by K.type ≡ K.type }
{}
