//! Laws: positivity without nested types and the guard without shapes, and that what passed them passes the rules.
ghost use Rattle.std.specs.Prelude.{List, ℕ};
ghost use Rattle.cic_terms.specs.Tree.{Tree};
ghost use Rattle.cic_terms.specs.Lift.{lift_tree, subst_tree};
ghost use Rattle.cic_names.specs.declared.name.GlobalId.{GlobalId};
ghost use Rattle.cic_rules.specs.Environment.{Environment, environment_ids, Block, declared};
ghost use Rattle.cic_rules.specs.Telescopes.{Function};
ghost use Rattle.cic_rules.specs.Guard.{Guarded};
ghost use Rattle.cic_rules.specs.Inductive.{Absent};
ghost use Rattle.cic_counted.specs.PlainPositivity.{StrictlyPositive, PositiveBlock};
ghost use Rattle.cic_rules.specs.Nested.{NestedPositiveBlock};
ghost use Rattle.cic_rules.specs.Formed.{Distinct};
ghost use Rattle.cic_soundness.specs.calls.PlainGuard as P;
ghost use Rattle.cic_metatheory.specs.Substitution.{rename, substitute};

/// Types that are strictly positive in a term stay so under a renaming, so under a lift, and under a
/// substitution that puts in terms without them. The shape and the positivity of a block take no
/// environment, so they are the same over each.
#[tactic(auto, using(crate::proofs::blocks::PlainPositivity::strictly_positive_rename, crate::proofs::blocks::PlainPositivity::strictly_positive_lift, crate::proofs::blocks::PlainPositivity::strictly_positive_substitute, crate::proofs::blocks::PlainPositivity::strictly_positive_subst))]
pub fn positivity_stays_under_substitution()
    ensures renaming { (ids : List GlobalId) (r : ℕ → ℕ) (t : Tree) → StrictlyPositive ids t → StrictlyPositive ids (rename r t) }
    ensures lift { (ids : List GlobalId) (from by : ℕ) (t : Tree) → StrictlyPositive ids t → StrictlyPositive ids (lift_tree from by t) }
    ensures substitution { (ids : List GlobalId) (s : ℕ → Tree) (t : Tree) → ((x : ℕ) → Absent ids (s x)) → StrictlyPositive ids t → StrictlyPositive ids (substitute s t) }
    ensures at_place { (ids : List GlobalId) (at : ℕ) (u t : Tree) → Absent ids u → StrictlyPositive ids t → StrictlyPositive ids (subst_tree at u t) }
{}

/// A block that is positive without nested types is positive, and a Fix that is guarded without shapes is
/// guarded, where no id is declared twice.
#[tactic(auto, using(crate::proofs::fixpoints::Plain::guarded_with_shapes))]
pub fn nested_types_accept_more()
    ensures blocks { (E : Environment) (block : Block) → PositiveBlock block → NestedPositiveBlock E block }
    ensures fixpoints { (E : Environment) (fs : List Function) → Distinct (environment_ids E) → P.Guarded E fs → Guarded E fs }
{}
