//! Laws: the contexts of a match are well formed, and the goals of its branches have sorts.
ghost use Rattle.std.specs.Prelude.{◌≡◌, ◌++◌, ◌∷◌, ℕ, List, Some, length};
ghost use Rattle.cic_terms.specs.Tree.{Tree, TreeSort, ind, sort};
ghost use Rattle.cic_names.specs.declared.name.GlobalId.{GlobalId};
ghost use Rattle.cic_rules.specs.Numbering.{Numbering};
ghost use Rattle.cic_rules.specs.Environment.{Environment, Context, TypeInBlock, TypeDeclaration, ConstructorDeclaration, whole_block, element, assumed};
ghost use Rattle.cic_rules.specs.Telescopes.{apply, domains_of, extend, lift_all, variables};
ghost use Rattle.cic_rules.specs.Typing.{HasSort, Typed, WellFormedContext};
ghost use Rattle.cic_counted.specs.Readings.{instantiate};
ghost use Rattle.cic_counted.specs.BlockTests.{index_count};
ghost use Rattle.cic_counted.specs.Inference.{branch_goal};
ghost use Rattle.cic_metatheory.specs.WellTypedLookups.{WellTypedLookups};

/// Where a type of a whole block has a sort under as many parameters and indices as it has, the context in
/// which inference sorts the motive of a match on it, and the one in which it checks a branch, are well formed.
#[tactic(auto, using(crate::proofs::matches::Laws::motive_context, crate::proofs::matches::Laws::branch_context))]
pub fn contexts_of_matches_are_well_formed()
    ensures motive { (E : Environment) (N : Numbering) (G : Context) (id : GlobalId) (place : TypeInBlock) (T : TypeDeclaration) (parameters indices : List Tree) → WellTypedLookups E N → whole_block E id ≡ Some place → element place.block.types place.index ≡ Some T → length parameters ≡ place.block.parameters → length indices ≡ index_count place.block.parameters T → HasSort E N G (apply (ind id) (parameters ++ indices)) → WellFormedContext E N G → WellFormedContext E N (assumed (apply (ind id) (lift_all (length indices) parameters ++ variables (length indices))) ∷ extend G (domains_of (instantiate parameters T.arity))) }
    ensures branch { (E : Environment) (N : Numbering) (G : Context) (id : GlobalId) (place : TypeInBlock) (T : TypeDeclaration) (c : ConstructorDeclaration) (k : ℕ) (parameters indices : List Tree) → WellTypedLookups E N → whole_block E id ≡ Some place → element place.block.types place.index ≡ Some T → element T.constructors k ≡ Some c → length parameters ≡ place.block.parameters → length indices ≡ index_count place.block.parameters T → HasSort E N G (apply (ind id) (parameters ++ indices)) → WellFormedContext E N G → WellFormedContext E N (extend G (domains_of (instantiate parameters c.type))) }
{}

/// Where the motive of a match has a sort, the goal against which inference checks a branch has it too.
#[tactic(auto, using(crate::proofs::matches::Laws::branch_goal_at))]
pub fn goals_of_branches_have_sorts()
    ensures { (E : Environment) (N : Numbering) (G : Context) (id : GlobalId) (place : TypeInBlock) (T : TypeDeclaration) (c : ConstructorDeclaration) (k : ℕ) (parameters indices : List Tree) (p : Tree) (s : TreeSort) → WellTypedLookups E N → whole_block E id ≡ Some place → element place.block.types place.index ≡ Some T → element T.constructors k ≡ Some c → length parameters ≡ place.block.parameters → length indices ≡ index_count place.block.parameters T → HasSort E N G (apply (ind id) (parameters ++ indices)) → Typed E N (assumed (apply (ind id) (lift_all (length indices) parameters ++ variables (length indices))) ∷ extend G (domains_of (instantiate parameters T.arity))) p (sort s) → Typed E N (extend G (domains_of (instantiate parameters c.type))) (branch_goal (length indices) parameters p c) (sort s) }
{}
