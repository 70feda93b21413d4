//! Laws: the guard of a Fix where the environment grows, and the guard and strict positivity under renaming
//! and substitution.
ghost use Rattle.std.specs.Prelude.{List, [], ◌∷◌, ◌++◌, ◌≡◌, Option, ℕ, length, map};
ghost use Rattle.cic_terms.specs.Tree.{Tree};
ghost use Rattle.cic_terms.specs.Lift.{lift_tree, subst_rel, subst_tree};
ghost use Rattle.cic_names.specs.declared.name.GlobalId.{GlobalId};
ghost use Rattle.cic_rules.specs.Environment.{Environment, Block, bare, declared, inductive};
ghost use Rattle.cic_rules.specs.Telescopes.{Function, fixpoint};
ghost use Rattle.cic_rules.specs.Shapes.{GuardShape};
ghost use Rattle.cic_rules.specs.Guard.{Mark, Marks, Smaller, GuardedTerm, Guarded};
ghost use Rattle.cic_rules.specs.Nested.{Instance, Positive, NestedPositiveBlock};
ghost use Rattle.cic_metatheory.specs.Substitution.{rename, substitute, lifted_variable, substitute_function};
ghost use Rattle.cic_metatheory.specs.Growth.{KnowsItsTypes, SeesTypes, Grows};
ghost use Rattle.cic_metatheory.specs.calls.Guards.{ShowsBlocks, KeepsMarks, RespectsMarks, rename_functions, substitute_functions};

/// A guarded Fix stays guarded over each environment that shows all whole blocks which the first one shows,
/// and no more of what stands in the types of their constructors: so where items are appended, and where a
/// block taken bare becomes whole.
#[tactic(auto, using(crate::proofs::guards::Growth::guarded_grows, crate::proofs::guards::Environments::guarded_appended, crate::proofs::guards::Environments::guarded_whole))]
pub fn guard_stays_where_the_environment_grows()
    ensures blocks_alike { (E E' : Environment) (fs : List Function) → ShowsBlocks E E' → SeesTypes E E' → Guarded E fs → Guarded E' fs }
    ensures appended { (E others : Environment) (fs : List Function) → KnowsItsTypes E → Guarded E fs → Guarded (E ++ others) fs }
    ensures whole { (E : Environment) (block : Block) (fs : List Function) → KnowsItsTypes E → Guarded (E ++ bare block ∷ []) fs → Guarded (E ++ declared (inductive block) ∷ []) fs }
{}

/// A guarded Fix stays guarded under every renaming. Its terms are so under each that keeps their marks,
/// and so under a lift.
#[tactic(auto, using(crate::proofs::guards::Functions::guarded_rename, crate::proofs::guards::Substitution::rename_guarded, crate::proofs::guards::Substitution::rename_smaller, crate::proofs::guards::Substitution::lift_guarded))]
pub fn guard_stays_under_renaming()
    ensures functions { (E : Environment) (r : ℕ → ℕ) (fs : List Function) → Guarded E fs → Guarded E (rename_functions r fs) }
    ensures guarded { (recursive : (known : Option GuardShape) → GlobalId → (place : ℕ) → Option (List Mark)) (places : List ℕ) (r : ℕ → ℕ) (marks marks' : Marks) (t : Tree) → KeepsMarks r marks marks' → GuardedTerm recursive places marks t → GuardedTerm recursive places marks' (rename r t) }
    ensures smaller_terms { (recursive : (known : Option GuardShape) → GlobalId → (place : ℕ) → Option (List Mark)) (places : List ℕ) (r : ℕ → ℕ) (marks marks' : Marks) (t : Tree) (g : GuardShape) → KeepsMarks r marks marks' → Smaller recursive places marks t g → Smaller recursive places marks' (rename r t) g }
    ensures lift { (recursive : (known : Option GuardShape) → GlobalId → (place : ℕ) → Option (List Mark)) (places : List ℕ) (from by : ℕ) (marks marks' : Marks) (t : Tree) → KeepsMarks (lifted_variable from by) marks marks' → GuardedTerm recursive places marks t → GuardedTerm recursive places marks' (lift_tree from by t) }
{}

/// A guarded Fix stays guarded under every substitution, since outside of it no variable is marked. Its
/// terms are so under each substitution that puts in a variable with the same mark for a marked one, and
/// a term without functions of the Fix for a plain one.
#[tactic(auto, using(crate::proofs::guards::Functions::guarded_substitute, crate::proofs::guards::Substitution::substitute_guarded, crate::proofs::guards::Substitution::substitute_smaller, crate::proofs::guards::Substitution::subst_guarded))]
pub fn guard_stays_under_substitution()
    ensures functions { (E : Environment) (s : ℕ → Tree) (fs : List Function) → Guarded E fs → Guarded E (substitute_functions s fs) }
    ensures guarded { (recursive : (known : Option GuardShape) → GlobalId → (place : ℕ) → Option (List Mark)) (places : List ℕ) (s : ℕ → Tree) (marks marks' : Marks) (t : Tree) → RespectsMarks s marks marks' → GuardedTerm recursive places marks t → GuardedTerm recursive places marks' (substitute s t) }
    ensures smaller_terms { (recursive : (known : Option GuardShape) → GlobalId → (place : ℕ) → Option (List Mark)) (places : List ℕ) (s : ℕ → Tree) (marks marks' : Marks) (t : Tree) (g : GuardShape) → RespectsMarks s marks marks' → Smaller recursive places marks t g → Smaller recursive places marks' (substitute s t) g }
    ensures at_place { (recursive : (known : Option GuardShape) → GlobalId → (place : ℕ) → Option (List Mark)) (places : List ℕ) (at : ℕ) (u : Tree) (marks marks' : Marks) (t : Tree) → RespectsMarks (subst_rel at u) marks marks' → GuardedTerm recursive places marks t → GuardedTerm recursive places marks' (subst_tree at u t) }
{}

/// Both at once: a guarded Fix stays guarded over an environment that shows all that the first one shows,
/// with any terms put in for the variables outside of it.
pub fn substitution_keeps_guard()
    ensures { (E E' : Environment) (fs : List Function) (s : ℕ → Tree) → Grows E E' → Guarded E fs → Guarded E' (map (substitute_function (length fs) s) fs) }
{}

/// What a renaming, and a substitution, makes of a Fix is the Fix with the functions that it makes of its own.
#[tactic(auto, using(crate::proofs::guards::Functions::rename_fixpoint, crate::proofs::substitutions::Telescopes::substitute_fixpoint))]
pub fn fix_under_substitution()
    ensures renaming { (r : ℕ → ℕ) (which : ℕ) (fs : List Function) → rename r (fixpoint which fs) ≡ fixpoint which (rename_functions r fs) }
    ensures substitution { (s : ℕ → Tree) (which : ℕ) (fs : List Function) → substitute s (fixpoint which fs) ≡ fixpoint which (substitute_functions s fs) }
{}

/// Types that are strictly positive in a term, with nested types, stay so over each environment that shows
/// all whole blocks which the first one shows; and so does a positive block.
#[tactic(auto, using(crate::proofs::guards::Positivity::positive_grows))]
pub fn positivity_stays_where_the_environment_grows()
    ensures terms { (E E' : Environment) (ids : List GlobalId) (L : List Instance) (t : Tree) → ShowsBlocks E E' → Positive E ids L t → Positive E' ids L t }
    ensures blocks { (E E' : Environment) (block : Block) → ShowsBlocks E E' → NestedPositiveBlock E block → NestedPositiveBlock E' block }
{}
