//! Laws: the tests that the counted check makes of a block, and of an elimination, pass exactly where the rules hold.
ghost use Rattle.std.specs.Prelude.{◌≡◌, ◌≢◌, ◌↔◌, ℕ, true, None, Some, List, [], ◌∷◌, ◌++◌, take, drop};
ghost use Rattle.cic_terms.specs.Tree.{TreeSort, prop, Tree, sort};
ghost use Rattle.cic_names.specs.declared.name.GlobalId.{GlobalId};
ghost use Rattle.cic_rules.specs.Numbering.{Numbering, MeetsAll};
ghost use Rattle.cic_rules.specs.Environment.{Environment, TypeInBlock, Block, TypeDeclaration, ConstructorDeclaration, whole_block, element, bare_ids};
ghost use Rattle.cic_rules.specs.Telescopes.{Function, products, domains_of, extend};
ghost use Rattle.cic_rules.specs.Inductive.{Each, ArityShape, ConstructorParts, ShapedBlock};
ghost use Rattle.cic_rules.specs.Nested.{Positive, NestedPositiveBlock};
ghost use Rattle.cic_rules.specs.Typing.{Eliminated, Propositions};
ghost use Rattle.cic_counted.specs.Outcome.{Budget, done, stops, refused, bad_elimination};
ghost use Rattle.cic_counted.specs.BlockTests.{ShapeFault, shape_fault, is_strictly_positive, PositivityFault, positivity_fault};
ghost use Rattle.cic_counted.specs.GuardTest.{Unguarded, guard_fault};
ghost use Rattle.cic_counted.specs.NestedTest.{is_nested_positive, nested_fault};
ghost use Rattle.cic_counted.specs.PlainPositivity.{StrictlyPositive, PositiveBlock};
ghost use Rattle.cic_counted.specs.Inference.{Calls, calls_at, eliminates};
ghost use Rattle.cic_soundness.specs.FirstFaults.{FirstNotShaped, FirstNotPositive};
ghost use Rattle.cic_soundness.specs.calls.FixParts.{HasAllParts};
ghost use Rattle.cic_soundness.specs.FoundSorts.{FoundPropositions};
ghost use Rattle.cic_soundness.specs.Occurrences.{FirstUnguarded};
ghost use Rattle.cic_metatheory.specs.WellTypedLookups.{WellTypedLookups};
ghost use Rattle.cic_rules.specs.Guard.{Guarded};

/// The test of shape passes a block exactly where it has the shape.
#[tactic(auto, using(crate::proofs::blocks::Shapes::shaped_block, crate::proofs::exactness::Shape::shaped_passes))]
pub fn shape_test_is_exact()
    ensures sound { (block : Block) → shape_fault block ≡ None → ShapedBlock block }
    ensures complete { (block : Block) → ShapedBlock block → shape_fault block ≡ None }
{}

/// The test of nested positivity passes a term exactly where the types are strictly positive in it, and a block exactly
/// where it is positive. Of a block it is asked only where that has the shape: in a constructor that does not end in
/// its type it sees no fault.
#[tactic(auto, using(crate::proofs::exactness::Positivity::nested_positive_decided))]
pub fn nested_positivity_test_is_exact()
    ensures terms { (E : Environment) (ids : List GlobalId) (t : Tree) → (is_nested_positive E ids t ≡ true) ↔ Positive E ids [] t }
    ensures sound { (E : Environment) (block : Block) → ShapedBlock block → nested_fault E block ≡ None → NestedPositiveBlock E block }
    ensures complete { (E : Environment) (block : Block) → NestedPositiveBlock E block → nested_fault E block ≡ None }
{}

/// The same of the test of positivity without nested types.
#[tactic(auto, using(crate::proofs::exactness::Positivity::strictly_positive_decided))]
pub fn plain_positivity_test_is_exact()
    ensures terms { (ids : List GlobalId) (t : Tree) → (is_strictly_positive ids t ≡ true) ↔ StrictlyPositive ids t }
    ensures sound { (block : Block) → ShapedBlock block → positivity_fault block ≡ None → PositiveBlock block }
    ensures complete { (block : Block) → PositiveBlock block → positivity_fault block ≡ None }
{}

/// The fault of a block in its shape is the first, arities before constructors, and the first is answered.
#[tactic(auto, using(crate::proofs::exactness::FirstShapeFault::shape_fault_is_first, crate::proofs::exactness::FirstShapeFault::first_shape_fault))]
pub fn shape_fault_is_the_first()
    ensures first { (block : Block) (fault : ShapeFault) → shape_fault block ≡ Some fault → FirstNotShaped block fault }
    ensures answered { (block : Block) (fault : ShapeFault) → FirstNotShaped block fault → shape_fault block ≡ Some fault }
{}

/// The fault of a block in its positivity is the first, by types, constructors and arguments, and the first is answered.
#[tactic(auto, using(crate::proofs::exactness::FirstPositivityFault::nested_fault_is_first))]
pub fn nested_positivity_fault_is_the_first()
    ensures first { (E : Environment) (block : Block) (fault : PositivityFault) → ShapedBlock block → nested_fault E block ≡ Some fault → FirstNotPositive (Positive E (bare_ids block.types) []) block fault }
    ensures answered { (E : Environment) (block : Block) (fault : PositivityFault) → FirstNotPositive (Positive E (bare_ids block.types) []) block fault → nested_fault E block ≡ Some fault }
{}

/// The same of the test of positivity without nested types.
#[tactic(auto, using(crate::proofs::exactness::FirstPositivityFault::positivity_fault_is_first))]
pub fn plain_positivity_fault_is_the_first()
    ensures first { (block : Block) (fault : PositivityFault) → ShapedBlock block → positivity_fault block ≡ Some fault → FirstNotPositive (StrictlyPositive (bare_ids block.types)) block fault }
    ensures answered { (block : Block) (fault : PositivityFault) → FirstNotPositive (StrictlyPositive (bare_ids block.types)) block fault → positivity_fault block ≡ Some fault }
{}

/// The fault of a Fix in its guard is the first: the first function that is not guarded, and the number of its first bad
/// call; and the first is answered. As where the test is exact, its bodies have the parts that their shapes say.
#[tactic(auto, using(crate::proofs::exactness::FirstGuardFault::guard_fault_is_first))]
pub fn guard_fault_is_the_first()
    ensures first { (E : Environment) (fs : List Function) (fault : Unguarded) → Each (λ f. HasAllParts f.body) fs → guard_fault E fs ≡ Some fault → FirstUnguarded E fs fault }
    ensures answered { (E : Environment) (fs : List Function) (fault : Unguarded) → Each (λ f. HasAllParts f.body) fs → FirstUnguarded E fs fault → guard_fault E fs ≡ Some fault }
{}

/// Into Prop each type is eliminated without a counted call, and so is a type that is no proposition into each sort. Where
/// a type has not exactly one constructor, no call is made: the test passes exactly where the type is eliminated into the
/// sort, and refuses it elsewhere.
pub fn elimination_without_calls_is_exact()
    ensures into_prop { (calls : Calls) (id : GlobalId) (r : ℕ) (T : TypeDeclaration) (b : Budget) → eliminates calls id r T prop b ≡ done tt b }
    ensures no_proposition { (calls : Calls) (id : GlobalId) (r : ℕ) (T : TypeDeclaration) (s s' : TreeSort) (domains : List Tree) (b : Budget) → T.arity ≡ products domains (sort s') → s' ≢ prop → eliminates calls id r T s b ≡ done tt b }
    ensures sound { (E : Environment) (N : Numbering) (calls : Calls) (id : GlobalId) (r : ℕ) (T : TypeDeclaration) (s : TreeSort) (domains : List Tree) (u : Unit {0}) (b b' : Budget) → ArityShape domains T.arity → ((c : ConstructorDeclaration) → T.constructors ≢ c ∷ []) → eliminates calls id r T s b ≡ done u b' → Eliminated E N r T s }
    ensures complete { (E : Environment) (N : Numbering) (calls : Calls) (id : GlobalId) (r : ℕ) (T : TypeDeclaration) (s : TreeSort) (b : Budget) → ((c : ConstructorDeclaration) → T.constructors ≢ c ∷ []) → Eliminated E N r T s → eliminates calls id r T s b ≡ done tt b }
    ensures refused { (E : Environment) (N : Numbering) (calls : Calls) (id : GlobalId) (r : ℕ) (T : TypeDeclaration) (s : TreeSort) (domains : List Tree) (b : Budget) → ArityShape domains T.arity → ((c : ConstructorDeclaration) → T.constructors ≢ c ∷ []) → (¬ Eliminated E N r T s) → eliminates calls id r T s b ≡ stops (refused (bad_elimination id)) }
{}

/// A proposition with one constructor is eliminated into a sort other than Prop exactly where all arguments of the
/// constructor are propositions, under the parameters; and the test passes exactly where the counted sort of each, in
/// order, is found to be Prop. The first that is found to be another ends it.
pub fn elimination_of_one_constructor()
    ensures rule { (E : Environment) (N : Numbering) (r : ℕ) (T : TypeDeclaration) (s : TreeSort) (c : ConstructorDeclaration) (domains : List Tree) → T.arity ≡ products domains (sort prop) → s ≢ prop → T.constructors ≡ c ∷ [] → Eliminated E N r T s ↔ ((parts : ConstructorParts r T.id c.type) × Propositions E N (extend [] parts.parameters) parts.arguments) }
    ensures test { (calls : Calls) (id : GlobalId) (r : ℕ) (T : TypeDeclaration) (s : TreeSort) (c : ConstructorDeclaration) (domains : List Tree) (b b' : Budget) → T.arity ≡ products domains (sort prop) → s ≢ prop → T.constructors ≡ c ∷ [] → (eliminates calls id r T s b ≡ done tt b') ↔ FoundPropositions calls (extend [] (take r (domains_of c.type))) (drop r (domains_of c.type)) b b' }
    ensures other_sort { (calls : Calls) (id : GlobalId) (r : ℕ) (T : TypeDeclaration) (s s' : TreeSort) (c : ConstructorDeclaration) (domains before after : List Tree) (a : Tree) (b b' b'' : Budget) → T.arity ≡ products domains (sort prop) → s ≢ prop → T.constructors ≡ c ∷ [] → drop r (domains_of c.type) ≡ before ++ a ∷ after → FoundPropositions calls (extend [] (take r (domains_of c.type))) before b b' → calls.sort_of (extend (extend [] (take r (domains_of c.type))) before) a b' ≡ done s' b'' → s' ≢ prop → eliminates calls id r T s b ≡ stops (refused (bad_elimination id)) }
{}

/// Where the test of elimination passes with the counted calls over what is right, the type is eliminated into the sort,
/// at every numbering that meets the constraints found.
#[tactic(auto, using(crate::proofs::exactness::Elimination::passed_elimination_holds))]
pub fn passed_eliminations_hold()
    ensures { (E : Environment) (N : Numbering) (k : ℕ) (id : GlobalId) (place : TypeInBlock) (T : TypeDeclaration) (s : TreeSort) (u : Unit {0}) (b b' : Budget) → WellTypedLookups E N → whole_block E id ≡ Some place → element place.block.types place.index ≡ Some T → eliminates (calls_at k E) id place.block.parameters T s b ≡ done u b' → MeetsAll N b'.found → Eliminated E N place.block.parameters T s }
{}

/// The test of the guard is exact: it passes a Fix whose bodies have the parts that their shapes say exactly
/// where it is guarded.
#[tactic(auto, using(crate::proofs::fixpoints::Sound::guard_is_right, crate::proofs::exactness::Guard::guarded_passes))]
pub fn guard_test_is_exact()
    ensures sound { (E : Environment) (fs : List Function) → Each (λ f. HasAllParts f.body) fs → guard_fault E fs ≡ None → Guarded E fs }
    ensures complete { (E : Environment) (fs : List Function) → Each (λ f. HasAllParts f.body) fs → Guarded E fs → guard_fault E fs ≡ None }
{}
