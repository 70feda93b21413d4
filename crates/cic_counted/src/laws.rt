ghost use Rattle.std.specs.Prelude.{◌≡◌, ◌≤◌, ◌↔◌, ℕ, [], ◌∷◌, true, List, length, Some};
ghost use Rattle.cic_terms.specs.Tree.{TreeSort, set, Tree, sort, prod};
ghost use Rattle.cic_counted.specs.Sameness.{same_tree};
ghost use Rattle.cic_rules.specs.Numbering.{Numbering, Meets, MeetsAll};
ghost use Rattle.cic_rules.specs.Environment.{Environment, Context};
ghost use Rattle.cic_rules.specs.Telescopes.{Function, fixpoint, function_parts, function_shapes};
ghost use Rattle.cic_names.specs.declared.constraint.Constraint.{Constraint};
ghost use Rattle.cic_names.specs.Orders.{insert_constraint};
ghost use Rattle.cic_counted.specs.Readings.{functions_of};
ghost use Rattle.cic_counted.specs.PlainPositivity.{PositiveBlock};
ghost use Rattle.cic_counted.specs.Outcome.{Budget, done};
ghost use Rattle.cic_counted.specs.Evaluation.{conv_at, cumul_at, whnf_at};
ghost use Rattle.cic_counted.specs.calls.Done.{left_after, Converted, Converts, Cost, Cumulated, Cumulates, Evaluated, Evaluates};
ghost use Rattle.cic_counted.specs.calls.DoneTyping.{Checked, Checks, Inferred, Infers, SortOf, Sorted};
ghost use Rattle.cic_counted.specs.Inference.{calls_at};
ghost use Rattle.cic_rules.specs.Typing.{Derivation};
ghost use Rattle.cic_counted.specs.calls.Examples.{bad_block, N, nat, with_N, zero_function};

/// A type that stands left of an arrow in an argument of its constructor is not strictly positive.
pub fn left_of_an_arrow_is_not_positive()
    ensures { ¬ PositiveBlock bad_block }
{}

/// A derivation of the rules: a fixpoint with a match, whose codomain is unfolded.
pub fn fixpoint_is_derivable()
    ensures { Derivation with_N [] [] (fixpoint 0 (zero_function ∷ [])) (prod nat N) }
{}

/// The test of equality of terms decides it.
pub fn same_tree_is_equality()
    ensures { (t u : Tree) → (same_tree t u ≡ true) ↔ (t ≡ u) }
{}

/// The functions of a fixpoint are those that its parts were made of.
pub fn functions_are_read_off()
    ensures { (fs : List Function) → functions_of (function_shapes fs) (function_parts (length fs) fs) ≡ Some fs }
{}

/// Where evaluation is done, the relation holds, at the cost that was taken.
pub fn evaluation_has_its_cost()
    ensures { (E : Environment) (G : Context) (k : ℕ) (t v : Tree) (b b' : Budget) → whnf_at k E G t b ≡ done v b' → Evaluated E G k t v b b' }
{}

/// Where conversion and subtyping are done, the relations hold, at the cost that was taken.
pub fn conversion_has_its_cost()
    ensures conversion { (E : Environment) (k : ℕ) (G : Context) (t t' : Tree) (u : Unit {0}) (b b' : Budget) → conv_at k E G t t' b ≡ done u b' → Converted E G k t t' b b' }
    ensures subtyping { (E : Environment) (k : ℕ) (G : Context) (t t' : Tree) (u : Unit {0}) (b b' : Budget) → cumul_at k E G t t' b ≡ done u b' → Cumulated E G k t t' b b' }
{}

/// Where inference, a check and the sort of a type are done, the relations hold, at the cost that was taken.
pub fn typing_has_its_cost()
    ensures inference { (E : Environment) (k : ℕ) (G : Context) (t T : Tree) (b b' : Budget) → (calls_at k E).infer G t b ≡ done T b' → Inferred E G k t T b b' }
    ensures check { (E : Environment) (k : ℕ) (G : Context) (t T : Tree) (u : Unit {0}) (b b' : Budget) → (calls_at k E).check G t T b ≡ done u b' → Checked E G k t T b b' }
    ensures sort { (E : Environment) (k : ℕ) (G : Context) (t : Tree) (s : TreeSort) (b b' : Budget) → (calls_at k E).sort_of G t b ≡ done s b' → Sorted E G k t s b b' }
{}

/// A numbering meets a set with one more constraint where it meets the set and the constraint.
pub fn insertion_keeps_all()
    ensures { (N : Numbering) (c : Constraint) (K : List Constraint) → MeetsAll N (insert_constraint K c) ↔ (Meets N c × MeetsAll N K) }
{}

/// Where the relation holds, evaluation is done at every budget and depth that suffice.
pub fn evaluation_at_every_budget()
    ensures { (E : Environment) (G : Context) (k : ℕ) (t v : Tree) (c : Cost) (b : Budget) → Evaluates E G t v c → c.depth ≤ k → c.steps ≤ b.rest → whnf_at k E G t b ≡ done v (left_after c b) }
{}

/// Where the relations hold, conversion and subtyping are done at every budget and depth that suffice.
pub fn conversion_at_every_budget()
    ensures conversion { (E : Environment) (G : Context) (k : ℕ) (t t' : Tree) (c : Cost) (b : Budget) → Converts E G t t' c → c.depth ≤ k → c.steps ≤ b.rest → conv_at k E G t t' b ≡ done tt (left_after c b) }
    ensures subtyping { (E : Environment) (G : Context) (k : ℕ) (t t' : Tree) (c : Cost) (b : Budget) → Cumulates E G t t' c → c.depth ≤ k → c.steps ≤ b.rest → cumul_at k E G t t' b ≡ done tt (left_after c b) }
{}

/// Where the relations hold, inference, checks and the sort of a type are done at every budget and depth
/// that suffice.
pub fn typing_at_every_budget()
    ensures inference { (E : Environment) (G : Context) (k : ℕ) (t T : Tree) (c : Cost) (b : Budget) → Infers E G t T c → c.depth ≤ k → c.steps ≤ b.rest → (calls_at k E).infer G t b ≡ done T (left_after c b) }
    ensures check { (E : Environment) (G : Context) (k : ℕ) (t T : Tree) (c : Cost) (b : Budget) → Checks E G t T c → c.depth ≤ k → c.steps ≤ b.rest → (calls_at k E).check G t T b ≡ done tt (left_after c b) }
    ensures sort { (E : Environment) (G : Context) (k : ℕ) (t : Tree) (s : TreeSort) (c : Cost) (b : Budget) → SortOf E G t s c → c.depth ≤ k → c.steps ≤ b.rest → (calls_at k E).sort_of G t b ≡ done s (left_after c b) }
{}
