//! Laws by example: what the rules take and refuse of nested types.
ghost use Rattle.std.specs.Prelude.{[], ◌∷◌};
ghost use Rattle.cic_rules.specs.Environment.{Environment, inductive};
ghost use Rattle.cic_rules.specs.Guard.{Guarded};
ghost use Rattle.cic_rules.specs.Nested.{NestedPositiveBlock};
ghost use Rattle.cic_counted.specs.calls.Examples.{environment};
ghost use Rattle.cic_counted.specs.calls.NestedExamples.{list_block, tree_block, trees, size_function, again_function, nested_bad_block, containers, contained, grid_block, cells_function, binary_block, leaves_function, wide_block, path_function, held_block, open_function, links, chain_block, nest_block, bush_block};

/// A tree over a list of trees is positive, and its size, which sums over the list inside, is guarded.
pub fn trees_over_lists()
    ensures positive { NestedPositiveBlock (environment (inductive list_block ∷ [])) tree_block }
    ensures guarded { Guarded trees (size_function ∷ []) }
{}

/// Types over a list of lists of them, a pair of them, and a function whose values are lists of them are
/// positive, and a fixpoint that calls itself on what these hold is guarded.
pub fn types_over_containers()
    ensures list_of_lists { NestedPositiveBlock containers grid_block }
    ensures cells { Guarded contained (cells_function ∷ []) }
    ensures pair { NestedPositiveBlock containers binary_block }
    ensures leaves { Guarded contained (leaves_function ∷ []) }
    ensures function { NestedPositiveBlock containers wide_block }
    ensures path { Guarded contained (path_function ∷ []) }
{}

/// Instances are at most 64: a chain of 64 is positive, one of 65 is not, and no type is whose instances lead to
/// ever more of them.
pub fn instances_are_at_most_64()
    ensures few_enough { NestedPositiveBlock (environment (links 64)) (chain_block 63) }
    ensures one_too_many { ¬ NestedPositiveBlock (environment (links 65)) (chain_block 64) }
    ensures ever_more { ¬ NestedPositiveBlock (environment (inductive list_block ∷ inductive nest_block ∷ [])) bush_block }
{}

/// An argument whose type is a parameter applied has no shape: the type is positive, and a call on that
/// argument is not guarded.
pub fn applied_parameter()
    ensures positive { NestedPositiveBlock containers held_block }
    ensures not_guarded { ¬ Guarded contained (open_function ∷ []) }
{}

/// A type with a list of functions out of it is not positive, and a call on a constructor is not guarded.
pub fn refused_by_the_rules()
    ensures not_positive { ¬ NestedPositiveBlock (environment (inductive list_block ∷ [])) nested_bad_block }
    ensures not_guarded { (E : Environment) → ¬ Guarded E (again_function ∷ []) }
{}
