//! Worked examples: bytes written out by the table, and bytes with each defect at its place. A place is told by how many
//! bytes there are from it to the end.
#![tactic(auto, unfolding(crate::specs::Reading::number_of, crate::specs::Reading::read_number, crate::specs::Reading::read_limited, crate::specs::Reading::read_name, crate::specs::Reading::read_id, crate::specs::Reading::read_named, crate::specs::Reading::read_level_name, crate::specs::Reading::read_level, crate::specs::ConstraintReading::read_strict, crate::specs::ConstraintReading::read_constraint, crate::specs::ConstraintReading::read_constraints, crate::specs::TermReading::row_of, crate::specs::TermReading::read_term))]

ghost use Rattle.std.specs.Prelude.{◌≡◌, ◌≤◌, ℕ, List, [], ◌∷◌, ◌++◌, codes, take};
ghost use Rattle.cic_names.specs.Orders.{name_bytes, level_bytes};
ghost use Rattle.cic_names.specs.declared.level.Level.TheVariants.{Set};
ghost use Rattle.cic_names.specs.declared.level.Part.TheVariants.{Visible};
ghost use Rattle.seg_format.specs.declared.faults.Defect.TheVariants.{Short, Tag, Number, Order, Trailing, Depth};
ghost use Rattle.seg_format.specs.declared.faults.Defect.TheVariants.{Name as NoName};
ghost use Rattle.cic_terms.specs.Tree.{rel, sort, prop, set, own, lam, app, const};
ghost use Rattle.term_format.specs.Spelling.{term_bytes, constraints_bytes};
ghost use Rattle.term_format.specs.Storable.{IsSort, HasRow, AreStorable};
ghost use Rattle.term_format.specs.Reading.{value, wrong, whole, read_name, read_level};
ghost use Rattle.term_format.specs.ConstraintReading.{read_constraints};
ghost use Rattle.term_format.specs.TermReading.{read_term};
ghost use Rattle.term_format.specs.calls.Examples.{level_A, plain, set_below, above_set, set_below_bytes, above_set_bytes, n_of_A, n_bytes, one_branch, one_branch_bytes, one_function, function_with, tower};

/// Names and levels, and bytes that are none.
pub fn names_and_levels()
    ensures name { name_bytes (codes "nat") ≡ 3 ∷ 110 ∷ 97 ∷ 116 ∷ [] }
    ensures read { read_name (1 ∷ 110 ∷ 7 ∷ []) ≡ value (codes "n") (7 ∷ []) }
    ensures empty { read_name (0 ∷ 110 ∷ []) ≡ wrong NoName 2 }
    ensures no_identifier { read_name (2 ∷ 49 ∷ 97 ∷ []) ≡ wrong NoName 3 }
    ensures reserved { read_name (3 ∷ 102 ∷ 117 ∷ 110 ∷ []) ≡ wrong NoName 4 }
    ensures cut { read_name (3 ∷ 110 ∷ 97 ∷ []) ≡ wrong Short 0 }
    ensures level { level_bytes (level_A (codes "c") (Visible 258)) ≡ 2 ∷ 1 ∷ 65 ∷ 1 ∷ 99 ∷ 0 ∷ 0 ∷ 1 ∷ 2 ∷ [] }
    ensures level_read { read_level (2 ∷ 1 ∷ 65 ∷ 1 ∷ 99 ∷ 0 ∷ 0 ∷ 1 ∷ 2 ∷ []) ≡ value (level_A (codes "c") (Visible 258)) [] }
    ensures no_level { read_level (4 ∷ 1 ∷ []) ≡ wrong Tag 2 }
{}

/// Lists of constraints, and lists that do not increase.
pub fn constraints()
    ensures spelled { constraints_bytes (set_below ∷ above_set ∷ []) ≡ (0 ∷ 0 ∷ 0 ∷ 2 ∷ []) ++ set_below_bytes ++ above_set_bytes }
    ensures read { read_constraints ((0 ∷ 0 ∷ 0 ∷ 2 ∷ []) ++ set_below_bytes ++ above_set_bytes) ≡ value (set_below ∷ above_set ∷ []) [] }
    ensures falling { read_constraints ((0 ∷ 0 ∷ 0 ∷ 2 ∷ []) ++ above_set_bytes ++ set_below_bytes) ≡ wrong Order 7 }
    ensures twice { read_constraints ((0 ∷ 0 ∷ 0 ∷ 2 ∷ []) ++ above_set_bytes ++ above_set_bytes) ≡ wrong Order 7 }
    ensures no_strictness { read_constraints (0 ∷ 0 ∷ 0 ∷ 1 ∷ 0 ∷ 2 ∷ 0 ∷ []) ≡ wrong Tag 2 }
    ensures cut { read_constraints (0 ∷ 0 ∷ 0 ∷ 2 ∷ 0 ∷ 0 ∷ 0 ∷ []) ≡ wrong Short 0 }
{}

/// Terms by the table.
pub fn terms()
    ensures variable { term_bytes (rel 3) ≡ 0 ∷ 0 ∷ 0 ∷ 0 ∷ 3 ∷ [] }
    ensures type_at_a_level { term_bytes (sort (plain (level_A (codes "c") (Visible 0)))) ≡ 3 ∷ 2 ∷ 1 ∷ 65 ∷ 1 ∷ 99 ∷ 0 ∷ 0 ∷ 0 ∷ 0 ∷ [] }
    ensures application { term_bytes (app (const n_of_A) (sort set)) ≡ (7 ∷ 8 ∷ []) ++ n_bytes ++ (2 ∷ []) }
    ensures branches { term_bytes one_branch ≡ one_branch_bytes }
    ensures branches_read { read_term 2 one_branch_bytes ≡ value one_branch [] }
    ensures function { term_bytes one_function ≡ function_with 0 0 }
    ensures function_read { read_term 2 (function_with 0 0) ≡ value one_function [] }
    ensures no_own_universe { IsSort (own 1) → ⊥ }
    ensures no_higher_variable { HasRow (rel 1048577) → ⊥ }
{}

/// Bytes that are no term.
pub fn defects()
    ensures no_kind { read_term 9 (13 ∷ []) ≡ wrong Tag 1 }
    ensures no_named_level { read_term 9 (3 ∷ 0 ∷ []) ≡ wrong Tag 1 }
    ensures high_variable { read_term 9 (0 ∷ 0 ∷ 16 ∷ 0 ∷ 1 ∷ []) ≡ wrong Number 4 }
    ensures highest_variable { read_term 9 (0 ∷ 0 ∷ 16 ∷ 0 ∷ 0 ∷ []) ≡ value (rel 1048576) [] }
    ensures no_such_function { read_term 9 (function_with 1 0) ≡ wrong Number 23 }
    ensures no_such_domain { read_term 9 (function_with 0 1) ≡ wrong Number 15 }
    ensures no_function { read_term 9 (12 ∷ 0 ∷ 0 ∷ 0 ∷ 0 ∷ 0 ∷ 0 ∷ 0 ∷ 0 ∷ []) ≡ wrong Number 4 }
    ensures cut_number { read_term 9 (0 ∷ 0 ∷ 16 ∷ []) ≡ wrong Short 0 }
    ensures trailing { whole (read_term 9 (1 ∷ 1 ∷ [])) ≡ wrong Trailing 1 }
{}

/// The level below the last: a byte that is there is too deep, whatever it is.
pub fn depths()
    ensures deepest { read_term 3 (term_bytes (tower 2)) ≡ value (tower 2) [] }
    ensures too_deep { read_term 2 (term_bytes (tower 2)) ≡ wrong Depth 2 }
    ensures no_kind_too_deep { read_term 1 (5 ∷ 99 ∷ []) ≡ wrong Depth 1 }
    ensures cut_too_deep { read_term 1 (5 ∷ []) ≡ wrong Short 0 }
{}
