#![tactic(auto, unfolding(crate::specs::Checking::check_declaration, crate::specs::Evaluation::whnf_from, crate::specs::Evaluation::conv_from, crate::specs::Evaluation::cumul_from, crate::specs::Inference::calls_from, crate::specs::Inference::calls_at, crate::specs::Evaluation::whnf_at, crate::specs::Evaluation::cumul_at, crate::specs::Evaluation::conv_at))]

ghost use Rattle.std.specs.Prelude.{◌≡◌, ℕ, [], ◌∷◌, true, None, Some, codes};
ghost use Rattle.cic_terms.specs.Tree.{set, prop, typ, rel, const, ctor, ind, sort, prod, lam, let_in, app};
ghost use Rattle.cic_names.specs.declared.level.Level.TheVariants as Level;
ghost use Rattle.cic_rules.specs.Environment.{inductive, assumed};
ghost use Rattle.cic_rules.specs.Telescopes.{apply, fixpoint};
ghost use Rattle.cic_counted.specs.Outcome.{stops, spent, unguarded, not_positive, bad_elimination, mismatch};
ghost use Rattle.cic_counted.specs.GuardTest.{guard_fault};
ghost use Rattle.cic_counted.specs.BlockTests.{positivity_fault};
ghost use Rattle.cic_counted.specs.NestedTest.{nested_fault};
ghost use Rattle.cic_counted.specs.calls.NestedExamples.{list_block, tree_block, trees, size_function, definition_size, again_function, definition_again, nested_bad_block, nest_block, bush_block, labelled_block, links, chain_block, grid_block, cells_function, definition_cells, binary_block, leaves_function, definition_leaves, wide_block, path_function, definition_path, held_block, definition_open, containers, contained, on_successor, defined_on_successor, good_call, bad_call, applied_fix, two_fixes};
ghost use Rattle.cic_counted.specs.calls.EtaExamples.{f, g, h, a, e, fun_x, applied_h, partly_applied_h, applied_h_a, converted, at_most, done_with_all, found_where, axiom_p, definition_s};
ghost use Rattle.cic_counted.specs.Checking.{check_declaration, rejects};
ghost use Rattle.cic_counted.specs.calls.Examples.{accepted_in, is_accepted, refuses, id_of, environment, P, axiom_P, definition_Q, definition_R, definition_Id, definition_t, nat, O, nat_block, match_nat, eq, eq_block, definition_plus, definition_two, theorem_plus_n_O, arithmetic, evaluated_at_n, converted_with_n, plus, plus_function, f_function, definition_f, g_function, definition_g, bool_block, even_function, odd_function, definition_even, forest_block, bad_block, box_block, two_block, definition_d, definition_e, true_block, false_block, theorem_bad, axiom_F, theorem_a, definition_x, below, visible_of, proofs_of, applied_f, axiom_f, axiom_Q, axiom_q, definition_r, evaluated, spent_all};

/// The steps of small checks, and a budget that is one step too small.
pub fn steps_of_checks()
    ensures proposition { check_declaration [] axiom_P 100 ≡ accepted_in 3 }
    ensures constant { check_declaration (environment (axiom_P ∷ [])) definition_Q 100 ≡ accepted_in 6 }
    ensures product { check_declaration (environment (axiom_P ∷ definition_Q ∷ [])) definition_R 12 ≡ accepted_in 12 }
    ensures product_spent { check_declaration (environment (axiom_P ∷ definition_Q ∷ [])) definition_R 11 ≡ rejects spent }
    ensures identity { check_declaration (environment (axiom_P ∷ [])) definition_Id 100 ≡ accepted_in 16 }
    ensures conversion { check_declaration (environment (axiom_P ∷ definition_Id ∷ [])) definition_t 30 ≡ accepted_in 30 }
    ensures conversion_spent { check_declaration (environment (axiom_P ∷ definition_Id ∷ [])) definition_t 29 ≡ rejects spent }
{}

/// Blocks of inductive types: accepted, not positive, and with an argument that is too large.
pub fn blocks()
    ensures nat { is_accepted (check_declaration [] (inductive nat_block) 1000) ≡ true }
    ensures nat_positive { positivity_fault nat_block ≡ None }
    ensures forest { is_accepted (check_declaration [] (inductive forest_block) 1000) ≡ true }
    ensures forest_positive { positivity_fault forest_block ≡ None }
    ensures eq { is_accepted (check_declaration (environment (inductive nat_block ∷ [])) (inductive eq_block) 1000) ≡ true }
    ensures not_positive { check_declaration [] (inductive bad_block) 1000 ≡ refuses (not_positive (id_of (codes "c")) 1) }
    ensures too_large { check_declaration [] (inductive box_block) 1000 ≡ refuses (mismatch 0 (sort (typ (record { level = Level.Set; plus = true } ∷ []))) (sort set)) }
{}

/// Elimination of propositions, and a proof of another proposition.
pub fn eliminations()
    ensures two_constructors { check_declaration (environment (inductive nat_block ∷ inductive two_block ∷ [])) definition_d 1000 ≡ refuses (bad_elimination (id_of (codes "two"))) }
    ensures equality { is_accepted (check_declaration (environment (inductive nat_block ∷ inductive eq_block ∷ [])) definition_e 1000) ≡ true }
    ensures other_proposition { check_declaration (environment (inductive true_block ∷ inductive false_block ∷ [])) theorem_bad 1000 ≡ refuses (mismatch 0 (ind (id_of (codes "True"))) (ind (id_of (codes "False")))) }
{}

/// Guarded and unguarded fixpoints.
pub fn fixpoints()
    ensures itself { check_declaration (environment (inductive nat_block ∷ [])) definition_f 1000 ≡ refuses (unguarded 0 1) }
    ensures first_argument { check_declaration (environment (inductive nat_block ∷ [])) (definition_g 0) 1000 ≡ refuses (unguarded 0 1) }
    ensures second_argument { is_accepted (check_declaration (environment (inductive nat_block ∷ [])) (definition_g 1) 1000) ≡ true }
    ensures plus { is_accepted (check_declaration (environment (inductive nat_block ∷ inductive eq_block ∷ [])) definition_plus 1000) ≡ true }
    ensures even_and_odd { is_accepted (check_declaration (environment (inductive nat_block ∷ inductive bool_block ∷ [])) definition_even 1000) ≡ true }
    ensures plus_guarded { guard_fault arithmetic (plus_function ∷ []) ≡ None }
    ensures even_and_odd_guarded { guard_fault (environment (inductive nat_block ∷ inductive bool_block ∷ [])) (even_function ∷ odd_function ∷ []) ≡ None }
{}

/// Types among the parameters of other blocks, and fixpoints over them.
pub fn nested_types()
    ensures list { is_accepted (check_declaration [] (inductive list_block) 1000) ≡ true }
    ensures tree { is_accepted (check_declaration (environment (inductive list_block ∷ [])) (inductive tree_block) 1000) ≡ true }
    ensures tree_positive { nested_fault (environment (inductive list_block ∷ [])) tree_block ≡ None }
    ensures tree_not_without_nesting { positivity_fault tree_block ≡ Some (record { index = 0; place = 0; argument = 1 }) }
    ensures labelled { is_accepted (check_declaration (environment (inductive list_block ∷ [])) (inductive labelled_block) 1000) ≡ true }
    ensures bad { check_declaration (environment (inductive nat_block ∷ inductive list_block ∷ [])) (inductive nested_bad_block) 1000 ≡ refuses (not_positive (id_of (codes "b")) 1) }
    ensures nest { is_accepted (check_declaration (environment (inductive list_block ∷ [])) (inductive nest_block) 1000) ≡ true }
    ensures size_guarded { guard_fault trees (size_function ∷ []) ≡ None }
    ensures size { is_accepted (check_declaration trees definition_size 1000) ≡ true }
    ensures again_unguarded { guard_fault trees (again_function ∷ []) ≡ Some (record { which = 0; call = 1 }) }
    ensures again { check_declaration trees definition_again 1000 ≡ refuses (unguarded 0 1) }
{}

/// Instances are at most 64. A type whose instances lead to ever more of them is refused; and of types whose
/// instances end, one with 64 of them passes, and one with 65 does not.
pub fn instances_are_at_most_64()
    ensures ever_more { check_declaration (environment (inductive list_block ∷ inductive nest_block ∷ [])) (inductive bush_block) 1000 ≡ refuses (not_positive (id_of (codes "k")) 1) }
    ensures few_enough { nested_fault (environment (links 64)) (chain_block 63) ≡ None }
    ensures one_too_many { nested_fault (environment (links 65)) (chain_block 64) ≡ Some (record { index = 0; place = 0; argument = 1 }) }
{}

/// Fixpoints through a list of lists, a pair, and a function whose values are lists: each of these types, and
/// the fixpoint over it, is accepted.
pub fn fixpoints_through_types()
    ensures grid { is_accepted (check_declaration containers (inductive grid_block) 1000) ≡ true }
    ensures cells { is_accepted (check_declaration contained definition_cells 1000) ≡ true }
    ensures cells_guarded { guard_fault contained (cells_function ∷ []) ≡ None }
    ensures binary { is_accepted (check_declaration containers (inductive binary_block) 1000) ≡ true }
    ensures leaves { is_accepted (check_declaration contained definition_leaves 1000) ≡ true }
    ensures leaves_guarded { guard_fault contained (leaves_function ∷ []) ≡ None }
    ensures wide { is_accepted (check_declaration containers (inductive wide_block) 1000) ≡ true }
    ensures path { is_accepted (check_declaration contained definition_path 1000) ≡ true }
    ensures path_guarded { guard_fault contained (path_function ∷ []) ≡ None }
{}

/// An argument whose type is a parameter applied has no shape, whatever the parameter's shape is.
pub fn applied_parameter_has_no_shape()
    ensures positive { is_accepted (check_declaration containers (inductive held_block) 1000) ≡ true }
    ensures unguarded { check_declaration contained definition_open 1000 ≡ refuses (unguarded 0 1) }
{}

/// Calls are counted in the order of the walk: in the head of an application before its arguments; of a Fix in
/// the domains and codomains of all functions, and then in the bodies; of a local definition in the body first;
/// of a match in the motive, then in the value.
pub fn calls_are_counted_in_order()
    ensures argument { check_declaration arithmetic (defined_on_successor (applied_fix (good_call 2) (bad_call 0))) 1000 ≡ refuses (unguarded 0 2) }
    ensures head { check_declaration arithmetic (defined_on_successor (applied_fix (bad_call 2) (good_call 0))) 1000 ≡ refuses (unguarded 0 1) }
    ensures good { is_accepted (check_declaration arithmetic (defined_on_successor (applied_fix (good_call 2) (good_call 0))) 1000) ≡ true }
    ensures first_body { check_declaration arithmetic (defined_on_successor (two_fixes (bad_call 3) (good_call 1) (good_call 3))) 1000 ≡ refuses (unguarded 0 3) }
    ensures codomain { check_declaration arithmetic (defined_on_successor (two_fixes (good_call 3) (bad_call 1) (bad_call 3))) 1000 ≡ refuses (unguarded 0 1) }
    ensures local { check_declaration arithmetic (defined_on_successor (let_in (good_call 0) nat (bad_call 1))) 1000 ≡ refuses (unguarded 0 2) }
    ensures local_body { check_declaration arithmetic (defined_on_successor (let_in (bad_call 0) nat (good_call 1))) 1000 ≡ refuses (unguarded 0 1) }
    ensures value { guard_fault arithmetic (on_successor (match_nat (eq nat (good_call 1) O) (bad_call 0) O (good_call 1)) ∷ []) ≡ Some (record { which = 0; call = 2 }) }
    ensures branch { guard_fault arithmetic (on_successor (match_nat (eq nat (good_call 1) O) (good_call 0) O (bad_call 1)) ∷ []) ≡ Some (record { which = 0; call = 3 }) }
{}

/// Theorems by evaluation, and by induction.
pub fn theorems()
    ensures by_evaluation { is_accepted (check_declaration arithmetic definition_two 1000) ≡ true }
    ensures by_induction { is_accepted (check_declaration arithmetic theorem_plus_n_O 10000) ≡ true }
{}

/// A fixpoint is unfolded at a constructor, and at nothing else: so zero plus a variable is that variable, and the
/// variable plus zero is not, by evaluation.
pub fn unfolding_at_constructors()
    ensures zero_plus_n { evaluated_at_n (plus O (rel 0)) 11 ≡ spent_all (rel 0) }
    ensures n_plus_zero { evaluated_at_n (plus (rel 0) O) 5 ≡ spent_all (apply (fixpoint 0 (plus_function ∷ [])) (rel 0 ∷ O ∷ [])) }
    ensures not_convertible { converted_with_n (plus (rel 0) O) 1000 ≡ found_where 1 (apply (fixpoint 0 (plus_function ∷ [])) (rel 0 ∷ O ∷ [])) (rel 0) }
{}

/// The constraints that are found: of an opaque body apart, and all others visible.
pub fn constraints()
    ensures accepted { is_accepted (check_declaration (environment (axiom_F ∷ [])) theorem_a 1000) ≡ true }
    ensures proof { proofs_of (check_declaration (environment (axiom_F ∷ [])) theorem_a 1000) ≡ below (codes "u") (codes "v") ∷ [] }
    ensures statement { visible_of (check_declaration (environment (axiom_F ∷ [])) theorem_a 1000) ≡ [] }
    ensures definition { visible_of (check_declaration [] definition_x 1000) ≡ below (codes "u") (codes "u") ∷ [] }
{}

/// The steps of axioms about functions, and a conversion by eta for functions.
pub fn functions()
    ensures arrow { check_declaration (environment (axiom_P ∷ [])) axiom_f 100 ≡ accepted_in 9 }
    ensures on_functions { check_declaration (environment (axiom_P ∷ axiom_f ∷ [])) axiom_Q 100 ≡ accepted_in 15 }
    ensures application { check_declaration (environment (axiom_P ∷ axiom_f ∷ axiom_Q ∷ [])) axiom_q 100 ≡ accepted_in 17 }
    ensures by_eta { check_declaration (environment (axiom_P ∷ axiom_f ∷ axiom_Q ∷ axiom_q ∷ [])) definition_r 20 ≡ accepted_in 20 }
    ensures by_eta_spent { check_declaration (environment (axiom_P ∷ axiom_f ∷ axiom_Q ∷ axiom_q ∷ [])) definition_r 19 ≡ rejects spent }
{}

/// Eta for functions, and what it costs: with the abstraction left or right, under a binder, more than once,
/// against a constant, an application and a variable. Constants are unfolded first, and two abstractions are
/// compared by their domains and bodies.
pub fn eta()
    ensures left { converted [] applied_f f 4 ≡ done_with_all }
    ensures right { converted [] f applied_f 4 ≡ done_with_all }
    ensures too_few { converted [] f applied_f 3 ≡ stops spent }
    ensures under_a_binder { converted [] applied_h partly_applied_h 9 ≡ done_with_all }
    ensures twice { converted [] applied_h h 8 ≡ done_with_all }
    ensures application { converted [] applied_h_a (app h a) 5 ≡ done_with_all }
    ensures variable { converted (assumed (prod P P) ∷ []) (fun_x (app (rel 1) (rel 0))) (rel 0) 4 ≡ done_with_all }
    ensures unfolded_first { converted [] e f 5 ≡ done_with_all }
    ensures two_abstractions { converted [] e applied_f 6 ≡ done_with_all }
    ensures their_bodies { converted [] applied_f (fun_x (app e (rel 0))) 14 ≡ done_with_all }
    ensures their_domains { converted [] (fun_x (rel 0)) (lam (sort prop) (rel 0)) 100 ≡ found_where 0 P (sort prop) }
    ensures by_eta_on_the_right { check_declaration (environment (axiom_P ∷ axiom_f ∷ axiom_Q ∷ axiom_p ∷ [])) definition_s 29 ≡ accepted_in 29 }
{}

/// Pairs that eta does not make equal, with the forms that are found to differ.
pub fn not_by_eta()
    ensures another_function { converted [] applied_f g 100 ≡ found_where 1 f g }
    ensures two_constants { converted [] f g 100 ≡ found_where 0 f g }
    ensures identity { converted [] (fun_x (rel 0)) f 100 ≡ found_where 1 (rel 0) (app f (rel 0)) }
    ensures one_value { converted [] (fun_x (app f a)) f 100 ≡ found_where 1 a (rel 0) }
    ensures diagonal { converted [] (fun_x (apply h (rel 0 ∷ rel 0 ∷ []))) (app h a) 100 ≡ found_where 1 (rel 0) a }
    ensures sort { converted [] (fun_x (rel 0)) (sort prop) 100 ≡ found_where 1 (rel 0) (app (sort prop) (rel 0)) }
{}

/// Subtyping is by eta where one of two terms alone is an abstraction, and goes into the codomains of products,
/// and not into their domains.
pub fn subtyping()
    ensures left { at_most [] applied_f f 4 ≡ done_with_all }
    ensures right { at_most [] f applied_f 4 ≡ done_with_all }
    ensures another_function { at_most [] g applied_f 100 ≡ found_where 1 g f }
    ensures codomains { at_most [] (prod P (sort prop)) (prod P (sort set)) 7 ≡ done_with_all }
    ensures codomains_turned { at_most [] (prod P (sort set)) (prod P (sort prop)) 100 ≡ found_where 1 (sort set) (sort prop) }
    ensures domains { at_most [] (prod (sort prop) P) (prod (sort set) P) 100 ≡ found_where 0 (sort prop) (sort set) }
    ensures domains_turned { at_most [] (prod (sort set) P) (prod (sort prop) P) 100 ≡ found_where 0 (sort set) (sort prop) }
{}

/// Matches that double the work: from the constant number i on the loop takes 4 * 2 ^ i - 3 steps.
pub fn doubling_matches()
    ensures none { evaluated (codes "b0") 2 ≡ spent_all (ctor (id_of (codes "true"))) }
    ensures one { evaluated (codes "b1") 6 ≡ spent_all (ctor (id_of (codes "true"))) }
    ensures two { evaluated (codes "b2") 14 ≡ spent_all (ctor (id_of (codes "true"))) }
    ensures three { evaluated (codes "b3") 30 ≡ spent_all (ctor (id_of (codes "true"))) }
    ensures too_few { evaluated (codes "b3") 29 ≡ stops spent }
{}
