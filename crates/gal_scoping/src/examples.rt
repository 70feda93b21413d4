//! Examples, which compute.
ghost use Rattle.std.specs.Prelude.{◌≡◌, ◌≢◌, Some, None, [], ◌∷◌, codes, Ok, Err};
ghost use Rattle.cic_terms.specs.Tree as T;
ghost use Rattle.cic_terms.specs.Tree.{no_child, child, many};
ghost use Rattle.gal_grammar.specs.Terms.{Raw, prop, set, type_any, type_at, ref, app, arrow, prod, func, let_in, fix_of, match_of, named, bound, blank, within, no_groups, group, no_functions, function, no_branches, branch};
ghost use Rattle.gal_scoping.specs.Readings.{unknown, ambiguous, bad_pattern};
ghost use Rattle.gal_scoping.specs.Levels.{anonymous, at_level, declared_level};
ghost use Rattle.gal_scoping.specs.Terms.{term};
ghost use Rattle.gal_scoping.specs.calls.Examples.{id, N, O, S, V, nil, place, owner, name, dotted, a_name, called, of_type};

/// A binder hides a name of the library, and that a name of an import. Two imports of one id are one; of two ids the
/// name is ambiguous, and they stand in the order in which they were brought.
pub fn names_are_sought_in_order()
    ensures own { term place owner [] 0 (a_name (codes "N")) ≡ Ok (T.ind N) }
    ensures binder { term place owner (Some (codes "b") ∷ Some (codes "N") ∷ []) 0 (a_name (codes "N")) ≡ Ok (T.rel 1) }
    ensures nameless { term place owner (None ∷ Some (codes "N") ∷ []) 0 (a_name (codes "N")) ≡ Ok (T.rel 1) }
    ensures import { term place owner [] 0 (a_name (codes "y")) ≡ Ok (T.const (id (codes "B") (codes "y"))) }
    ensures ambiguous { term place owner [] 0 (a_name (codes "x")) ≡ Err (ambiguous (codes "x") (id (codes "B") (codes "x")) (id (codes "C") (codes "x"))) }
    ensures unknown { term place owner [] 0 (a_name (codes "v")) ≡ Err (unknown (codes "v")) }
{}

/// `B.y` may be written as B is required, with the prefix too; C is imported through another library alone.
#[tactic(auto, using(crate::proofs::Words::x_is_name, crate::proofs::Words::y_is_name))]
pub fn qualified_names()
    ensures library { term place owner [] 0 (ref (dotted (codes "B.y"))) ≡ Ok (T.const (id (codes "B") (codes "y"))) }
    ensures prefixed { term place owner [] 0 (ref (dotted (codes "P.B.x"))) ≡ Ok (T.const (id (codes "B") (codes "x"))) }
    ensures of_itself { term place owner [] 0 (ref (dotted (codes "A.S"))) ≡ Ok (T.ctor S) }
    ensures past_binders { term place owner (Some (codes "y") ∷ []) 0 (ref (dotted (codes "B.y"))) ≡ Ok (T.const (id (codes "B") (codes "y"))) }
    ensures not_allowed { term place owner [] 0 (ref (dotted (codes "C.z"))) ≡ Err (unknown (codes "C.z")) }
    ensures other_prefix { term place owner [] 0 (ref (dotted (codes "Q.B.y"))) ≡ Err (unknown (codes "Q.B.y")) }
    ensures too_long { term place owner [] 0 (ref (dotted (codes "P.P.B.y"))) ≡ Err (unknown (codes "P.P.B.y")) }
{}

/// The binders of a group share its type with its level, and the next `Type` takes the next one. Levels are sought as names are.
pub fn levels_are_shared()
    ensures group { term place owner [] 3 (prod (group no_groups (called (codes "a") ∷ called (codes "b") ∷ []) type_any) type_any) ≡ Ok (T.prod (at_level (anonymous (codes "A") owner 3)) (T.prod (at_level (anonymous (codes "A") owner 3)) (at_level (anonymous (codes "A") owner 4)))) }
    ensures own { term place owner [] 0 (type_at (name (codes "u"))) ≡ Ok (at_level (declared_level (id (codes "A") (codes "u")))) }
    ensures import { term place owner [] 0 (type_at (dotted (codes "B.w"))) ≡ Ok (at_level (declared_level (id (codes "B") (codes "w")))) }
    ensures no_level { term place owner [] 0 (type_at (name (codes "y"))) ≡ Err (unknown (codes "y")) }
{}

/// A later binder of a group has the type lifted past the earlier ones, and a `let` has products in its type and
/// abstractions in its body.
pub fn groups_are_bound()
    ensures lifted { term place owner (Some (codes "t") ∷ []) 0 (func (group no_groups (called (codes "a") ∷ blank ∷ []) (a_name (codes "t"))) (a_name (codes "a"))) ≡ Ok (T.lam (T.rel 0) (T.lam (T.rel 1) (T.rel 1))) }
    ensures arrow { term place owner (Some (codes "t") ∷ []) 0 (arrow (a_name (codes "t")) (a_name (codes "t"))) ≡ Ok (T.prod (T.rel 0) (T.rel 1)) }
    ensures let_ { term place owner [] 0 (let_in (named 0 (codes "f")) (of_type (codes "n") (a_name (codes "N"))) (a_name (codes "N")) (a_name (codes "n")) (app (a_name (codes "f")) (a_name (codes "O")))) ≡ Ok (T.let_in (T.lam (T.ind N) (T.rel 0)) (T.prod (T.ind N) (T.ind N)) (T.app (T.rel 0) (T.ctor O))) }
{}

/// Branches stand in any order, and patterns and `in` have `_` for each parameter. A value that is a single name has
/// that name in the type behind `return`.
pub fn branches_stand_in_any_order()
    ensures order { term place owner (Some (codes "n") ∷ []) 0 (match_of (a_name (codes "n")) None None (a_name (codes "N")) (branch (branch no_branches (name (codes "S")) (called (codes "p") ∷ []) (a_name (codes "p"))) (name (codes "O")) [] (a_name (codes "O")))) ≡ Ok (T.case N 0 (T.ind N) (T.rel 0) (child (many 0) (T.ctor O) (child (many 1) (T.rel 0) no_child))) }
    ensures indices { term place owner (Some (codes "v") ∷ []) 0 (match_of (a_name (codes "v")) None (Some (within (name (codes "V")) (blank ∷ called (codes "k") ∷ []))) (app (a_name (codes "v")) (a_name (codes "k"))) (branch no_branches (name (codes "nil")) (blank ∷ []) (a_name (codes "v")))) ≡ Ok (T.case V 1 (T.app (T.rel 0) (T.rel 1)) (T.rel 0) (child (many 0) (T.rel 0) no_child)) }
{}

/// What patterns refuse: a constructor that is missing, that stands twice, that is of another type, or none; a number
/// of places that is wrong; a name for a parameter; behind `in` what is no type.
pub fn what_patterns_refuse()
    ensures missing { term place owner (Some (codes "n") ∷ []) 0 (match_of (a_name (codes "n")) None None (a_name (codes "N")) (branch no_branches (name (codes "O")) [] (a_name (codes "O")))) ≡ Err (bad_pattern (codes "S")) }
    ensures twice { term place owner (Some (codes "n") ∷ []) 0 (match_of (a_name (codes "n")) None None (a_name (codes "N")) (branch (branch no_branches (name (codes "O")) [] (a_name (codes "O"))) (name (codes "O")) [] (a_name (codes "O")))) ≡ Err (bad_pattern (codes "O")) }
    ensures foreign { term place owner (Some (codes "n") ∷ []) 0 (match_of (a_name (codes "n")) None None (a_name (codes "N")) (branch (branch no_branches (name (codes "O")) [] (a_name (codes "O"))) (name (codes "nil")) (blank ∷ []) (a_name (codes "O")))) ≡ Err (bad_pattern (codes "nil")) }
    ensures no_constructor { term place owner (Some (codes "n") ∷ []) 0 (match_of (a_name (codes "n")) None None (a_name (codes "N")) (branch no_branches (dotted (codes "A.N")) [] (a_name (codes "O")))) ≡ Err (bad_pattern (codes "A.N")) }
    ensures count { term place owner (Some (codes "n") ∷ []) 0 (match_of (a_name (codes "n")) None None (a_name (codes "N")) (branch no_branches (name (codes "S")) [] (a_name (codes "O")))) ≡ Err (bad_pattern (codes "S")) }
    ensures parameter { term place owner (Some (codes "v") ∷ []) 0 (match_of (a_name (codes "v")) None None (a_name (codes "N")) (branch no_branches (name (codes "nil")) (called (codes "a") ∷ []) (a_name (codes "O")))) ≡ Err (bad_pattern (codes "nil")) }
    ensures no_type { term place owner (Some (codes "n") ∷ []) 0 (match_of (a_name (codes "n")) None (Some (within (name (codes "O")) [])) (a_name (codes "N")) no_branches) ≡ Err (bad_pattern (codes "O")) }
{}

/// The first fault in the order of the source is the one: without `in` the type behind `return` comes before the patterns.
pub fn what_stands_first_is_the_fault()
    ensures left { term place owner [] 0 (app (a_name (codes "f")) (a_name (codes "g"))) ≡ Err (unknown (codes "f")) }
    ensures motive { term place owner (Some (codes "n") ∷ []) 0 (match_of (a_name (codes "n")) None None (a_name (codes "f")) (branch no_branches (name (codes "g")) [] (a_name (codes "h")))) ≡ Err (unknown (codes "f")) }
    ensures pattern { term place owner (Some (codes "n") ∷ []) 0 (match_of (a_name (codes "n")) None None (a_name (codes "N")) (branch no_branches (name (codes "g")) [] (a_name (codes "h")))) ≡ Err (unknown (codes "g")) }
    ensures type_behind_in { term place owner (Some (codes "n") ∷ []) 0 (match_of (a_name (codes "n")) None (Some (within (name (codes "g")) [])) (a_name (codes "f")) (branch no_branches (name (codes "O")) [] (a_name (codes "h")))) ≡ Err (unknown (codes "g")) }
{}

/// Without `struct` a single function recurs on the first binder with which the guard passes.
pub fn recursive_binders()
    ensures guard { term place owner [] 0 (fix_of (function no_functions (named 0 (codes "f")) (group no_groups (called (codes "m") ∷ called (codes "n") ∷ []) (a_name (codes "N"))) None (a_name (codes "N")) (match_of (a_name (codes "n")) None None (a_name (codes "N")) (branch (branch no_branches (name (codes "O")) [] (a_name (codes "m"))) (name (codes "S")) (called (codes "p") ∷ []) (app (app (a_name (codes "f")) (a_name (codes "m"))) (a_name (codes "p")))))) None) ≡ Ok (T.fix 0 (record { k = 1; domains = 2 } ∷ []) (child (many 0) (T.ind N) (child (many 1) (T.ind N) (child (many 2) (T.ind N) (child (many 3) (T.case N 0 (T.ind N) (T.rel 0) (child (many 0) (T.rel 1) (child (many 1) (T.app (T.app (T.rel 3) (T.rel 2)) (T.rel 0)) no_child))) no_child))))) }
    ensures none { term place owner [] 0 (fix_of (function no_functions (named 0 (codes "f")) (group no_groups (called (codes "m") ∷ called (codes "n") ∷ []) (a_name (codes "N"))) None (a_name (codes "N")) (app (app (a_name (codes "f")) (a_name (codes "m"))) (a_name (codes "n")))) None) ≡ Ok (T.fix 0 (record { k = 0; domains = 2 } ∷ []) (child (many 0) (T.ind N) (child (many 1) (T.ind N) (child (many 2) (T.ind N) (child (many 3) (T.app (T.app (T.rel 2) (T.rel 1)) (T.rel 0)) no_child))))) }
    ensures said { term place owner [] 0 (fix_of (function no_functions (named 0 (codes "f")) (group no_groups (called (codes "m") ∷ called (codes "m") ∷ []) (a_name (codes "N"))) (Some (named 0 (codes "m"))) (a_name (codes "N")) (a_name (codes "m"))) None) ≡ Ok (T.fix 0 (record { k = 1; domains = 2 } ∷ []) (child (many 0) (T.ind N) (child (many 1) (T.ind N) (child (many 2) (T.ind N) (child (many 3) (T.rel 0) no_child))))) }
    ensures no_binder { term place owner [] 0 (fix_of (function no_functions (named 0 (codes "f")) (of_type (codes "m") (a_name (codes "N"))) (Some (named 0 (codes "f"))) (a_name (codes "g")) (a_name (codes "m"))) None) ≡ Err (unknown (codes "f")) }
{}
