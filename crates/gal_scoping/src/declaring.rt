//! Examples of commands, which compute.
ghost use Rattle.std.specs.Prelude.{◌≡◌, Some, None, [], ◌∷◌, codes, Ok, Err, true, false};
ghost use Rattle.cic_names.specs.declared.level.Level.TheVariants.{Set};
ghost use Rattle.cic_terms.specs.Tree as T;
ghost use Rattle.cic_terms.specs.Tree.{no_child, child, many};
ghost use Rattle.cic_rules.specs.Environment.{axiom_of, transparent, opaque, inductive};
ghost use Rattle.gal_grammar.specs.Terms.{set, type_any, app, arrow, named, no_groups, group, no_functions, function};
ghost use Rattle.gal_grammar.specs.Commands as C;
ghost use Rattle.gal_scoping.specs.Readings.{unknown};
ghost use Rattle.gal_scoping.specs.Levels.{anonymous, at_level, declared_level};
ghost use Rattle.gal_scoping.specs.Declarations.{declarations, declared_names, duplicate, constraints_of};
ghost use Rattle.gal_scoping.specs.calls.Examples.{id, N, scope, owner, before, name, dotted, a_name, called, of_type};

/// Each group of an assumption sees the names of those before it. A level belongs to the first name of its group.
pub fn assumptions()
    ensures groups { declarations before true (C.axiom_of (group (of_type (codes "d") type_any) (called (codes "e") ∷ called (codes "f") ∷ []) (a_name (codes "d")))) ≡ Ok (axiom_of (id (codes "A") (codes "d")) (at_level (anonymous (codes "A") owner 0)) ∷ axiom_of (id (codes "A") (codes "e")) (T.const (id (codes "A") (codes "d"))) ∷ axiom_of (id (codes "A") (codes "f")) (T.const (id (codes "A") (codes "d"))) ∷ []) }
    ensures owners { declarations before true (C.axiom_of (group (of_type (codes "c") set) (called (codes "d") ∷ called (codes "e") ∷ []) type_any)) ≡ Ok (axiom_of (id (codes "A") (codes "c")) (T.sort T.set) ∷ axiom_of (id (codes "A") (codes "d")) (at_level (anonymous (codes "A") owner 0)) ∷ axiom_of (id (codes "A") (codes "e")) (at_level (anonymous (codes "A") owner 0)) ∷ []) }
    ensures not_itself { declarations before true (C.axiom_of (of_type (codes "d") (a_name (codes "d")))) ≡ Err (unknown (codes "d")) }
{}

/// Groups are products in the type and abstractions in the body.
pub fn definitions()
    ensures { declarations before true (C.definition (named 0 (codes "d")) (of_type (codes "a") type_any) type_any (a_name (codes "a"))) ≡ Ok (transparent (id (codes "A") (codes "d")) (T.prod (at_level (anonymous (codes "A") owner 0)) (at_level (anonymous (codes "A") owner 1))) (T.lam (at_level (anonymous (codes "A") owner 0)) (T.rel 0)) ∷ []) }
{}

/// A body ended by `Qed` is opaque, has levels of its own, and is not read where proofs are not. One that is given up is
/// never read.
pub fn proofs()
    ensures qed { declarations before true (C.theorem (named 0 (codes "d")) no_groups type_any (C.proof C.not_said type_any C.qed)) ≡ Ok (opaque (id (codes "A") (codes "d")) (at_level (anonymous (codes "A") owner 0)) (Some (at_level (anonymous (codes "A") (record { name = codes "d"; opaque = true }) 0))) ∷ []) }
    ensures defined { declarations before true (C.theorem (named 0 (codes "d")) no_groups type_any (C.proof C.not_said type_any C.defined)) ≡ Ok (transparent (id (codes "A") (codes "d")) (at_level (anonymous (codes "A") owner 0)) (at_level (anonymous (codes "A") owner 1)) ∷ []) }
    ensures not_read { declarations before false (C.theorem (named 0 (codes "d")) no_groups set (C.proof C.not_said (a_name (codes "g")) C.qed)) ≡ Ok (opaque (id (codes "A") (codes "d")) (T.sort T.set) None ∷ []) }
    ensures read { declarations before true (C.theorem (named 0 (codes "d")) no_groups set (C.proof C.not_said (a_name (codes "g")) C.qed)) ≡ Err (unknown (codes "g")) }
    ensures given_up { declarations before true (C.theorem (named 0 (codes "d")) no_groups set (C.proof C.not_said (a_name (codes "g")) C.given_up)) ≡ Ok (axiom_of (id (codes "A") (codes "d")) (T.sort T.set) ∷ []) }
    ensures using { declarations before true (C.theorem (named 0 (codes "d")) no_groups set (C.proof (C.using_names (named 0 (codes "N") ∷ [])) (a_name (codes "g")) C.qed)) ≡ Err (unknown (codes "N")) }
{}

/// A constructor sees the parameters and the types of the block, and no constructor; without a type it ends in its own
/// type applied to the parameters. No arity sees a type of the block.
pub fn blocks()
    ensures parameters { declarations before true (C.inductive (C.ind (named 0 (codes "d")) (of_type (codes "a") set) set (C.ctor (named 0 (codes "e")) no_groups None ∷ C.ctor (named 0 (codes "f")) (of_type (codes "x") (a_name (codes "a"))) (Some (arrow (app (a_name (codes "d")) (a_name (codes "a"))) (app (a_name (codes "d")) (a_name (codes "a"))))) ∷ []) ∷ [])) ≡ Ok (inductive (record { parameters = 1; types = record { id = id (codes "A") (codes "d"); arity = T.prod (T.sort T.set) (T.sort T.set); constructors = record { id = id (codes "A") (codes "e"); type = T.prod (T.sort T.set) (T.app (T.ind (id (codes "A") (codes "d"))) (T.rel 0)) } ∷ record { id = id (codes "A") (codes "f"); type = T.prod (T.sort T.set) (T.prod (T.rel 0) (T.prod (T.app (T.ind (id (codes "A") (codes "d"))) (T.rel 1)) (T.app (T.ind (id (codes "A") (codes "d"))) (T.rel 2)))) } ∷ [] } ∷ [] }) ∷ []) }
    ensures applied { declarations before true (C.inductive (C.ind (named 0 (codes "d")) (of_type (codes "a") set) set (C.ctor (named 0 (codes "e")) (of_type (codes "x") (a_name (codes "a"))) None ∷ []) ∷ [])) ≡ Ok (inductive (record { parameters = 1; types = record { id = id (codes "A") (codes "d"); arity = T.prod (T.sort T.set) (T.sort T.set); constructors = record { id = id (codes "A") (codes "e"); type = T.prod (T.sort T.set) (T.prod (T.rel 0) (T.app (T.ind (id (codes "A") (codes "d"))) (T.rel 1))) } ∷ [] } ∷ [] }) ∷ []) }
    ensures no_constructor { declarations before true (C.inductive (C.ind (named 0 (codes "d")) no_groups set (C.ctor (named 0 (codes "e")) no_groups None ∷ C.ctor (named 0 (codes "f")) no_groups (Some (a_name (codes "e"))) ∷ []) ∷ [])) ≡ Err (unknown (codes "e")) }
    ensures no_arity { declarations before true (C.inductive (C.ind (named 0 (codes "d")) no_groups (a_name (codes "d")) [] ∷ [])) ≡ Err (unknown (codes "d")) }
{}

/// Each function of a block is a constant with a Fix of its own. Of several functions each recurs on its first binder of
/// an inductive type.
pub fn fixpoints()
    ensures single { declarations before true (C.fixpoint (function no_functions (named 0 (codes "d")) (of_type (codes "n") (a_name (codes "N"))) None (a_name (codes "N")) (a_name (codes "n")))) ≡ Ok (transparent (id (codes "A") (codes "d")) (T.prod (T.ind N) (T.ind N)) (T.fix 0 (record { k = 0; domains = 1 } ∷ []) (child (many 0) (T.ind N) (child (many 1) (T.ind N) (child (many 2) (T.rel 0) no_child)))) ∷ []) }
    ensures places { declarations before true (C.fixpoint (function (function no_functions (named 0 (codes "d")) (group (of_type (codes "a") set) (called (codes "n") ∷ []) (a_name (codes "N"))) None set (app (a_name (codes "e")) (a_name (codes "n")))) (named 0 (codes "e")) (of_type (codes "n") (a_name (codes "N"))) None set (app (app (a_name (codes "d")) (a_name (codes "N"))) (a_name (codes "n"))))) ≡ Ok (transparent (id (codes "A") (codes "d")) (T.prod (T.sort T.set) (T.prod (T.ind N) (T.sort T.set))) (T.fix 0 (record { k = 1; domains = 2 } ∷ record { k = 0; domains = 1 } ∷ []) (child (many 0) (T.sort T.set) (child (many 1) (T.ind N) (child (many 2) (T.sort T.set) (child (many 4) (T.app (T.rel 2) (T.rel 0)) (child (many 0) (T.ind N) (child (many 1) (T.sort T.set) (child (many 3) (T.app (T.app (T.rel 2) (T.ind N)) (T.rel 0)) no_child)))))))) ∷ transparent (id (codes "A") (codes "e")) (T.prod (T.ind N) (T.sort T.set)) (T.fix 1 (record { k = 1; domains = 2 } ∷ record { k = 0; domains = 1 } ∷ []) (child (many 0) (T.sort T.set) (child (many 1) (T.ind N) (child (many 2) (T.sort T.set) (child (many 4) (T.app (T.rel 2) (T.rel 0)) (child (many 0) (T.ind N) (child (many 1) (T.sort T.set) (child (many 3) (T.app (T.app (T.rel 2) (T.ind N)) (T.rel 0)) no_child)))))))) ∷ []) }
{}

/// The first name that is there already or stands before is the duplicate.
pub fn duplicates()
    ensures there { duplicate (codes "N" ∷ []) (declared_names (C.axiom_of (group no_groups (called (codes "d") ∷ called (codes "N") ∷ called (codes "d") ∷ []) set))) ≡ Some (codes "N") }
    ensures before { duplicate [] (declared_names (C.inductive (C.ind (named 0 (codes "d")) no_groups set (C.ctor (named 0 (codes "e")) no_groups None ∷ []) ∷ C.ind (named 0 (codes "e")) no_groups set [] ∷ []))) ≡ Some (codes "e") }
    ensures none { duplicate (codes "N" ∷ []) (codes "d" ∷ codes "e" ∷ []) ≡ None }
{}

/// An equation of levels is two constraints, and the left level is read first.
pub fn constraints()
    ensures equation { constraints_of scope (C.cons C.level_set C.at_most (C.level_of (name (codes "u"))) ∷ C.cons (C.level_of (name (codes "u"))) C.equal (C.level_of (dotted (codes "B.w"))) ∷ []) ≡ Ok (record { left = Set; strict = false; right = declared_level (id (codes "A") (codes "u")) } ∷ record { left = declared_level (id (codes "A") (codes "u")); strict = false; right = declared_level (id (codes "B") (codes "w")) } ∷ record { left = declared_level (id (codes "B") (codes "w")); strict = false; right = declared_level (id (codes "A") (codes "u")) } ∷ []) }
    ensures unknown { constraints_of scope (C.cons (C.level_of (name (codes "f"))) C.less (C.level_of (name (codes "g"))) ∷ []) ≡ Err (unknown (codes "f")) }
{}
