//! Texts of small terms and declarations, over any environment where nothing else is said. Each function has an empty body, and its contract is the law.
ghost use Rattle.std.specs.Prelude.{◌≡◌, ◌∷◌, [], ℕ, Some, codes};
ghost use Rattle.cic_names.specs.declared.name.GlobalId.{GlobalId};
ghost use Rattle.cic_terms.specs.Tree.{rel, sort, prop, set, prod, let_in, app};
ghost use Rattle.cic_rules.specs.Environment.{Environment, Block, bare, axiom_of, transparent, opaque};
ghost use Rattle.gal_print.specs.Heads.{heads, unknown_heads};
ghost use Rattle.gal_print.specs.Printing.{term_text};
ghost use Rattle.gal_print.specs.Declarations.{declaration_text};
ghost use Rattle.gal_print.specs.Examples.{named, vector, vectors, match_on, unused_in_used, identity, two_functions};

/// Entries of the context are named first. A variable past them is printed by what its number is past them.
pub fn variables_are_named()
    ensures innermost { (E : Environment) → term_text E 2 (rel 0) ≡ codes "x1" }
    ensures outermost { (E : Environment) → term_text E 2 (rel 1) ≡ codes "x0" }
    ensures free { (E : Environment) → term_text E 2 (rel 5) ≡ codes "?3" }
{}

/// A product whose variable is not used is an arrow, and takes its number.
pub fn unused_variables_are_arrows()
    ensures arrow { (E : Environment) → term_text E 0 (prod (sort prop) (sort set)) ≡ codes "Prop -> Set" }
    ensures product { (E : Environment) → term_text E 0 (prod (sort prop) (rel 0)) ≡ codes "forall x0 : Prop, x0" }
    ensures numbered { (E : Environment) → term_text E 0 unused_in_used ≡ codes "forall x0 : Prop, Set -> forall x2 : x0, x2" }
{}

/// A product or an abstraction left of an arrow or in an application stands in parentheses, and so does an
/// application as an argument.
pub fn parentheses_stand_where_they_are_wanted()
    ensures product_left { (E : Environment) → term_text E 0 (prod (prod (sort prop) (sort set)) (sort prop)) ≡ codes "(Prop -> Set) -> Prop" }
    ensures application_left { (E : Environment) → term_text E 1 (prod (app (rel 0) (sort prop)) (sort prop)) ≡ codes "x0 Prop -> Prop" }
    ensures both { (E : Environment) → term_text E 0 (app identity identity) ≡ codes "(fun x0 : Prop => x0) (fun x0 : Prop => x0)" }
    ensures nested { (E : Environment) → term_text E 1 (app (app (rel 0) (sort prop)) (app (rel 0) (sort set))) ≡ codes "x0 Prop (x0 Set)" }
{}

/// A `let` tells the type before the body.
pub fn a_let_has_its_type()
    ensures { (E : Environment) → term_text E 1 (let_in (sort prop) (sort set) (app (rel 1) (rel 0))) ≡ codes "let x1 : Set := Prop in x0 x1" }
{}

/// A match names its indices before its value, and has `_` for each parameter.
pub fn matches_are_printed()
    ensures known { term_text vectors 1 (match_on (named (codes "V"))) ≡ codes "match x0 as x2 in A.V _ x1 return x1 x2 with | A.nil _ x1 x2 => x1 x0 end" }
    ensures not_there { term_text vectors 1 (match_on (named (codes "W"))) ≡ codes "match x0 as x2 in A.W x1 return x1 x2 with | ? x1 x2 => x1 x0 end" }
{}

/// A block that is bare tells nothing of its types.
pub fn a_bare_block_is_not_there()
    ensures { (b : Block) (id : GlobalId) (branches : ℕ) → heads (bare b ∷ []) id branches ≡ unknown_heads }
{}

/// The functions of a fix take numbers before all domains, and the domains of each begin again behind them.
pub fn functions_are_numbered_first()
    ensures { (E : Environment) → term_text E 1 two_functions
        ≡ codes "fix x1 (x3 : Prop) (x4 : x3) {struct x4} : x4 := (fun x5 : Prop => x5) with x2 (x3 : x0) {struct x3} : ?0 := x1 x0 for x2" }
{}

/// A declaration has a line for each of its ids, and one more for a body that is shown. An opaque body is not.
pub fn declarations_are_printed_in_lines()
    ensures axiom { (E : Environment) → declaration_text E (axiom_of (named (codes "c")) (sort set)) ≡ codes "A.c : Set\n" }
    ensures transparent { (E : Environment) → declaration_text E (transparent (named (codes "c")) (sort set) (sort prop)) ≡ codes "A.c : Set\nA.c := Prop\n" }
    ensures opaque { (E : Environment) → declaration_text E (opaque (named (codes "c")) (sort set) (Some (sort prop))) ≡ codes "A.c : Set\n" }
    ensures block { (E : Environment) → declaration_text E vector ≡ codes "A.V : Set\nA.nil : Prop\n" }
{}
