//! Laws of the definitions: each function has an empty body, and its contract is the law.
ghost use Rattle.std.specs.Prelude.{◌≡◌, IsTrue, List, [], ◌∷◌, ◌++◌, Bool, true, false};
ghost use Rattle.cic_names.specs.declared.name.GlobalId.{GlobalId};
ghost use Rattle.cic_terms.specs.Tree.{Tree, prod, lam};
ghost use Rattle.cic_rules.specs.Environment.{Declaration};
ghost use Rattle.section_terms.specs.Names.{names_in};
ghost use Rattle.section_terms.specs.Hypotheses.{Hypothesis};
ghost use Rattle.section_terms.specs.Used.{used, is_in, with_those_of, names_in_hypotheses, statement_names, body_names};
ghost use Rattle.section_terms.specs.Discharge.{applied, hypotheses_applied, over_part, over_block_part, generalised, generalised_type, generalised_body, generalised_part};
ghost use Rattle.section_terms.specs.Laws.{AreAmong, HaveNoArguments, IsClosed, AreFresh, joined};
ghost use Rattle.section_terms.specs.calls.Standing.{bounds, nothing_passed, pass_all, put, under_binders};

/// What is used is a hypothesis of the section, and names that are none of a hypothesis use nothing.
#[tactic(auto, using(crate::proofs::Uses::nothing_used))]
pub fn used_are_hypotheses()
    ensures among { (over : GlobalId → List GlobalId) (hs : List Hypothesis) (names : List GlobalId) → AreAmong (used over hs names) hs }
    ensures none { (over : GlobalId → List GlobalId) (hs : List Hypothesis) → used over hs [] ≡ [] }
{}

/// What is used is closed: a hypothesis is used that is among the names, or that a later one which is used speaks of,
/// or that a constant of the section among these is generalised over.
#[tactic(auto, using(crate::proofs::Uses::used_closed))]
pub fn used_is_closed()
    ensures { (over : GlobalId → List GlobalId) (earlier later : List Hypothesis) (h : Hypothesis) (names : List GlobalId) → IsClosed over earlier h later names }
{}

/// A declaration that speaks of no hypothesis and of no constant of the section is kept as it is.
#[tactic(auto, using(crate::proofs::Keeping::kept_as_it_is))]
pub fn kept_where_nothing_is_named()
    ensures { (arguments : GlobalId → List GlobalId) (d : Declaration) → HaveNoArguments arguments (statement_names d ++ body_names d) → generalised arguments [] d ≡ d }
{}

/// One who generalises over inner hypotheses and then over outer ones generalises over both.
#[tactic(auto, using(crate::proofs::Twice::part_twice, crate::proofs::Twice::block_part_twice))]
pub fn twice_is_once()
    ensures types { (outer inner : List Hypothesis) (t : Tree) → over_part (λ a b. prod a b) outer (over_part (λ a b. prod a b) inner t) ≡ over_part (λ a b. prod a b) (outer ++ inner) t }
    ensures bodies { (outer inner : List Hypothesis) (t : Tree) → over_part (λ a b. lam a b) outer (over_part (λ a b. lam a b) inner t) ≡ over_part (λ a b. lam a b) (outer ++ inner) t }
    ensures blocks { (outer inner : List Hypothesis) (t : Tree) → over_block_part outer (over_block_part inner t) ≡ over_block_part (outer ++ inner) t }
{}

/// So does one who applies the constants of an inner section to its variables and then to those of an outer one. The
/// inner variables are no constants, so they are applied to nothing, and no outer variable is one of them.
#[tactic(auto, using(crate::proofs::Inner::types_inner_then_outer, crate::proofs::Inner::bodies_inner_then_outer, crate::proofs::Inner::parts_inner_then_outer))]
pub fn inner_then_outer_is_once()
    ensures types { (outer inner : GlobalId → List GlobalId) (os is : List Hypothesis) (t : Tree) → ((c : GlobalId) → HaveNoArguments outer (inner c)) → AreFresh outer is → generalised_type outer os (generalised_type inner is t) ≡ over_part (λ a b. prod a b) (hypotheses_applied outer os ++ hypotheses_applied (joined outer inner) is) (applied (joined outer inner) t) }
    ensures bodies { (outer inner : GlobalId → List GlobalId) (os is : List Hypothesis) (t : Tree) → ((c : GlobalId) → HaveNoArguments outer (inner c)) → AreFresh outer is → generalised_body outer os (generalised_body inner is t) ≡ over_part (λ a b. lam a b) (hypotheses_applied outer os ++ hypotheses_applied (joined outer inner) is) (applied (joined outer inner) t) }
    ensures blocks { (outer inner : GlobalId → List GlobalId) (os is : List Hypothesis) (t : Tree) → ((c : GlobalId) → HaveNoArguments outer (inner c)) → AreFresh outer is → generalised_part outer os (generalised_part inner is t) ≡ over_block_part (hypotheses_applied outer os ++ hypotheses_applied (joined outer inner) is) (applied (joined outer inner) t) }
{}

/// One walk over each term, with what names stand for under the binders that were passed, does what the definitions
/// do one hypothesis after the other.
#[tactic(auto, using(crate::proofs::Discharging::type_at_once, crate::proofs::Discharging::body_at_once, crate::proofs::Discharging::part_at_once))]
pub fn one_walk_is_one_by_one()
    ensures types { (arguments : GlobalId → List GlobalId) (hs : List Hypothesis) (t : Tree) → generalised_type arguments hs t ≡ under_binders (λ a b. prod a b) (bounds arguments true hs nothing_passed) (put arguments (pass_all arguments true hs nothing_passed) 0 t) }
    ensures bodies { (arguments : GlobalId → List GlobalId) (hs : List Hypothesis) (t : Tree) → generalised_body arguments hs t ≡ under_binders (λ a b. lam a b) (bounds arguments true hs nothing_passed) (put arguments (pass_all arguments true hs nothing_passed) 0 t) }
    ensures blocks { (arguments : GlobalId → List GlobalId) (hs : List Hypothesis) (t : Tree) → generalised_part arguments hs t ≡ under_binders (λ a b. prod a b) (bounds arguments false hs nothing_passed) (put arguments (pass_all arguments false hs nothing_passed) 0 t) }
{}
