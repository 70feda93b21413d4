ghost use Rattle.std.specs.Prelude.{◌≡◌, ◌≤◌, ℕ, List, [], ◌∷◌, ◌++◌, None, length, codes, Contains};
ghost use Rattle.cic_terms.specs.Tree.{TreeSort, prop, Tree, rel, Children, no_child, sort, prod, app, ind, case};
ghost use Rattle.cic_terms.specs.Lift.{lift_tree, subst_tree};
ghost use Rattle.cic_terms.specs.Mentions.{Mentions};
ghost use Rattle.cic_names.specs.declared.name.GlobalId.{GlobalId};
ghost use Rattle.cic_rules.specs.Numbering.{Numbering};
ghost use Rattle.cic_rules.specs.Environment.{Environment, Context, InductiveType, inductive_type_of, TypeInBlock, TypeDeclaration, ConstructorDeclaration, inductive, assumed, whole_block, environment_ids};
ghost use Rattle.cic_rules.specs.Telescopes.{apply, products, extend, variables, lift_all, Instantiated, Function, fixpoint};
ghost use Rattle.cic_rules.specs.Guard.{Guarded};
ghost use Rattle.cic_rules.specs.Typing.{Typed, HasSort, Derivation};
ghost use Rattle.cic_rules.specs.Formed.{Formed};
ghost use Rattle.cic_counted.specs.calls.Examples.{id_of, environment, nat_block, two_block};
ghost use Rattle.rules_evidence.specs.Matches.{TypedMatch, NamesType, HasSeveralProofs};

/// The parts of a match that has a type are typed. So a match has no type on what names no type of a whole block,
/// nor without branches on a type that has a constructor.
#[tactic(auto, using(crate::proofs::OwnRules::parts_of_match, crate::proofs::NoTypes::match_on_no_type, crate::proofs::NoTypes::match_without_branches))]
pub fn parts_of_matches_are_typed()
    ensures parts { (E : Environment) (N : Numbering) (G : Context) (id : GlobalId) (n : ℕ) (p v : Tree) (branches : Children) (t : Tree) → Typed E N G (case id n p v branches) t → TypedMatch E N G id n p v branches }
    ensures no_type { (E : Environment) (N : Numbering) (G : Context) (id : GlobalId) (n : ℕ) (p v t : Tree) (branches : Children) → whole_block E id ≡ None → ¬ Typed E N G (case id n p v branches) t }
    ensures no_branch { (E : Environment) (N : Numbering) (G : Context) (id : GlobalId) (n : ℕ) (p v t : Tree) (place : TypeInBlock) (T : TypeDeclaration) (c : ConstructorDeclaration) (cs : List ConstructorDeclaration) → NamesType E id place T → T.constructors ≡ c ∷ cs → ¬ Typed E N G (case id n p v no_child) t }
{}

/// A match on a proposition with several constructors gives a proof: the sort of its motive is `Prop`. So where the
/// motive is no proposition, the match has no type, whatever other sorts the motive has. (A proposition has the type
/// `Set` too, by subtyping; so a motive in `Set` alone refuses nothing.) The last clause is of a type without
/// parameters and indices.
pub fn matches_on_propositions_give_proofs()
    ensures proof { (E : Environment) (N : Numbering) (G : Context) (id : GlobalId) (n : ℕ) (p v t : Tree) (branches : Children) (place : TypeInBlock) (T : TypeDeclaration) → NamesType E id place T → HasSeveralProofs T → Typed E N G (case id n p v branches) t → (m : TypedMatch E N G id n p v branches) × (m.place ≡ place) × (m.motive_sort ≡ prop) }
    ensures refused { (E : Environment) (N : Numbering) (G : Context) (id : GlobalId) (n : ℕ) (p v t : Tree) (branches : Children) (place : TypeInBlock) (T : TypeDeclaration) → NamesType E id place T → HasSeveralProofs T → ((parameters domains : List Tree) → length parameters ≡ place.block.parameters → length domains ≡ n → ¬ Typed E N (assumed (apply (ind id) (lift_all n parameters ++ variables n)) ∷ extend G domains) p (sort prop)) → ¬ Typed E N G (case id n p v branches) t }
    ensures refused_where_plain { (E : Environment) (N : Numbering) (G : Context) (id : GlobalId) (p v t : Tree) (branches : Children) (place : TypeInBlock) (T : TypeDeclaration) → NamesType E id place T → HasSeveralProofs T → place.block.parameters ≡ 0 → (¬ Typed E N (assumed (ind id) ∷ G) p (sort prop)) → ¬ Typed E N G (case id 0 p v branches) t }
{}

/// `two : Prop := l | r` has several proofs, and `nat` is no proposition.
pub fn propositions_with_several_proofs()
    ensures two { (place : TypeInBlock) (T : TypeDeclaration) → NamesType (environment (inductive two_block ∷ [])) (id_of (codes "two")) place T → HasSeveralProofs T }
    ensures nat { (place : TypeInBlock) (T : TypeDeclaration) → NamesType (environment (inductive nat_block ∷ [])) (id_of (codes "nat")) place T → ¬ HasSeveralProofs T }
{}

/// A fixpoint that is not guarded has no type.
#[tactic(auto, using(crate::proofs::NoTypes::unguarded_fix_has_no_type))]
pub fn unguarded_fixpoints_have_no_type()
    ensures { (E : Environment) (N : Numbering) (G : Context) (which : ℕ) (fs : List Function) (t : Tree) → (¬ Guarded E fs) → ¬ Typed E N G (fixpoint which fs) t }
{}

/// An application has a type only where its function has products as type, and its argument their domain. An inductive
/// type has a sort only at arguments that have the types of their products in the arity, each with the earlier arguments
/// put in; and it has no type, so no sort, at an argument that has none.
#[tactic(auto, using(crate::proofs::NoTypes::application_of_what_is_no_function, crate::proofs::NoTypes::instance_at_what_has_another_type, crate::proofs::NoTypes::instance_at_what_has_no_type))]
pub fn arguments_have_types()
    ensures application { (E : Environment) (N : Numbering) (G : Context) (f u t : Tree) → ((a b : Tree) → Typed E N G f (prod a b) → ¬ Typed E N G u a) → ¬ Typed E N G (app f u) t }
    ensures arity { (E : Environment) (N : Numbering) (G : Context) (id : GlobalId) (A : InductiveType) (before after : List Tree) (u a b z : Tree) (s : TreeSort) → inductive_type_of E id ≡ Some A → Instantiated (lift_tree 0 (length G) A.arity) before (prod a b) → Instantiated (subst_tree 0 u b) after z → (¬ Typed E N G u a) → ¬ Typed E N G (apply (ind id) (before ++ u ∷ after)) (sort s) }
    ensures argument { (E : Environment) (N : Numbering) (G : Context) (id : GlobalId) (before after : List Tree) (u t : Tree) → ((a : Tree) → ¬ Typed E N G u a) → ¬ Typed E N G (apply (ind id) (before ++ u ∷ after)) t }
{}

/// Over a formed environment nothing is derived to have a type that has no sort, by conversion or otherwise; and over
/// every environment a product whose domain has no sort has no type.
#[tactic(auto, using(crate::proofs::NoTypes::nothing_has_a_type_without_sort, crate::proofs::NoTypes::product_over_no_type))]
pub fn types_have_sorts()
    ensures types { (E : Environment) (N : Numbering) (G : Context) (t a : Tree) → Formed N E → (¬ HasSort E N G a) → ¬ Derivation E N G t a }
    ensures domains { (E : Environment) (N : Numbering) (G : Context) (a b t : Tree) → (¬ HasSort E N G a) → ¬ Typed E N G (prod a b) t }
{}

/// A term with an id that is not declared has no type, nor has a variable beyond its context.
#[tactic(auto, using(crate::proofs::NoTypes::undeclared_ids_have_no_type, crate::proofs::NoTypes::variables_outside_have_no_type))]
pub fn what_is_unknown_has_no_type()
    ensures ids { (E : Environment) (N : Numbering) (G : Context) (t a : Tree) (id : GlobalId) → Mentions id t → (¬ Contains (environment_ids E) id) → ¬ Typed E N G t a }
    ensures variables { (E : Environment) (N : Numbering) (G : Context) (x : ℕ) (a : Tree) → length G ≤ x → ¬ Typed E N G (rel x) a }
{}
