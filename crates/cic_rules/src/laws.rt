ghost use Rattle.std.specs.Prelude.{◌≡◌, ◌≤◌, ◌≢◌, ◌+◌, ◌++◌, ℕ, [], ◌∷◌, true, List, length, Option, Some, Contains};
ghost use Rattle.cic_terms.specs.Tree.{TreeSort, prop, set, typ, many, Tree, rel, no_child, child, sort, prod, lam, app, const, ind, ctor, case};
ghost use Rattle.cic_terms.specs.Lift.{lift_tree, subst_tree};
ghost use Rattle.cic_terms.specs.Mentions.{Mentions};
ghost use Rattle.cic_names.specs.declared.name.GlobalId.{GlobalId};
ghost use Rattle.cic_names.specs.declared.level.LevelName.{LevelName};
ghost use Rattle.cic_names.specs.declared.level.Atom.{Atom};
ghost use Rattle.cic_names.specs.declared.level.Level.{Level};
ghost use Rattle.cic_names.specs.declared.level.Level.TheVariants as LevelKind;
ghost use Rattle.cic_rules.specs.Numbering.{Numbering, IsNumbering, Meets, sort_number};
ghost use Rattle.cic_rules.specs.Environment.{Environment, Context, TypeDeclaration, ConstructorDeclaration, Declaration, Constructor, transparent, opaque, declared, environment_ids, constructor_of, assumed, defined};
ghost use Rattle.cic_rules.specs.Telescopes.{products};
ghost use Rattle.cic_rules.specs.Step.{Step};
ghost use Rattle.cic_rules.specs.Conversion.{Convertible, SortAtMost, AtMost};
ghost use Rattle.cic_rules.specs.Inductive.{Absent};
ghost use Rattle.cic_rules.specs.Nested.{Instance, instance_of, OfOtherBlock, Positive};
ghost use Rattle.cic_rules.specs.Guard.{Guarded};
ghost use Rattle.cic_rules.specs.Typing.{Typed, TypeOfSort, SortOfProduct, Eliminated};
ghost use Rattle.cic_rules.specs.Formed.{WellFormedArguments, WellFormedDeclaration, Distinct, Formed};
ghost use Rattle.cic_rules.specs.Reach.{Reaches};

/// Levels: a named one is above `Set` at every numbering, and none is below itself.
#[tactic(auto, using(crate::proofs::Numbers::named_levels_are_above_set, crate::proofs::Numbers::no_level_is_below_itself))]
pub fn strict_constraints_are_strict()
    ensures above_set { (N : Numbering) (l : LevelName) → IsNumbering N → Meets N (record { left = LevelKind.Set; strict = true; right = LevelKind.Named l }) }
    ensures not_below_itself { (N : Numbering) (l : Level) → ¬ Meets N (record { left = l; strict = true; right = l }) }
{}

/// Sorts with different numbers are not convertible; so two universes with different numbers are not.
#[tactic(auto, using(crate::proofs::SortsApart::one_number))]
pub fn convertible_sorts_have_one_number()
    ensures { (E : Environment) (N : Numbering) (G : Context) (s s' : TreeSort) → Convertible E N G (sort s) (sort s') → sort_number N s ≡ sort_number N s' }
{}

/// `Set` is not at most `Prop`, no universe is at most `Set`, and universes go by their numbers.
#[tactic(auto, using(crate::proofs::SortsApart::set_is_not_at_most_prop, crate::proofs::SortsApart::universes_are_not_at_most_set, crate::proofs::SortsApart::universes_go_by_numbers))]
pub fn sorts_are_ordered()
    ensures set_and_prop { (E : Environment) (N : Numbering) (G : Context) → ¬ AtMost E N G (sort set) (sort prop) }
    ensures universes_and_set { (E : Environment) (N : Numbering) (G : Context) (e : List Atom) → ¬ AtMost E N G (sort (typ e)) (sort set) }
    ensures universes { (E : Environment) (N : Numbering) (G : Context) (s s' : TreeSort) (i j : ℕ) → AtMost E N G (sort s) (sort s') → sort_number N s ≡ Some i → sort_number N s' ≡ Some j → i ≤ j }
{}

/// A product is at most another by its codomain, and not by its domain: one over a sort is not at most one over
/// a sort that is not convertible with it, also where the other is smaller.
#[tactic(auto, using(crate::proofs::DomainsApart::no_subtyping_in_domains, crate::proofs::DomainsApart::subtyping_in_codomains))]
pub fn subtyping_goes_into_codomains_alone()
    ensures domains { (E : Environment) (N : Numbering) (G : Context) (s s' : TreeSort) (b c : Tree) → (¬ Convertible E N G (sort s) (sort s')) → ¬ AtMost E N G (prod (sort s) b) (prod (sort s') c) }
    ensures codomains { (E : Environment) (N : Numbering) (G : Context) (a : Tree) (s : TreeSort) → AtMost E N G (prod a (sort prop)) (prod a (sort s)) }
{}

/// A function is convertible with its expansion, on either side.
#[tactic(auto, using(crate::proofs::DomainsApart::expansion_on_the_left, crate::proofs::DomainsApart::expansion_on_the_right))]
pub fn functions_are_their_expansions()
    ensures left { (E : Environment) (N : Numbering) (G : Context) (a f : Tree) → Convertible E N G (lam a (app (lift_tree 0 1 f) (rel 0))) f }
    ensures right { (E : Environment) (N : Numbering) (G : Context) (a f : Tree) → Convertible E N G f (lam a (app (lift_tree 0 1 f) (rel 0))) }
{}

/// An opaque constant takes no step, whether its body is there or not. A transparent one takes one to its body.
#[tactic(auto, using(crate::proofs::DomainsApart::opaque_takes_no_step, crate::proofs::DomainsApart::transparent_steps))]
pub fn opaque_takes_no_step()
    ensures opaque { (E : Environment) (G : Context) (id : GlobalId) (type t : Tree) (body : Option Tree) → ¬ Step (declared (opaque id type body) ∷ E) G (const id) t }
    ensures transparent { (E : Environment) (G : Context) (id : GlobalId) (type body : Tree) → Step (declared (transparent id type body) ∷ E) G (const id) (lift_tree 0 (length G) body) }
{}

/// A match takes the branch of its constructor, with the argument put in: of the second constructor the second one.
pub fn matches_take_the_branch_of_their_constructor()
    ensures { (E : Environment) (G : Context) (id c : GlobalId) (K : Constructor) (p u t t' : Tree) → constructor_of E c ≡ Some K → K.owner ≡ id → K.place ≡ 1 → K.parameters ≡ 0 → Step E G (case id 0 p (app (ctor c) u) (child (many 0) t (child (many 1) t' no_child))) (subst_tree 0 u t') }
{}

/// The type of a variable, and its body, stand under the entries up to its own, itself included.
#[tactic(auto, using(crate::proofs::Variables::type_of_variable, crate::proofs::Variables::body_of_variable))]
pub fn variables_are_lifted_past_their_entries()
    ensures its_type { (E : Environment) (N : Numbering) (G : Context) (a b : Tree) → Typed E N (assumed b ∷ assumed a ∷ G) (rel 1) (lift_tree 0 2 a) }
    ensures its_body { (E : Environment) (G : Context) (a b t : Tree) → Step E (assumed b ∷ defined t a ∷ G) (rel 1) (lift_tree 0 2 t) }
{}

/// A proposition is a type in `Set` too, and one in `Set` is in every universe.
#[tactic(auto, using(crate::proofs::Variables::propositions_are_in_set, crate::proofs::Variables::sets_are_in_every_universe))]
pub fn smaller_sorts_are_in_greater_ones()
    ensures in_set { (E : Environment) (N : Numbering) (G : Context) (t : Tree) → Typed E N G t (sort prop) → Typed E N G t (sort set) }
    ensures in_universe { (E : Environment) (N : Numbering) (G : Context) (t : Tree) (e : List Atom) → Typed E N G t (sort set) → Typed E N G t (sort (typ e)) }
{}

/// The type of a universe is the next one: no universe is its own type.
#[tactic(auto, using(crate::proofs::Numbers::type_of_universe_has_next_number))]
pub fn type_of_universe_has_next_number()
    ensures { (N : Numbering) (s s' : TreeSort) (i : ℕ) → TypeOfSort N s s' → sort_number N s ≡ Some i → sort_number N s' ≡ Some (i + 1) }
{}

/// The sort of a product: it has the number of its codomain's; `Prop` is impredicative; `Set` is not, and a
/// product into `Set` is no proposition.
#[tactic(auto, using(crate::proofs::Numbers::products_have_the_number_of_codomains, crate::proofs::Numbers::product_into_prop_is_a_proposition, crate::proofs::Numbers::set_is_predicative, crate::proofs::Numbers::product_into_set_is_no_proposition))]
pub fn prop_alone_is_impredicative()
    ensures codomain { (N : Numbering) (s s' s'' : TreeSort) → SortOfProduct N s s' s'' → sort_number N s'' ≡ sort_number N s' }
    ensures into_prop { (N : Numbering) (s : TreeSort) → SortOfProduct N s prop prop }
    ensures into_set { (N : Numbering) (s s' : TreeSort) (i : ℕ) → sort_number N s ≡ Some i → ¬ SortOfProduct N s set s' }
    ensures no_proposition { (N : Numbering) (s : TreeSort) → ¬ SortOfProduct N s set prop }
{}

/// A proposition with two constructors or more is eliminated into `Prop` alone; a type in `Set` into every sort.
#[tactic(auto, using(crate::proofs::Eliminations::two_constructors_go_into_prop, crate::proofs::Eliminations::others_go_everywhere))]
pub fn no_large_elimination()
    ensures proposition { (E : Environment) (N : Numbering) (r : ℕ) (T : TypeDeclaration) (s : TreeSort) (domains : List Tree) (c d : ConstructorDeclaration) (cs : List ConstructorDeclaration) → T.arity ≡ products domains (sort prop) → T.constructors ≡ c ∷ d ∷ cs → Eliminated E N r T s → s ≡ prop }
    ensures in_set { (E : Environment) (N : Numbering) (r : ℕ) (T : TypeDeclaration) (s : TreeSort) (domains : List Tree) → T.arity ≡ products domains (sort set) → Eliminated E N r T s }
{}

/// A fixpoint that calls itself on its own variable is not guarded, and none is whose body is itself.
pub fn call_on_itself_is_not_guarded()
    ensures call { (E : Environment) (domain codomain : Tree) → ¬ Guarded E (record { recursive_place = 0; domains = domain ∷ []; codomain = codomain; body = app (rel 1) (rel 0) } ∷ []) }
    ensures alone { (E : Environment) (domain codomain : Tree) → ¬ Guarded E (record { recursive_place = 0; domains = domain ∷ []; codomain = codomain; body = rel 1 } ∷ []) }
{}

/// A type is not strictly positive left of an arrow, nor among its own arguments.
#[tactic(auto, using(crate::proofs::NotPositive::left_of_an_arrow_is_not_positive, crate::proofs::NotPositive::applied_to_itself_is_not_positive))]
pub fn negative_occurrences_are_not_positive()
    ensures left_of_an_arrow { (E : Environment) (ids : List GlobalId) (L : List Instance) (id : GlobalId) (b : Tree) → Contains ids id → ¬ Positive E ids L (prod (ind id) b) }
    ensures applied_to_itself { (E : Environment) (ids : List GlobalId) (L : List Instance) (id : GlobalId) → Contains ids id → ¬ Positive E ids L (app (ind id) (ind id)) }
{}

/// Under 64 instances a type of another block that holds one of the types is positive only at one of them.
#[tactic(auto, using(crate::proofs::NotPositive::after_64_instances_none_is_new))]
pub fn after_64_instances_none_is_new()
    ensures { (E : Environment) (ids : List GlobalId) (L : List Instance) (t : Tree) → 64 ≤ length L → OfOtherBlock E ids t → (¬ Absent ids t) → Positive E ids L t → (J : OfOtherBlock E ids t) × Contains L (instance_of J.place.block J.parameters) }
{}

/// A formed environment: its ids are distinct; the last declaration is right over the earlier ones, which are
/// formed; and an opaque body has its type.
#[tactic(auto, using(crate::proofs::LastDeclarations::formed_ids_are_distinct, crate::proofs::LastDeclarations::earlier_are_formed, crate::proofs::LastDeclarations::last_is_right, crate::proofs::LastDeclarations::opaque_bodies_have_their_types))]
pub fn declarations_of_formed_environments_are_right()
    ensures distinct { (E : Environment) (N : Numbering) → Formed N E → Distinct (environment_ids E) }
    ensures earlier { (E : Environment) (N : Numbering) (d : Declaration) → Formed N (E ++ declared d ∷ []) → Formed N E }
    ensures last { (E : Environment) (N : Numbering) (d : Declaration) → Formed N (E ++ declared d ∷ []) → WellFormedDeclaration E N d }
    ensures opaque_bodies { (E : Environment) (N : Numbering) (id : GlobalId) (type body : Tree) → Formed N (E ++ declared (opaque id type (Some body)) ∷ []) → Typed E N [] body type }
{}

/// An argument of a constructor of a type that is no proposition has a sort that is at most the type's.
#[tactic(auto, using(crate::proofs::LastDeclarations::arguments_are_at_most_their_type))]
pub fn arguments_are_at_most_their_type()
    ensures { (E : Environment) (N : Numbering) (G : Context) (s : TreeSort) (conclusion a : Tree) (as_ : List Tree) → s ≢ prop → WellFormedArguments E N s conclusion G (a ∷ as_) → (s' : TreeSort) × Typed E N G a (sort s') × SortAtMost N s' s }
{}

/// A theorem reaches what its proof mentions.
pub fn theorems_reach_what_their_proofs_mention()
    ensures { (E : Environment) (id other : GlobalId) (type body : Tree) → Contains E (declared (opaque id type (Some body))) → Mentions other body → Reaches E id other }
{}
