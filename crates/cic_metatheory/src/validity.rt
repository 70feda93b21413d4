//! Laws: each derived type has a sort, products open into contexts, and arguments are put in for telescopes.
ghost use Rattle.std.specs.Prelude.{◌≡◌, ◌+◌, ◌++◌, ◌∷◌, ℕ, List, [], Some, length};
ghost use Rattle.cic_terms.specs.Tree.{Tree, TreeSort, ind, sort};
ghost use Rattle.cic_terms.specs.Lift.{lift_tree};
ghost use Rattle.cic_names.specs.declared.name.GlobalId.{GlobalId};
ghost use Rattle.cic_rules.specs.Numbering.{Numbering};
ghost use Rattle.cic_rules.specs.Environment.{Environment, Context, InductiveType, inductive_type_of, assumed, type_at};
ghost use Rattle.cic_rules.specs.Telescopes.{apply, extend, lift_all, products, substitute_all, variables, Instantiated};
ghost use Rattle.cic_rules.specs.Typing.{Derivation, HasSort, Typed, WellFormedContext};
ghost use Rattle.cic_metatheory.specs.WellTypedLookups.{WellTypedLookups};

/// The type of each derivation has a sort, over an environment that shows right types only.
#[tactic(auto, using(crate::proofs::typings::Validity::derived_type_has_sort))]
pub fn derived_types_have_sorts()
    ensures { (E : Environment) (N : Numbering) (G : Context) (t a : Tree) → WellTypedLookups E N → Derivation E N G t a → HasSort E N G a }
{}

/// The type of a variable of a well formed context has a sort.
#[tactic(auto, using(crate::proofs::typings::Validity::variable_has_sort))]
pub fn types_of_variables_have_sorts()
    ensures { (E : Environment) (N : Numbering) (G : Context) (x : ℕ) (a : Tree) → WellFormedContext E N G → type_at G x ≡ Some a → HasSort E N G (lift_tree 0 (x + 1) a) }
{}

/// What is typed in the empty context is so in each context.
#[tactic(auto, using(crate::proofs::typings::Validity::closed_is_typed))]
pub fn closed_terms_are_typed_in_each_context()
    ensures { (E : Environment) (N : Numbering) (G : Context) (t a : Tree) → Typed E N [] t a → Typed E N G (lift_tree 0 (length G) t) (lift_tree 0 (length G) a) }
{}

/// Where products have a sort, what they end in has one under their domains, and a well formed context
/// stays so under the domains.
#[tactic(auto, using(crate::proofs::typings::Instances::opened_has_sort))]
pub fn products_open_into_contexts()
    ensures has_sort { (E : Environment) (N : Numbering) (G : Context) (domains : List Tree) (t : Tree) → HasSort E N G (products domains t) → HasSort E N (extend G domains) t }
    ensures well_formed { (E : Environment) (N : Numbering) (G : Context) (domains : List Tree) (t : Tree) → HasSort E N G (products domains t) → WellFormedContext E N G → WellFormedContext E N (extend G domains) }
{}

/// What is typed under a context is so under the domains of a telescope, and a function of products has
/// under their domains, applied to their variables, the type that they end in.
#[tactic(auto, using(crate::proofs::typings::Instances::typed_past_domains, crate::proofs::typings::Instances::function_at_its_variables))]
pub fn telescopes_keep_typing()
    ensures past_domains { (E : Environment) (N : Numbering) (G : Context) (domains : List Tree) (t a : Tree) → Typed E N G t a → Typed E N (extend G domains) (lift_tree 0 (length domains) t) (lift_tree 0 (length domains) a) }
    ensures at_variables { (E : Environment) (N : Numbering) (G : Context) (domains : List Tree) (f a : Tree) → Typed E N G f (products domains a) → Typed E N (extend G domains) (apply (lift_tree 0 (length domains) f) (variables (length domains))) a }
{}

/// Where an inductive type applied to parameters and indices has a sort, the indices can be put in for the
/// telescope that its arity has at the parameters: what is typed under it is typed with them.
#[tactic(auto, using(crate::proofs::typings::InstancesTogether::typed_at_indices))]
pub fn indices_can_be_put_in()
    ensures { (E : Environment) (N : Numbering) (G : Context) (id : GlobalId) (A : InductiveType) (parameters indices domains : List Tree) (s : TreeSort) (end_of_arity t a : Tree) → inductive_type_of E id ≡ Some A → Instantiated (lift_tree 0 (length G) A.arity) parameters (products domains end_of_arity) → length indices ≡ length domains → Typed E N G (apply (ind id) (parameters ++ indices)) (sort s) → Typed E N (extend G domains) t a → Typed E N G (substitute_all indices t) (substitute_all indices a) }
{}

/// The type of a match, which is the motive with the indices and the value put in, has the motive's sort.
#[tactic(auto, using(crate::proofs::typings::Validity::match_type_has_sort))]
pub fn types_of_matches_have_sorts()
    ensures { (E : Environment) (N : Numbering) (G : Context) (id : GlobalId) (A : InductiveType) (parameters indices domains : List Tree) (s' s : TreeSort) (n : ℕ) (v w z p : Tree) → inductive_type_of E id ≡ Some A → length indices ≡ n → w ≡ apply (ind id) (parameters ++ indices) → Typed E N G v w → HasSort E N G w → Instantiated (lift_tree 0 (length G) A.arity) parameters z → z ≡ products domains (sort s') → length domains ≡ n → Typed E N (assumed (apply (ind id) (lift_all n parameters ++ variables n)) ∷ extend G domains) p (sort s) → Typed E N G (substitute_all (indices ++ v ∷ []) p) (sort s) }
{}
