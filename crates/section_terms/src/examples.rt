//! Examples, which compute: each function has an empty body, and its contract is what the definitions give.
ghost use Rattle.std.specs.Prelude.{◌≡◌, ◌≢◌, Some, None, [], ◌∷◌};
ghost use Rattle.cic_terms.specs.Tree.{prop, set, rel, sort, prod, lam, let_in, app, const, ind, ctor};
ghost use Rattle.cic_rules.specs.Environment.{axiom_of, transparent, inductive};
ghost use Rattle.section_terms.specs.Used.{used, statement_names, body_names};
ghost use Rattle.section_terms.specs.Discharge.{generalised};
ghost use Rattle.section_terms.specs.calls.Examples.{a, h, l, b, c, d, J, K, variable_a, variable_h, let_l, variable_b, hypotheses, over};

/// `Axiom d : a -> a.` is `forall x : Prop, x -> x`, and a body stands under an abstraction.
pub fn a_variable_is_bound()
    ensures axiom { generalised over (variable_a ∷ []) (axiom_of d (prod (const a) (const a))) ≡ axiom_of d (prod (sort prop) (prod (rel 0) (rel 1))) }
    ensures body { generalised over (variable_a ∷ variable_h ∷ []) (transparent d (const a) (const h)) ≡ transparent d (prod (sort prop) (prod (rel 0) (rel 1))) (lam (sort prop) (lam (rel 0) (rel 0))) }
{}

/// A let is a `let` of the type and of the body.
pub fn a_let_is_bound()
    ensures { generalised over (variable_a ∷ variable_h ∷ let_l ∷ []) (transparent d (const a) (const l)) ≡ transparent d (prod (sort prop) (prod (rel 0) (let_in (rel 0) (rel 1) (rel 2)))) (lam (sort prop) (lam (rel 0) (let_in (rel 0) (rel 1) (rel 0)))) }
{}

/// A constant of the section is applied to its variables, and so are a type and a constructor, also in the type of a
/// hypothesis.
pub fn a_constant_is_applied()
    ensures constant { generalised over (variable_a ∷ variable_h ∷ []) (transparent d (const a) (const c)) ≡ transparent d (prod (sort prop) (prod (rel 0) (rel 1))) (lam (sort prop) (lam (rel 0) (app (app (const c) (rel 1)) (rel 0)))) }
    ensures block { generalised over (variable_a ∷ []) (transparent d (ind J) (ctor K)) ≡ transparent d (prod (sort prop) (app (ind J) (rel 0))) (lam (sort prop) (app (ctor K) (rel 0))) }
    ensures hypothesis { generalised over (variable_a ∷ record { id = l; type = ind J; body = None } ∷ []) (axiom_of d (const a)) ≡ axiom_of d (prod (sort prop) (prod (app (ind J) (rel 0)) (rel 1))) }
{}

/// A variable is one more parameter of a block, whose own type is applied to it.
pub fn a_block_gets_parameters()
    ensures { generalised over (variable_a ∷ []) (inductive (record { parameters = 0; types = record { id = J; arity = sort prop; constructors = record { id = K; type = prod (const a) (ind J) } ∷ [] } ∷ [] })) ≡ inductive (record { parameters = 1; types = record { id = J; arity = prod (sort prop) (sort prop); constructors = record { id = K; type = prod (sort prop) (prod (rel 0) (app (ind J) (rel 1))) } ∷ [] } ∷ [] }) }
{}

/// A let that a block uses gives way to its body, and is no parameter.
pub fn a_let_of_a_block_is_unfolded()
    ensures { generalised over (variable_b ∷ record { id = l; type = sort prop; body = Some (const b) } ∷ []) (inductive (record { parameters = 0; types = record { id = d; arity = sort prop; constructors = record { id = K; type = prod (const l) (prod (const l) (sort prop)) } ∷ [] } ∷ [] })) ≡ inductive (record { parameters = 1; types = record { id = d; arity = prod (sort prop) (sort prop); constructors = record { id = K; type = prod (sort prop) (prod (rel 0) (prod (rel 1) (sort prop))) } ∷ [] } ∷ [] }) }
{}

/// The hypotheses that are used stand in order of declaration, whatever the order of their uses.
pub fn used_in_order()
    ensures { used over hypotheses (b ∷ a ∷ []) ≡ variable_a ∷ variable_b ∷ [] }
{}

/// A hypothesis is used through the type of another, and through the body of a let.
pub fn used_through_types()
    ensures by_type { used over hypotheses (h ∷ []) ≡ variable_a ∷ variable_h ∷ [] }
    ensures by_body { used over hypotheses (l ∷ []) ≡ variable_a ∷ variable_h ∷ let_l ∷ [] }
{}

/// A constant of the section brings what it is generalised over.
pub fn used_by_constants()
    ensures { used over hypotheses (c ∷ []) ≡ variable_a ∷ variable_h ∷ [] }
{}

/// What the definitions refuse: a hypothesis that is not used is not there, a type gets no abstraction, a let no
/// product, and an inner variable is not an outer one.
pub fn what_is_not_done()
    ensures unused { used over hypotheses (h ∷ []) ≢ variable_a ∷ variable_h ∷ variable_b ∷ [] }
    ensures no_abstraction { generalised over (variable_a ∷ []) (axiom_of d (const a)) ≢ axiom_of d (lam (sort prop) (rel 0)) }
    ensures no_product { generalised over (let_l ∷ []) (axiom_of d (const a)) ≢ axiom_of d (prod (const a) (const a)) }
    ensures lifted { generalised over (variable_a ∷ []) (axiom_of d (prod (const a) (const a))) ≢ axiom_of d (prod (sort prop) (prod (rel 0) (rel 0))) }
{}
