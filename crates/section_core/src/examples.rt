//! Examples, which compute: each function has an empty body, and its contract is what the definitions give.
ghost use Rattle.std.specs.Prelude.{◌≡◌, ◌≢◌, ◌++◌, ◌∷◌, [], Some, None, codes};
ghost use Rattle.cic_terms.specs.Tree.{prop, rel, sort, prod, lam, let_in, app, const, ind};
ghost use Rattle.cic_rules.specs.Environment.{axiom_of, transparent, opaque, inductive};
ghost use Rattle.section_terms.specs.calls.Examples.{a, h, l, b, c, d, J, K, variable_a, variable_h, let_l, variable_b};
ghost use Rattle.section_core.specs.Sections.{assumed, added, free, statement, every, listed, known, undeclared, kept_at_end, open_after_end};
ghost use Rattle.section_core.specs.calls.Worked.{alone, g, hypothesis_g, declared_first, uses_g, identity, takes_h, inner, with_parameter};

/// A variable that a type uses is a product of it, and an abstraction of a body; where nothing is used, nothing changes.
pub fn what_is_used_is_bound()
    ensures axiom { kept_at_end (alone (assumed variable_a ∷ added (axiom_of d (prod (const a) (const a))) free ∷ [])) ≡ added (axiom_of d (prod (sort prop) (prod (rel 0) (rel 1)))) free ∷ [] }
    ensures theorem { kept_at_end (alone (assumed variable_a ∷ added identity statement ∷ [])) ≡ added (opaque d (prod (sort prop) (prod (rel 0) (rel 1))) (Some (lam (sort prop) (lam (rel 0) (rel 0))))) statement ∷ [] }
    ensures through_a_type { kept_at_end (alone (assumed variable_a ∷ assumed variable_h ∷ added (opaque d (sort prop) (Some (const h))) free ∷ [])) ≡ added (opaque d (prod (sort prop) (prod (rel 0) (sort prop))) (Some (lam (sort prop) (lam (rel 0) (rel 0))))) free ∷ [] }
    ensures nothing { kept_at_end (alone (assumed variable_a ∷ added (axiom_of d (sort prop)) free ∷ [])) ≡ added (axiom_of d (sort prop)) free ∷ [] }
{}

/// A let that is used is a `let` of the type and of the body.
pub fn a_let_is_bound()
    ensures { kept_at_end (alone (assumed variable_a ∷ assumed variable_h ∷ assumed let_l ∷ added (transparent d (const a) (const l)) free ∷ [])) ≡ added (transparent d (prod (sort prop) (prod (rel 0) (let_in (rel 0) (rel 1) (rel 2)))) (lam (sort prop) (lam (rel 0) (let_in (rel 0) (rel 1) (rel 0))))) free ∷ [] }
{}

/// A use of a constant of the section is that constant applied to its variables.
pub fn a_constant_is_applied()
    ensures { kept_at_end (alone (assumed variable_a ∷ assumed variable_h ∷ added takes_h free ∷ added (transparent d (const a) (const c)) free ∷ [])) ≡ added (transparent c (prod (sort prop) (prod (rel 0) (rel 1))) (lam (sort prop) (lam (rel 0) (rel 0)))) free ∷ added (transparent d (prod (sort prop) (prod (rel 0) (rel 1))) (lam (sort prop) (lam (rel 0) (app (app (const c) (rel 1)) (rel 0))))) free ∷ [] }
{}

/// A let is no argument of a constant.
pub fn a_let_is_no_argument()
    ensures { kept_at_end (alone (assumed variable_a ∷ assumed variable_h ∷ assumed let_l ∷ added (transparent c (const a) (const l)) free ∷ added (axiom_of d (const c)) free ∷ [])) ≡ added (transparent c (prod (sort prop) (prod (rel 0) (let_in (rel 0) (rel 1) (rel 2)))) (lam (sort prop) (lam (rel 0) (let_in (rel 0) (rel 1) (rel 0))))) free ∷ added (axiom_of d (prod (sort prop) (prod (rel 0) (let_in (rel 0) (rel 1) (app (app (const c) (rel 2)) (rel 1)))))) free ∷ [] }
{}

/// `Proof using` may allow more than is used, and all that it allows is bound. A hypothesis that stands behind the
/// declaration is not among all.
pub fn what_is_allowed_is_bound()
    ensures listed { kept_at_end (alone (assumed variable_a ∷ assumed variable_b ∷ added identity (listed (b ∷ [])) ∷ [])) ≡ added (opaque d (prod (sort prop) (prod (sort prop) (prod (rel 1) (rel 2)))) (Some (lam (sort prop) (lam (sort prop) (lam (rel 1) (rel 0)))))) (listed (b ∷ [])) ∷ [] }
    ensures every { kept_at_end (alone (assumed variable_b ∷ added (axiom_of d (sort prop)) every ∷ assumed variable_a ∷ [])) ≡ added (axiom_of d (prod (sort prop) (sort prop))) every ∷ [] }
{}

/// A body that uses what it may not use is refused, and the first such hypothesis is named, in order of declaration and
/// over the closed use.
pub fn what_is_refused()
    ensures listed { undeclared (known (alone declared_first)) uses_g (listed (a ∷ [])) ≡ Some variable_b }
    ensures statement { undeclared (known (alone declared_first)) uses_g statement ≡ Some variable_b }
    ensures closed { undeclared (known (alone declared_first)) uses_g (listed (g ∷ [])) ≡ None }
    ensures free { undeclared (known (alone declared_first)) uses_g free ≡ None }
    ensures kept { kept_at_end (alone (declared_first ++ added (axiom_of d (const g)) free ∷ [])) ≡ added (axiom_of d (prod (sort prop) (prod (rel 0) (rel 0)))) free ∷ [] }
{}

/// What is kept of an inner section stands in the outer one, whose end generalises it again.
pub fn sections_are_nested()
    ensures inner { open_after_end (inner ∷ alone (assumed variable_a ∷ [])) ≡ alone (assumed variable_a ∷ added (transparent c (prod (const a) (const a)) (lam (const a) (rel 0))) free ∷ []) }
    ensures outer { kept_at_end (alone (assumed variable_a ∷ added (transparent c (prod (const a) (const a)) (lam (const a) (rel 0))) free ∷ added (transparent d (prod (const a) (const a)) (const c)) free ∷ [])) ≡ added (transparent c (prod (sort prop) (prod (rel 0) (rel 1))) (lam (sort prop) (lam (rel 0) (rel 0)))) free ∷ added (transparent d (prod (sort prop) (prod (rel 0) (rel 1))) (lam (sort prop) (app (const c) (rel 0)))) free ∷ [] }
{}

/// A variable is one more parameter of a block, whose own types are applied to it; a let gives way to its body.
pub fn a_block_is_kept()
    ensures parameter { kept_at_end (alone (assumed variable_a ∷ added with_parameter free ∷ [])) ≡ added (inductive (record { parameters = 2; types = record { id = J; arity = prod (sort prop) (prod (sort prop) (sort prop)); constructors = record { id = K; type = prod (sort prop) (prod (sort prop) (prod (rel 1) (app (app (ind J) (rel 2)) (rel 1)))) } ∷ [] } ∷ [] })) free ∷ [] }
    ensures unfolded { kept_at_end (alone (assumed variable_b ∷ assumed (record { id = l; type = sort prop; body = Some (const b) }) ∷ added (inductive (record { parameters = 0; types = record { id = J; arity = sort prop; constructors = record { id = K; type = prod (const l) (ind J) } ∷ [] } ∷ [] })) free ∷ [])) ≡ added (inductive (record { parameters = 1; types = record { id = J; arity = prod (sort prop) (sort prop); constructors = record { id = K; type = prod (sort prop) (prod (rel 0) (app (ind J) (rel 1))) } ∷ [] } ∷ [] })) free ∷ [] }
{}

/// What the definitions refuse: a hypothesis that is not used is not bound, an inner section keeps what its
/// declarations may use, and a section that ends is no longer open.
pub fn what_is_not_done()
    ensures unused { kept_at_end (alone (assumed variable_a ∷ assumed variable_b ∷ added (axiom_of d (const a)) free ∷ [])) ≢ added (axiom_of d (prod (sort prop) (prod (sort prop) (rel 1)))) free ∷ [] }
    ensures forgotten { open_after_end (record { name = codes "T"; entries = added identity statement ∷ [] } ∷ alone (assumed variable_a ∷ [])) ≢ alone (assumed variable_a ∷ added identity free ∷ []) }
    ensures ended { open_after_end (alone (assumed variable_a ∷ [])) ≡ [] }
{}
