ghost use Rattle.std.specs.Prelude.{Bool, true, List, None, [], ◌∷◌, codes, Contains};
ghost use Rattle.cic_terms.specs.Tree.{Tree};
ghost use Rattle.cic_names.specs.declared.name.GlobalId.{GlobalId};
ghost use Rattle.cic_names.specs.declared.level.LevelName.{LevelName};
ghost use Rattle.cic_names.specs.declared.level.Level.{Level};
ghost use Rattle.cic_names.specs.declared.level.Level.TheVariants as LevelKind;
ghost use Rattle.cic_names.specs.declared.constraint.Constraint.{Constraint};
ghost use Rattle.cic_rules.specs.Environment.{Environment, opaque, inductive, declared, environment_ids};
ghost use Rattle.cic_rules.specs.Formed.{Distinct, Derivable};
ghost use Rattle.cic_rules.specs.Reach.{Reached, Reaches, Needs};
ghost use Rattle.cic_counted.specs.calls.Examples.{id_of, environment, nat_block, bad_block, definition_f, below};
ghost use Rattle.rules_evidence.specs.Counting.{axiom_n, definition_m, counting, axiom_q, definition_z};

/// An environment with an inductive type, axioms, transparent definitions, a theorem and a definition of one
/// universe in another is derivable from the one constraint that this last asks for.
#[tactic(auto, using(crate::proofs::CountingDerived::counting_is_derivable))]
pub fn counting_is_derivable()
    ensures { Derivable counting (below (codes "u") (codes "v") ∷ []) }
{}

/// Environments that are derivable from no constraints: where a fixpoint calls itself on its own variable, where a
/// definition names what is not declared, where an axiom is declared twice, and where a type stands left of an arrow in
/// its constructor.
pub fn ill_formed_declarations_are_not_derivable()
    ensures unguarded { (K : List Constraint) → ¬ Derivable (environment (inductive nat_block ∷ definition_f ∷ [])) K }
    ensures undeclared { (K : List Constraint) → ¬ Derivable (environment (inductive nat_block ∷ definition_m ∷ [])) K }
    ensures declared_twice { (K : List Constraint) → ¬ Derivable (environment (inductive nat_block ∷ axiom_n ∷ axiom_n ∷ [])) K }
    ensures not_positive { (K : List Constraint) → ¬ Derivable (environment (inductive bad_block ∷ [])) K }
{}

/// No environment is derivable where an opaque body is missing, where an id is declared twice, or from constraints
/// that no numbering meets: one that puts a level below itself, or a named level at most at `Set`.
pub fn nothing_is_derivable_from_what_cannot_be()
    ensures missing_body { (E : Environment) (K : List Constraint) (id : GlobalId) (type : Tree) → Contains E (declared (opaque id type None)) → ¬ Derivable E K }
    ensures declared_twice { (E : Environment) (K : List Constraint) → (¬ Distinct (environment_ids E)) → ¬ Derivable E K }
    ensures below_itself { (E : Environment) (K : List Constraint) (l : Level) → Contains K (record { left = l; strict = true; right = l }) → ¬ Derivable E K }
    ensures below_set { (E : Environment) (K : List Constraint) (l : LevelName) (strict : Bool) → Contains K (record { left = LevelKind.Named l; strict = strict; right = LevelKind.Set }) → ¬ Derivable E K }
{}

/// A definition needs the axiom that its body leads to, a theorem the one that its proof leads to, and what leads
/// to no axiom needs none.
#[tactic(auto, using(crate::proofs::CountingDerived::m_needs_n, crate::proofs::CountingDerived::t_needs_n, crate::proofs::CountingDerived::one_needs_none, crate::proofs::CountingDerived::nat_needs_none))]
pub fn needed_axioms()
    ensures of_definition { Needs counting (id_of (codes "m")) (id_of (codes "n") ∷ []) }
    ensures of_theorem { Needs counting (id_of (codes "t")) (id_of (codes "n") ∷ []) }
    ensures none { Needs counting (id_of (codes "one")) [] }
    ensures none_of_type { Needs counting (id_of (codes "nat")) [] }
{}

/// What an id reaches: the axiom behind two bodies, the constructors of a type that its type names, and no
/// declaration that it does not lead to.
#[tactic(auto, using(crate::proofs::CountingDerived::t_reaches_n, crate::proofs::CountingDerived::one_reaches_S, crate::proofs::CountingDerived::one_does_not_reach_n, crate::proofs::CountingDerived::n_does_not_reach_m))]
pub fn reached_ids()
    ensures axiom { Reaches counting (id_of (codes "t")) (id_of (codes "n")) }
    ensures constructor { Reaches counting (id_of (codes "one")) (id_of (codes "S")) }
    ensures not_reached { ¬ Reaches counting (id_of (codes "one")) (id_of (codes "n")) }
    ensures not_backwards { ¬ Reaches counting (id_of (codes "n")) (id_of (codes "m")) }
{}

/// What a declaration reaches where it is checked: through a transparent body the axiom in it, through the types of
/// an axiom and a theorem the block that they name, and nothing through the theorem's proof.
#[tactic(auto, using(crate::proofs::CountingDerived::z_sees_n, crate::proofs::CountingDerived::q_sees_nat, crate::proofs::CountingDerived::q_sees_O, crate::proofs::CountingDerived::q_does_not_see_m, crate::proofs::CountingDerived::q_does_not_see_n))]
pub fn seen_ids()
    ensures through_body { Reached counting definition_z (id_of (codes "n")) }
    ensures through_type { Reached counting axiom_q (id_of (codes "nat")) }
    ensures through_block { Reached counting axiom_q (id_of (codes "O")) }
    ensures not_through_opaque_body { ¬ Reached counting axiom_q (id_of (codes "m")) }
    ensures not_behind_it { ¬ Reached counting axiom_q (id_of (codes "n")) }
{}
