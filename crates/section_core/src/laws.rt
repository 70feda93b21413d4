//! Laws of the definitions: each function has an empty body, and its contract is the law.
ghost use Rattle.std.specs.Prelude.{◌≡◌, None, List, [], ◌∷◌, ◌++◌};
ghost use Rattle.cic_names.specs.declared.name.GlobalId.{GlobalId};
ghost use Rattle.cic_rules.specs.Environment.{Declaration, declared_ids};
ghost use Rattle.section_terms.specs.Hypotheses.{Hypothesis};
ghost use Rattle.section_terms.specs.Used.{names_in_hypotheses, statement_names, body_names};
ghost use Rattle.section_terms.specs.Discharge.{generalised};
ghost use Rattle.section_terms.specs.Laws.{HaveNoArguments, AreFresh, joined};
ghost use Rattle.section_core.specs.Sections.{Entry, added, free, statement, every, Known, know, giving, kept, undeclared};
ghost use Rattle.section_core.specs.Laws.{NameNone};

/// A declaration that names no hypothesis of a section, and no constant of it that is applied to variables, is kept as
/// it is. It may name itself.
#[tactic(auto, using(crate::proofs::Once::free_kept, crate::proofs::Once::statement_kept))]
pub fn kept_where_nothing_is_named()
    ensures free { (k : Known) (own : List Hypothesis) (arguments : GlobalId → List GlobalId) (d : Declaration) (es : List Entry) → NameNone k.over own (statement_names d ++ body_names d) → HaveNoArguments (giving (declared_ids d) [] arguments) (statement_names d ++ body_names d) → kept k own arguments (added d free ∷ es) ≡ added d free ∷ kept (know k (added d free)) own (giving (declared_ids d) [] arguments) es }
    ensures statement { (k : Known) (own : List Hypothesis) (arguments : GlobalId → List GlobalId) (d : Declaration) (es : List Entry) → NameNone k.over own (statement_names d) → HaveNoArguments (giving (declared_ids d) [] arguments) (statement_names d ++ body_names d) → kept k own arguments (added d statement ∷ es) ≡ added d statement ∷ kept (know k (added d statement)) own (giving (declared_ids d) [] arguments) es }
{}

/// A declaration that may use what its body uses, or all hypotheses before it, is never refused.
#[tactic(auto, using(crate::proofs::Allowing::free_allowed, crate::proofs::Allowing::every_allowed))]
pub fn what_is_never_refused()
    ensures free { (k : Known) (d : Declaration) → undeclared k d free ≡ None }
    ensures every { (k : Known) (d : Declaration) → undeclared k d every ≡ None }
{}

/// One who generalises over the hypotheses of an inner section and then over those of an outer one generalises over
/// both, in order. The inner variables are no constants, so they are applied to nothing; no outer variable is one of
/// them; and the outer hypotheses, which are those before the inner section, speak of no constant of it.
#[tactic(auto, using(crate::proofs::Once::twice_is_once))]
pub fn inner_then_outer_is_once()
    ensures { (outer inner : GlobalId → List GlobalId) (os is : List Hypothesis) (d : Declaration) → ((c : GlobalId) → HaveNoArguments outer (inner c)) → AreFresh outer is → HaveNoArguments inner (names_in_hypotheses os) → generalised outer os (generalised inner is d) ≡ generalised (joined outer inner) (os ++ is) d }
{}
