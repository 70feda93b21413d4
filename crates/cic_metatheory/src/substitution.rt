//! Laws: how renaming and substitution compose, and how lifting and substitution at a place do.
ghost use Rattle.std.specs.Prelude.{◌≡◌, ◌+◌, ◌≤◌, ℕ, suc};
ghost use Rattle.cic_terms.specs.Tree.{Tree, rel};
ghost use Rattle.cic_terms.specs.Lift.{lift_tree, subst_rel, subst_tree};
ghost use Rattle.cic_metatheory.specs.Substitution.{rename, substitute, for_innermost, lifted_variable, substitution_under};

/// Two renamings or substitutions of all variables, one after the other, are one, and the one that puts
/// each variable in for itself changes nothing.
#[tactic(auto, using(crate::proofs::substitutions::Composition::rename_rename, crate::proofs::substitutions::Composition::substitute_rename, crate::proofs::substitutions::Composition::rename_substitute, crate::proofs::substitutions::Composition::substitute_substitute, crate::proofs::substitutions::Composition::rename_identity, crate::proofs::substitutions::Composition::substitute_identity))]
pub fn renaming_and_substitution()
    ensures rename_rename { (r r' both : ℕ → ℕ) (t : Tree) → ((x : ℕ) → r (r' x) ≡ both x) → rename r (rename r' t) ≡ rename both t }
    ensures substitute_rename { (s : ℕ → Tree) (r : ℕ → ℕ) (both : ℕ → Tree) (t : Tree) → ((x : ℕ) → s (r x) ≡ both x) → substitute s (rename r t) ≡ substitute both t }
    ensures rename_substitute { (r : ℕ → ℕ) (s both : ℕ → Tree) (t : Tree) → ((x : ℕ) → rename r (s x) ≡ both x) → rename r (substitute s t) ≡ substitute both t }
    ensures substitute_substitute { (s s' both : ℕ → Tree) (t : Tree) → ((x : ℕ) → substitute s (s' x) ≡ both x) → substitute s (substitute s' t) ≡ substitute both t }
    ensures rename_nothing { (r : ℕ → ℕ) (t : Tree) → ((x : ℕ) → r x ≡ x) → rename r t ≡ t }
    ensures substitute_nothing { (s : ℕ → Tree) (t : Tree) → ((x : ℕ) → s x ≡ rel x) → substitute s t ≡ t }
{}

/// Lifting is the renaming that adds a number to the variables at or above a place.
#[tactic(auto, using(crate::proofs::substitutions::LiftAndSubst::lift_renames_variables))]
pub fn lift_renames()
    ensures { (from by : ℕ) (t : Tree) → lift_tree from by t ≡ rename (lifted_variable from by) t }
{}

/// Substitution at a place is the substitution that keeps the variables below it and lowers those above;
/// at the innermost one nothing is kept. It goes through every substitution.
#[tactic(auto, using(crate::proofs::substitutions::LiftAndSubst::subst_substitutes_variables, crate::proofs::substitutions::LiftAndSubst::subst_innermost, crate::proofs::substitutions::LiftAndSubst::subst_under_binders, crate::proofs::substitutions::LiftAndSubst::substitute_subst))]
pub fn subst_substitutes()
    ensures at_place { (at : ℕ) (u t : Tree) → subst_tree at u t ≡ substitute (subst_rel at u) t }
    ensures innermost { (u t : Tree) → subst_tree 0 u t ≡ substitute (for_innermost u) t }
    ensures under_binders { (at : ℕ) (u t : Tree) → subst_tree at u t ≡ substitute (substitution_under at (for_innermost u)) t }
    ensures through_substitution { (at : ℕ) (u t : Tree) (s : ℕ → Tree) → substitute (substitution_under at s) (subst_tree at u t) ≡ subst_tree at (substitute s u) (substitute (substitution_under (suc at) s) t) }
{}

/// A lift by 0 changes nothing, a lift within what an earlier lift left free makes it longer, and other
/// lifts are exchanged.
#[tactic(auto, using(crate::proofs::substitutions::Commuting::lift_none, crate::proofs::substitutions::Commuting::lift_within_lift, cic_terms::proofs::Laws::lift_lift))]
pub fn lift_after_lift()
    ensures none { (from : ℕ) (t : Tree) → lift_tree from 0 t ≡ t }
    ensures within { (from by place more : ℕ) (t : Tree) → from ≤ place → place ≤ from + by → lift_tree place more (lift_tree from by t) ≡ lift_tree from (by + more) t }
    ensures above { (from by place more : ℕ) (t : Tree) → from ≤ place → lift_tree (place + by) more (lift_tree from by t) ≡ lift_tree from by (lift_tree place more t) }
{}

/// A substitution at a place that a lift left free puts nothing in: it undoes one binder of the lift.
#[tactic(auto, using(crate::proofs::substitutions::Commuting::subst_within_lift))]
pub fn subst_after_lift()
    ensures { (at from by : ℕ) (u t : Tree) → from ≤ at → at ≤ from + by → subst_tree at u (lift_tree from (by + 1) t) ≡ lift_tree from by t }
{}

/// A lift at or below the place of a substitution moves the place, and one above it goes into both terms.
#[tactic(auto, using(crate::proofs::substitutions::Commuting::lift_below_subst, cic_terms::proofs::LiftSubst::lift_subst))]
pub fn lift_and_subst()
    ensures below { (from by at : ℕ) (u t : Tree) → from ≤ at → lift_tree from by (subst_tree at u t) ≡ subst_tree (at + by) u (lift_tree from by t) }
    ensures above { (from by at : ℕ) (u t : Tree) → lift_tree (at + from) by (subst_tree at u t) ≡ subst_tree at (lift_tree from by u) (lift_tree (at + from + 1) by t) }
{}

/// Of two substitutions the one at the outer place may come first: it goes into both terms.
#[tactic(auto, using(crate::proofs::substitutions::Commuting::subst_above_subst))]
pub fn subst_after_subst()
    ensures { (at place : ℕ) (u v t : Tree) → subst_tree (at + place) v (subst_tree at u t) ≡ subst_tree at (subst_tree place v u) (subst_tree (at + place + 1) v t) }
{}
