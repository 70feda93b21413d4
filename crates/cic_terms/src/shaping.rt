//! Laws: what each `fix` of a term has stays under lifting and substitution.
ghost use Rattle.cic_terms.specs.Denotes.{tree};
ghost use Rattle.cic_terms.specs.Lift.{lift_tree, subst_tree};
ghost use Rattle.cic_terms.specs.WellShaped.{WellShaped};

use crate::term::Term;

/// A lift of a term whose every `fix` has its function and its recursive domains is such a term.
pub fn lift_stays_well_shaped(t: &Term, from: u32, by: u32)
    requires { WellShaped (tree t.now) }
    ensures { WellShaped (lift_tree from by (tree t.now)) }
{}

/// So is one with such a term put in for a Rel.
pub fn subst_stays_well_shaped(t: &Term, at: u32, with: &Term)
    requires term { WellShaped (tree t.now) }
    requires put_in { WellShaped (tree with.now) }
    ensures { WellShaped (subst_tree at (tree with.now) (tree t.now)) }
{}
