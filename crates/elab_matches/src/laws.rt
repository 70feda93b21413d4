//! Laws of matches that are read within the limits of a term.
ghost use Rattle.std.specs.Prelude.{◌≡◌, List, map};
ghost use Rattle.cic_terms.specs.Tree.{Tree};
ghost use Rattle.gal_grammar.specs.Terms.{Qual, Binder};
ghost use Rattle.gal_scoping.specs.Readings.{with_part};
ghost use Rattle.gal_scoping.specs.Names.{Around, Place};
ghost use Rattle.gal_scoping.specs.Matches.{MatchedType, ReadBranch, Pattern, pattern_read, with_branch, case_of};
ghost use Rattle.elab_parts.specs.calls.Parts.{cut};
ghost use Rattle.elab_matches.specs.calls.Branches.{cut_branch, known_pattern, known_with_branch};
ghost use Rattle.elab_matches.specs.calls.Cases.{known_case};

/// A pattern is read as behind the whole branches, where bodies past the limits are left out.
pub fn patterns_without_bodies()
    ensures { (place : Place) (around : Around) (type : MatchedType) (done : List ReadBranch) (x : Qual) (binders : List Binder) → known_pattern place around type (map cut_branch done) x binders ≡ pattern_read place around type done x binders }
{}

/// One branch more, of which the body is left out where it is past the limits, is that of the whole branches.
#[tactic(auto, using(crate::proofs::Whole::more_cut))]
pub fn one_branch_more()
    ensures { (done : List ReadBranch) (p : Pattern) (body : Tree) → known_with_branch (map cut_branch done) p (cut body) ≡ map cut_branch (with_branch done p body) }
{}

/// The match of which the parts that are past the limits are left out is the match of the whole parts, as far as that
/// is within the limits.
#[tactic(auto, using(crate::proofs::Whole::whole_case))]
pub fn case_within_the_limits()
    ensures { (type : MatchedType) (value motive : Tree) (done : List ReadBranch) → known_case type (cut value) (cut motive) (map cut_branch done) ≡ with_part cut (case_of type value motive done) }
{}
