//! Laws of what is read within the limits of a term.
ghost use Rattle.std.specs.Prelude.{◌≡◌, ℕ, List, map};
ghost use Rattle.cic_rules.specs.Environment.{Environment};
ghost use Rattle.gal_scoping.specs.Fixpoints.{ReadFunction, fix_read};
ghost use Rattle.elab_parts.specs.calls.Parts.{cut};
ghost use Rattle.elab_parts.specs.calls.Functions.{cut_function, known_fix};

/// The fix of functions of which the parts that are past the limits are left out is the fix of the whole functions, as
/// far as that is within the limits.
#[tactic(auto, using(crate::proofs::Whole::fix_cut))]
pub fn fix_within_the_limits()
    ensures { (E : Environment) (fs : List ReadFunction) (which : ℕ) → known_fix E (map cut_function fs) which ≡ cut (fix_read E fs which) }
{}
