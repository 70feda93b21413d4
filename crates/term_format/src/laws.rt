//! That what is spelled is read, that what is read is spelled so and can be stored, and what follows: each value has one
//! spelling, bytes spell one value, and no spelling is the proper beginning of another. Each function has an empty body,
//! and its contract is the law.
ghost use Rattle.term_format.specs.calls.Laws.{spelled_names_are_read, spelled_levels_are_read, spelled_constraints_are_read, spelled_terms_are_read, read_names_are_spelled, read_levels_are_spelled, read_constraints_are_spelled, read_terms_are_spelled, constraints_have_one_spelling, terms_have_one_spelling, constraints_end_themselves, terms_end_themselves};

/// A name, a level, a list of constraints or a term that is spelled is read, and what follows it is left.
#[tactic(auto, using(crate::proofs::NameLaws::name_read, crate::proofs::NameLaws::level_read, crate::proofs::ConstraintLaws::constraints_read, crate::proofs::Stated::storable_read))]
pub fn what_is_spelled_is_read()
    ensures names { spelled_names_are_read }
    ensures levels { spelled_levels_are_read }
    ensures constraints { spelled_constraints_are_read }
    ensures terms { spelled_terms_are_read }
{}

/// What is read can be stored, and it is spelled by exactly the bytes that were read.
pub fn what_is_read_is_spelled()
    ensures names { read_names_are_spelled }
    ensures levels { read_levels_are_spelled }
    ensures constraints { read_constraints_are_spelled }
    ensures terms { read_terms_are_spelled }
{}

/// Bytes spell one value.
pub fn one_value()
    ensures constraints { constraints_have_one_spelling }
    ensures terms { terms_have_one_spelling }
{}

/// No spelling is the proper beginning of another.
pub fn no_spelling_goes_on()
    ensures constraints { constraints_end_themselves }
    ensures terms { terms_end_themselves }
{}
