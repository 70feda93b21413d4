//! That what is spelled is read, that what is read is spelled so and can be stored, and what follows: each value has one
//! spelling, bytes spell one value, and no spelling is the proper beginning of another. Each function has an empty body,
//! and its contract is the law.
ghost use Rattle.lib_format.specs.calls.Laws.{spelled_declarations_are_read, spelled_lists_are_read, spelled_summaries_are_read, spelled_libraries_are_read, spelled_heads_are_read, read_declarations_are_spelled, read_lists_are_spelled, read_summaries_are_spelled, read_libraries_are_spelled, read_heads_are_spelled, declarations_have_one_spelling, summaries_have_one_spelling, libraries_have_one_spelling, opaques_have_one_spelling, declarations_end_themselves, summaries_end_themselves, libraries_end_themselves, opaques_end_themselves};

/// A declaration, a list of them, a summary, an interface or a head of opaques that is spelled is read, and what follows
/// it is left.
pub fn what_is_spelled_is_read()
    ensures declarations { spelled_declarations_are_read }
    ensures lists { spelled_lists_are_read }
    ensures summaries { spelled_summaries_are_read }
    ensures libraries { spelled_libraries_are_read }
    ensures heads { spelled_heads_are_read }
{}

/// What is read can be stored, and it is spelled by exactly the bytes that were read.
pub fn what_is_read_is_spelled()
    ensures declarations { read_declarations_are_spelled }
    ensures lists { read_lists_are_spelled }
    ensures summaries { read_summaries_are_spelled }
    ensures libraries { read_libraries_are_spelled }
    ensures heads { read_heads_are_spelled }
{}

/// Bytes spell one value.
pub fn one_value()
    ensures declarations { declarations_have_one_spelling }
    ensures summaries { summaries_have_one_spelling }
    ensures libraries { libraries_have_one_spelling }
    ensures opaques { opaques_have_one_spelling }
{}

/// No spelling is the proper beginning of another.
pub fn no_spelling_goes_on()
    ensures declarations { declarations_end_themselves }
    ensures summaries { summaries_end_themselves }
    ensures libraries { libraries_end_themselves }
    ensures opaques { opaques_end_themselves }
{}
