//! The arguments that a term stands under.
ghost use Rattle.std.specs.Prelude.{◌≡◌, option_map};
ghost use Rattle.cic_terms.specs.Denotes.{tree};
ghost use Rattle.cic_rules.specs.Environment.{element};
ghost use Rattle.cic_guard.specs.calls.Rows.{argument_trees};

use cic_terms::Term;

/// The arguments that a term stands under, the innermost first. The list lies on the stack of the walk.
#[derive(Clone, Copy)]
pub(crate) enum Arguments<'a> {
    Nothing,
    /// The innermost, and then the others.
    First(&'a Term, &'a Arguments<'a>),
}

/// The argument at a place, counted from 0.
pub(crate) fn argument_at<'a>(arguments: &Arguments<'a>, place: u32) -> Option<&'a Term>
    ensures { option_map (λ t. tree t.now) result ≡ element (argument_trees arguments.now) place }
{
    match arguments {
        Arguments::Nothing => None,
        Arguments::First(first, _) if place == 0 => Some(first),
        Arguments::First(_, rest) => argument_at(rest, place - 1),
    }
}
