//! The commands by their first words.
ghost use Rattle.std.specs.Prelude.{◌≡◌, length};
ghost use Rattle.gal_file_parser.specs.declared.openings.Opening.TheVariants as O;
ghost use Rattle.gal_file_parser.specs.calls.Openings.{early, is_one, late, opening_in, opening_of, words_of};

/// A command by its first word.
#[derive(Clone, Copy)]
pub(crate) enum Opening {
    Universe,
    Constraint,
    Axiom,
    Variable,
    Definition,
    Local,
    Fixpoint,
    Inductive,
    Theorem,
    Section,
    End,
}

fn is_universe(text: &[u8]) -> bool
    ensures { result ≡ is_one (words_of O.Universe) text.now }
{
    b"Universe".as_slice() == text || b"Universes".as_slice() == text
}

fn is_axiom(text: &[u8]) -> bool
    ensures { result ≡ is_one (words_of O.Axiom) text.now }
{
    b"Axiom".as_slice() == text
        || b"Axioms".as_slice() == text
        || b"Parameter".as_slice() == text
        || b"Parameters".as_slice() == text
        || b"Conjecture".as_slice() == text
}

fn is_variable(text: &[u8]) -> bool
    ensures { result ≡ is_one (words_of O.Variable) text.now }
{
    b"Variable".as_slice() == text
        || b"Variables".as_slice() == text
        || b"Hypothesis".as_slice() == text
        || b"Hypotheses".as_slice() == text
}

fn is_definition(text: &[u8]) -> bool
    ensures { result ≡ is_one (words_of O.Definition) text.now }
{
    b"Definition".as_slice() == text || b"Example".as_slice() == text
}

fn is_theorem(text: &[u8]) -> bool
    ensures { result ≡ is_one (words_of O.Theorem) text.now }
{
    b"Theorem".as_slice() == text
        || b"Lemma".as_slice() == text
        || b"Fact".as_slice() == text
        || b"Remark".as_slice() == text
        || b"Corollary".as_slice() == text
        || b"Proposition".as_slice() == text
}

fn early(text: &[u8]) -> Option<Opening>
    ensures { result ≡ opening_in early text.now }
{
    if is_universe(text) {
        Some(Opening::Universe)
    } else if b"Constraint".as_slice() == text {
        Some(Opening::Constraint)
    } else if is_axiom(text) {
        Some(Opening::Axiom)
    } else if is_variable(text) {
        Some(Opening::Variable)
    } else if is_definition(text) {
        Some(Opening::Definition)
    } else if b"Let".as_slice() == text {
        Some(Opening::Local)
    } else {
        None
    }
}

fn late(text: &[u8]) -> Option<Opening>
    ensures { result ≡ opening_in late text.now }
{
    if b"Fixpoint".as_slice() == text {
        Some(Opening::Fixpoint)
    } else if b"Inductive".as_slice() == text {
        Some(Opening::Inductive)
    } else if is_theorem(text) {
        Some(Opening::Theorem)
    } else if b"Section".as_slice() == text {
        Some(Opening::Section)
    } else if b"End".as_slice() == text {
        Some(Opening::End)
    } else {
        None
    }
}

/// The command that begins with the word.
pub(crate) fn opening_of(text: &[u8]) -> Option<Opening>
    ensures { result ≡ opening_of text.now }
{
    match early(text) {
        Some(opening) => Some(opening),
        None => late(text),
    }
}
