//! Pieces of texts.
ghost use Rattle.std.specs.Prelude.{◌≡◌, ◌++◌, OnOk, codes, decimal, string_bytes};
ghost use Rattle.cic_names.specs.Texts.{id_text, level_text};
ghost use Rattle.cic_terms.specs.Denotes.{tree_sort};
ghost use Rattle.gal_print.specs.Sorts.{atom_text, atoms_text, sort_text};
ghost use Rattle.gal_print.specs.calls.Output.{piece_text, atom_at_text};

use crate::output::Piece;
use cic_names::{Atom, Level, Sort};
use memory::NoMemory;

/// Adds a part of a text.
pub fn push_part(text: &mut String, part: &str) -> Result<(), NoMemory>
    ensures { OnOk result (string_bytes text.new ≡ string_bytes text.old ++ part.now) }
{
    Ok(text.push_str(part)?)
}

/// Adds a number in decimal.
pub fn push_number(text: &mut String, number: u64) -> Result<(), NoMemory>
    ensures { OnOk result (string_bytes text.new ≡ string_bytes text.old ++ decimal number) }
{
    write!(text, "{number}").map_err(|_| NoMemory)
}

/// Adds a level.
fn push_level(text: &mut String, level: &Level) -> Result<(), NoMemory>
    ensures { OnOk result (string_bytes text.new ≡ string_bytes text.old ++ level_text level.now) }
{
    write!(text, "{level}").map_err(|_| NoMemory)
}

/// Adds a level or its successor.
fn push_atom(text: &mut String, atom: &Atom) -> Result<(), NoMemory>
    ensures { OnOk result (string_bytes text.new ≡ string_bytes text.old ++ atom_text atom.now) }
{
    push_level(text, &atom.level)?;
    if atom.plus {
        push_part(text, "+1")
    } else {
        Ok(())
    }
}

/// Adds an atom that is not the first, behind a comma.
fn push_further(text: &mut String, atom: &Atom) -> Result<(), NoMemory>
    ensures { OnOk result (string_bytes text.new ≡ string_bytes text.old ++ (codes ", " ++ atom_text atom.now)) }
{
    push_part(text, ", ")?;
    push_atom(text, atom)
}

/// Adds the atom at a place.
fn push_atom_at(text: &mut String, i: usize, atom: &Atom) -> Result<(), NoMemory>
    ensures { OnOk result (string_bytes text.new ≡ string_bytes text.old ++ atom_at_text i atom.now) }
{
    if i == 0 {
        push_atom(text, atom)
    } else {
        push_further(text, atom)
    }
}

/// Adds the atoms of a universe, with a comma between two of them.
fn push_atoms(text: &mut String, atoms: &[Atom]) -> Result<(), NoMemory>
    ensures { OnOk result (string_bytes text.new ≡ string_bytes text.old ++ atoms_text atoms.now) }
{
    for (i, atom) in atoms.iter().enumerate() {
        push_atom_at(text, i, atom)?;
    }
    Ok(())
}

/// Adds a sort.
fn push_sort(text: &mut String, sort: &Sort) -> Result<(), NoMemory>
    ensures { OnOk result (string_bytes text.new ≡ string_bytes text.old ++ sort_text (tree_sort sort.now)) }
{
    match sort {
        Sort::Prop => push_part(text, "Prop"),
        Sort::Set => push_part(text, "Set"),
        Sort::Typ(universe) => {
            push_part(text, "Type@{")?;
            push_atoms(text, universe.atoms())?;
            push_part(text, "}")
        }
    }
}

/// Adds a piece.
pub(crate) fn push_piece(text: &mut String, piece: &Piece<'_>) -> Result<(), NoMemory>
    ensures { OnOk result (string_bytes text.new ≡ string_bytes text.old ++ piece_text piece.now) }
{
    match piece {
        Piece::Word(word) => push_part(text, word),
        Piece::Name(number) => write!(text, "x{number}").map_err(|_| NoMemory),
        Piece::Unbound(x) => write!(text, "?{x}").map_err(|_| NoMemory),
        Piece::Id(id) => write!(text, "{id}").map_err(|_| NoMemory),
        Piece::OfSort(sort) => push_sort(text, sort),
    }
}
