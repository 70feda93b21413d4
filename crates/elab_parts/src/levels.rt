//! Universe levels that are written, and those that a `Type` without a level takes.
ghost use Rattle.std.specs.Prelude.{◌≡◌, Ok, Err, IfOk};
ghost use Rattle.cic_terms.specs.Denotes.{tree, tree_sort};
ghost use Rattle.cic_terms.specs.Tree.{sort};
ghost use Rattle.gal_raw.specs.Denotes.{qualified};
ghost use Rattle.gal_scoping.specs.Readings.{with_part};
ghost use Rattle.gal_scoping.specs.Levels.{at_level, anonymous, level_named};
ghost use Rattle.elab_parts.specs.Places.{place_of, owner_of};
ghost use Rattle.elab_parts.specs.calls.Readings.{Reads};

use crate::fault::{ScopingFault, of_name};
use crate::making::leaf;
use crate::parts::Part;
use crate::place::Place;
use cic_names::{Atom, Expr, Level, LevelName, Part as LevelPart, Sort};
use cic_terms::Term;
use gal_raw::QualifiedName;
use memory::NoMemory;
use std::alloc::Global;

/// A sort.
pub fn sort(alloc: Global, s: Sort) -> Result<Part, NoMemory>
    ensures { IfOk result (λ p. tree p.term.value ≡ sort (tree_sort s)) }
{
    leaf(alloc, Term::Sort(s))
}

/// `Type` at a level.
fn at_level(alloc: Global, level: Level) -> Result<Part, NoMemory>
    ensures { IfOk result (λ p. tree p.term.value ≡ at_level level) }
{
    let mut atoms = Vec::new(alloc);
    atoms.push(Atom { level, plus: false })?;
    sort(alloc, Sort::Typ(Expr::new(alloc, atoms)?))
}

/// `Type` at the anonymous level of this number.
pub fn anonymous_level(alloc: Global, place: &Place<'_>, number: u32) -> Result<Part, NoMemory>
    ensures { IfOk result (λ p. tree p.term.value ≡ at_level (anonymous (place_of place.now).scope.library (owner_of place.now) number)) }
{
    let part = if place.opaque {
        LevelPart::Proof(number)
    } else {
        LevelPart::Visible(number)
    };
    let name = LevelName {
        lib: place.scope.library().clone()?,
        owner: place.owner.clone()?,
        part,
    };
    at_level(alloc, Level::Named(name))
}

/// `Type` at the level that a name stands for.
pub fn level_term<'a>(
    alloc: Global,
    place: &Place<'_>,
    x: &QualifiedName<'a>,
) -> Result<Part, ScopingFault<'a>>
    ensures { Reads (λ p. tree p.term.value) (with_part at_level (level_named (place_of place.now).scope (qualified x.now))) result }
{
    match place.scope.level(x) {
        Ok(level) => Ok(at_level(alloc, level)?),
        Err(reason) => Err(of_name(reason)),
    }
}
