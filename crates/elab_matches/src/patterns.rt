//! The patterns of branches.
ghost use Rattle.std.specs.Prelude.{◌≡◌, ◌&&◌, IfOk, OnOk, is_none, map, length};
ghost use Rattle.cic_names.specs.Sameness.{same_id};
ghost use Rattle.gal_raw.specs.Denotes.{qualified, binder};
ghost use Rattle.gal_scoping.specs.Matches.{around_branch};
ghost use Rattle.cic_env.specs.Readers.{ctor_of};
ghost use Rattle.elab_parts.specs.Binders.{around_of};
ghost use Rattle.elab_parts.specs.Places.{place_of};
ghost use Rattle.elab_parts.specs.calls.Parts.{known};
ghost use Rattle.elab_parts.specs.calls.Readings.{Reads};
ghost use Rattle.elab_matches.specs.Matches.{type_of, pattern_of};
ghost use Rattle.elab_matches.specs.calls.Branches.{known_branch, branch_of, done_of, known_pattern_of, known_pattern, known_with_branch};

use crate::arguments::names_at;
use crate::branches::{Done, ReadBranch};
use crate::matched::{MatchedType, constructor_meant};
use cic_env::CtorOf;
use elab_parts::{Around, Part, Place, ScopingFault, binder_text, text};
use gal_raw::{Binder, QualifiedName};
use memory::NoMemory;

/// A pattern: the place of its constructor, and the names of the arguments.
#[derive(Clone, Copy, Drop)]
pub struct Pattern<'b, 'a> {
    pub place: u32,
    pub names: &'b [Binder<'a>],
}

impl<'b, 'a> Pattern<'b, 'a> {
    /// Puts the binders of the pattern inside all others.
    pub fn enter(&self, around: &mut Around<'a>) -> Result<(), NoMemory>
        ensures { OnOk result (around_of around.new ≡ around_branch (around_of around.old) (pattern_of self.now)) }
    {
        for written in self.names {
            around.enter(binder_text(written))?;
        }
        Ok(())
    }

    /// The branch of this pattern with this body.
    pub fn branch(&self, body: Option<Part>) -> Result<ReadBranch, NoMemory>
        ensures { IfOk result (λ b. known_branch b ≡ record { place = self.now.place; binders = length self.now.names.now; body = known body }) }
    {
        match u32::try_from(self.names.len()) {
            Ok(binders) => Ok(ReadBranch {
                place: self.place,
                binders,
                body,
            }),
            Err(_) => Err(NoMemory),
        }
    }
}

/// Whether the constructor belongs to the type, and has no branch yet.
fn may_stand(ty: &MatchedType<'_, '_>, done: &Done, found: &CtorOf<'_>) -> bool
    ensures { result ≡ (same_id ty.now.id found.now.owner.now && is_none (branch_of (done_of done.now) found.now.place)) }
{
    ty.id == *found.owner && done.branch(found.place as usize).is_none()
}

/// The pattern of a constructor.
fn pattern_of<'b, 'a>(
    name: &'a [u8],
    ty: &MatchedType<'_, 'a>,
    done: &Done,
    names: &'b [Binder<'a>],
    found: &CtorOf<'_>,
) -> Result<Pattern<'b, 'a>, ScopingFault<'a>>
    ensures { Reads pattern_of (known_pattern_of name.now (type_of ty.now) (done_of done.now) (map binder names.now) (ctor_of found.now)) result }
{
    if !may_stand(ty, done, found) {
        return Err(ScopingFault::BadPattern(name));
    }
    Ok(Pattern {
        place: found.place,
        names: names_at(name, found.params, found.ty, names)?,
    })
}

/// The pattern of a constructor that belongs to the type and has no branch yet.
pub fn pattern_read<'b, 'a>(
    place: &Place<'_>,
    around: &Around<'a>,
    ty: &MatchedType<'_, 'a>,
    done: &Done,
    constructor: &QualifiedName<'a>,
    names: &'b [Binder<'a>],
) -> Result<Pattern<'b, 'a>, ScopingFault<'a>>
    ensures { Reads pattern_of (known_pattern (place_of place.now) (around_of around.now) (type_of ty.now) (done_of done.now) (qualified constructor.now) (map binder names.now)) result }
{
    let found = constructor_meant(place, around, constructor)?;
    pattern_of(text(constructor), ty, done, names, &found)
}

/// One branch more, of this pattern and with this body.
pub fn add_branch(
    done: &mut Done,
    pattern: &Pattern<'_, '_>,
    body: Option<Part>,
) -> Result<(), NoMemory>
    ensures { OnOk result (done_of done.new ≡ known_with_branch (done_of done.old) (pattern_of pattern.now) (known body)) }
{
    let branch = pattern.branch(body)?;
    done.push(branch)
}
