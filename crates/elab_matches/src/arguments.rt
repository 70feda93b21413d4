//! What stands at the places of a constructor or a type.
ghost use Rattle.std.specs.Prelude.{◌≡◌, IfOk, length, map, is_none};
ghost use Rattle.std.specs.List.{list_all};
ghost use Rattle.std.specs.Option.{option_copied};
ghost use Rattle.cic_terms.specs.Denotes.{tree};
ghost use Rattle.cic_rules.specs.Telescopes.{domains_of};
ghost use Rattle.gal_raw.specs.Denotes.{binder};
ghost use Rattle.gal_scoping.specs.Names.{binder_name};
ghost use Rattle.gal_scoping.specs.Matches.{further, names_at};
ghost use Rattle.elab_parts.specs.calls.Readings.{Reads};

use cic_terms::Term;
use elab_parts::{ScopingFault, binder_text};
use gal_raw::Binder;
use memory::NoMemory;
use std::alloc::Global;

/// How many products a type has as written. They are fewer than 2^32.
fn product_count(ty: &Term) -> Result<u32, NoMemory>
    ensures { IfOk result (λ count. count ≡ length (domains_of (tree ty.now))) }
{
    let mut count: u32 = 0;
    let mut at = ty;
    while let Term::Prod(_, rest) = at {
        if count == u32::MAX {
            return Err(NoMemory);
        }
        count += 1;
        at = rest;
    }
    Ok(count)
}

/// How many products a type has as written behind those of the parameters.
pub(crate) fn further(ty: &Term, parameters: u32) -> Result<u32, NoMemory>
    ensures { IfOk result (λ count. count ≡ further (tree ty.now) parameters) }
{
    Ok(product_count(ty)?.saturating_sub(parameters))
}

/// Whether no binder has a name.
fn are_blank(binders: &[Binder<'_>]) -> bool
    ensures { result ≡ list_all (λ b. is_none (binder_name b)) (map binder binders.now) }
{
    for written in binders {
        if binder_text(written).is_some() {
            return false;
        }
    }
    true
}

/// The names behind the places of the parameters, if there is one binder for each place, and none of the parameters
/// has a name.
pub(crate) fn names_at<'b, 'a>(
    name: &'a [u8],
    parameters: u32,
    ty: &Term,
    binders: &'b [Binder<'a>],
) -> Result<&'b [Binder<'a>], ScopingFault<'a>>
    ensures { Reads (λ names. map binder names.now) (names_at name.now parameters (tree ty.now) (map binder binders.now)) result }
{
    let further = further(ty, parameters)? as usize;
    let parameters = parameters as usize;
    if binders.len() != parameters + further {
        return Err(ScopingFault::BadPattern(name));
    }
    if !are_blank(&binders[..parameters]) {
        return Err(ScopingFault::BadPattern(name));
    }
    Ok(&binders[parameters..])
}

/// The names of binders.
pub(crate) fn binder_texts<'a>(
    alloc: Global,
    binders: &[Binder<'a>],
) -> Result<Vec<Option<&'a [u8]>>, NoMemory>
    ensures { IfOk result (λ names. map option_copied names.items ≡ map binder_name (map binder binders.now)) }
{
    let mut names = Vec::new(alloc);
    for written in binders {
        names.push(binder_text(written))?;
    }
    Ok(names)
}
