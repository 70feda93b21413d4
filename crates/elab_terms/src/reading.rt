//! A term at a place of a library.
ghost use Rattle.std.specs.Prelude.{◌≡◌, ◌+◌, ◌<◌, ◌≤◌, ◌^◌, IfOk, OnOk, OnErr};
ghost use Rattle.cic_env.specs.Environments.{items};
ghost use Rattle.gal_raw.specs.Denotes.{tree};
ghost use Rattle.gal_scoping.specs.Levels.{types_in};
ghost use Rattle.gal_scoping.specs.Readings.{with_part};
ghost use Rattle.name_scope.specs.Held.{scope_of, variables_of, taken_of};
ghost use Rattle.name_scope.specs.calls.Changes.{Takes};
ghost use Rattle.elab_parts.specs.calls.Parts.{known, cut};
ghost use Rattle.elab_parts.specs.calls.Readings.{Reads};
ghost use Rattle.elab_terms.specs.Elaboration.{term_in, Elaborates};

use crate::elaborating::term;
use cic_env::Env;
use cic_names::Name;
use cic_terms::Term;
use elab_parts::{Around, Part, Place, ScopingFault};
use gal_raw::Raw;
use name_scope::Scope;
use std::alloc::Global;
use std::rc::Rc;

/// Why a written term stands for no term of the program.
#[derive(Drop)]
pub enum ElabFault<'a> {
    /// The first fault of its names, or there was no memory.
    Scoping(ScopingFault<'a>),
    /// Its names have no fault, and its term is past the limits of a term.
    Deep,
}

/// A term that is read, where it is within the limits, and how many levels it takes.
#[derive(Drop)]
struct Taken {
    part: Option<Part>,
    levels: u32,
}

/// How many levels were taken from one number to another.
fn levels_between(first: u32, next: u32) -> u32
    requires { first ≤ next }
    ensures count { first + result ≡ next }
    ensures room { first + result < 2 ^ 32 }
{
    next - first
}

/// Reads a term with the next levels of its owner.
fn term_of<'a>(
    alloc: Global,
    scope: &Scope,
    env: &Env,
    owner: &Name,
    opaque: bool,
    raw: &Raw<'a>,
) -> Result<Taken, ScopingFault<'a>>
    ensures read { Reads (λ r. known r.part) (with_part cut (term_in scope.now (items env.now) (record { name = owner.now; opaque = opaque }) (tree raw.now))) result }
    ensures levels { IfOk result (λ r. r.levels ≡ types_in (tree raw.now)) }
    ensures room { IfOk result (λ r. taken_of scope.now (record { name = owner.now; opaque = opaque }) + r.levels < 2 ^ 32) }
{
    let first = scope.taken(owner, opaque);
    let place = Place {
        scope,
        env,
        fresh: &[],
        owner,
        opaque,
    };
    let mut around = Around::new(alloc);
    let mut next = first;
    let part = term(alloc, &place, &mut around, &mut next, raw)?;
    Ok(Taken {
        part,
        levels: levels_between(first, next),
    })
}

/// The term that is written, at a place with no binders around it. The levels of each `Type` without a level belong to
/// the owner, and to its opaque body or not. Coq Reference Manual, "Terms".
#[tactic(auto, using(crate::proofs::Limits::term_read, crate::proofs::Limits::term_past, crate::proofs::Limits::fault_read))]
pub fn elab_term<'a>(
    alloc: Global,
    scope: &mut Scope,
    env: &Env,
    owner: &Name,
    opaque: bool,
    raw: &Raw<'a>,
) -> Result<Rc<Term>, ElabFault<'a>>
    ensures read { Elaborates (term_in scope.old (items env.now) (record { name = owner.now; opaque = opaque }) (tree raw.now)) result }
    ensures levels { OnOk result (Takes (record { name = owner.now; opaque = opaque }) (types_in (tree raw.now)) (taken_of scope.old) (taken_of scope.new)) }
    ensures scope { scope_of scope.new ≡ scope_of scope.old }
    ensures variables { variables_of scope.new ≡ variables_of scope.old }
    ensures same { OnErr result (taken_of scope.new ≡ taken_of scope.old) }
{
    let Taken { part, levels } = match term_of(alloc, scope, env, owner, opaque, raw) {
        Ok(read) => read,
        Err(reason) => return Err(ElabFault::Scoping(reason)),
    };
    match part {
        None => Err(ElabFault::Deep),
        Some(part) => match scope.take(owner, opaque, levels) {
            Ok(()) => Ok(part.term),
            Err(_) => Err(ElabFault::Scoping(ScopingFault::NoMemory)),
        },
    }
}
