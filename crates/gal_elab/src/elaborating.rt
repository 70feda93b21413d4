//! The walk over a written term.

ghost use Rattle.std.specs.Prelude.{◌≡◌, ◌+◌, ℕ, List, [], Some, IfOk, OnOk};
ghost use Rattle.cic_terms.specs.Tree.{Tree};
ghost use Rattle.cic_terms.specs.Denotes.{tree};
ghost use Rattle.cic_env.specs.Environments.{items};
ghost use Rattle.gal_parser.specs.Views.{raw_term};
ghost use Rattle.gal_elab.specs.Scoping.{id_of, StandsFor, FirstUnknown};
ghost use Rattle.gal_elab.specs.calls.Resolving.{resolve, resolve_name, put};
ghost use Rattle.gal_elab.specs.Answers.{OnUnknown};
ghost use Rattle.gal_elab.specs.calls.LookingUp.{Resolves, MakesProduct, levels_in};

use crate::levels::{Levels, enter, leave};
use cic_env::Env;
use cic_names::{GlobalId, Name, Sort};
use cic_terms::Term;
use gal_parser::Raw;
use memory::{NoMemory, OutOfMemory};
use std::alloc::Global;
use std::collections::HashMap;
use std::rc::Rc;

/// Why a written term gave no term.
#[derive(Debug, Drop)]
pub enum ElabFault {
    /// The first name of the term, in the order of the source, that is no binder's and not declared.
    Unknown { name: Name },
    /// There was no memory. So it is where binders stand 2^32 deep within one another.
    NoMemory,
}

impl<E: OutOfMemory> From<E> for ElabFault {
    ghost use Rattle.gal_elab.specs.declared.elaborating.ElabFault.TheVariants as F;

    ghost from_gives = { λ _ fault. fault ≡ F.NoMemory };

    fn from(_fault: E) -> ElabFault {
        ElabFault::NoMemory
    }
}

/// A library that is compiled, with what it has declared so far.
#[derive(Clone, Copy)]
struct Library<'a> {
    name: &'a Name,
    env: &'a Env,
}

/// The id of a name of the library.
pub fn id_of(library: &Name, name: &Name) -> Result<GlobalId, NoMemory>
    ensures { IfOk result (λ id. id ≡ id_of library.now name.now) }
{
    Ok(GlobalId {
        lib: library.clone()?,
        name: name.clone()?,
    })
}

/// What a name stands for under so many binders.
fn named(library: &Library<'_>, levels: &Levels, depth: u32, name: &Name) -> Result<Term, ElabFault>
    ensures { Resolves result (resolve_name library.now.name.now (items library.now.env.now) (levels_in levels.now name.now) depth name.now) }
{
    if let Some(level) = levels.get(name) {
        return Ok(Term::Rel(depth.saturating_sub(1).saturating_sub(*level)));
    }
    let id = id_of(library.name, name)?;
    if library.env.declares(&id) {
        Ok(Term::Const(id))
    } else {
        Err(ElabFault::Unknown { name: id.name })
    }
}

/// One binder more.
fn deeper(depth: u32) -> Result<u32, NoMemory>
    ensures { IfOk result (λ more. more ≡ depth + 1) }
{
    depth.checked_add(1).ok_or(NoMemory)
}

/// The product of a domain and of what came of the codomain.
fn product(
    alloc: Global,
    domain: Term,
    codomain: Result<Term, ElabFault>,
) -> Result<Term, ElabFault>
    ensures { MakesProduct (tree domain) codomain result }
{
    let codomain = Rc::new(alloc, codomain?)?;
    Ok(Term::Prod(Rc::new(alloc, domain)?, codomain))
}

/// What a written term stands for under so many binders of these levels, which are the same afterwards.
#[cycle(walk)]
fn elab(
    alloc: Global,
    library: &Library<'_>,
    levels: &mut Levels,
    depth: u32,
    raw: &Raw,
) -> Result<Term, ElabFault>
    ensures told { Resolves result (resolve library.now.name.now (items library.now.env.now) (levels_in levels.old) depth (raw_term raw.now)) }
    ensures same { OnOk result (levels_in levels.new ≡ levels_in levels.old) }
{
    match raw {
        Raw::Prop => Ok(Term::Sort(Sort::Prop)),
        Raw::Name(name) => named(library, levels, depth, name),
        Raw::ForAll { binder, ty, body } => {
            let domain = elab(alloc, library, levels, depth, ty)?;
            let codomain = bound(alloc, library, levels, depth, binder, body);
            product(alloc, domain, codomain)
        }
        Raw::Arrow(from, to) => {
            let domain = elab(alloc, library, levels, depth, from)?;
            let codomain = behind(alloc, library, levels, depth, to);
            product(alloc, domain, codomain)
        }
    }
}

/// `elab` under a binder more, which has the name.
#[cycle(walk)]
fn bound(
    alloc: Global,
    library: &Library<'_>,
    levels: &mut Levels,
    depth: u32,
    binder: &Name,
    body: &Raw,
) -> Result<Term, ElabFault>
    ensures told { Resolves result (resolve library.now.name.now (items library.now.env.now) (put binder.now (Some depth) (levels_in levels.old)) (depth + 1) (raw_term body.now)) }
    ensures same { OnOk result (levels_in levels.new ≡ levels_in levels.old) }
{
    let hidden = enter(levels, binder, depth)?;
    let body = behind(alloc, library, levels, depth, body)?;
    leave(levels, binder, hidden)?;
    Ok(body)
}

/// `elab` under a binder more, which has no name.
#[cycle(walk)]
fn behind(
    alloc: Global,
    library: &Library<'_>,
    levels: &mut Levels,
    depth: u32,
    raw: &Raw,
) -> Result<Term, ElabFault>
    ensures told { Resolves result (resolve library.now.name.now (items library.now.env.now) (levels_in levels.old) (depth + 1) (raw_term raw.now)) }
    ensures same { OnOk result (levels_in levels.new ≡ levels_in levels.old) }
{
    elab(alloc, library, levels, deeper(depth)?, raw)
}

/// The term for which a written term of the library stands, over what is declared. Coq Reference Manual,
/// "Functions and assumptions" and "Qualified identifiers".
pub fn elab_type(alloc: Global, library: &Name, env: &Env, raw: &Raw) -> Result<Term, ElabFault>
    ensures found { IfOk result (λ t. StandsFor library.now (items env.now) [] (raw_term raw.now) (tree t)) }
    ensures only { IfOk result (λ t. (u : Tree) → StandsFor library.now (items env.now) [] (raw_term raw.now) u → tree t ≡ u) }
    ensures known { OnOk result ((name : List ℕ) → FirstUnknown library.now (items env.now) [] (raw_term raw.now) name → ⊥) }

    ensures fault { OnUnknown result (FirstUnknown library.now (items env.now) [] (raw_term raw.now)) }
    ensures one_name { OnUnknown result (λ name. (other : List ℕ) → FirstUnknown library.now (items env.now) [] (raw_term raw.now) other → other ≡ name) }
    ensures no_term { OnUnknown result (λ _. (t : Tree) → StandsFor library.now (items env.now) [] (raw_term raw.now) t → ⊥) }
{
    let declared = Library { name: library, env };
    elab(alloc, &declared, &mut HashMap::new(alloc), 0, raw)
}
