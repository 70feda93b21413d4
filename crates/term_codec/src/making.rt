//! Terms made of their parts, each behind a pointer. These functions stand out of line, so that the readers keep little
//! on the stack.
ghost use Rattle.std.specs.Prelude.{◌≡◌, [], ◌∷◌, false, IfOk, OnErr, Err};
ghost use Rattle.cic_names.specs.declared.level.Level.TheVariants.{Named};
ghost use Rattle.cic_terms.specs.Denotes.{tree, branches, bodies, shapes, tree_sort};
ghost use Rattle.cic_terms.specs.Tree.{rel, sort, typ, let_in, case, fix};
ghost use Rattle.term_codec.specs.calls.Rows.{pair_of, global_of};

use crate::faults::Stop;
use cic_names::{Atom, Expr, GlobalId, Level, LevelName, Sort};
use cic_terms::{Branches, FixBodies, Term};
use std::alloc::Global;
use std::rc::Rc;

#[inline(never)]
fn shared(alloc: Global, term: Term) -> Result<Rc<Term>, Stop>
    ensures ok { IfOk result (λ r. r.value ≡ term) }
    ensures err { OnErr result (result ≡ Err Stop.NoMemory) }
{
    Ok(Rc::new(alloc, term)?)
}

/// The term itself in place of its pointer.
#[inline(never)]
pub(crate) fn own(term: Rc<Term>) -> Result<Term, Stop>
    ensures ok { IfOk result (λ t. tree t ≡ tree term.value) }
    ensures err { OnErr result (result ≡ Err Stop.NoMemory) }
{
    Ok(Term::clone(&term)?)
}

#[inline(never)]
pub(crate) fn make_rel(alloc: Global, n: u32) -> Result<Rc<Term>, Stop>
    ensures ok { IfOk result (λ r. tree r.value ≡ rel n) }
    ensures err { OnErr result (result ≡ Err Stop.NoMemory) }
{
    shared(alloc, Term::Rel(n))
}

#[inline(never)]
pub(crate) fn make_sort(alloc: Global, s: Sort) -> Result<Rc<Term>, Stop>
    ensures ok { IfOk result (λ r. tree r.value ≡ sort (tree_sort s)) }
    ensures err { OnErr result (result ≡ Err Stop.NoMemory) }
{
    shared(alloc, Term::Sort(s))
}

/// The universe of one named level.
fn one_level(alloc: Global, name: LevelName) -> Result<Expr, Stop>
    ensures ok { IfOk result (λ e. e ≡ record { level = Named name; plus = false } ∷ []) }
    ensures err { OnErr result (result ≡ Err Stop.NoMemory) }
{
    let mut atoms = Vec::new(alloc);
    atoms.push(Atom {
        level: Level::Named(name),
        plus: false,
    })?;
    Ok(Expr::new(alloc, atoms)?)
}

#[inline(never)]
pub(crate) fn make_type(alloc: Global, name: LevelName) -> Result<Rc<Term>, Stop>
    ensures ok { IfOk result (λ r. tree r.value ≡ sort (typ (record { level = Named name; plus = false } ∷ []))) }
    ensures err { OnErr result (result ≡ Err Stop.NoMemory) }
{
    let universe = one_level(alloc, name)?;
    make_sort(alloc, Sort::Typ(universe))
}

#[inline(never)]
pub(crate) fn make_global(alloc: Global, tag: u8, id: GlobalId) -> Result<Rc<Term>, Stop>
    ensures ok { IfOk result (λ r. tree r.value ≡ global_of tag id) }
    ensures err { OnErr result (result ≡ Err Stop.NoMemory) }
{
    let term = match tag {
        8 => Term::Const(id),
        9 => Term::Ind(id),
        _ => Term::Ctor(id),
    };
    shared(alloc, term)
}

#[inline(never)]
pub(crate) fn make_pair(
    alloc: Global,
    tag: u8,
    first: Rc<Term>,
    second: Rc<Term>,
) -> Result<Rc<Term>, Stop>
    ensures ok { IfOk result (λ r. tree r.value ≡ pair_of tag (tree first.value) (tree second.value)) }
    ensures err { OnErr result (result ≡ Err Stop.NoMemory) }
{
    let term = match tag {
        4 => Term::Prod(first, second),
        5 => Term::Lam(first, second),
        _ => Term::App(first, second),
    };
    shared(alloc, term)
}

#[inline(never)]
pub(crate) fn make_let(
    alloc: Global,
    body: Rc<Term>,
    ty: Rc<Term>,
    rest: Rc<Term>,
) -> Result<Rc<Term>, Stop>
    ensures ok { IfOk result (λ r. tree r.value ≡ let_in (tree body.value) (tree ty.value) (tree rest.value)) }
    ensures err { OnErr result (result ≡ Err Stop.NoMemory) }
{
    shared(alloc, Term::Let { body, ty, rest })
}

#[inline(never)]
pub(crate) fn make_case(
    alloc: Global,
    ind: GlobalId,
    arity: u32,
    motive: Rc<Term>,
    scrutinee: Rc<Term>,
    all: Branches,
) -> Result<Rc<Term>, Stop>
    ensures ok { IfOk result (λ r. tree r.value ≡ case ind arity (tree motive.value) (tree scrutinee.value) (branches all)) }
    ensures err { OnErr result (result ≡ Err Stop.NoMemory) }
{
    let branches = Rc::new(alloc, all)?;
    shared(
        alloc,
        Term::Case {
            arity,
            ind,
            motive,
            scrutinee,
            branches,
        },
    )
}

#[inline(never)]
pub(crate) fn make_fix(alloc: Global, which: u32, all: FixBodies) -> Result<Rc<Term>, Stop>
    ensures ok { IfOk result (λ r. tree r.value ≡ fix which (shapes all) (bodies all)) }
    ensures err { OnErr result (result ≡ Err Stop.NoMemory) }
{
    let bodies = Rc::new(alloc, all)?;
    shared(alloc, Term::Fix { which, bodies })
}
