//! Terms made of parts that a walk gave anew or left as they are.
ghost use Rattle.std.specs.Prelude.{◌≡◌, ◌++◌, ◌∷◌, [], IfOk, OnOk, OnErr, Err};
ghost use Rattle.cic_terms.specs.calls.Kinds.{IsPair, IsLet, IsCase};
ghost use Rattle.cic_terms.specs.calls.Answer.{after, branches_after, bodies_after, pair_after, let_after, case_after};
ghost use Rattle.cic_terms.specs.Denotes.{tree, branches, bodies, shapes};
ghost use Rattle.cic_terms.specs.Tree.{rel, fix};

use cic_names::GlobalId;
use cic_terms::{Branches, FixBodies, Term, TermFault};
use std::alloc::Global;
use std::rc::Rc;

/// Puts the value behind a pointer.
pub(crate) fn shared<T: Drop>(alloc: Global, value: T) -> Result<Rc<T>, TermFault>
    ensures ok { IfOk result (λ r. r.value ≡ value) }
    ensures err { OnErr result (result ≡ Err TermFault.NoMemory) }
{
    Ok(Rc::new(alloc, value)?)
}

/// Puts one more at the end.
pub(crate) fn keep<T: Drop>(items: &mut Vec<T>, item: T) -> Result<(), TermFault>
    ensures ok { OnOk result (items.new.items ≡ items.old.items ++ item ∷ []) }
    ensures err { OnErr result (result ≡ Err TermFault.NoMemory) }
{
    Ok(items.push(item)?)
}

fn copy_id(id: &GlobalId) -> Result<GlobalId, TermFault>
    ensures ok { IfOk result (λ r. r ≡ id.now) }
    ensures err { OnErr result (result ≡ Err TermFault.NoMemory) }
{
    Ok(id.clone()?)
}

fn share<T: Drop>(part: &Rc<T>) -> Result<Rc<T>, TermFault>
    ensures ok { IfOk result (λ r. r.value ≡ part.now.value) }
    ensures err { OnErr result (result ≡ Err TermFault.NoMemory) }
{
    Ok(part.clone()?)
}

/// The new part, or the old one where there is none.
pub(crate) fn part(old: &Rc<Term>, new: Option<Rc<Term>>) -> Result<Rc<Term>, TermFault>
    ensures ok { IfOk result (λ r. tree r.value ≡ after (tree old.now.value) new) }
    ensures err { OnErr result (result ≡ Err TermFault.NoMemory) }
{
    match new {
        Some(new) => Ok(new),
        None => share(old),
    }
}

/// The term itself in place of its pointer.
#[inline(never)]
pub(crate) fn taken(old: &Term, new: Option<Rc<Term>>) -> Result<Term, TermFault>
    ensures ok { IfOk result (λ r. tree r ≡ after (tree old.now) new) }
    ensures err { OnErr result (result ≡ Err TermFault.NoMemory) }
{
    match &new {
        Some(new) => Ok(Term::clone(new)?),
        None => Ok(old.clone()?),
    }
}

#[inline(never)]
pub(crate) fn make_rel(alloc: Global, n: u32) -> Result<Rc<Term>, TermFault>
    ensures ok { IfOk result (λ r. tree r.value ≡ rel n) }
    ensures err { OnErr result (result ≡ Err TermFault.NoMemory) }
{
    shared(alloc, Term::Rel(n))
}

/// The product, abstraction or application with its new parts, or nothing where there are none.
#[inline(always)]
pub(crate) fn make_pair(
    alloc: Global,
    t: &Term,
    new_first: Option<Rc<Term>>,
    new_second: Option<Rc<Term>>,
) -> Result<Option<Rc<Term>>, TermFault>
    requires { IsPair t.now }
    ensures ok { IfOk result (λ r. after (tree t.now) r ≡ pair_after t.now new_first new_second) }
    ensures err { OnErr result (result ≡ Err TermFault.NoMemory) }
{
    if new_first.is_none() && new_second.is_none() {
        return Ok(None);
    }
    new_pair(alloc, t, new_first, new_second)
}

#[inline(never)]
fn new_pair(
    alloc: Global,
    t: &Term,
    new_first: Option<Rc<Term>>,
    new_second: Option<Rc<Term>>,
) -> Result<Option<Rc<Term>>, TermFault>
    requires { IsPair t.now }
    ensures ok { IfOk result (λ r. after (tree t.now) r ≡ pair_after t.now new_first new_second) }
    ensures err { OnErr result (result ≡ Err TermFault.NoMemory) }
{
    let (Term::Prod(first, second) | Term::Lam(first, second) | Term::App(first, second)) = t else {
        unreachable!()
    };
    let first = part(first, new_first)?;
    let second = part(second, new_second)?;
    let made = match t {
        Term::Prod(..) => Term::Prod(first, second),
        Term::Lam(..) => Term::Lam(first, second),
        _ => Term::App(first, second),
    };
    Ok(Some(shared(alloc, made)?))
}

/// The `let` with its new parts, or nothing where there are none.
#[inline(always)]
pub(crate) fn make_let(
    alloc: Global,
    t: &Term,
    new_body: Option<Rc<Term>>,
    new_ty: Option<Rc<Term>>,
    new_rest: Option<Rc<Term>>,
) -> Result<Option<Rc<Term>>, TermFault>
    requires { IsLet t.now }
    ensures ok { IfOk result (λ r. after (tree t.now) r ≡ let_after t.now new_body new_ty new_rest) }
    ensures err { OnErr result (result ≡ Err TermFault.NoMemory) }
{
    if new_body.is_none() && new_ty.is_none() && new_rest.is_none() {
        return Ok(None);
    }
    new_let(alloc, t, new_body, new_ty, new_rest)
}

#[inline(never)]
fn new_let(
    alloc: Global,
    t: &Term,
    new_body: Option<Rc<Term>>,
    new_ty: Option<Rc<Term>>,
    new_rest: Option<Rc<Term>>,
) -> Result<Option<Rc<Term>>, TermFault>
    requires { IsLet t.now }
    ensures ok { IfOk result (λ r. after (tree t.now) r ≡ let_after t.now new_body new_ty new_rest) }
    ensures err { OnErr result (result ≡ Err TermFault.NoMemory) }
{
    let Term::Let { body, ty, rest } = t else {
        unreachable!()
    };
    let body = part(body, new_body)?;
    let ty = part(ty, new_ty)?;
    let rest = part(rest, new_rest)?;
    Ok(Some(shared(alloc, Term::Let { body, ty, rest })?))
}

/// The `match` with its new parts, or nothing where there are none.
#[inline(always)]
pub(crate) fn make_case(
    alloc: Global,
    t: &Term,
    new_motive: Option<Rc<Term>>,
    new_scrutinee: Option<Rc<Term>>,
    new_branches: Option<Rc<Branches>>,
) -> Result<Option<Rc<Term>>, TermFault>
    requires { IsCase t.now }
    ensures ok { IfOk result (λ r. after (tree t.now) r ≡ case_after t.now new_motive new_scrutinee new_branches) }
    ensures err { OnErr result (result ≡ Err TermFault.NoMemory) }
{
    if new_motive.is_none() && new_scrutinee.is_none() && new_branches.is_none() {
        return Ok(None);
    }
    new_case(alloc, t, new_motive, new_scrutinee, new_branches)
}

#[inline(never)]
fn new_case(
    alloc: Global,
    t: &Term,
    new_motive: Option<Rc<Term>>,
    new_scrutinee: Option<Rc<Term>>,
    new_branches: Option<Rc<Branches>>,
) -> Result<Option<Rc<Term>>, TermFault>
    requires { IsCase t.now }
    ensures ok { IfOk result (λ r. after (tree t.now) r ≡ case_after t.now new_motive new_scrutinee new_branches) }
    ensures err { OnErr result (result ≡ Err TermFault.NoMemory) }
{
    let Term::Case {
        arity,
        ind,
        motive,
        scrutinee,
        branches,
    } = t
    else {
        unreachable!()
    };
    let arity = *arity;
    let ind = copy_id(ind)?;
    let motive = part(motive, new_motive)?;
    let scrutinee = part(scrutinee, new_scrutinee)?;
    let branches = part_branches(branches, new_branches)?;
    Ok(Some(shared(
        alloc,
        Term::Case {
            arity,
            ind,
            motive,
            scrutinee,
            branches,
        },
    )?))
}

/// The new branches, or the old ones where there are none.
fn part_branches(old: &Rc<Branches>, new: Option<Rc<Branches>>) -> Result<Rc<Branches>, TermFault>
    ensures ok { IfOk result (λ r. branches r.value ≡ branches_after old.now.value new) }
    ensures err { OnErr result (result ≡ Err TermFault.NoMemory) }
{
    match new {
        Some(new) => Ok(new),
        None => share(old),
    }
}

/// The `fix` with its new functions, or nothing where there are none.
#[inline(never)]
pub(crate) fn make_fix(
    alloc: Global,
    which: u32,
    old: &FixBodies,
    new: Option<Rc<FixBodies>>,
) -> Result<Option<Rc<Term>>, TermFault>
    ensures ok { IfOk result (λ r. after (fix which (shapes old.now) (bodies old.now)) r ≡ fix which (shapes (bodies_after old.now new)) (bodies (bodies_after old.now new))) }
    ensures err { OnErr result (result ≡ Err TermFault.NoMemory) }
{
    match new {
        None => Ok(None),
        Some(bodies) => Ok(Some(shared(alloc, Term::Fix { which, bodies })?)),
    }
}
