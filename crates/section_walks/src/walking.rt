//! One walk over a term, in which other terms stand for its names.
ghost use Rattle.std.specs.Prelude.{ℕ, Bool, false, ◌≡◌, ◌+◌, ◌*◌, ◌^◌, ◌≤◌, ◌<◌, ◌∷◌, [], ◌++◌, length, if◌then◌else◌, ltb, IfOk, OnErr, Err};
ghost use Rattle.cic_terms.specs.Denotes.{tree, branches, bodies, terms, shapes, body_parts};
ghost use Rattle.cic_terms.specs.calls.Kinds.{IsPair, IsLet, IsCase, IsFix, second_binders};
ghost use Rattle.cic_terms.specs.calls.Answer.{MakesChildren, MakesBodies, MakesShared, Changes, branches_after, terms_after};
ghost use Rattle.cic_terms.specs.Tree.{Tree, Former, rel, over};
ghost use Rattle.section_terms.specs.Names.{replace_names, replace_in_parts};
ghost use Rattle.section_walks.specs.calls.Functions.{IsName, MakesFunction};

use crate::gathering::{
    add_body, add_branch, add_term, either, whole_bodies, whole_branches, whole_terms,
};
use crate::sharing::{make_case, make_fix, make_let, make_pair, make_rel, part};
use cic_terms::{Branches, FixBodies, FixBody, MOST_REL, Term, TermFault, Terms};
use std::alloc::Global;
use std::rc::Rc;

/// What stands for the names of a term, which is put under new binders outside it.
///
/// `becomes` gives the tree that stands for a name outside the term, and `by` the number of new binders.
pub trait Becoming {
    ghost becomes: { Self → Former → Tree };

    ghost by: { Self → ℕ };

    ghost valid: { Self → Type 0 };

    /// How many new binders there are.
    fn raised_by(&self) -> u32
        ensures { result ≡ by self.now };

    /// Gives what stands for a name under `at` binders of the term, in a part of `room` levels, or nothing where that is the name itself. `Deep` where it passes the limits there.
    fn stand_for(
        &self,
        alloc: Global,
        name: &Term,
        at: u128,
        room: u32,
    ) -> Result<Option<Rc<Term>>, TermFault>
        requires name { IsName (tree name.now) }
        requires room { 1 ≤ room }
        requires most { room ≤ 4000 }
        requires valid { valid self.now }
        ensures { Changes room (tree name.now) (replace_names (becomes self.now) (by self.now) at (tree name.now)) result };
}

/// Puts other terms in place of the names of a term, all at once: the result alone is judged, by `room` levels and the greatest Rel. A part that stays as it is, is shared.
pub fn replace_names<A: Becoming>(
    alloc: Global,
    t: &Rc<Term>,
    action: &A,
    room: u32,
) -> Result<Rc<Term>, TermFault>
    requires most { room ≤ 4000 }
    requires valid { A.valid action.now }
    ensures { MakesShared room (replace_names (A.becomes action.now) (A.by action.now) 0 (tree t.now.value)) result }
{
    let walked = walk_at(alloc, t, 0, action, room)?;
    part(t, walked)
}

/// A Rel that is bound in the term stays as it is, and another skips the new binders.
fn walk_rel(
    alloc: Global,
    n: u32,
    at: u128,
    by: u32,
    room: u32,
) -> Result<Option<Rc<Term>>, TermFault>
    requires { 1 ≤ room }
    ensures { Changes room (rel n) (rel (if ltb n at then n else n + by)) result }
{
    if n > MOST_REL {
        return Err(TermFault::Deep);
    }
    if u128::from(n) < at || by == 0 {
        return Ok(None);
    }
    if by > MOST_REL - n {
        return Err(TermFault::Deep);
    }
    Ok(Some(make_rel(alloc, n + by)?))
}

/// Walks over the term, which stands under `at` binders of the whole. Gives nothing where nothing changes.
#[cycle(walk)]
#[inline(never)]
fn walk_at<A: Becoming>(
    alloc: Global,
    t: &Term,
    at: u128,
    action: &A,
    room: u32,
) -> Result<Option<Rc<Term>>, TermFault>
    requires place { at + room * 2 ^ 66 < 2 ^ 127 }
    requires most { room ≤ 4000 }
    requires valid { A.valid action.now }
    ensures { Changes room (tree t.now) (replace_names (A.becomes action.now) (A.by action.now) at (tree t.now)) result }
{
    if room == 0 {
        return Err(TermFault::Deep);
    }
    match t {
        Term::Rel(n) => walk_rel(alloc, *n, at, action.raised_by(), room),
        Term::Sort(_) => Ok(None),
        Term::Const(_) | Term::Ind(_) | Term::Ctor(_) => action.stand_for(alloc, t, at, room),
        Term::Prod(..) | Term::Lam(..) => walk_pair(alloc, t, at, at + 1, action, room),
        Term::App(..) => walk_pair(alloc, t, at, at, action, room),
        Term::Let { .. } => walk_let(alloc, t, at, action, room),
        Term::Case { .. } => walk_case(alloc, t, at, action, room),
        Term::Fix { .. } => walk_fix(alloc, t, at, action, room),
    }
}

/// `walk_at`, which a `fix` does not go through. So a `fix` in another takes less of the stack.
#[cycle(walk)]
#[inline(always)]
fn walk_under<A: Becoming>(
    alloc: Global,
    t: &Term,
    at: u128,
    action: &A,
    room: u32,
) -> Result<Option<Rc<Term>>, TermFault>
    requires place { at + room * 2 ^ 66 < 2 ^ 127 }
    requires most { room ≤ 4000 }
    requires valid { A.valid action.now }
    ensures { Changes room (tree t.now) (replace_names (A.becomes action.now) (A.by action.now) at (tree t.now)) result }
{
    match t {
        Term::Fix { .. } => walk_fix(alloc, t, at, action, room),
        _ => walk_at(alloc, t, at, action, room),
    }
}

/// `walk_at` in a product, an abstraction or an application. `inner` is the place of the second part.
#[cycle(walk)]
#[inline(always)]
fn walk_pair<A: Becoming>(
    alloc: Global,
    t: &Term,
    at: u128,
    inner: u128,
    action: &A,
    room: u32,
) -> Result<Option<Rc<Term>>, TermFault>
    requires is_pair { IsPair t.now }
    requires room { 1 ≤ room }
    requires inner { inner ≡ over (second_binders t.now) at }
    requires place { at + room * 2 ^ 66 < 2 ^ 127 }
    requires most { room ≤ 4000 }
    requires valid { A.valid action.now }
    ensures { Changes room (tree t.now) (replace_names (A.becomes action.now) (A.by action.now) at (tree t.now)) result }
{
    let (Term::Prod(first, second) | Term::Lam(first, second) | Term::App(first, second)) = t else {
        unreachable!()
    };
    let new_first = walk_under(alloc, first, at, action, room - 1)?;
    let new_second = walk_under(alloc, second, inner, action, room - 1)?;
    make_pair(alloc, t, new_first, new_second)
}

/// `walk_at` in a `let`.
#[cycle(walk)]
#[inline(never)]
fn walk_let<A: Becoming>(
    alloc: Global,
    t: &Term,
    at: u128,
    action: &A,
    room: u32,
) -> Result<Option<Rc<Term>>, TermFault>
    requires is_let { IsLet t.now }
    requires room { 1 ≤ room }
    requires place { at + room * 2 ^ 66 < 2 ^ 127 }
    requires most { room ≤ 4000 }
    requires valid { A.valid action.now }
    ensures { Changes room (tree t.now) (replace_names (A.becomes action.now) (A.by action.now) at (tree t.now)) result }
{
    let Term::Let { body, ty, rest } = t else {
        unreachable!()
    };
    let new_body = walk_under(alloc, body, at, action, room - 1)?;
    let new_ty = walk_under(alloc, ty, at, action, room - 1)?;
    let new_rest = walk_under(alloc, rest, at + 1, action, room - 1)?;
    make_let(alloc, t, new_body, new_ty, new_rest)
}

/// `walk_at` in a `match`.
#[cycle(walk)]
#[inline(never)]
fn walk_case<A: Becoming>(
    alloc: Global,
    t: &Term,
    at: u128,
    action: &A,
    room: u32,
) -> Result<Option<Rc<Term>>, TermFault>
    requires is_case { IsCase t.now }
    requires room { 1 ≤ room }
    requires place { at + room * 2 ^ 66 < 2 ^ 127 }
    requires most { room ≤ 4000 }
    requires valid { A.valid action.now }
    ensures { Changes room (tree t.now) (replace_names (A.becomes action.now) (A.by action.now) at (tree t.now)) result }
{
    let Term::Case {
        arity,
        motive,
        scrutinee,
        branches,
        ..
    } = t
    else {
        unreachable!()
    };
    let new_motive = walk_under(alloc, motive, at + (*arity as u128 + 1), action, room - 1)?;
    let new_scrutinee = walk_under(alloc, scrutinee, at, action, room - 1)?;
    let new_branches = walk_all_branches(alloc, branches, at, action, room - 1)?;
    make_case(alloc, t, new_motive, new_scrutinee, new_branches)
}

/// `walk_at` in a `fix`. A part of a `fix` that is one again calls this at once, which takes less of the stack.
#[cycle(walk)]
#[inline(never)]
fn walk_fix<A: Becoming>(
    alloc: Global,
    t: &Term,
    at: u128,
    action: &A,
    room: u32,
) -> Result<Option<Rc<Term>>, TermFault>
    requires is_fix { IsFix t.now }
    requires place { at + room * 2 ^ 66 < 2 ^ 127 }
    requires most { room ≤ 4000 }
    requires valid { A.valid action.now }
    ensures { Changes room (tree t.now) (replace_names (A.becomes action.now) (A.by action.now) at (tree t.now)) result }
{
    let Term::Fix { which, bodies } = t else {
        unreachable!()
    };
    if room == 0 {
        return Err(TermFault::Deep);
    }
    let new_bodies = walk_all_bodies(alloc, bodies, at, action, room - 1)?;
    make_fix(alloc, *which, bodies, new_bodies)
}

#[cycle(walk)]
#[inline(never)]
fn walk_all_branches<A: Becoming>(
    alloc: Global,
    all: &Branches,
    at: u128,
    action: &A,
    room: u32,
) -> Result<Option<Rc<Branches>>, TermFault>
    requires place { at + (room + 1) * 2 ^ 66 < 2 ^ 127 }
    requires most { room ≤ 4000 }
    requires valid { A.valid action.now }
    ensures { MakesChildren (branches_after all.now) room (replace_in_parts (A.becomes action.now) (A.by action.now) at (branches all.now)) result }
{
    let old = all.as_slice();
    let mut made = Vec::new(alloc);
    let mut changed = false;
    for branch in old {
        let new = walk_under(
            alloc,
            &branch.body,
            at + branch.binders as u128,
            action,
            room,
        )?;
        changed = add_branch(&mut made, branch, new, changed)?;
    }
    whole_branches(alloc, made, changed)
}

#[cycle(walk)]
#[inline(never)]
fn walk_all_terms<A: Becoming>(
    alloc: Global,
    all: &Terms,
    at: u128,
    action: &A,
    room: u32,
) -> Result<Option<Terms>, TermFault>
    requires place { at + (room + 1) * 2 ^ 66 < 2 ^ 127 }
    requires most { room ≤ 4000 }
    requires valid { A.valid action.now }
    ensures { MakesChildren (terms_after all.now) room (replace_in_parts (A.becomes action.now) (A.by action.now) at (terms all.now)) result }
{
    let old = all.as_slice();
    let mut made = Vec::new(alloc);
    let mut changed = false;
    for (above, term) in old.iter().enumerate() {
        let new = walk_under(alloc, term, at + above as u128, action, room)?;
        changed = add_term(&mut made, term, new, changed)?;
    }
    whole_terms(made, changed)
}

/// Puts the function `one` of `all` with its new parts behind those that were made of the earlier ones. Gives whether a part is new.
#[cycle(walk)]
#[inline(never)]
fn walk_body<A: Becoming>(
    alloc: Global,
    one: &FixBody,
    all: usize,
    at: u128,
    action: &A,
    room: u32,
    made: &mut Vec<FixBody>,
) -> Result<bool, TermFault>
    requires place { at + (room + 1) * 2 ^ 66 < 2 ^ 127 }
    requires most { room ≤ 4000 }
    requires valid { A.valid action.now }
    ensures { MakesFunction room all one.now (replace_in_parts (A.becomes action.now) (A.by action.now) at (body_parts all one.now)) made.old.items made.new.items result }
{
    let above = one.domains.as_slice().len() as u128;
    let inside = all as u128 + above;
    let new_codomain = walk_under(alloc, &one.codomain, at + above, action, room)?;
    let new_body = walk_under(alloc, &one.body, at + inside, action, room)?;
    let new_domains = walk_all_terms(alloc, &one.domains, at, action, room)?;
    add_body(alloc, one, made, new_domains, new_codomain, new_body)
}

#[cycle(walk)]
#[inline(always)]
fn walk_all_bodies<A: Becoming>(
    alloc: Global,
    all: &FixBodies,
    at: u128,
    action: &A,
    room: u32,
) -> Result<Option<Rc<FixBodies>>, TermFault>
    requires place { at + (room + 1) * 2 ^ 66 < 2 ^ 127 }
    requires most { room ≤ 4000 }
    requires valid { A.valid action.now }
    ensures { MakesBodies room all.now (replace_in_parts (A.becomes action.now) (A.by action.now) at (bodies all.now)) result }
{
    let old = all.as_slice();
    let mut made = Vec::new(alloc);
    let mut changed = false;
    for one in old {
        let new = walk_body(alloc, one, old.len(), at, action, room, &mut made)?;
        changed = either(changed, new);
    }
    whole_bodies(alloc, made, changed)
}
