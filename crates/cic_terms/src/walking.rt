//! One walk over a term, which does an action at each free Rel. Lifting and substitution are such walks.
ghost use Rattle.std.specs.Prelude.{ℕ, IsTrue, ◌≡◌, ◌+◌, ◌*◌, ◌^◌, ◌≤◌, ◌<◌, ◌∷◌, [], ◌++◌, length, take};
ghost use Rattle.cic_terms.specs.Denotes.{tree, branches, bodies, terms, shapes, shape, body_parts, tree_sort};
ghost use Rattle.cic_terms.specs.calls.Kinds.{IsPair, IsLet, IsCase, IsFix, second_binders};
ghost use Rattle.cic_terms.specs.calls.Answer.{MakesChildren, MakesBody, MakesBodies, MakesShared, Changes, branches_after, terms_after};
ghost use Rattle.cic_terms.specs.Tree.{Tree, rel, over};
ghost use Rattle.cic_terms.specs.calls.Walk.{map_tree, map_children, StaysAsItIs};

use crate::gathering::{add_body, discard, more_branches, more_terms, whole_bodies};
use crate::sharing::{make_case, make_fix, make_let, make_pair, part};
use crate::term::{Branches, FixBodies, FixBody, Term, TermFault, Terms, shared};
use std::alloc::Global;
use std::rc::Rc;

/// The greatest number of a Rel.
pub(crate) const MOST: u32 = 1_048_576;

/// The most levels that a term has.
pub(crate) const ROOM: u32 = 4_000;

/// The greatest number of a Rel that a term has.
pub const MOST_REL: u32 = MOST;

/// The most levels that a term has: the room of a walk whose result is a whole term.
pub const MOST_LEVELS: u32 = ROOM;

/// What a walk does with a free Rel: `becomes` gives the tree that stands for it, by its place and its number.
///
/// The place of a Rel is the number of binders of the walk's term that it stands under. The Rel is free where its number is at least that.
pub trait Action {
    ghost becomes: { Self → ℕ → ℕ → Tree };

    /// Gives what stands for Rel `n` at the place `at`, in a part of `room` levels, or nothing where that is the Rel itself. `Deep` where it passes the limits there.
    fn act(&self, alloc: Global, n: u32, at: u128, room: u32) -> Result<Option<Rc<Term>>, TermFault>
        requires free { at ≤ n }
        requires room { 1 ≤ room }
        ensures { Changes room (rel n) (becomes self.now at n) result };
}

/// Does the action at each free Rel of the term, all at once: the result alone is judged, by `room` levels and the greatest Rel. The walk begins at the place `at`, and a Rel below it stays. A part that stays as it is, is shared.
pub fn walk_shared<A: Action>(
    alloc: Global,
    t: &Rc<Term>,
    at: u32,
    action: &A,
    room: u32,
) -> Result<Rc<Term>, TermFault>
    ensures { MakesShared room (map_tree (A.becomes action.now) at (tree t.now.value)) result }
{
    let walked = walk_at(alloc, t, u128::from(at), action, room)?;
    part(t, walked)
}

/// A Rel that is bound in the term stays as it is.
fn walk_rel<A: Action>(
    alloc: Global,
    n: u32,
    at: u128,
    action: &A,
    room: u32,
) -> Result<Option<Rc<Term>>, TermFault>
    requires { 1 ≤ room }
    ensures { Changes room (rel n) (map_tree (A.becomes action.now) at (rel n)) result }
{
    if u128::from(n) >= at {
        return action.act(alloc, n, at, room);
    }
    if n > MOST {
        Err(TermFault::Deep)
    } else {
        Ok(None)
    }
}

/// Whether `t` is seen at once to stay as it is, and fits.
#[inline(always)]
fn stays(t: &Term, at: u128, room: u32) -> bool
    ensures { IsTrue result → (1 ≤ room) × StaysAsItIs at (tree t.now) }
{
    match t {
        Term::Rel(n) => room != 0 && u128::from(*n) < at && *n <= MOST,
        Term::Sort(_) | Term::Const(_) | Term::Ind(_) | Term::Ctor(_) => room != 0,
        _ => false,
    }
}

/// `walk_at`, which does not call it for a term that is seen at once to stay.
#[cycle(walk)]
#[inline(always)]
fn walk_under<A: Action>(
    alloc: Global,
    t: &Term,
    at: u128,
    action: &A,
    room: u32,
) -> Result<Option<Rc<Term>>, TermFault>
    requires { at + room * 2 ^ 66 < 2 ^ 127 }
    ensures { Changes room (tree t.now) (map_tree (A.becomes action.now) at (tree t.now)) result }
{
    if stays(t, at, room) {
        return Ok(None);
    }
    match t {
        Term::Fix { .. } => walk_fix(alloc, t, at, action, room),
        _ => walk_at(alloc, t, at, action, room),
    }
}

/// Does the action at each free Rel of the term, from the place `at` on, which each binder moves by one. Gives nothing where nothing changes.
#[cycle(walk)]
#[inline(never)]
pub(crate) fn walk_at<A: Action>(
    alloc: Global,
    t: &Term,
    at: u128,
    action: &A,
    room: u32,
) -> Result<Option<Rc<Term>>, TermFault>
    requires { at + room * 2 ^ 66 < 2 ^ 127 }
    ensures { Changes room (tree t.now) (map_tree (A.becomes action.now) at (tree t.now)) result }
{
    if room == 0 {
        return Err(TermFault::Deep);
    }
    match t {
        Term::Rel(n) => walk_rel(alloc, *n, at, action, room),
        Term::Sort(_) | Term::Const(_) | Term::Ind(_) | Term::Ctor(_) => Ok(None),
        Term::Prod(..) | Term::Lam(..) => walk_pair(alloc, t, at, at + 1, action, room),
        Term::App(..) => walk_pair(alloc, t, at, at, action, room),
        Term::Let { .. } => walk_let(alloc, t, at, action, room),
        Term::Case { .. } => walk_case(alloc, t, at, action, room),
        Term::Fix { .. } => walk_fix(alloc, t, at, action, room),
    }
}

/// `walk_at` in a product, an abstraction or an application. `inner` is the place of the second part.
#[cycle(walk)]
#[inline(always)]
fn walk_pair<A: Action>(
    alloc: Global,
    t: &Term,
    at: u128,
    inner: u128,
    action: &A,
    room: u32,
) -> Result<Option<Rc<Term>>, TermFault>
    requires is_pair { IsPair t.now }
    requires room { 1 ≤ room }
    requires inner { inner ≡ over (second_binders t.now) at }
    requires place { at + room * 2 ^ 66 < 2 ^ 127 }
    ensures { Changes room (tree t.now) (map_tree (A.becomes action.now) at (tree t.now)) result }
{
    let (Term::Prod(first, second) | Term::Lam(first, second) | Term::App(first, second)) = t else {
        unreachable!()
    };
    let new_first = walk_under(alloc, first, at, action, room - 1)?;
    let new_second = walk_under(alloc, second, inner, action, room - 1)?;
    make_pair(alloc, t, new_first, new_second)
}

/// `walk_at` in a `let`.
#[cycle(walk)]
#[inline(never)]
fn walk_let<A: Action>(
    alloc: Global,
    t: &Term,
    at: u128,
    action: &A,
    room: u32,
) -> Result<Option<Rc<Term>>, TermFault>
    requires is_let { IsLet t.now }
    requires room { 1 ≤ room }
    requires place { at + room * 2 ^ 66 < 2 ^ 127 }
    ensures { Changes room (tree t.now) (map_tree (A.becomes action.now) at (tree t.now)) result }
{
    let Term::Let { body, ty, rest } = t else {
        unreachable!()
    };
    let new_body = walk_under(alloc, body, at, action, room - 1)?;
    let new_ty = walk_under(alloc, ty, at, action, room - 1)?;
    let new_rest = walk_under(alloc, rest, at + 1, action, room - 1)?;
    make_let(alloc, t, new_body, new_ty, new_rest)
}

/// `walk_at` in a `match`.
#[cycle(walk)]
#[inline(never)]
fn walk_case<A: Action>(
    alloc: Global,
    t: &Term,
    at: u128,
    action: &A,
    room: u32,
) -> Result<Option<Rc<Term>>, TermFault>
    requires is_case { IsCase t.now }
    requires room { 1 ≤ room }
    requires place { at + room * 2 ^ 66 < 2 ^ 127 }
    ensures { Changes room (tree t.now) (map_tree (A.becomes action.now) at (tree t.now)) result }
{
    let Term::Case {
        arity,
        motive,
        scrutinee,
        branches,
        ..
    } = t
    else {
        unreachable!()
    };
    let new_motive = walk_under(alloc, motive, at + (*arity as u128 + 1), action, room - 1)?;
    let new_scrutinee = walk_under(alloc, scrutinee, at, action, room - 1)?;
    let new_branches = walk_all_branches(alloc, branches, at, action, room - 1)?;
    make_case(alloc, t, new_motive, new_scrutinee, new_branches)
}

/// `walk_at` in a `fix`. A part of a `fix` that is one again calls this at once, which takes less of the stack.
#[cycle(walk)]
#[inline(never)]
fn walk_fix<A: Action>(
    alloc: Global,
    t: &Term,
    at: u128,
    action: &A,
    room: u32,
) -> Result<Option<Rc<Term>>, TermFault>
    requires is_fix { IsFix t.now }
    requires place { at + room * 2 ^ 66 < 2 ^ 127 }
    ensures { Changes room (tree t.now) (map_tree (A.becomes action.now) at (tree t.now)) result }
{
    let Term::Fix { which, bodies } = t else {
        unreachable!()
    };
    if room == 0 {
        return Err(TermFault::Deep);
    }
    let new_bodies = walk_all_bodies(alloc, bodies, at, action, room - 1)?;
    make_fix(alloc, *which, bodies, new_bodies)
}

#[cycle(walk)]
#[inline(never)]
fn walk_all_branches<A: Action>(
    alloc: Global,
    all: &Branches,
    at: u128,
    action: &A,
    room: u32,
) -> Result<Option<Rc<Branches>>, TermFault>
    requires { at + (room + 1) * 2 ^ 66 < 2 ^ 127 }
    ensures { MakesChildren (branches_after all.now) room (map_children (A.becomes action.now) at (branches all.now)) result }
{
    let old = all.items.as_slice();
    let mut made = None;
    for (i, branch) in old.iter().enumerate() {
        let new = walk_under(
            alloc,
            &branch.body,
            at + branch.binders as u128,
            action,
            room,
        )?;
        made = more_branches(alloc, old, i, branch, made, new)?;
    }
    match made {
        None => Ok(None),
        Some(items) => Ok(Some(shared(alloc, Branches { items })?)),
    }
}

#[cycle(walk)]
#[inline(never)]
fn walk_all_terms<A: Action>(
    alloc: Global,
    all: &Terms,
    at: u128,
    action: &A,
    room: u32,
) -> Result<Option<Terms>, TermFault>
    requires { at + (room + 1) * 2 ^ 66 < 2 ^ 127 }
    ensures { MakesChildren (terms_after all.now) room (map_children (A.becomes action.now) at (terms all.now)) result }
{
    let old = all.items.as_slice();
    let mut made = None;
    for (above, term) in old.iter().enumerate() {
        let new = walk_under(alloc, term, at + above as u128, action, room)?;
        made = more_terms(alloc, old, above, term, made, new)?;
    }
    match made {
        None => Ok(None),
        Some(items) => Ok(Some(Terms { items })),
    }
}

/// Makes the parts of the function `one`, and puts it behind those that were made of the earlier ones.
#[cycle(walk)]
#[inline(never)]
fn walk_body<A: Action>(
    alloc: Global,
    one: &FixBody,
    old: &[FixBody],
    i: usize,
    at: u128,
    action: &A,
    room: u32,
    made: &mut Option<Vec<FixBody>>,
) -> Result<(), TermFault>
    requires within { i < length old.now }
    requires next { take (i + 1) old.now ≡ take i old.now ++ one.now ∷ [] }
    requires place { at + (room + 1) * 2 ^ 66 < 2 ^ 127 }
    ensures { MakesBody room i old.now one.now (map_children (A.becomes action.now) at (body_parts (length old.now) one.now)) made.old made.new result }
{
    let above = one.domains.items.len() as u128;
    let all = old.len() as u128 + above;
    let new_codomain = walk_under(alloc, &one.codomain, at + above, action, room)?;
    let new_body = walk_under(alloc, &one.body, at + all, action, room)?;
    let new_domains = walk_all_terms(alloc, &one.domains, at, action, room)?;
    add_body(
        alloc,
        old,
        i,
        one,
        made,
        new_domains,
        new_codomain,
        new_body,
    )
}

#[cycle(walk)]
#[inline(always)]
fn walk_all_bodies<A: Action>(
    alloc: Global,
    all: &FixBodies,
    at: u128,
    action: &A,
    room: u32,
) -> Result<Option<Rc<FixBodies>>, TermFault>
    requires { at + (room + 1) * 2 ^ 66 < 2 ^ 127 }
    ensures { MakesBodies room all.now (map_children (A.becomes action.now) at (bodies all.now)) result }
{
    let old = all.items.as_slice();
    let mut made = None;
    for (i, one) in old.iter().enumerate() {
        if let Err(fault) = walk_body(alloc, one, old, i, at, action, room, &mut made) {
            discard(made);
            return Err(fault);
        }
    }
    whole_bodies(alloc, made)
}
