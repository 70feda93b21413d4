//! Lists of parts that a change makes anew from its first change on. What stands before that is copied only then.
ghost use Rattle.std.specs.Prelude.{◌≡◌, ◌+◌, ◌<◌, ◌≤◌, ◌++◌, ◌∷◌, [], length, take, IfOk, OnOk, OnErr, Err, Some};
ghost use Rattle.cic_terms.specs.calls.Answer.{after, so_far, terms_after, body_after, SameParts, AreSame, HasParts, AddsBody, AreWhole};
ghost use Rattle.cic_terms.specs.Denotes.{tree, terms, term_list, branch_list};
ghost use Rattle.cic_terms.specs.Tree.{child, no_child, many, join};

use crate::sharing::taken;
use crate::term::{Branch, FixBodies, FixBody, Term, TermFault, Terms, keep, shared};
use std::alloc::Global;
use std::rc::Rc;

/// Copies of the first terms.
fn first_terms(alloc: Global, old: &[Term], count: usize) -> Result<Vec<Term>, TermFault>
    requires { count ≤ length old.now }
    ensures ok { IfOk result (λ r. (length r.items ≡ count) × (term_list 0 r.items ≡ term_list 0 (take count old.now))) }
    ensures err { OnErr result (result ≡ Err TermFault.NoMemory) }
{
    let mut items = Vec::new(alloc);
    for i in 0..count {
        let copied = taken(&old[i], None)?;
        keep(&mut items, copied)?;
    }
    Ok(items)
}

/// The terms made so far, or copies of the old ones where nothing has changed.
fn begun_terms(
    alloc: Global,
    old: &[Term],
    count: usize,
    made: Option<Vec<Term>>,
) -> Result<Vec<Term>, TermFault>
    requires within { count ≤ length old.now }
    requires made { length (so_far old.now count made) ≡ count }
    ensures ok { IfOk result (λ r. (length r.items ≡ count) × (term_list 0 r.items ≡ term_list 0 (so_far old.now count made))) }
    ensures err { OnErr result (result ≡ Err TermFault.NoMemory) }
{
    match made {
        Some(items) => Ok(items),
        None => first_terms(alloc, old, count),
    }
}

/// The terms made so far and one more: there are none as long as nothing changes.
#[tactic(auto, using(crate::proofs::Gathered::still_terms))]
#[inline(always)]
pub(crate) fn more_terms(
    alloc: Global,
    old: &[Term],
    above: usize,
    term: &Term,
    made: Option<Vec<Term>>,
    new: Option<Rc<Term>>,
) -> Result<Option<Vec<Term>>, TermFault>
    requires within { above < length old.now }
    requires next { take (above + 1) old.now ≡ take above old.now ++ term.now ∷ [] }
    requires made { length (so_far old.now above made) ≡ above }
    ensures length { IfOk result (λ r. length (so_far old.now (above + 1) r) ≡ above + 1) }
    ensures ok { IfOk result (λ r. term_list 0 (so_far old.now (above + 1) r) ≡ join (term_list 0 (so_far old.now above made)) (child (many above) (after (tree term.now) new) no_child)) }
    ensures err { OnErr result (result ≡ Err TermFault.NoMemory) }
{
    match (made, new) {
        (None, None) => Ok(None),
        (made, new) => Ok(Some(grown_terms(alloc, old, above, term, made, new)?)),
    }
}

/// The terms with one more, where something has changed.
#[inline(never)]
fn grown_terms(
    alloc: Global,
    old: &[Term],
    above: usize,
    term: &Term,
    made: Option<Vec<Term>>,
    new: Option<Rc<Term>>,
) -> Result<Vec<Term>, TermFault>
    requires within { above < length old.now }
    requires made { length (so_far old.now above made) ≡ above }
    ensures ok { IfOk result (λ r. (length r.items ≡ above + 1) × (term_list 0 r.items ≡ join (term_list 0 (so_far old.now above made)) (child (many above) (after (tree term.now) new) no_child))) }
    ensures err { OnErr result (result ≡ Err TermFault.NoMemory) }
{
    let mut items = begun_terms(alloc, old, above, made)?;
    let term = taken(term, new)?;
    keep(&mut items, term)?;
    Ok(items)
}

/// Copies of the first branches.
fn first_branches(alloc: Global, old: &[Branch], count: usize) -> Result<Vec<Branch>, TermFault>
    requires { count ≤ length old.now }
    ensures ok { IfOk result (λ r. branch_list r.items ≡ branch_list (take count old.now)) }
    ensures err { OnErr result (result ≡ Err TermFault.NoMemory) }
{
    let mut items = Vec::new(alloc);
    for i in 0..count {
        let branch = &old[i];
        let body = taken(&branch.body, None)?;
        let binders = branch.binders;
        keep(&mut items, Branch { binders, body })?;
    }
    Ok(items)
}

/// The branches made so far, or copies of the old ones where nothing has changed.
fn begun_branches(
    alloc: Global,
    old: &[Branch],
    count: usize,
    made: Option<Vec<Branch>>,
) -> Result<Vec<Branch>, TermFault>
    requires { count ≤ length old.now }
    ensures ok { IfOk result (λ r. branch_list r.items ≡ branch_list (so_far old.now count made)) }
    ensures err { OnErr result (result ≡ Err TermFault.NoMemory) }
{
    match made {
        Some(items) => Ok(items),
        None => first_branches(alloc, old, count),
    }
}

/// The branches made so far and one more: there are none as long as nothing changes.
#[tactic(auto, using(crate::proofs::Gathered::still_branches))]
#[inline(always)]
pub(crate) fn more_branches(
    alloc: Global,
    old: &[Branch],
    count: usize,
    branch: &Branch,
    made: Option<Vec<Branch>>,
    new: Option<Rc<Term>>,
) -> Result<Option<Vec<Branch>>, TermFault>
    requires within { count < length old.now }
    requires next { take (count + 1) old.now ≡ take count old.now ++ branch.now ∷ [] }
    ensures ok { IfOk result (λ r. branch_list (so_far old.now (count + 1) r) ≡ join (branch_list (so_far old.now count made)) (child (many branch.now.binders) (after (tree branch.now.body) new) no_child)) }
    ensures err { OnErr result (result ≡ Err TermFault.NoMemory) }
{
    match (made, new) {
        (None, None) => Ok(None),
        (made, new) => Ok(Some(grown_branches(alloc, old, count, branch, made, new)?)),
    }
}

/// The branches with one more, where something has changed.
#[inline(never)]
fn grown_branches(
    alloc: Global,
    old: &[Branch],
    count: usize,
    branch: &Branch,
    made: Option<Vec<Branch>>,
    new: Option<Rc<Term>>,
) -> Result<Vec<Branch>, TermFault>
    requires within { count < length old.now }
    ensures ok { IfOk result (λ r. branch_list r.items ≡ join (branch_list (so_far old.now count made)) (child (many branch.now.binders) (after (tree branch.now.body) new) no_child)) }
    ensures err { OnErr result (result ≡ Err TermFault.NoMemory) }
{
    let mut items = begun_branches(alloc, old, count, made)?;
    let body = taken(&branch.body, new)?;
    let binders = branch.binders;
    keep(&mut items, Branch { binders, body })?;
    Ok(items)
}

/// A copy of a function, which shares its parts.
fn copy_body(alloc: Global, one: &FixBody) -> Result<FixBody, TermFault>
    ensures ok { IfOk result (λ r. SameParts r one.now) }
    ensures err { OnErr result (result ≡ Err TermFault.NoMemory) }
{
    let domains = copy_terms(alloc, &one.domains)?;
    let codomain = taken(&one.codomain, None)?;
    let body = taken(&one.body, None)?;
    Ok(FixBody {
        k: one.k,
        domains,
        codomain,
        body,
    })
}

/// A copy of a list of terms.
fn copy_terms(alloc: Global, all: &Terms) -> Result<Terms, TermFault>
    ensures ok { IfOk result (λ r. terms r ≡ terms all.now) }
    ensures err { OnErr result (result ≡ Err TermFault.NoMemory) }
{
    let old = all.items.as_slice();
    let items = first_terms(alloc, old, old.len())?;
    Ok(Terms { items })
}

/// The new terms, or a copy of the old ones where there are none.
fn chosen_terms(alloc: Global, old: &Terms, new: Option<Terms>) -> Result<Terms, TermFault>
    ensures ok { IfOk result (λ r. terms r ≡ terms_after old.now new) }
    ensures err { OnErr result (result ≡ Err TermFault.NoMemory) }
{
    match new {
        Some(new) => Ok(new),
        None => copy_terms(alloc, old),
    }
}

/// The function with its new parts, or nothing where there are none.
fn make_body(
    alloc: Global,
    one: &FixBody,
    new_domains: Option<Terms>,
    new_codomain: Option<Rc<Term>>,
    new_body: Option<Rc<Term>>,
) -> Result<Option<FixBody>, TermFault>
    ensures ok { IfOk result (λ r. HasParts one.now new_domains new_codomain new_body (body_after one.now r)) }
    ensures err { OnErr result (result ≡ Err TermFault.NoMemory) }
{
    if new_domains.is_none() && new_codomain.is_none() && new_body.is_none() {
        return Ok(None);
    }
    let domains = chosen_terms(alloc, &one.domains, new_domains)?;
    let codomain = taken(&one.codomain, new_codomain)?;
    let body = taken(&one.body, new_body)?;
    Ok(Some(FixBody {
        k: one.k,
        domains,
        codomain,
        body,
    }))
}

/// Copies of the first functions.
fn first_bodies(alloc: Global, old: &[FixBody], count: usize) -> Result<Vec<FixBody>, TermFault>
    requires { count ≤ length old.now }
    ensures ok { IfOk result (λ r. AreSame r.items (take count old.now)) }
    ensures err { OnErr result (result ≡ Err TermFault.NoMemory) }
{
    let mut items = Vec::new(alloc);
    for i in 0..count {
        let copied = copy_body(alloc, &old[i])?;
        keep(&mut items, copied)?;
    }
    Ok(items)
}

/// The functions made so far, or copies of the old ones where nothing has changed.
fn begun_bodies(
    alloc: Global,
    old: &[FixBody],
    count: usize,
    made: Option<Vec<FixBody>>,
) -> Result<Vec<FixBody>, TermFault>
    requires { count ≤ length old.now }
    ensures ok { IfOk result (λ r. AreSame r.items (so_far old.now count made)) }
    ensures err { OnErr result (result ≡ Err TermFault.NoMemory) }
{
    match made {
        Some(items) => Ok(items),
        None => first_bodies(alloc, old, count),
    }
}

/// The new function, or a copy of the old one where there is none.
fn chosen_body(alloc: Global, old: &FixBody, new: Option<FixBody>) -> Result<FixBody, TermFault>
    ensures ok { IfOk result (λ r. SameParts r (body_after old.now new)) }
    ensures err { OnErr result (result ≡ Err TermFault.NoMemory) }
{
    match new {
        Some(new) => Ok(new),
        None => copy_body(alloc, old),
    }
}

/// The functions made so far and one more: there are none as long as nothing changes.
#[tactic(auto, using(crate::proofs::Gathered::still_bodies))]
fn more_bodies(
    alloc: Global,
    old: &[FixBody],
    count: usize,
    one: &FixBody,
    made: Option<Vec<FixBody>>,
    new: Option<FixBody>,
) -> Result<Option<Vec<FixBody>>, TermFault>
    requires within { count < length old.now }
    requires next { take (count + 1) old.now ≡ take count old.now ++ one.now ∷ [] }
    ensures ok { IfOk result (λ r. AreSame (so_far old.now (count + 1) r) (so_far old.now count made ++ body_after one.now new ∷ [])) }
    ensures err { OnErr result (result ≡ Err TermFault.NoMemory) }
{
    match (made, new) {
        (None, None) => Ok(None),
        (made, new) => Ok(Some(grown_bodies(alloc, old, count, one, made, new)?)),
    }
}

/// The functions with one more, where something has changed.
fn grown_bodies(
    alloc: Global,
    old: &[FixBody],
    count: usize,
    one: &FixBody,
    made: Option<Vec<FixBody>>,
    new: Option<FixBody>,
) -> Result<Vec<FixBody>, TermFault>
    requires within { count < length old.now }
    ensures ok { IfOk result (λ r. AreSame r.items (so_far old.now count made ++ body_after one.now new ∷ [])) }
    ensures err { OnErr result (result ≡ Err TermFault.NoMemory) }
{
    let mut items = begun_bodies(alloc, old, count, made)?;
    let body = chosen_body(alloc, one, new)?;
    keep(&mut items, body)?;
    Ok(items)
}

/// Puts the function with its new parts behind those made so far.
#[inline(never)]
pub(crate) fn add_body(
    alloc: Global,
    old: &[FixBody],
    i: usize,
    one: &FixBody,
    made: &mut Option<Vec<FixBody>>,
    new_domains: Option<Terms>,
    new_codomain: Option<Rc<Term>>,
    new_body: Option<Rc<Term>>,
) -> Result<(), TermFault>
    requires within { i < length old.now }
    requires next { take (i + 1) old.now ≡ take i old.now ++ one.now ∷ [] }
    ensures ok { OnOk result (AddsBody i old.now one.now made.old made.new new_domains new_codomain new_body) }
    ensures err { OnErr result (result ≡ Err TermFault.NoMemory) }
{
    let new = make_body(alloc, one, new_domains, new_codomain, new_body)?;
    *made = more_bodies(alloc, old, i, one, made.take(), new)?;
    Ok(())
}

/// The functions that were made, or nothing where there are none.
#[inline(always)]
pub(crate) fn whole_bodies(
    alloc: Global,
    made: Option<Vec<FixBody>>,
) -> Result<Option<Rc<FixBodies>>, TermFault>
    ensures ok { IfOk result (λ r. AreWhole made r) }
    ensures err { OnErr result (result ≡ Err TermFault.NoMemory) }
{
    match made {
        None => Ok(None),
        Some(items) => Ok(Some(shared_bodies(alloc, items)?)),
    }
}

#[inline(never)]
fn shared_bodies(alloc: Global, items: Vec<FixBody>) -> Result<Rc<FixBodies>, TermFault>
    ensures ok { IfOk result (λ r. AreWhole (Some items) (Some r)) }
    ensures err { OnErr result (result ≡ Err TermFault.NoMemory) }
{
    shared(alloc, FixBodies::from_vec(items))
}

/// Lets go of what was made, outside the frames of a recursion.
#[inline(never)]
pub(crate) fn discard<T: Drop>(_made: T) {}
