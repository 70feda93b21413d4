//! Lists of parts that a walk makes anew.
ghost use Rattle.std.specs.Prelude.{◌≡◌, ◌+◌, ◌++◌, ◌∷◌, [], Bool, false, ◌||◌, is_some, length, IfOk, OnOk, OnErr, Err};
ghost use Rattle.cic_terms.specs.calls.Answer.{after, terms_after};
ghost use Rattle.cic_terms.specs.Denotes.{tree, terms, term_list, branches, branch_list, bodies, body_list, shapes, shape_list};
ghost use Rattle.cic_terms.specs.Tree.{child, no_child, many, join};
ghost use Rattle.section_walks.specs.calls.Functions.{AddsFunction, AreBranches, AreTerms, AreFunctions};

use crate::sharing::{keep, shared, taken};
use cic_terms::{Branch, Branches, FixBodies, FixBody, Term, TermFault, Terms};
use std::alloc::Global;
use std::rc::Rc;

pub(crate) fn either(one: bool, other: bool) -> bool
    ensures { result ≡ (one || other) }
{
    one || other
}

/// Puts a branch with its new body, or its old one, behind the others. Gives whether that or an earlier one is new.
#[inline(never)]
pub(crate) fn add_branch(
    made: &mut Vec<Branch>,
    branch: &Branch,
    new: Option<Rc<Term>>,
    changed: bool,
) -> Result<bool, TermFault>
    ensures added { OnOk result (branch_list made.new.items ≡ join (branch_list made.old.items) (child (many branch.now.binders) (after (tree branch.now.body) new) no_child)) }
    ensures changed { IfOk result (λ r. r ≡ (changed || is_some new)) }
    ensures err { OnErr result (result ≡ Err TermFault.NoMemory) }
{
    let changed = either(changed, new.is_some());
    let body = taken(&branch.body, new)?;
    let binders = branch.binders;
    keep(made, Branch { binders, body })?;
    Ok(changed)
}

/// The branches that were made, or nothing where none of them is new.
#[inline(always)]
pub(crate) fn whole_branches(
    alloc: Global,
    made: Vec<Branch>,
    changed: bool,
) -> Result<Option<Rc<Branches>>, TermFault>
    ensures ok { IfOk result (λ r. AreBranches changed made.items r) }
    ensures err { OnErr result (result ≡ Err TermFault.NoMemory) }
{
    if changed {
        Ok(Some(share_branches(alloc, made)?))
    } else {
        Ok(None)
    }
}

#[inline(never)]
fn share_branches(alloc: Global, made: Vec<Branch>) -> Result<Rc<Branches>, TermFault>
    ensures ok { IfOk result (λ r. branches r.value ≡ branch_list made.items) }
    ensures err { OnErr result (result ≡ Err TermFault.NoMemory) }
{
    shared(alloc, Branches::from_vec(made))
}

/// Puts the new term, or the old one, behind the others. Gives whether that or an earlier one is new.
#[inline(never)]
pub(crate) fn add_term(
    made: &mut Vec<Term>,
    term: &Term,
    new: Option<Rc<Term>>,
    changed: bool,
) -> Result<bool, TermFault>
    ensures length { OnOk result (length made.new.items ≡ length made.old.items + 1) }
    ensures added { OnOk result (term_list 0 made.new.items ≡ join (term_list 0 made.old.items) (child (many (length made.old.items)) (after (tree term.now) new) no_child)) }
    ensures changed { IfOk result (λ r. r ≡ (changed || is_some new)) }
    ensures err { OnErr result (result ≡ Err TermFault.NoMemory) }
{
    let changed = either(changed, new.is_some());
    let term = taken(term, new)?;
    keep(made, term)?;
    Ok(changed)
}

/// The terms that were made, or nothing where none of them is new.
#[inline(always)]
pub(crate) fn whole_terms(made: Vec<Term>, changed: bool) -> Result<Option<Terms>, TermFault>
    ensures ok { IfOk result (λ r. AreTerms changed made.items r) }
    ensures err { OnErr result (result ≡ Err TermFault.NoMemory) }
{
    if changed {
        Ok(Some(Terms::from_vec(made)))
    } else {
        Ok(None)
    }
}

/// A copy of a list of terms.
fn copy_terms(alloc: Global, all: &Terms) -> Result<Terms, TermFault>
    ensures ok { IfOk result (λ r. terms r ≡ terms all.now) }
    ensures err { OnErr result (result ≡ Err TermFault.NoMemory) }
{
    let mut items = Vec::new(alloc);
    for term in all.as_slice() {
        let copied = taken(term, None)?;
        keep(&mut items, copied)?;
    }
    Ok(Terms::from_vec(items))
}

/// The new terms, or a copy of the old ones where there are none.
fn chosen_terms(alloc: Global, old: &Terms, new: Option<Terms>) -> Result<Terms, TermFault>
    ensures ok { IfOk result (λ r. terms r ≡ terms_after old.now new) }
    ensures err { OnErr result (result ≡ Err TermFault.NoMemory) }
{
    match new {
        Some(new) => Ok(new),
        None => copy_terms(alloc, old),
    }
}

/// Puts a function with its new parts, or its old ones, behind the others. Gives whether a part is new.
#[inline(never)]
pub(crate) fn add_body(
    alloc: Global,
    one: &FixBody,
    made: &mut Vec<FixBody>,
    new_domains: Option<Terms>,
    new_codomain: Option<Rc<Term>>,
    new_body: Option<Rc<Term>>,
) -> Result<bool, TermFault>
    ensures ok { IfOk result (λ changed. AddsFunction one.now made.old.items made.new.items new_domains new_codomain new_body changed) }
    ensures err { OnErr result (result ≡ Err TermFault.NoMemory) }
{
    let changed = either(
        either(new_domains.is_some(), new_codomain.is_some()),
        new_body.is_some(),
    );
    let domains = chosen_terms(alloc, &one.domains, new_domains)?;
    let codomain = taken(&one.codomain, new_codomain)?;
    let body = taken(&one.body, new_body)?;
    let k = one.k;
    keep(
        made,
        FixBody {
            k,
            domains,
            codomain,
            body,
        },
    )?;
    Ok(changed)
}

/// The functions that were made, or nothing where none of them is new.
#[inline(always)]
pub(crate) fn whole_bodies(
    alloc: Global,
    made: Vec<FixBody>,
    changed: bool,
) -> Result<Option<Rc<FixBodies>>, TermFault>
    ensures ok { IfOk result (λ r. AreFunctions changed made.items r) }
    ensures err { OnErr result (result ≡ Err TermFault.NoMemory) }
{
    if changed {
        Ok(Some(share_bodies(alloc, made)?))
    } else {
        Ok(None)
    }
}

#[inline(never)]
fn share_bodies(alloc: Global, made: Vec<FixBody>) -> Result<Rc<FixBodies>, TermFault>
    ensures shapes { IfOk result (λ r. shapes r.value ≡ shape_list made.items) }
    ensures parts { IfOk result (λ r. bodies r.value ≡ body_list (length made.items) made.items) }
    ensures err { OnErr result (result ≡ Err TermFault.NoMemory) }
{
    shared(alloc, FixBodies::from_vec(made))
}
