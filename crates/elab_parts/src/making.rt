//! Terms made of parts, within the limits of a term.
ghost use Rattle.std.specs.Prelude.{◌≡◌, ◌+◌, ◌≤◌, max, ltb, if◌then◌else◌, Some, None, IfOk};
ghost use Rattle.std.specs.Option.{option_map};
ghost use Rattle.cic_terms.specs.Tree.{rel, let_in};
ghost use Rattle.cic_terms.specs.Denotes.{tree};
ghost use Rattle.cic_terms.specs.Sizes.{depth_tree, max_rel};
ghost use Rattle.cic_terms.specs.Lift.{lift_tree};
ghost use Rattle.elab_parts.specs.calls.Parts.{known, cut, of_two, of_three, pair_tree, lifted};

use crate::parts::Part;
use cic_terms::{Term, TermFault, lift_shared};
use memory::NoMemory;
use std::alloc::Global;
use std::rc::Rc;

/// The most levels of a term.
const MOST_DEPTH: u32 = 4000;

/// The greatest number of a variable.
const MOST_VARIABLE: usize = 1_048_576;

/// A kind of terms of two parts.
#[derive(Clone, Copy, Drop)]
pub enum Pair {
    Product,
    Abstraction,
    Application,
}

/// One level above parts of these depths, if there is room for it.
pub fn above(first: u32, second: u32) -> Option<u32>
    ensures { result ≡ (if ltb (max first second) 4000 then Some (max first second + 1) else None) }
{
    let deepest = first.max(second);
    if deepest < MOST_DEPTH {
        Some(deepest + 1)
    } else {
        None
    }
}

/// A copy that shares the term.
pub fn share(part: &Part) -> Result<Part, NoMemory>
    ensures { IfOk result (λ copy. copy.term.value ≡ part.now.term.value) }
{
    Ok(Part {
        term: part.term.clone()?,
        depth: part.depth,
    })
}

/// A term without parts, and without a variable above the greatest.
pub fn leaf(alloc: Global, term: Term) -> Result<Part, NoMemory>
    requires shallow { depth_tree (tree term) ≡ 1 }
    requires small { max_rel (tree term) ≤ 1048576 }
    ensures { IfOk result (λ part. part.term.value ≡ term) }
{
    Ok(Part {
        term: Rc::new(alloc, term)?,
        depth: 1,
    })
}

/// The variable that is so many binders away.
pub fn variable(alloc: Global, place: usize) -> Result<Option<Part>, NoMemory>
    ensures { IfOk result (λ part. known part ≡ cut (rel place)) }
{
    if place > MOST_VARIABLE {
        return Ok(None);
    }
    Ok(Some(leaf(alloc, Term::Rel(place as u32))?))
}

fn pair_term(kind: Pair, first: Rc<Term>, second: Rc<Term>) -> Term
    ensures { tree result ≡ pair_tree kind (tree first.value) (tree second.value) }
{
    match kind {
        Pair::Product => Term::Prod(first, second),
        Pair::Abstraction => Term::Lam(first, second),
        Pair::Application => Term::App(first, second),
    }
}

#[tactic(auto, using(crate::proofs::Cuts::pair_depth, crate::proofs::Cuts::pair_rels, crate::proofs::Cuts::cut_in, crate::proofs::Cuts::cut_deep))]
fn pair_within(
    alloc: Global,
    kind: Pair,
    first: &Part,
    second: &Part,
) -> Result<Option<Part>, NoMemory>
    ensures { IfOk result (λ part. known part ≡ cut (pair_tree kind (tree first.now.term.value) (tree second.now.term.value))) }
{
    match above(first.depth, second.depth) {
        None => Ok(None),
        Some(depth) => {
            let made = pair_term(kind, first.term.clone()?, second.term.clone()?);
            Ok(Some(Part {
                term: Rc::new(alloc, made)?,
                depth,
            }))
        }
    }
}

/// The term of this kind with these two parts.
pub fn make_pair(
    alloc: Global,
    kind: Pair,
    first: &Option<Part>,
    second: &Option<Part>,
) -> Result<Option<Part>, NoMemory>
    ensures { IfOk result (λ part. known part ≡ of_two (pair_tree kind) (known first.now) (known second.now)) }
{
    match (first, second) {
        (Some(first), Some(second)) => pair_within(alloc, kind, first, second),
        _ => Ok(None),
    }
}

#[tactic(auto, using(crate::proofs::Cuts::let_depth, crate::proofs::Cuts::let_rels, crate::proofs::Cuts::cut_in, crate::proofs::Cuts::cut_deep))]
fn let_within(alloc: Global, body: &Part, ty: &Part, rest: &Part) -> Result<Option<Part>, NoMemory>
    ensures { IfOk result (λ part. known part ≡ cut (let_in (tree body.now.term.value) (tree ty.now.term.value) (tree rest.now.term.value))) }
{
    match above(body.depth.max(ty.depth), rest.depth) {
        None => Ok(None),
        Some(depth) => {
            let made = Term::Let {
                body: body.term.clone()?,
                ty: ty.term.clone()?,
                rest: rest.term.clone()?,
            };
            Ok(Some(Part {
                term: Rc::new(alloc, made)?,
                depth,
            }))
        }
    }
}

/// The `let` with these parts.
pub fn make_let(
    alloc: Global,
    body: &Option<Part>,
    ty: &Option<Part>,
    rest: &Option<Part>,
) -> Result<Option<Part>, NoMemory>
    ensures { IfOk result (λ part. known part ≡ of_three (λ t a u. let_in t a u) (known body.now) (known ty.now) (known rest.now)) }
{
    match (body, ty, rest) {
        (Some(body), Some(ty), Some(rest)) => let_within(alloc, body, ty, rest),
        _ => Ok(None),
    }
}

#[tactic(auto, using(crate::proofs::Cuts::lifted_depth, crate::proofs::Cuts::cut_fits, crate::proofs::Cuts::cut_unfit))]
fn lift_within(alloc: Global, part: &Part, by: u32) -> Result<Option<Part>, NoMemory>
    ensures { IfOk result (λ moved. known moved ≡ cut (lift_tree 0 by (tree part.now.term.value))) }
{
    match lift_shared(alloc, &part.term, 0, by) {
        Ok(term) => Ok(Some(Part {
            term,
            depth: part.depth,
        })),
        Err(TermFault::Deep) => Ok(None),
        Err(TermFault::NoMemory) => Err(NoMemory),
    }
}

/// The term past so many binders more.
#[tactic(auto, using(crate::proofs::Cuts::lifted_most))]
pub fn lift(alloc: Global, part: &Option<Part>, by: usize) -> Result<Option<Part>, NoMemory>
    ensures { IfOk result (λ moved. known moved ≡ lifted by (known part.now)) }
{
    match part {
        Some(part) => lift_within(alloc, part, by.min(MOST_VARIABLE + 1) as u32),
        None => Ok(None),
    }
}
