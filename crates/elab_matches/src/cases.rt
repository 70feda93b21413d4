//! The term of a match.
ghost use Rattle.std.specs.Prelude.{◌≡◌, IfOk, OnOk, map, length};
ghost use Rattle.std.specs.Option.{option_map};
ghost use Rattle.cic_env.specs.Declarations.{constructor_declaration};
ghost use Rattle.cic_terms.specs.Denotes.{tree, branch_list};
ghost use Rattle.cic_terms.specs.Tree.{case, join, child, no_child, many};
ghost use Rattle.elab_parts.specs.calls.Parts.{known, cut};
ghost use Rattle.elab_parts.specs.calls.Readings.{Reads};
ghost use Rattle.elab_matches.specs.Matches.{type_of};
ghost use Rattle.elab_matches.specs.calls.Branches.{done_of};
ghost use Rattle.elab_matches.specs.calls.Cases.{missing, known_in_order, parts_of, case_if, known_case};

use crate::branches::Done;
use crate::matched::MatchedType;
use crate::sized::Cases;
use cic_env::CtorDecl;
use cic_names::Name;
use cic_terms::{Branch, Branches, Term};
use elab_parts::{Part, ScopingFault};
use memory::NoMemory;
use std::alloc::Global;
use std::rc::Rc;

/// The most levels of a term.
const MOST_DEPTH: u32 = 4000;

/// The name of the first constructor without a branch.
fn first_missing<'p>(constructors: &'p [CtorDecl], done: &Done) -> Option<&'p Name>
    ensures { option_map (λ name. name.now) result ≡ missing (done_of done.now) 0 (map constructor_declaration constructors.now) }
{
    for (place, constructor) in constructors.iter().enumerate() {
        if done.branch(place).is_none() {
            return Some(&constructor.id.name);
        }
    }
    None
}

/// One branch more.
#[tactic(auto, using(crate::proofs::Bodies::branches_more, crate::proofs::Bodies::branches_depth, crate::proofs::Bodies::branches_rels))]
fn add_case(all: &mut Cases, binders: u32, body: &Part) -> Result<(), NoMemory>
    ensures { OnOk result (branch_list all.new.items.items ≡ join (branch_list all.old.items.items) (child (many binders) (tree body.now.term.value) no_child)) }
{
    let depth = all.depth.max(body.depth);
    let body = Term::clone(&body.term)?;
    all.items.push(Branch { binders, body })?;
    all.depth = depth;
    Ok(())
}

/// The branches of so many constructors in their order, if all are there, and their bodies are within the limits.
fn in_order(alloc: Global, count: usize, done: &Done) -> Result<Option<Cases>, NoMemory>
    ensures { IfOk result (λ found. parts_of found ≡ known_in_order (done_of done.now) 0 count) }
{
    let mut all = Cases {
        items: Vec::new(alloc),
        depth: 0,
    };
    for place in 0..count {
        let Some(branch) = done.branch(place) else {
            return Ok(None);
        };
        match &branch.body {
            Some(body) => add_case(&mut all, branch.binders, body)?,
            None => return Ok(None),
        }
    }
    Ok(Some(all))
}

/// The term of a match on parts within the limits, of so many levels.
fn case_term(
    alloc: Global,
    ty: &MatchedType<'_, '_>,
    value: &Part,
    motive: &Part,
    all: Vec<Branch>,
) -> Result<Rc<Term>, NoMemory>
    ensures { IfOk result (λ t. tree t.value ≡ case (type_of ty.now).id (length (type_of ty.now).indices) (tree motive.now.term.value) (tree value.now.term.value) (branch_list all.items)) }
{
    let Ok(arity) = u32::try_from(ty.indices.len()) else {
        return Err(NoMemory);
    };
    let ind = ty.id.clone()?;
    let branches = Rc::new(alloc, Branches::from_vec(all))?;
    let made = Term::Case {
        arity,
        ind,
        motive: motive.term.clone()?,
        scrutinee: value.term.clone()?,
        branches,
    };
    Ok(Rc::new(alloc, made)?)
}

/// The match on parts within the limits.
fn case_within(
    alloc: Global,
    ty: &MatchedType<'_, '_>,
    value: &Part,
    motive: &Part,
    all: Cases,
) -> Result<Option<Part>, NoMemory>
    ensures { IfOk result (λ part. known part ≡ cut (case (type_of ty.now).id (length (type_of ty.now).indices) (tree motive.now.term.value) (tree value.now.term.value) (branch_list all.items.items))) }
{
    let deepest = value.depth.max(motive.depth).max(all.depth);
    if deepest >= MOST_DEPTH {
        return Ok(None);
    }
    Ok(Some(Part {
        term: case_term(alloc, ty, value, motive, all.items)?,
        depth: deepest + 1,
    }))
}

/// The match on parts, if all are there.
fn case_if(
    alloc: Global,
    ty: &MatchedType<'_, '_>,
    value: &Option<Part>,
    motive: &Option<Part>,
    all: Option<Cases>,
) -> Result<Option<Part>, NoMemory>
    ensures { IfOk result (λ part. known part ≡ case_if (type_of ty.now) (known value.now) (known motive.now) (parts_of all)) }
{
    match (value, motive, all) {
        (Some(value), Some(motive), Some(all)) => case_within(alloc, ty, value, motive, all),
        _ => Ok(None),
    }
}

/// The match with these parts. The first constructor without a branch is the fault.
pub fn case_of<'a>(
    alloc: Global,
    ty: &MatchedType<'_, 'a>,
    value: &Option<Part>,
    motive: &Option<Part>,
    done: &Done,
) -> Result<Option<Part>, ScopingFault<'a>>
    ensures { Reads known (known_case (type_of ty.now) (known value.now) (known motive.now) (done_of done.now)) result }
{
    if let Some(name) = first_missing(&ty.ty.ctors, done) {
        return Err(ScopingFault::NoBranch(name.clone()?));
    }
    let all = in_order(alloc, ty.ty.ctors.len(), done)?;
    Ok(case_if(alloc, ty, value, motive, all)?)
}
