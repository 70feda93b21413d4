//! Terms, read. `room` is the number of levels that the parts of a term may have.
ghost use Rattle.std.specs.Prelude.{◌≡◌, ◌≤◌, length, drop, IfOk};
ghost use Rattle.cic_terms.specs.Denotes.{tree, tree_sort, branches, terms, bodies, shapes};
ghost use Rattle.cic_terms.specs.Tree.{sort};
ghost use Rattle.term_format.specs.Reading.{value};
ghost use Rattle.term_format.specs.TermReading.{read_term, row_of, read_variable, read_type, read_global, read_pair, read_let, read_case, read_branches, read_domains, read_shape, read_function, read_functions, read_fix};
ghost use Rattle.term_codec.specs.calls.Answers.{Reads};
ghost use Rattle.term_codec.specs.calls.Functions.{function_of, functions_in, shape_of, branch_of, read_branch};
ghost use Rattle.term_codec.specs.calls.Rows.{pair_of, global_of};

use crate::faults::Stop;
use crate::fields::{byte_at, limited_at, number_at, read_id, read_level_name};
use crate::making::{
    make_case, make_fix, make_global, make_let, make_pair, make_rel, make_sort, make_type, own,
};
use cic_names::Sort;
use cic_terms::{Branch, Branches, FixBodies, FixBody, MOST_LEVELS, MOST_REL, Term, Terms};
use seg_format::Defect;
use std::alloc::Global;
use std::rc::Rc;

#[inline(never)]
fn read_variable(alloc: Global, b: &[u8], place: &mut usize) -> Result<Rc<Term>, Stop>
    requires { place.old ≤ length b.now }
    ensures { Reads (λ r. tree r.value) b.now (read_variable (drop place.old b.now)) place.new result }
{
    let n = limited_at(b, place, MOST_REL)?;
    make_rel(alloc, n)
}

#[inline(never)]
fn read_type(alloc: Global, b: &[u8], place: &mut usize) -> Result<Rc<Term>, Stop>
    requires { place.old ≤ length b.now }
    ensures { Reads (λ r. tree r.value) b.now (read_type (drop place.old b.now)) place.new result }
{
    let name = read_level_name(alloc, b, place)?;
    make_type(alloc, name)
}

#[inline(never)]
fn read_global(alloc: Global, b: &[u8], place: &mut usize, tag: u8) -> Result<Rc<Term>, Stop>
    requires { place.old ≤ length b.now }
    ensures { Reads (λ r. tree r.value) b.now (read_global (global_of tag) (drop place.old b.now)) place.new result }
{
    let id = read_id(alloc, b, place)?;
    make_global(alloc, tag, id)
}

/// A term of at most `room` levels.
#[cycle(reading)]
#[inline(never)]
#[tactic(auto, using(crate::proofs::RowsRead::term_there, crate::proofs::RowsRead::term_too_deep, crate::proofs::RowsRead::term_stops))]
pub(crate) fn read_term(
    alloc: Global,
    b: &[u8],
    place: &mut usize,
    room: u32,
) -> Result<Rc<Term>, Stop>
    requires { place.old ≤ length b.now }
    ensures { Reads (λ r. tree r.value) b.now (read_term room (drop place.old b.now)) place.new result }
{
    let at = *place;
    let tag = byte_at(b, place)?;
    if room == 0 {
        return Err(Stop::Wrong(Defect::Depth, at));
    }
    read_row(alloc, b, place, at, tag, room - 1)
}

/// What follows the byte of a term's kind, which stands at `at`.
#[cycle(reading)]
#[inline(always)]
#[tactic(auto, unfolding(term_format::specs::TermReading::row_of))]
fn read_row(
    alloc: Global,
    b: &[u8],
    place: &mut usize,
    at: usize,
    tag: u8,
    room: u32,
) -> Result<Rc<Term>, Stop>
    requires at { at ≤ length b.now }
    requires place { place.old ≤ length b.now }
    ensures { Reads (λ r. tree r.value) b.now (row_of (read_term room) (drop at b.now) tag (drop place.old b.now)) place.new result }
{
    match tag {
        0 => read_variable(alloc, b, place),
        1 => make_sort(alloc, Sort::Prop),
        2 => make_sort(alloc, Sort::Set),
        3 => read_type(alloc, b, place),
        4 | 5 | 7 => read_pair(alloc, b, place, tag, room),
        6 => read_let(alloc, b, place, room),
        8 | 9 | 10 => read_global(alloc, b, place, tag),
        11 => read_case(alloc, b, place, room),
        12 => read_fix(alloc, b, place, room),
        _ => Err(Stop::Wrong(Defect::Tag, at)),
    }
}

/// A product, an abstraction or an application.
#[cycle(reading)]
#[inline(never)]
fn read_pair(
    alloc: Global,
    b: &[u8],
    place: &mut usize,
    tag: u8,
    room: u32,
) -> Result<Rc<Term>, Stop>
    requires { place.old ≤ length b.now }
    ensures { Reads (λ r. tree r.value) b.now (read_pair (read_term room) (pair_of tag) (drop place.old b.now)) place.new result }
{
    let first = read_term(alloc, b, place, room)?;
    let second = read_term(alloc, b, place, room)?;
    make_pair(alloc, tag, first, second)
}

#[cycle(reading)]
#[inline(never)]
fn read_let(alloc: Global, b: &[u8], place: &mut usize, room: u32) -> Result<Rc<Term>, Stop>
    requires { place.old ≤ length b.now }
    ensures { Reads (λ r. tree r.value) b.now (read_let (read_term room) (drop place.old b.now)) place.new result }
{
    let body = read_term(alloc, b, place, room)?;
    let ty = read_term(alloc, b, place, room)?;
    let rest = read_term(alloc, b, place, room)?;
    make_let(alloc, body, ty, rest)
}

#[cycle(reading)]
#[inline(never)]
fn read_case(alloc: Global, b: &[u8], place: &mut usize, room: u32) -> Result<Rc<Term>, Stop>
    requires { place.old ≤ length b.now }
    ensures { Reads (λ r. tree r.value) b.now (read_case (read_term room) (drop place.old b.now)) place.new result }
{
    let ind = read_id(alloc, b, place)?;
    let arity = limited_at(b, place, MOST_REL)?;
    let motive = read_term(alloc, b, place, room)?;
    let scrutinee = read_term(alloc, b, place, room)?;
    let count = number_at(b, place)?;
    let all = read_branches(alloc, b, place, count, room)?;
    make_case(alloc, ind, arity, motive, scrutinee, all)
}

#[cycle(reading)]
#[inline(never)]
fn read_branch(alloc: Global, b: &[u8], place: &mut usize, room: u32) -> Result<Branch, Stop>
    requires { place.old ≤ length b.now }
    ensures { Reads (λ r. branch_of r) b.now (read_branch (read_term room) (drop place.old b.now)) place.new result }
{
    let binders = limited_at(b, place, MOST_REL)?;
    let term = read_term(alloc, b, place, room)?;
    let body = own(term)?;
    Ok(Branch { binders, body })
}

/// So many branches. The count takes no memory before they are read.
#[cycle(reading)]
#[inline(never)]
fn read_branches(
    alloc: Global,
    b: &[u8],
    place: &mut usize,
    count: u32,
    room: u32,
) -> Result<Branches, Stop>
    requires { place.old ≤ length b.now }
    ensures { Reads (λ r. branches r) b.now (read_branches (read_term room) count (drop place.old b.now)) place.new result }
{
    let mut items = Vec::new(alloc);
    for _i in 0..count {
        let branch = read_branch(alloc, b, place, room)?;
        items.push(branch)?;
    }
    Ok(Branches::from_vec(items))
}

/// So many domains of a function.
#[cycle(reading)]
#[inline(never)]
fn read_domains(
    alloc: Global,
    b: &[u8],
    place: &mut usize,
    count: u32,
    room: u32,
) -> Result<Terms, Stop>
    requires { place.old ≤ length b.now }
    ensures value { Reads (λ r. terms r) b.now (read_domains (read_term room) 0 count (drop place.old b.now)) place.new result }
    ensures count { IfOk result (λ r. length r.items.items ≡ count) }
{
    let mut items = Vec::new(alloc);
    for _i in 0..count {
        let term = read_term(alloc, b, place, room)?;
        items.push(own(term)?)?;
    }
    Ok(Terms::from_vec(items))
}

/// The number of the recursive domain of a function, and how many domains it has.
fn read_shape(b: &[u8], place: &mut usize) -> Result<(u32, u32), Stop>
    requires { place.old ≤ length b.now }
    ensures { Reads (λ s. shape_of s) b.now (read_shape (drop place.old b.now)) place.new result }
{
    let at = *place;
    let k = number_at(b, place)?;
    let count = number_at(b, place)?;
    if k >= count {
        return Err(Stop::Wrong(Defect::Number, at));
    }
    Ok((k, count))
}

/// A function of a `fix` that has `all` of them.
#[cycle(reading)]
#[inline(never)]
fn read_function(
    alloc: Global,
    b: &[u8],
    place: &mut usize,
    all: u32,
    room: u32,
) -> Result<FixBody, Stop>
    requires { place.old ≤ length b.now }
    ensures { Reads (λ r. function_of all r) b.now (read_function (read_term room) all (drop place.old b.now)) place.new result }
{
    let (k, count) = read_shape(b, place)?;
    let domains = read_domains(alloc, b, place, count, room)?;
    let codomain = read_term(alloc, b, place, room)?;
    let codomain = own(codomain)?;
    let body = read_term(alloc, b, place, room)?;
    let body = own(body)?;
    Ok(FixBody {
        k,
        domains,
        codomain,
        body,
    })
}

/// The functions of a `fix`. The count takes no memory before they are read.
#[cycle(reading)]
#[inline(never)]
fn read_functions(
    alloc: Global,
    b: &[u8],
    place: &mut usize,
    count: u32,
    room: u32,
) -> Result<FixBodies, Stop>
    requires { place.old ≤ length b.now }
    ensures { Reads (λ r. functions_in r) b.now (read_functions (read_term room) count count (drop place.old b.now)) place.new result }
{
    let mut items = Vec::new(alloc);
    for _i in 0..count {
        let one = read_function(alloc, b, place, count, room)?;
        items.push(one)?;
    }
    Ok(FixBodies::from_vec(items))
}

#[cycle(reading)]
#[inline(never)]
fn read_fix(alloc: Global, b: &[u8], place: &mut usize, room: u32) -> Result<Rc<Term>, Stop>
    requires { place.old ≤ length b.now }
    ensures { Reads (λ r. tree r.value) b.now (read_fix (read_term room) (drop place.old b.now)) place.new result }
{
    let at = *place;
    let which = number_at(b, place)?;
    let after = *place;
    let count = number_at(b, place)?;
    if count == 0 {
        return Err(Stop::Wrong(Defect::Number, after));
    }
    if which >= count {
        return Err(Stop::Wrong(Defect::Number, at));
    }
    let all = read_functions(alloc, b, place, count, room)?;
    make_fix(alloc, which, all)
}

ghost use Rattle.term_format.specs.TermReading.{read_whole_term};

/// A term as a library file has it.
pub fn read_owned(alloc: Global, b: &[u8], place: &mut usize) -> Result<Term, Stop>
    requires { place.old ≤ length b.now }
    ensures { Reads (λ t. tree t) b.now (read_whole_term (drop place.old b.now)) place.new result }
{
    let term = read_term(alloc, b, place, MOST_LEVELS)?;
    own(term)
}
