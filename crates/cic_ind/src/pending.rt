//! Types with parameters put in, of which nothing is made before it is asked for.
ghost use Rattle.std.specs.Prelude.{◌≡◌, ◌+◌, ◌<◌, ◌≤◌, ◌++◌, [], IfOk, IfSome, IfNone, get_or, length, reverse};
ghost use Rattle.cic_terms.specs.calls.Answer.{MakesShared};
ghost use Rattle.cic_terms.specs.calls.Walk.{map_tree};
ghost use Rattle.cic_terms.specs.Denotes.{tree};
ghost use Rattle.cic_terms.specs.Lift.{lift_tree};
ghost use Rattle.cic_terms.specs.Tree.{rel};
ghost use Rattle.cic_rules.specs.Telescopes.{conclusion_of, domains_of, head_of};
ghost use Rattle.cic_counted.specs.Readings.{arguments_of, codomain_at, instantiate};
ghost use Rattle.cic_spines.specs.Lists.{shared_tree, shared_trees};
ghost use Rattle.cic_spines.specs.Several.{MakesEach};
ghost use Rattle.cic_spines.specs.calls.Several.{several};
ghost use Rattle.cic_ind.specs.Conclusions.{is_type};
ghost use Rattle.cic_ind.specs.calls.Pending.{IsLifted, NoApplication, NoProduct, VariablesStay, begun_tree, part_tree, part_trees, pending_tree};

use cic_spines::substitute_part;
use cic_terms::{MOST_LEVELS, Term, TermFault, lift_part};
use memory::NoMemory;
use std::alloc::Global;
use std::rc::Rc;

/// What a part is to become: terms are put in for as many binders outside it, or it is lifted.
#[derive(Clone, Copy, Drop)]
pub(crate) enum Change<'a> {
    PutIn(&'a [Rc<Term>]),
    Lifted(u32),
}

/// A term that stands under `under` binders of what is changed.
#[derive(Clone, Copy, Drop)]
pub(crate) struct Pending<'a> {
    pub(crate) term: &'a Term,
    pub(crate) change: Change<'a>,
    pub(crate) under: u32,
}

/// The same of a term that can be made.
#[derive(Clone, Copy, Drop)]
pub(crate) struct Part<'a> {
    pub(crate) term: &'a Rc<Term>,
    pub(crate) change: Change<'a>,
    pub(crate) under: u32,
}

/// A term for whose innermost binders terms are put in, from the one at `begin` on.
#[derive(Drop)]
struct Begun<'a> {
    term: &'a Term,
    begin: usize,
}

/// The domains of a type, and what stands after its last product.
#[derive(Drop)]
pub(crate) struct Opened<'a> {
    pub(crate) domains: Vec<Part<'a>>,
    pub(crate) conclusion: Pending<'a>,
}

/// The head of an application in a row, and its arguments.
#[derive(Drop)]
pub(crate) struct Spine<'a> {
    pub(crate) head: Pending<'a>,
    pub(crate) arguments: Vec<Part<'a>>,
}

/// The term that is put in for `t`, where that is a variable of the binders.
fn put_in<'a>(t: &Term, terms: &'a [Rc<Term>], under: u32) -> Option<&'a Rc<Term>>
    ensures some { IfSome result (λ r. map_tree (several (shared_trees terms.now)) under (tree t.now) ≡ lift_tree 0 under (shared_tree r.now)) }
    ensures none { IfNone result (VariablesStay t.now (map_tree (several (shared_trees terms.now)) under (tree t.now))) }
{
    let Term::Rel(n) = t else {
        return None;
    };
    if *n < under {
        return None;
    }
    let inner = (*n - under) as usize;
    if inner >= terms.len() {
        return None;
    }
    Some(&terms[terms.len() - 1 - inner])
}

/// What is left of a type with terms put in where the one at `end` is put in for its first product, if it has one.
fn codomain<'a>(at: &'a Term, all: &'a [Rc<Term>], begin: usize, end: usize) -> Option<Begun<'a>>
    requires order { begin ≤ end }
    requires within { end < length all.now }
    ensures begin { IfSome result (λ r. r.begin ≤ end) }
    ensures some { IfSome result (λ r. begun_tree all.now r.begin (end + 1) r.term.now ≡ codomain_at (get_or (shared_trees all.now) end (rel 0)) (begun_tree all.now begin end at.now)) }
    ensures none { IfNone result (domains_of (begun_tree all.now begin end at.now) ≡ []) }
{
    if let Term::Prod(_, rest) = at {
        return Some(Begun { term: rest, begin });
    }
    let shown = put_in(at, &all[begin..end], 0)?;
    match &**shown {
        Term::Prod(_, rest) => Some(Begun {
            term: rest,
            begin: end,
        }),
        _ => None,
    }
}

/// A type with parameters put in for its first products. Where it is no product any more, a parameter changes nothing.
pub(crate) fn instance<'a>(ty: &'a Term, parameters: &'a [Rc<Term>]) -> Pending<'a>
    ensures { pending_tree result ≡ instantiate (shared_trees parameters.now) (tree ty.now) }
{
    let mut at = ty;
    let mut begin = 0;
    for i in 0..parameters.len() {
        let Some(next) = codomain(at, parameters, begin, i) else {
            return Pending {
                term: at,
                change: Change::PutIn(&parameters[begin..i]),
                under: 0,
            };
        };
        at = next.term;
        begin = next.begin;
    }
    Pending {
        term: at,
        change: Change::PutIn(&parameters[begin..]),
        under: 0,
    }
}

/// The term that is put in where the term itself is a variable that gives way to one.
fn shown<'a>(p: &Pending<'a>) -> Option<Pending<'a>>
    ensures some { IfSome result (λ r. pending_tree r ≡ pending_tree p.now) }
    ensures lifted { IfSome result (λ r. IsLifted r.change) }
    ensures none { IfNone result (VariablesStay p.now.term.now (pending_tree p.now)) }
{
    match p.change {
        Change::Lifted(_) => None,
        Change::PutIn(terms) => {
            let term = put_in(p.term, terms, p.under)?;
            Some(Pending {
                term,
                change: Change::Lifted(p.under),
                under: 0,
            })
        }
    }
}

fn one_more(n: u32) -> Result<u32, NoMemory>
    ensures { IfOk result (λ r. r ≡ n + 1) }
{
    match n.checked_add(1) {
        Some(more) => Ok(more),
        None => Err(NoMemory),
    }
}

/// Takes the products off as they are written.
fn take_domains<'a>(p: &Pending<'a>, found: &mut Vec<Part<'a>>) -> Result<Pending<'a>, NoMemory>
    ensures domains { IfOk result (λ r. part_trees found.new.items ++ domains_of (pending_tree r) ≡ part_trees found.old.items ++ domains_of (pending_tree p.now)) }
    ensures conclusion { IfOk result (λ r. conclusion_of (pending_tree r) ≡ conclusion_of (pending_tree p.now)) }
    ensures change { IfOk result (λ r. r.change ≡ p.now.change) }
    ensures last { IfOk result (λ r. NoProduct r.term.now) }
{
    let change = p.change;
    let mut at = p.term;
    let mut under = p.under;
    while let Term::Prod(domain, rest) = at {
        found.push(Part {
            term: domain,
            change,
            under,
        })?;
        under = one_more(under)?;
        at = rest;
    }
    Ok(Pending {
        term: at,
        change,
        under,
    })
}

/// Takes a type apart.
pub(crate) fn take_apart<'a>(alloc: Global, p: &Pending<'a>) -> Result<Opened<'a>, NoMemory>
    ensures domains { IfOk result (λ r. part_trees r.domains.items ≡ domains_of (pending_tree p.now)) }
    ensures conclusion { IfOk result (λ r. pending_tree r.conclusion ≡ conclusion_of (pending_tree p.now)) }
{
    let mut domains = Vec::new(alloc);
    let mut conclusion = take_domains(p, &mut domains)?;
    if let Some(inner) = shown(&conclusion) {
        conclusion = take_domains(&inner, &mut domains)?;
    }
    Ok(Opened {
        domains,
        conclusion,
    })
}

/// Takes the arguments off as they are written, the last first, and gives what is left.
fn take_arguments<'a>(p: &Pending<'a>, found: &mut Vec<Part<'a>>) -> Result<Pending<'a>, NoMemory>
    ensures arguments { IfOk result (λ r. arguments_of (pending_tree r) ++ reverse (part_trees found.new.items) ≡ arguments_of (pending_tree p.now) ++ reverse (part_trees found.old.items)) }
    ensures head { IfOk result (λ r. head_of (pending_tree r) ≡ head_of (pending_tree p.now)) }
    ensures change { IfOk result (λ r. r.change ≡ p.now.change) }
    ensures last { IfOk result (λ r. NoApplication r.term.now) }
{
    let change = p.change;
    let under = p.under;
    let mut at = p.term;
    while let Term::App(function, argument) = at {
        found.push(Part {
            term: argument,
            change,
            under,
        })?;
        at = function;
    }
    Ok(Pending {
        term: at,
        change,
        under,
    })
}

/// The same, the first argument first, with the head.
pub(crate) fn take_spine<'a>(alloc: Global, p: &Pending<'a>) -> Result<Spine<'a>, NoMemory>
    ensures arguments { IfOk result (λ r. part_trees r.arguments.items ≡ arguments_of (pending_tree p.now)) }
    ensures head { IfOk result (λ r. pending_tree r.head ≡ head_of (pending_tree p.now)) }
    ensures stays { IfOk result (λ r. VariablesStay r.head.term.now (pending_tree r.head)) }
{
    let mut arguments = Vec::new(alloc);
    let mut head = take_arguments(p, &mut arguments)?;
    if let Some(inner) = shown(&head) {
        head = take_arguments(&inner, &mut arguments)?;
    }
    arguments.reverse();
    Ok(Spine { head, arguments })
}

/// Whether it is an inductive type.
pub(crate) fn is_type(p: &Pending) -> bool
    requires { VariablesStay p.now.term.now (pending_tree p.now) }
    ensures { result ≡ is_type (pending_tree p.now) }
{
    match p.term {
        Term::Ind(_) => true,
        _ => false,
    }
}

/// Makes the part, where `room` levels are left for it.
pub(crate) fn make(alloc: Global, part: &Part, room: u32) -> Result<Rc<Term>, TermFault>
    ensures { MakesShared room (part_tree part.now) result }
{
    match part.change {
        Change::PutIn(terms) => substitute_part(alloc, part.term, part.under, terms, room),
        Change::Lifted(by) => lift_part(alloc, part.term, part.under, by, room),
    }
}

/// Makes each part, each within the limits.
pub(crate) fn make_each(alloc: Global, parts: &[Part]) -> Result<Vec<Rc<Term>>, TermFault>
    ensures { MakesEach (part_trees parts.now) result }
{
    let mut made = Vec::new(alloc);
    for part in parts {
        made.push(make(alloc, part, MOST_LEVELS)?)?;
    }
    Ok(made)
}
