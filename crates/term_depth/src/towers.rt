//! Terms of the greatest depth.
ghost use Rattle.std.specs.Prelude.{◌≤◌};

use crate::samples::{keep, node};
use cic_names::GlobalId;
use cic_terms::{
    Branch, Branches, FixBodies, FixBody, Term, TermFault, Terms, depth, lift, lift_shared,
    mentions, same, subst, subst_shared,
};
use std::alloc::Global;
use std::rc::Rc;

/// A function of `levels - 1` arguments that gives the first variable outside it.
fn tower(alloc: Global, levels: u32) -> Result<Rc<Term>, TermFault>
    requires { 1 ≤ levels }
{
    let mut t = node(alloc, Term::Rel(levels - 1))?;
    for _ in 1..levels {
        let domain = node(alloc, Term::Rel(0))?;
        t = node(alloc, Term::Lam(domain, t))?;
    }
    Ok(t)
}

/// How deep a copy is.
fn copied(t: &Term) -> Result<u32, TermFault> {
    Ok(depth(&t.clone()?))
}

fn word<T: Drop>(outcome: Result<T, TermFault>) -> &'static str {
    match outcome {
        Ok(_) => "done",
        Err(TermFault::Deep) => "Deep",
        Err(TermFault::NoMemory) => "no memory",
    }
}

/// What each call makes of a term of so many levels.
pub(crate) fn print_rows(rt: &HostRuntime, id: &GlobalId, levels: u32) -> anyhow::Result<()>
    requires { 1 ≤ levels }
{
    let alloc = rt.alloc();
    let t = tower(alloc, levels)?;
    let other = tower(alloc, levels)?;
    let with = node(alloc, Term::Rel(7))?;
    println!(rt; "{levels} levels")?;
    println!(rt; "depth {}", depth(&t))?;
    println!(rt; "same {}", same(&t, &other))?;
    println!(rt; "mentions {}", mentions(&t, id))?;
    println!(rt; "copied {}", copied(&t)?)?;
    println!(rt;
        "lift that changes nothing: {}",
        word(lift_shared(alloc, &t, 1, 1))
    )?;
    println!(rt; "lift: {}", word(lift_shared(alloc, &t, 0, 1)))?;
    println!(rt; "subst: {}", word(subst_shared(alloc, &t, 0, &with)))?;
    Ok(())
}

/// Where each level of a tower stands in the one around it.
#[derive(Clone, Copy)]
enum Place {
    Rest,
    Branch,
    Domain,
    Body,
}

impl Place {
    fn name(self) -> &'static str {
        match self {
            Place::Rest => "the rest of a let",
            Place::Branch => "the branch of a match",
            Place::Domain => "the domain of a fix",
            Place::Body => "the body of a fix",
        }
    }
}

fn around_rest(alloc: Global, t: Term) -> Result<Term, TermFault> {
    let rest = node(alloc, t)?;
    let body = node(alloc, Term::Rel(0))?;
    let ty = node(alloc, Term::Rel(0))?;
    Ok(Term::Let { body, ty, rest })
}

fn one_branch(alloc: Global, body: Term) -> Result<Rc<Branches>, TermFault> {
    let mut items = Vec::new(alloc);
    keep(&mut items, Branch { binders: 1, body })?;
    match Rc::new(alloc, Branches::from_vec(items)) {
        Ok(branches) => Ok(branches),
        Err(_) => Err(TermFault::NoMemory),
    }
}

fn around_branch(alloc: Global, id: &GlobalId, t: Term) -> Result<Term, TermFault> {
    let branches = one_branch(alloc, t)?;
    let motive = node(alloc, Term::Rel(0))?;
    let scrutinee = node(alloc, Term::Rel(0))?;
    Ok(Term::Case {
        arity: 0,
        ind: id.clone()?,
        motive,
        scrutinee,
        branches,
    })
}

/// A `fix` of one function.
fn around_function(alloc: Global, domains: Terms, body: Term) -> Result<Term, TermFault> {
    let codomain = Term::Rel(0);
    let one = FixBody {
        k: 0,
        domains,
        codomain,
        body,
    };
    let mut items = Vec::new(alloc);
    keep(&mut items, one)?;
    match Rc::new(alloc, FixBodies::from_vec(items)) {
        Ok(bodies) => Ok(Term::Fix { which: 0, bodies }),
        Err(_) => Err(TermFault::NoMemory),
    }
}

fn around_domain(alloc: Global, t: Term) -> Result<Term, TermFault> {
    let mut domains = Vec::new(alloc);
    keep(&mut domains, t)?;
    around_function(alloc, Terms::from_vec(domains), Term::Rel(0))
}

/// The next level of a tower around the earlier ones.
fn around(alloc: Global, id: &GlobalId, place: Place, t: Term) -> Result<Term, TermFault> {
    match place {
        Place::Rest => around_rest(alloc, t),
        Place::Branch => around_branch(alloc, id, t),
        Place::Domain => around_domain(alloc, t),
        Place::Body => around_function(alloc, Terms::from_vec(Vec::new(alloc)), t),
    }
}

/// A term of so many levels, each in the one around it. The innermost is a variable outside all.
fn tower_of(alloc: Global, id: &GlobalId, place: Place, levels: u32) -> Result<Term, TermFault>
    requires { 1 ≤ levels }
{
    let mut t = Term::Rel(levels - 1);
    for _ in 1..levels {
        t = around(alloc, id, place, t)?;
    }
    Ok(t)
}

/// What lifting and substitution make of a tower of each place.
pub(crate) fn print_places(rt: &HostRuntime, id: &GlobalId, levels: u32) -> anyhow::Result<()>
    requires { 1 ≤ levels }
{
    for place in [Place::Rest, Place::Branch, Place::Domain, Place::Body] {
        print_place(rt, id, place, levels)?;
    }
    Ok(())
}

fn print_place(rt: &HostRuntime, id: &GlobalId, place: Place, levels: u32) -> anyhow::Result<()>
    requires { 1 ≤ levels }
{
    let alloc = rt.alloc();
    let t = tower_of(alloc, id, place, levels)?;
    println!(rt; "in {}: depth {}", place.name(), depth(&t))?;
    println!(rt; "lift: {}", word(lift(alloc, &t, 0, 1)))?;
    println!(rt; "subst: {}", word(subst(alloc, &t, 0, &Term::Rel(7))))?;
    Ok(())
}
