//! Small terms of each kind, lifted and substituted.
ghost use Rattle.std.specs.Prelude.{◌<◌};

use cic_names::GlobalId;
use cic_terms::{
    Branch, Branches, FixBodies, FixBody, Term, TermFault, Terms, lift, mentions, same, subst,
};
use std::alloc::Global;
use std::rc::Rc;

/// A kind of term with parts.
#[derive(Clone, Copy)]
enum Kind {
    Prod,
    Lam,
    Let,
    App,
    Case,
    Fix,
}

impl Kind {
    fn name(self) -> &'static str {
        match self {
            Kind::Prod => "forall",
            Kind::Lam => "fun",
            Kind::Let => "let",
            Kind::App => "application",
            Kind::Case => "match",
            Kind::Fix => "fix",
        }
    }
}

pub(crate) fn node(alloc: Global, t: Term) -> Result<Rc<Term>, TermFault> {
    match Rc::new(alloc, t) {
        Ok(node) => Ok(node),
        Err(_) => Err(TermFault::NoMemory),
    }
}

pub(crate) fn keep<T: Drop>(items: &mut Vec<T>, item: T) -> Result<(), TermFault> {
    match items.push(item) {
        Ok(()) => Ok(()),
        Err(_) => Err(TermFault::NoMemory),
    }
}

/// The branches of a match, each the variable `n` outside it, under 0, 1 and 3 binders.
fn sample_branches(alloc: Global, n: u32) -> Result<Rc<Branches>, TermFault> {
    let mut items = Vec::new(alloc);
    for binders in [0_u32, 1, 3] {
        let body = Term::Rel(n.saturating_add(binders));
        keep(&mut items, Branch { binders, body })?;
    }
    match Rc::new(alloc, Branches::from_vec(items)) {
        Ok(branches) => Ok(branches),
        Err(_) => Err(TermFault::NoMemory),
    }
}

/// A match whose parts each are the variable `n` outside it.
fn sample_case(alloc: Global, id: &GlobalId, n: u8) -> Result<Term, TermFault> {
    let n = u32::from(n);
    let motive = node(alloc, Term::Rel(n + 2))?;
    let scrutinee = node(alloc, Term::Rel(n))?;
    let branches = sample_branches(alloc, n)?;
    Ok(Term::Case {
        arity: 1,
        ind: id.clone()?,
        motive,
        scrutinee,
        branches,
    })
}

/// A function of a block of two, with `domains` domains; each part is the variable `n` outside the block.
fn sample_function(alloc: Global, n: u32, domains: u32) -> Result<FixBody, TermFault>
    requires variable { n < 256 }
    requires domains { domains < 256 }
{
    let mut items = Vec::new(alloc);
    for above in 0..domains {
        keep(&mut items, Term::Rel(n.saturating_add(above)))?;
    }
    Ok(FixBody {
        k: 0,
        domains: Terms::from_vec(items),
        codomain: Term::Rel(n + domains),
        body: Term::Rel(n + 2 + domains),
    })
}

fn sample_fix(alloc: Global, n: u8) -> Result<Term, TermFault> {
    let n = u32::from(n);
    let mut items = Vec::new(alloc);
    for domains in [2, 3] {
        let one = sample_function(alloc, n, domains)?;
        keep(&mut items, one)?;
    }
    match Rc::new(alloc, FixBodies::from_vec(items)) {
        Ok(bodies) => Ok(Term::Fix { which: 1, bodies }),
        Err(_) => Err(TermFault::NoMemory),
    }
}

/// A term of the kind, whose parts each are the variable `n` outside it.
fn sample(alloc: Global, id: &GlobalId, kind: Kind, n: u8) -> Result<Term, TermFault> {
    match kind {
        Kind::Case => sample_case(alloc, id, n),
        Kind::Fix => sample_fix(alloc, n),
        _ => sample_pair(alloc, kind, u32::from(n)),
    }
}

/// A term of a kind that is neither a match nor a `fix`.
fn sample_pair(alloc: Global, kind: Kind, n: u32) -> Result<Term, TermFault>
    requires { n < 256 }
{
    let outer = node(alloc, Term::Rel(n))?;
    match kind {
        Kind::Prod => Ok(Term::Prod(outer, node(alloc, Term::Rel(n + 1))?)),
        Kind::Lam => Ok(Term::Lam(outer, node(alloc, Term::Rel(n + 1))?)),
        Kind::Let => sample_let(alloc, outer, n),
        _ => Ok(Term::App(outer, node(alloc, Term::Rel(n))?)),
    }
}

fn sample_let(alloc: Global, body: Rc<Term>, n: u32) -> Result<Term, TermFault>
    requires { n < 256 }
{
    let ty = node(alloc, Term::Rel(n))?;
    let rest = node(alloc, Term::Rel(n + 1))?;
    Ok(Term::Let { body, ty, rest })
}

/// Whether the sample of `n`, with `by` added from `from` on, is that of `want`.
fn lifts_to(
    alloc: Global,
    id: &GlobalId,
    kind: Kind,
    n: u8,
    from: u32,
    by: u32,
    want: u8,
) -> Result<bool, TermFault> {
    let lifted = lift(alloc, &sample(alloc, id, kind, n)?, from, by)?;
    Ok(same(&lifted, &sample(alloc, id, kind, want)?))
}

/// Whether the sample of `n`, with the variable 5 put in for `at`, is that of `want`.
fn puts_in(
    alloc: Global,
    id: &GlobalId,
    kind: Kind,
    n: u8,
    at: u32,
    want: u8,
) -> Result<bool, TermFault> {
    let replaced = subst(alloc, &sample(alloc, id, kind, n)?, at, &Term::Rel(5))?;
    Ok(same(&replaced, &sample(alloc, id, kind, want)?))
}

/// How many of four rows lift as they say.
fn count_lifted(alloc: Global, id: &GlobalId, kind: Kind) -> Result<u32, TermFault> {
    let mut right: u32 = 0;
    for (n, from, by, want) in [(0_u8, 0, 1, 1_u8), (1, 1, 2, 3), (0, 1, 9, 0), (3, 9, 9, 3)] {
        if lifts_to(alloc, id, kind, n, from, by, want)? {
            right = right.saturating_add(1);
        }
    }
    Ok(right)
}

/// How many of five rows substitute as they say.
fn count_replaced(alloc: Global, id: &GlobalId, kind: Kind) -> Result<u32, TermFault> {
    let mut right: u32 = 0;
    for (n, at, want) in [(0_u8, 0, 5_u8), (1, 1, 6), (4, 1, 3), (0, 1, 0), (3, 9, 3)] {
        if puts_in(alloc, id, kind, n, at, want)? {
            right = right.saturating_add(1);
        }
    }
    Ok(right)
}

/// Whether a match is the same as that of another variable, and whether it mentions the id.
fn print_case(rt: &HostRuntime, id: &GlobalId) -> anyhow::Result<()> {
    let alloc = rt.alloc();
    let case = sample_case(alloc, id, 0)?;
    let other = sample_case(alloc, id, 1)?;
    println!(rt;
        "match: same {}, mentions {}",
        same(&case, &other),
        mentions(&case, id)
    )?;
    Ok(())
}

/// Whether the variable can be lifted by one.
fn can_lift(alloc: Global, n: u32) -> bool {
    lift(alloc, &Term::Rel(n), 0, 1).is_ok()
}

pub(crate) fn print_rows(rt: &HostRuntime, id: &GlobalId) -> anyhow::Result<()> {
    let alloc = rt.alloc();
    let kinds = [
        Kind::Prod,
        Kind::Lam,
        Kind::Let,
        Kind::App,
        Kind::Case,
        Kind::Fix,
    ];
    for kind in kinds {
        let lifted = count_lifted(alloc, id, kind)?;
        let replaced = count_replaced(alloc, id, kind)?;
        println!(rt;
            "{}: {lifted} of 4 lifted, {replaced} of 5 replaced",
            kind.name()
        )?;
    }
    print_case(rt, id)?;
    for n in [1_048_575, 1_048_576] {
        println!(rt; "lift of {n}: {}", can_lift(alloc, n))?;
    }
    Ok(())
}
