//! The fix of functions that are read.
ghost use Rattle.std.specs.Prelude.{◌≡◌, ◌++◌, ◌∷◌, [], map, length, nat_eq, IfOk, OnOk};
ghost use Rattle.std.specs.Option.{option_map};
ghost use Rattle.cic_terms.specs.Denotes.{tree, terms, term_list, shape_list, body_list};
ghost use Rattle.cic_terms.specs.Tree.{fix};
ghost use Rattle.cic_spines.specs.Fixes.{function_of};
ghost use Rattle.cic_env.specs.Environments.{items};
ghost use Rattle.gal_scoping.specs.Fixpoints.{domains, recursive_at, first_where};
ghost use Rattle.elab_parts.specs.calls.Parts.{known, cut};
ghost use Rattle.elab_parts.specs.calls.Bindings.{known_binding};
ghost use Rattle.elab_parts.specs.calls.Functions.{known_function, whole_bindings, whole_function, known_fix};
ghost use Rattle.elab_parts.specs.calls.Places.{known_is_type, first_known, guarded_if, known_place, placed};

use crate::binding::Binding;
use crate::functions::ReadFunction;
use crate::making::above;
use crate::parts::Part;
use crate::sized::{Bodies, Body, Domains};
use cic_env::Env;
use cic_guard::guarded;
use cic_spines::head;
use cic_terms::{FixBodies, FixBody, Term, Terms};
use memory::NoMemory;
use std::alloc::Global;
use std::rc::Rc;

/// One term more.
#[tactic(auto, using(crate::proofs::Functioning::terms_depth, crate::proofs::Functioning::terms_rels))]
fn add_domain(all: &mut Domains, part: &Part) -> Result<(), NoMemory>
    ensures { OnOk result (map tree all.new.terms.items ≡ map tree all.old.terms.items ++ tree part.now.term.value ∷ []) }
{
    let term = Term::clone(&part.term)?;
    all.terms.push(term)?;
    all.depth = all.depth.max(part.depth);
    Ok(())
}

/// The types of the binders, if all are within the limits.
fn whole_domains(alloc: Global, binders: &[Binding<'_>]) -> Result<Option<Domains>, NoMemory>
    ensures { IfOk result (λ found. option_map (λ ds. map tree ds.terms.items) found ≡ option_map domains (whole_bindings (map known_binding binders.now))) }
{
    let mut all = Domains {
        terms: Vec::new(alloc),
        depth: 0,
    };
    for binder in binders {
        match &binder.ty {
            Some(part) => add_domain(&mut all, part)?,
            None => return Ok(None),
        }
    }
    Ok(Some(all))
}

/// The function of these parts.
fn body_of(k: u32, domains: Vec<Term>, codomain: Term, body: Term) -> FixBody
    ensures k { result.k ≡ k }
    ensures domains { terms result.domains ≡ term_list 0 domains.items }
    ensures codomain { tree result.codomain ≡ tree codomain }
    ensures body { tree result.body ≡ tree body }
{
    FixBody {
        k,
        domains: Terms::from_vec(domains),
        codomain,
        body,
    }
}

/// The function of parts within the limits.
#[tactic(auto, using(crate::proofs::Functioning::body_depth, crate::proofs::Functioning::body_rels, crate::proofs::Functioning::body_made))]
fn body_within(domains: Domains, k: u32, codomain: &Part, body: &Part) -> Result<Body, NoMemory>
    ensures { IfOk result (λ made. function_of made.body ≡ record { recursive_place = k; domains = map tree domains.terms.items; codomain = tree codomain.now.term.value; body = tree body.now.term.value }) }
{
    let depth = domains.depth.max(codomain.depth).max(body.depth);
    let codomain = Term::clone(&codomain.term)?;
    let body = Term::clone(&body.term)?;
    let body = body_of(k, domains.terms, codomain, body);
    Ok(Body { body, depth })
}

/// The function with this recursive place, if all its parts are within the limits.
fn function_body(
    alloc: Global,
    function: &ReadFunction<'_>,
    k: u32,
) -> Result<Option<Body>, NoMemory>
    ensures { IfOk result (λ found. option_map (λ b. function_of b.body) found ≡ option_map (λ g. recursive_at g k) (whole_function (known_function function.now))) }
{
    let Some(domains) = whole_domains(alloc, &function.binders)? else {
        return Ok(None);
    };
    match (&function.codomain, &function.body) {
        (Some(codomain), Some(body)) => Ok(Some(body_within(domains, k, codomain, body)?)),
        _ => Ok(None),
    }
}

/// Whether a type has an inductive type at its head.
fn is_typed(ty: &Option<Part>) -> bool
    ensures { result ≡ known_is_type (known ty.now) }
{
    match ty {
        Some(part) => matches!(head(&part.term), Term::Ind(_)),
        None => false,
    }
}

/// The first binder with an inductive type at the head of its type, or else the first.
fn place_by_type(binders: &[Binding<'_>]) -> usize
    ensures { result ≡ first_known 0 (map known_binding binders.now) }
{
    for place in 0..binders.len() {
        if is_typed(&binders[place].ty) {
            return place;
        }
    }
    0
}

/// Whether the guard passes with this recursive binder.
fn guarded_at(
    alloc: Global,
    env: &Env,
    function: &ReadFunction<'_>,
    k: u32,
) -> Result<bool, NoMemory>
    ensures { IfOk result (λ passes. passes ≡ guarded_if (items env.now) k (whole_function (known_function function.now))) }
{
    match function_body(alloc, function, k)? {
        None => Ok(false),
        Some(made) => {
            let mut all = Vec::new(alloc);
            all.push(made.body)?;
            Ok(guarded(alloc, env, &FixBodies::from_vec(all))?.is_none())
        }
    }
}

/// The first recursive binder with which the guard passes, or else the first. Binders are fewer than 2^32.
fn place_by_guard(alloc: Global, env: &Env, function: &ReadFunction<'_>) -> Result<u32, NoMemory>
    ensures { IfOk result (λ place. place ≡ first_where (λ k. guarded_if (items env.now) k (whole_function (known_function function.now))) 0 (length function.now.binders.items)) }
{
    let Ok(count) = u32::try_from(function.binders.len()) else {
        return Err(NoMemory);
    };
    for k in 0..count {
        if guarded_at(alloc, env, function, k)? {
            return Ok(k);
        }
    }
    Ok(0)
}

/// The recursive place of a function, which is the single one of its fix or not.
fn recursive_place(
    alloc: Global,
    env: &Env,
    function: &ReadFunction<'_>,
    single: bool,
) -> Result<u32, NoMemory>
    ensures { IfOk result (λ place. place ≡ known_place (items env.now) single (known_function function.now)) }
{
    match function.structural {
        Some(place) => Ok(place),
        None => {
            if single {
                place_by_guard(alloc, env, function)
            } else {
                u32::try_from(place_by_type(&function.binders)).map_err(|_| NoMemory)
            }
        }
    }
}

/// One function more.
#[tactic(auto, using(crate::proofs::Functioning::bodies_depth, crate::proofs::Functioning::bodies_rels))]
fn add_body(all: &mut Bodies, made: Body) -> Result<(), NoMemory>
    ensures { OnOk result (map function_of all.new.items.items ≡ map function_of all.old.items.items ++ function_of made.body ∷ []) }
{
    let depth = all.depth.max(made.depth);
    all.items.push(made.body)?;
    all.depth = depth;
    Ok(())
}

/// The functions with their recursive places, if all their parts are within the limits.
fn whole_bodies(
    alloc: Global,
    env: &Env,
    functions: &[ReadFunction<'_>],
) -> Result<Option<Bodies>, NoMemory>
    ensures { IfOk result (λ found. option_map (λ bs. map function_of bs.items.items) found ≡ placed (items env.now) (nat_eq (length functions.now) 1) (map known_function functions.now)) }
{
    let single = functions.len() == 1;
    let mut all = Bodies {
        items: Vec::new(alloc),
        depth: 0,
    };
    for function in functions {
        let place = recursive_place(alloc, env, function, single)?;
        match function_body(alloc, function, place)? {
            Some(made) => add_body(&mut all, made)?,
            None => return Ok(None),
        }
    }
    Ok(Some(all))
}

fn shared_fix(alloc: Global, which: u32, all: Vec<FixBody>) -> Result<Rc<Term>, NoMemory>
    ensures { IfOk result (λ r. tree r.value ≡ fix which (shape_list all.items) (body_list (length all.items) all.items)) }
{
    let bodies = Rc::new(alloc, FixBodies::from_vec(all))?;
    Ok(Rc::new(alloc, Term::Fix { which, bodies })?)
}

/// The fix of functions within the limits.
#[tactic(auto, using(crate::proofs::Functioning::fix_depth, crate::proofs::Functioning::fix_rels, crate::proofs::Cuts::cut_in, crate::proofs::Cuts::cut_deep))]
fn fix_within(alloc: Global, bodies: Bodies, which: u32) -> Result<Option<Part>, NoMemory>
    ensures { IfOk result (λ part. known part ≡ cut (fix which (shape_list bodies.items.items) (body_list (length bodies.items.items) bodies.items.items))) }
{
    match above(bodies.depth, 0) {
        None => Ok(None),
        Some(depth) => Ok(Some(Part {
            term: shared_fix(alloc, which, bodies.items)?,
            depth,
        })),
    }
}

/// The fix of these functions, and of them the one that is meant.
pub fn fix_term(
    alloc: Global,
    env: &Env,
    functions: &[ReadFunction<'_>],
    which: u32,
) -> Result<Option<Part>, NoMemory>
    ensures { IfOk result (λ part. known part ≡ known_fix (items env.now) (map known_function functions.now) which) }
{
    match whole_bodies(alloc, env, functions)? {
        None => Ok(None),
        Some(bodies) => fix_within(alloc, bodies, which),
    }
}
