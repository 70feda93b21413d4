//! Strict positivity in a term, with types that stand among the parameters of types of other blocks. Each step into another block is at a new instance of it, and each has one less left.
ghost use Rattle.std.specs.Prelude.{◌≡◌, ◌&&◌, ◌∷◌, ◌||◌, IfOk, Some, drop, length, map, nat_eq, not, take};
ghost use Rattle.cic_terms.specs.Denotes.{tree};
ghost use Rattle.cic_rules.specs.Environment.{element};
ghost use Rattle.cic_rules.specs.Nested.{instance_of};
ghost use Rattle.cic_rules.specs.Telescopes.{conclusion_of, domains_of, head_of};
ghost use Rattle.cic_counted.specs.BlockTests.{is_shaped, occurs_in_any};
ghost use Rattle.cic_counted.specs.NestedTest.{are_positive_arguments, are_positive_constructors, are_positive_types, is_arity_length, is_conclusion, is_instance, is_nested};
ghost use Rattle.cic_counted.specs.Readings.{arguments_of, instantiate};
ghost use Rattle.cic_env.specs.Declarations.{block, constructor_declaration, type_declaration};
ghost use Rattle.cic_env.specs.Environments.{items};
ghost use Rattle.cic_env.specs.Readers.{type_in_block};
ghost use Rattle.cic_positivity.specs.calls.Parts.{ids_of};
ghost use Rattle.cic_spines.specs.Lists.{shared_trees};
ghost use Rattle.nested_ind.specs.calls.Instances.{instance, instances};
ghost use Rattle.nested_ind.specs.calls.Steps.{are_positive_domains, new_at, positive_at};

use crate::instances::{Instance, copied_all, copied_terms, is_known, lifted_all, with_first};
use crate::small::{small_arguments, small_indices};
use cic_env::{Block, CtorDecl, Env, IndType};
use cic_ind::concludes;
use cic_positivity::{Shape, is_among, is_applied_among, occurs, occurs_behind, shaped};
use cic_spines::{arguments, head};
use cic_terms::Term;
use memory::NoMemory;
use std::alloc::Global;
use std::rc::Rc;

/// What stays through the test: the environment, and the types that are to be positive.
#[derive(Drop)]
pub(crate) struct Test<'e> {
    pub(crate) alloc: Global,
    pub(crate) env: &'e Env,
    pub(crate) types: &'e [IndType],
}

/// Whether the application has as many arguments as the type has products.
fn as_many(t: &Term, ty: &Term) -> bool
    ensures { result ≡ nat_eq (length (arguments_of (tree t.now))) (length (domains_of (tree ty.now))) }
{
    let mut at = t;
    let mut left = ty;
    while let Term::Prod(_, rest) = left {
        let Term::App(function, _) = at else {
            return false;
        };
        at = function;
        left = rest;
    }
    match at {
        Term::App(_, _) => false,
        _ => true,
    }
}

/// Whether the application has as many arguments as the arity of this type of the block wants.
fn is_at_arity(b: &Block, index: u32, t: &Term) -> bool
    ensures { result ≡ is_arity_length (length (arguments_of (tree t.now))) (element (map type_declaration b.now.types.items) index) }
{
    match b.types.get(index as usize) {
        None => false,
        Some(ty) => as_many(t, &ty.arity),
    }
}

fn is_shaped(b: &Block) -> bool
    ensures { result ≡ is_shaped (block b.now) }
{
    match shaped(b) {
        Shape::Good => true,
        _ => false,
    }
}

/// Whether the application is of a type of a block as that wants it, with none of the types in its indices.
fn is_of_block(types: &[IndType], t: &Term, b: &Block, index: u32) -> bool
    ensures { result ≡ (is_shaped (block b.now) && is_arity_length (length (arguments_of (tree t.now))) (element (map type_declaration b.now.types.items) index) && not (occurs_in_any (ids_of types.now) (drop b.now.params (arguments_of (tree t.now))))) }
{
    is_shaped(b) && is_at_arity(b, index, t) && !occurs_behind(types, b.params, t)
}

/// The instance of the block that the application is at.
fn instance_at<'e>(alloc: Global, t: &Term, b: &'e Block) -> Result<Instance<'e>, NoMemory>
    ensures instance { IfOk result (λ r. instance r ≡ instance_of (block b.now) (take b.now.params (arguments_of (tree t.now)))) }
    ensures types { IfOk result (λ r. r.types.now ≡ b.now.types.items) }
{
    let mut parameters = arguments(alloc, t)?;
    parameters.truncate(b.params as usize);
    Ok(Instance {
        types: b.types.as_slice(),
        parameters,
    })
}

fn occur_in_any(types: &[IndType], terms: &[Rc<Term>]) -> bool
    ensures { result ≡ occurs_in_any (ids_of types.now) (shared_trees terms.now) }
{
    for term in terms {
        if occurs(types, term) {
            return true;
        }
    }
    false
}

/// Whether the conclusion of a constructor with parameters put in is a type at small indices without the types.
fn has_conclusion(test: &Test, parameters: &[Rc<Term>], ctor: &CtorDecl) -> Result<bool, NoMemory>
    ensures { let conclusion = conclusion_of (instantiate (shared_trees parameters.now) (tree ctor.now.ty)) in
        IfOk result (λ r. r ≡ is_conclusion (items test.now.env.now) (ids_of test.now.types.now) (length (shared_trees parameters.now)) (head_of conclusion) (arguments_of conclusion)) }
{
    if !concludes(test.alloc, ctor, parameters)? {
        return Ok(false);
    }
    match small_indices(test.alloc, ctor, parameters)? {
        None => Ok(false),
        Some(indices) => Ok(!occur_in_any(test.types, indices.as_slice())),
    }
}

/// Whether the types are strictly positive in the term, under these instances, with so many more left to be added.
#[cycle(positive)]
pub(crate) fn is_positive<'e>(
    test: &Test<'e>,
    left: u32,
    known: &[Instance<'e>],
    t: &Term,
) -> Result<bool, NoMemory>
    ensures { IfOk result (λ r. r ≡ positive_at (items test.now.env.now) (ids_of test.now.types.now) left (instances known.now) (tree t.now)) }
{
    if !occurs(test.types, t) {
        return Ok(true);
    }
    let mut under = copied_all(test.alloc, known)?;
    let mut at = t;
    while let Term::Prod(domain, rest) = at {
        if occurs(test.types, domain) {
            return Ok(false);
        }
        let Some(lifted) = lifted_all(test.alloc, under.as_slice())? else {
            return Ok(false);
        };
        under = lifted;
        at = rest;
    }
    if is_applied_among(test.types, at) {
        return Ok(true);
    }
    is_nested(test, left, under.as_slice(), at)
}

/// Whether the term is a type of another block at an instance in which they are positive.
#[cycle(positive)]
fn is_nested<'e>(
    test: &Test<'e>,
    left: u32,
    known: &[Instance<'e>],
    t: &Term,
) -> Result<bool, NoMemory>
    ensures { let E = items test.now.env.now in let ids = ids_of test.now.types.now in
        IfOk result (λ r. r ≡ is_nested E ids (new_at E ids left) (instances known.now) (head_of (tree t.now)) (arguments_of (tree t.now))) }
{
    let Term::Ind(id) = head(t) else {
        return Ok(false);
    };
    if is_among(id, test.types) {
        return Ok(false);
    }
    let Some((b, index)) = test.env.whole_block(id) else {
        return Ok(false);
    };
    is_instance(test, left, known, t, b, index)
}

/// The same of a term whose head is a type of this block.
#[cycle(positive)]
fn is_instance<'e>(
    test: &Test<'e>,
    left: u32,
    known: &[Instance<'e>],
    t: &Term,
    b: &'e Block,
    index: u32,
) -> Result<bool, NoMemory>
    ensures { let E = items test.now.env.now in let ids = ids_of test.now.types.now in
        IfOk result (λ r. r ≡ is_instance E ids (new_at E ids left) (instances known.now) (arguments_of (tree t.now)) (Some (type_in_block (block b.now) index))) }
{
    if !is_of_block(test.types, t, b, index) {
        return Ok(false);
    }
    let one = instance_at(test.alloc, t, b)?;
    if is_known(&one, known) {
        return Ok(true);
    }
    is_new(test, left, known, one)
}

/// Whether they are positive in the types of an instance that is added.
#[cycle(positive)]
fn is_new<'e>(
    test: &Test<'e>,
    left: u32,
    known: &[Instance<'e>],
    one: Instance<'e>,
) -> Result<bool, NoMemory>
    ensures { let E = items test.now.env.now in let ids = ids_of test.now.types.now in
        IfOk result (λ r. r ≡ new_at E ids left (instance one.entry ∷ instances known.now) (shared_trees one.entry.parameters.items) (map type_declaration one.entry.types.now)) }
{
    if left == 0 {
        return Ok(false);
    }
    let types = one.types;
    let parameters = copied_terms(test.alloc, one.parameters.as_slice())?;
    let all = with_first(test.alloc, one, known)?;
    are_positive_types(test, left - 1, all.as_slice(), parameters.as_slice(), types)
}

#[cycle(positive)]
fn are_positive_types<'e>(
    test: &Test<'e>,
    left: u32,
    known: &[Instance<'e>],
    parameters: &[Rc<Term>],
    types: &[IndType],
) -> Result<bool, NoMemory>
    ensures { let E = items test.now.env.now in let ids = ids_of test.now.types.now in
        IfOk result (λ r. r ≡ are_positive_types E ids (positive_at E ids left) (instances known.now) (shared_trees parameters.now) (map type_declaration types.now)) }
{
    for ty in types {
        if !are_positive_constructors(test, left, known, parameters, ty.ctors.as_slice())? {
            return Ok(false);
        }
    }
    Ok(true)
}

#[cycle(positive)]
fn are_positive_constructors<'e>(
    test: &Test<'e>,
    left: u32,
    known: &[Instance<'e>],
    parameters: &[Rc<Term>],
    ctors: &[CtorDecl],
) -> Result<bool, NoMemory>
    ensures { let E = items test.now.env.now in let ids = ids_of test.now.types.now in
        IfOk result (λ r. r ≡ are_positive_constructors E ids (positive_at E ids left) (instances known.now) (shared_trees parameters.now) (map constructor_declaration ctors.now)) }
{
    for ctor in ctors {
        if !are_positive_arguments(test, left, known, parameters, ctor)? {
            return Ok(false);
        }
    }
    Ok(true)
}

/// Whether they are positive in each argument of a constructor with the parameters put in, and occur in no index of its conclusion.
#[cycle(positive)]
fn are_positive_arguments<'e>(
    test: &Test<'e>,
    left: u32,
    known: &[Instance<'e>],
    parameters: &[Rc<Term>],
    ctor: &CtorDecl,
) -> Result<bool, NoMemory>
    ensures { let E = items test.now.env.now in let ids = ids_of test.now.types.now in let us = shared_trees parameters.now in
        IfOk result (λ r. r ≡ are_positive_arguments E ids (positive_at E ids left) (instances known.now) (length us) (instantiate us (tree ctor.now.ty))) }
{
    if !has_conclusion(test, parameters, ctor)? {
        return Ok(false);
    }
    match small_arguments(test.alloc, ctor, parameters)? {
        None => Ok(false),
        Some(domains) => are_positive_domains(test, left, known, domains.as_slice()),
    }
}

/// Whether they are positive in each of these domains, each of which stands under the earlier ones.
#[cycle(positive)]
fn are_positive_domains<'e>(
    test: &Test<'e>,
    left: u32,
    known: &[Instance<'e>],
    domains: &[Rc<Term>],
) -> Result<bool, NoMemory>
    ensures { let E = items test.now.env.now in let ids = ids_of test.now.types.now in
        IfOk result (λ r. r ≡ are_positive_domains (positive_at E ids left) (instances known.now) (shared_trees domains.now)) }
{
    let mut under = copied_all(test.alloc, known)?;
    for domain in domains {
        if !is_positive(test, left, under.as_slice(), domain)? {
            return Ok(false);
        }
        let Some(lifted) = lifted_all(test.alloc, under.as_slice())? else {
            return Ok(false);
        };
        under = lifted;
    }
    Ok(true)
}
