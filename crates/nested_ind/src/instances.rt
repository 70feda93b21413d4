//! Instances of blocks: their types at terms for the parameters.
ghost use Rattle.std.specs.Prelude.{◌≡◌, ◌∷◌, IfOk};
ghost use Rattle.std.specs.Cmp.Lexicographic.{pointwise};
ghost use Rattle.std.specs.List.{list_any};
ghost use Rattle.cic_names.specs.Sameness.{same_id};
ghost use Rattle.cic_rules.specs.Nested.{lift_instances};
ghost use Rattle.cic_counted.specs.BlockTests.{same_trees};
ghost use Rattle.cic_counted.specs.NestedTest.{same_instance};
ghost use Rattle.cic_positivity.specs.calls.Parts.{ids_of};
ghost use Rattle.cic_spines.specs.Lists.{shared_trees};
ghost use Rattle.nested_ind.specs.calls.Instances.{AreLifted, IsLifted, instance, instances};

use crate::small::small_lifted;
use cic_env::IndType;
use cic_terms::{Term, same};
use memory::NoMemory;
use std::alloc::Global;
use std::rc::Rc;

/// The types of a block, at terms for its parameters.
#[derive(Drop)]
pub(crate) struct Instance<'e> {
    pub(crate) types: &'e [IndType],
    pub(crate) parameters: Vec<Rc<Term>>,
}

/// The same terms, which are shared.
pub(crate) fn copied_terms(alloc: Global, terms: &[Rc<Term>]) -> Result<Vec<Rc<Term>>, NoMemory>
    ensures { IfOk result (λ r. shared_trees r.items ≡ shared_trees terms.now) }
{
    let mut copies = Vec::new(alloc);
    for term in terms {
        copies.push(term.clone()?)?;
    }
    Ok(copies)
}

fn copied<'e>(alloc: Global, one: &Instance<'e>) -> Result<Instance<'e>, NoMemory>
    ensures { IfOk result (λ r. instance r ≡ instance one.now) }
{
    let parameters = copied_terms(alloc, one.parameters.as_slice())?;
    Ok(Instance {
        types: one.types,
        parameters,
    })
}

/// The same instances.
pub(crate) fn copied_all<'e>(
    alloc: Global,
    all: &[Instance<'e>],
) -> Result<Vec<Instance<'e>>, NoMemory>
    ensures { IfOk result (λ r. instances r.items ≡ instances all.now) }
{
    let mut copies = Vec::new(alloc);
    for one in all {
        copies.push(copied(alloc, one)?)?;
    }
    Ok(copies)
}

/// The instance before the others.
pub(crate) fn with_first<'e>(
    alloc: Global,
    first: Instance<'e>,
    others: &[Instance<'e>],
) -> Result<Vec<Instance<'e>>, NoMemory>
    ensures { IfOk result (λ r. instances r.items ≡ instance first.entry ∷ instances others.now) }
{
    let mut all = Vec::new(alloc);
    all.push(first)?;
    for other in others {
        all.push(copied(alloc, other)?)?;
    }
    Ok(all)
}

/// The instance under one more binder, where its terms are within the limits.
fn lifted<'e>(alloc: Global, one: &Instance<'e>) -> Result<Option<Instance<'e>>, NoMemory>
    ensures { IfOk result (λ r. IsLifted (instance one.now) r) }
{
    match small_lifted(alloc, one.parameters.as_slice())? {
        None => Ok(None),
        Some(parameters) => Ok(Some(Instance {
            types: one.types,
            parameters,
        })),
    }
}

/// The instances under one more binder, where all their terms are within the limits.
pub(crate) fn lifted_all<'e>(
    alloc: Global,
    all: &[Instance<'e>],
) -> Result<Option<Vec<Instance<'e>>>, NoMemory>
    ensures { IfOk result (λ r. AreLifted (instances all.now) r) }
{
    let mut made = Vec::new(alloc);
    for one in all {
        let Some(one) = lifted(alloc, one)? else {
            return Ok(None);
        };
        made.push(one)?;
    }
    Ok(Some(made))
}

fn same_types(some: &[IndType], other: &[IndType]) -> bool
    ensures { result ≡ pointwise same_id (ids_of some.now) (ids_of other.now) }
{
    if some.len() != other.len() {
        return false;
    }
    for i in 0..some.len() {
        if some[i].id != other[i].id {
            return false;
        }
    }
    true
}

fn same_parameters(some: &[Rc<Term>], other: &[Rc<Term>]) -> bool
    ensures { result ≡ same_trees (shared_trees some.now) (shared_trees other.now) }
{
    if some.len() != other.len() {
        return false;
    }
    for i in 0..some.len() {
        if !same(&some[i], &other[i]) {
            return false;
        }
    }
    true
}

fn is_same(one: &Instance, other: &Instance) -> bool
    ensures { result ≡ same_instance (instance one.now) (instance other.now) }
{
    same_types(one.types, other.types)
        && same_parameters(one.parameters.as_slice(), other.parameters.as_slice())
}

/// Whether the instance is one of these.
pub(crate) fn is_known(one: &Instance, all: &[Instance]) -> bool
    ensures { result ≡ list_any (same_instance (instance one.now)) (instances all.now) }
{
    for other in all {
        if is_same(one, other) {
            return true;
        }
    }
    false
}
