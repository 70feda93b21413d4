//! Types of a block with parameters put in. Where several terms are put in, or one is lifted and then put in, the result alone is judged by the limits.
ghost use Rattle.std.specs.Prelude.{◌≡◌, IfOk, drop, length};
ghost use Rattle.cic_terms.specs.Denotes.{tree};
ghost use Rattle.cic_terms.specs.calls.Answer.{MakesShared};
ghost use Rattle.cic_rules.specs.Telescopes.{conclusion_of, domains_of, head_of};
ghost use Rattle.cic_counted.specs.Inference.{branch_goal};
ghost use Rattle.cic_counted.specs.Readings.{arguments_of, instantiate};
ghost use Rattle.cic_env.specs.Declarations.{constructor_declaration};
ghost use Rattle.cic_spines.specs.Lists.{shared_tree, shared_trees};
ghost use Rattle.cic_spines.specs.Several.{MakesEach};
ghost use Rattle.cic_ind.specs.Conclusions.{is_type};

use crate::goals::{Goal, at_constructor};
use crate::pending::{Part, instance, is_type, make_each, take_apart, take_spine};
use cic_env::{CtorDecl, IndType};
use cic_terms::{Term, TermFault};
use memory::NoMemory;
use std::alloc::Global;
use std::rc::Rc;

/// The domains of a type with parameters put in, each under the earlier ones.
fn domains(alloc: Global, ty: &Term, parameters: &[Rc<Term>]) -> Result<Vec<Rc<Term>>, TermFault>
    ensures { MakesEach (domains_of (instantiate (shared_trees parameters.now) (tree ty.now))) result }
{
    let ty = instance(ty, parameters);
    let opened = take_apart(alloc, &ty)?;
    make_each(alloc, opened.domains.as_slice())
}

/// The types of the indices of a type with the parameters put in, each under the earlier ones.
pub fn indices(
    alloc: Global,
    ty: &IndType,
    parameters: &[Rc<Term>],
) -> Result<Vec<Rc<Term>>, TermFault>
    ensures { MakesEach (domains_of (instantiate (shared_trees parameters.now) (tree ty.now.arity))) result }
{
    domains(alloc, &ty.arity, parameters)
}

/// The types of the arguments of a constructor with the parameters put in, each under the earlier ones.
pub fn arguments(
    alloc: Global,
    ctor: &CtorDecl,
    parameters: &[Rc<Term>],
) -> Result<Vec<Rc<Term>>, TermFault>
    ensures { MakesEach (domains_of (instantiate (shared_trees parameters.now) (tree ctor.now.ty))) result }
{
    domains(alloc, &ctor.ty, parameters)
}

/// Whether the conclusion of a constructor with the parameters put in is an inductive type applied.
pub fn concludes(alloc: Global, ctor: &CtorDecl, parameters: &[Rc<Term>]) -> Result<bool, NoMemory>
    ensures { IfOk result (λ r. r ≡ is_type (head_of (conclusion_of (instantiate (shared_trees parameters.now) (tree ctor.now.ty))))) }
{
    let ty = instance(&ctor.ty, parameters);
    let opened = take_apart(alloc, &ty)?;
    let spine = take_spine(alloc, &opened.conclusion)?;
    Ok(is_type(&spine.head))
}

/// The arguments of the conclusion of a constructor with the parameters put in, behind as many as there are parameters: the indices, where it makes a type of its block.
pub fn conclusion_indices(
    alloc: Global,
    ctor: &CtorDecl,
    parameters: &[Rc<Term>],
) -> Result<Vec<Rc<Term>>, TermFault>
    ensures { MakesEach (drop (length (shared_trees parameters.now)) (arguments_of (conclusion_of (instantiate (shared_trees parameters.now) (tree ctor.now.ty))))) result }
{
    let ty = instance(&ctor.ty, parameters);
    let opened = take_apart(alloc, &ty)?;
    let spine = take_spine(alloc, &opened.conclusion)?;
    make_each(alloc, behind(parameters.len(), spine.arguments.as_slice()))
}

/// The type of a branch under its constructor's arguments: the motive, which stands under `indices` indices and the value, at the constructor's indices and the constructor applied.
pub fn goal(
    alloc: Global,
    indices: u32,
    parameters: &[Rc<Term>],
    motive: &Rc<Term>,
    ctor: &CtorDecl,
) -> Result<Rc<Term>, TermFault>
    ensures { MakesShared 4000 (branch_goal indices (shared_trees parameters.now) (shared_tree motive.now) (constructor_declaration ctor.now)) result }
{
    let ty = instance(&ctor.ty, parameters);
    let opened = take_apart(alloc, &ty)?;
    let Ok(more) = u32::try_from(opened.domains.len()) else {
        return Err(TermFault::NoMemory);
    };
    let spine = take_spine(alloc, &opened.conclusion)?;
    let goal = Goal {
        ctor: &ctor.id,
        parameters,
        arguments: behind(parameters.len(), spine.arguments.as_slice()),
        indices,
        more,
    };
    at_constructor(alloc, motive, &goal)
}

/// The parts behind the first `count`.
fn behind<'a>(count: usize, parts: &'a [Part<'a>]) -> &'a [Part<'a>]
    ensures { result.now ≡ drop count parts.now }
{
    if count < parts.len() {
        &parts[count..]
    } else {
        &parts[parts.len()..]
    }
}
