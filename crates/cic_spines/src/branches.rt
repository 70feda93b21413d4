//! The branch of a `match` that a constructor selects.
ghost use Rattle.std.specs.Prelude.{Some};
ghost use Rattle.cic_terms.specs.Denotes.{branches};
ghost use Rattle.cic_rules.specs.Telescopes.{branch_at};
ghost use Rattle.cic_counted.specs.Evaluation.{branch_result};
ghost use Rattle.cic_spines.specs.Lists.{shared_trees};
ghost use Rattle.cic_spines.specs.calls.Parts.{branch_parts};
ghost use Rattle.cic_spines.specs.Optional.{MakesIfAny};

use crate::several::substitute_all;
use cic_terms::{Branch, Branches, Term, TermFault};
use std::alloc::Global;
use std::rc::Rc;

/// The branch at `place`, with the arguments behind the first `parameters` put in for its binders. Gives nothing where there is no such branch, or it binds another number of arguments.
pub fn branch_result(
    alloc: Global,
    parameters: usize,
    arguments: &[Rc<Term>],
    all: &Branches,
    place: usize,
) -> Result<Option<Rc<Term>>, TermFault>
    ensures { MakesIfAny 4000 (branch_result parameters (shared_trees arguments.now) (branch_at (branches all.now) place)) result }
{
    match all.as_slice().get(place) {
        None => Ok(None),
        Some(branch) => with_arguments(alloc, parameters, arguments, branch),
    }
}

fn with_arguments(
    alloc: Global,
    parameters: usize,
    arguments: &[Rc<Term>],
    branch: &Branch,
) -> Result<Option<Rc<Term>>, TermFault>
    ensures { MakesIfAny 4000 (branch_result parameters (shared_trees arguments.now) (Some (branch_parts branch.now))) result }
{
    let binders = branch.binders as usize;
    if arguments.len() < parameters || arguments.len() - parameters != binders {
        return Ok(None);
    }
    let body = Rc::new(alloc, branch.body.clone()?)?;
    Ok(Some(substitute_all(alloc, &body, &arguments[parameters..])?))
}
