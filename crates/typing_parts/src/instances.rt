//! Terms that a match makes, within the limits of a term.
ghost use Rattle.std.specs.Prelude.{◌≡◌, ◌++◌, ◌∷◌, [], IfOk};
ghost use Rattle.cic_terms.specs.Denotes.{tree};
ghost use Rattle.cic_terms.specs.Tree.{app, ind, rel};
ghost use Rattle.cic_rules.specs.Telescopes.{apply, domains_of, lift_all, substitute_all, variables};
ghost use Rattle.cic_counted.specs.Inference.{branch_goal};
ghost use Rattle.cic_counted.specs.Outcome.{fitting, fitting_all};
ghost use Rattle.cic_counted.specs.Readings.{instantiate};
ghost use Rattle.cic_env.specs.Declarations.{constructor_declaration};
ghost use Rattle.cic_spines.specs.Lists.{shared_tree, shared_trees};
ghost use Rattle.cic_spines.specs.Several.{MakesEach};
ghost use Rattle.cic_work.specs.calls.Counting.{Counts, budget};
ghost use Rattle.typing_parts.specs.calls.Parts.{made_trees};

use cic_env::{CtorDecl, IndType};
use cic_ind::{arguments, goal, indices};
use cic_names::GlobalId;
use cic_spines::{apply, substitute_all};
use cic_terms::{Term, TermFault, lift_shared};
use cic_work::{Stop, Work};
use memory::NoMemory;
use std::alloc::Global;
use std::rc::Rc;

/// The types of the indices of a type with the parameters put in.
#[inline(never)]
#[tactic(auto, using(cic_limits::proofs::Limits::each_fits))]
pub fn index_types(
    alloc: Global,
    ty: &IndType,
    parameters: &[Rc<Term>],
    work: &Work,
) -> Result<Vec<Rc<Term>>, Stop>
    ensures { Counts made_trees result (budget work.now) (fitting_all (domains_of (instantiate (shared_trees parameters.now) (tree ty.now.arity))) (budget work.now)) }
{
    match indices(alloc, ty, parameters) {
        Ok(made) => Ok(made),
        Err(fault) => Err(Stop::of(fault)),
    }
}

/// The types of the arguments of a constructor with the parameters put in.
#[inline(never)]
#[tactic(auto, using(cic_limits::proofs::Limits::each_fits))]
pub fn argument_types(
    alloc: Global,
    ctor: &CtorDecl,
    parameters: &[Rc<Term>],
    work: &Work,
) -> Result<Vec<Rc<Term>>, Stop>
    ensures { Counts made_trees result (budget work.now) (fitting_all (domains_of (instantiate (shared_trees parameters.now) (tree ctor.now.ty))) (budget work.now)) }
{
    match arguments(alloc, ctor, parameters) {
        Ok(made) => Ok(made),
        Err(fault) => Err(Stop::of(fault)),
    }
}

/// The type of a branch under its constructor's arguments.
#[inline(never)]
#[tactic(auto, using(cic_limits::proofs::Limits::made_fits, cic_limits::proofs::Limits::made_deep))]
pub fn branch_type(
    alloc: Global,
    indices: u32,
    parameters: &[Rc<Term>],
    motive: &Rc<Term>,
    ctor: &CtorDecl,
    work: &Work,
) -> Result<Rc<Term>, Stop>
    ensures { Counts shared_tree result (budget work.now) (fitting (branch_goal indices (shared_trees parameters.now) (shared_tree motive.now) (constructor_declaration ctor.now)) (budget work.now)) }
{
    match goal(alloc, indices, parameters, motive, ctor) {
        Ok(made) => Ok(made),
        Err(fault) => Err(Stop::of(fault)),
    }
}

/// Each of the terms lifted past `by` binders.
fn lift_each(alloc: Global, terms: &[Rc<Term>], by: u32) -> Result<Vec<Rc<Term>>, TermFault>
    ensures { MakesEach (lift_all by (shared_trees terms.now)) result }
{
    let mut made = Vec::new(alloc);
    for term in terms {
        made.push(lift_shared(alloc, term, 0, by)?)?;
    }
    Ok(made)
}

/// The parameters under the indices of their type.
#[inline(never)]
#[tactic(auto, using(cic_limits::proofs::Limits::each_fits))]
pub fn under_indices(
    alloc: Global,
    parameters: &[Rc<Term>],
    indices: u32,
    work: &Work,
) -> Result<Vec<Rc<Term>>, Stop>
    ensures { Counts made_trees result (budget work.now) (fitting_all (lift_all indices (shared_trees parameters.now)) (budget work.now)) }
{
    match lift_each(alloc, parameters, indices) {
        Ok(made) => Ok(made),
        Err(fault) => Err(Stop::of(fault)),
    }
}

/// A type as it stands.
#[inline(never)]
fn type_itself(alloc: Global, id: &GlobalId) -> Result<Rc<Term>, NoMemory>
    ensures { IfOk result (λ r. shared_tree r ≡ ind id.now) }
{
    Ok(Rc::new(alloc, Term::Ind(id.clone()?))?)
}

#[inline(never)]
fn apply_variable(alloc: Global, function: Rc<Term>, variable: u32) -> Result<Rc<Term>, NoMemory>
    ensures { IfOk result (λ r. shared_tree r ≡ app (shared_tree function) (rel variable)) }
{
    let argument = Rc::new(alloc, Term::Rel(variable))?;
    Ok(Rc::new(alloc, Term::App(function, argument))?)
}

/// The function applied to the variables of the innermost binders, the outermost first.
fn apply_variables(alloc: Global, function: Rc<Term>, count: u32) -> Result<Rc<Term>, NoMemory>
    ensures { IfOk result (λ r. shared_tree r ≡ apply (shared_tree function) (variables count)) }
{
    let mut applied = function;
    for passed in 0..count {
        applied = apply_variable(alloc, applied, count - 1 - passed)?;
    }
    Ok(applied)
}

/// The type of the value of a match, under the indices, under which the parameters stand.
#[inline(never)]
#[tactic(auto, using(crate::proofs::Applications::applied_to_both))]
pub fn value_type(
    alloc: Global,
    id: &GlobalId,
    parameters: &[Rc<Term>],
    indices: u32,
) -> Result<Rc<Term>, NoMemory>
    ensures { IfOk result (λ r. shared_tree r ≡ apply (ind id.now) (shared_trees parameters.now ++ variables indices)) }
{
    let head = type_itself(alloc, id)?;
    let applied = apply(alloc, head, parameters)?;
    apply_variables(alloc, applied, indices)
}

/// The terms with one more behind them.
#[inline(never)]
fn with_one_more(
    alloc: Global,
    terms: &[Rc<Term>],
    last: &Rc<Term>,
) -> Result<Vec<Rc<Term>>, NoMemory>
    ensures { IfOk result (λ made. shared_trees made.items ≡ shared_trees terms.now ++ shared_tree last.now ∷ []) }
{
    let mut made = Vec::new(alloc);
    for term in terms {
        made.push(term.clone()?)?;
    }
    made.push(last.clone()?)?;
    Ok(made)
}

/// The terms put in for the innermost binders.
#[inline(never)]
#[tactic(auto, using(cic_limits::proofs::Limits::made_fits, cic_limits::proofs::Limits::made_deep))]
fn put_in(alloc: Global, t: &Rc<Term>, terms: &[Rc<Term>], work: &Work) -> Result<Rc<Term>, Stop>
    ensures { Counts shared_tree result (budget work.now) (fitting (substitute_all (shared_trees terms.now) (shared_tree t.now)) (budget work.now)) }
{
    match substitute_all(alloc, t, terms) {
        Ok(made) => Ok(made),
        Err(fault) => Err(Stop::of(fault)),
    }
}

/// The type of a match: its motive at the indices' values and the value.
#[inline(never)]
pub fn match_type(
    alloc: Global,
    motive: &Rc<Term>,
    values: &[Rc<Term>],
    scrutinee: &Rc<Term>,
    work: &Work,
) -> Result<Rc<Term>, Stop>
    ensures { Counts shared_tree result (budget work.now) (fitting (substitute_all (shared_trees values.now ++ shared_tree scrutinee.now ∷ []) (shared_tree motive.now)) (budget work.now)) }
{
    let terms = with_one_more(alloc, values, scrutinee)?;
    put_in(alloc, motive, terms.as_slice(), work)
}
