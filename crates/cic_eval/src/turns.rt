//! Turns of the loop of evaluation that call nothing counted.
ghost use Rattle.std.specs.Prelude.{◌≡◌, ◌≤◌, IfOk, true};
ghost use Rattle.cic_terms.specs.Denotes.{tree, branches};
ghost use Rattle.cic_terms.specs.calls.Kinds.{IsCase};
ghost use Rattle.cic_terms.specs.Lift.{subst_tree};
ghost use Rattle.cic_terms.specs.Tree.{app, const, rel};
ghost use Rattle.cic_rules.specs.Environment.{body_at, transparent_body};
ghost use Rattle.cic_rules.specs.Telescopes.{apply, head_of};
ghost use Rattle.cic_counted.specs.Evaluation.{constant_turn, is_constructor, matched, match_turn, recursive_turn, reduce, variable_turn};
ghost use Rattle.cic_counted.specs.Readings.{arguments_of};
ghost use Rattle.cic_env.specs.Contexts.{context};
ghost use Rattle.cic_env.specs.Environments.{items};
ghost use Rattle.cic_spines.specs.Lists.{shared_tree};
ghost use Rattle.cic_spines.specs.Optional.{MakesIfAny};
ghost use Rattle.cic_work.specs.calls.Counting.{Counts, budget};
ghost use Rattle.cic_eval.specs.calls.Turns.{Falls, is_there, selection, the_tree, turned, unfolds_to, with_value};

use crate::judged::{lifted, put_in, unfold};
use cic_env::{Context, Env};
use cic_names::GlobalId;
use cic_spines::{apply, arguments, branch_result, head};
use cic_terms::{Branches, Term, TermFault};
use cic_work::{Stop, Work};
use memory::NoMemory;
use std::alloc::Global;
use std::rc::Rc;

/// What a turn of the loop gives.
#[derive(Drop)]
pub(crate) enum Turn {
    /// The weak head normal form.
    Answer(Rc<Term>),
    /// The term to go on with.
    Again(Rc<Term>),
}

/// A step to the term with `with` put in for its innermost binder.
#[inline(never)]
#[tactic(auto, using(cic_work::proofs::Depths::stops_on))]
pub(crate) fn substitution_turn(
    alloc: Global,
    t: &Rc<Term>,
    with: &Rc<Term>,
    work: &mut Work,
) -> Result<Turn, Stop>
    ensures answer { Counts turned result (budget work.new) (reduce (subst_tree 0 (shared_tree with.now) (shared_tree t.now)) (budget work.old)) }
    ensures depth { work.new.depth ≡ work.old.depth }
    ensures rest { work.new.rest ≤ work.old.rest }
    ensures falls { IfOk result (λ turn. Falls turn work.old.rest work.new.rest) }
{
    work.step()?;
    Ok(Turn::Again(put_in(alloc, t, with)?))
}

/// A variable: a step to its body, where it has one. More entries than a number tells apart fit into no memory.
#[inline(never)]
#[tactic(auto, using(cic_work::proofs::Depths::stops_on))]
pub(crate) fn variable_turn(
    alloc: Global,
    ctx: &Context,
    t: &Rc<Term>,
    x: u32,
    work: &mut Work,
) -> Result<Turn, Stop>
    requires { shared_tree t.now ≡ rel x }
    ensures answer { Counts turned result (budget work.new) (variable_turn (body_at (context ctx.now) x) x (budget work.old)) }
    ensures depth { work.new.depth ≡ work.old.depth }
    ensures rest { work.new.rest ≤ work.old.rest }
    ensures falls { IfOk result (λ turn. Falls turn work.old.rest work.new.rest) }
{
    match ctx.body(x) {
        None => Ok(Turn::Answer(t.clone()?)),
        Some(body) => {
            if x == u32::MAX {
                return Err(Stop::NoMemory);
            }
            work.step()?;
            Ok(Turn::Again(lifted(alloc, body, x + 1)?))
        }
    }
}

/// A constant: a step to its body, where it is transparent.
#[inline(never)]
#[tactic(auto, using(cic_work::proofs::Depths::stops_on))]
pub(crate) fn constant_turn(
    alloc: Global,
    env: &Env,
    t: &Rc<Term>,
    id: &GlobalId,
    work: &mut Work,
) -> Result<Turn, Stop>
    requires { shared_tree t.now ≡ const id.now }
    ensures answer { Counts turned result (budget work.new) (constant_turn (transparent_body (items env.now) id.now) id.now (budget work.old)) }
    ensures depth { work.new.depth ≡ work.old.depth }
    ensures rest { work.new.rest ≤ work.old.rest }
    ensures falls { IfOk result (λ turn. Falls turn work.old.rest work.new.rest) }
{
    match env.transparent_body(id) {
        None => Ok(Turn::Answer(t.clone()?)),
        Some(body) => {
            work.step()?;
            Ok(Turn::Again(shared_copy(alloc, body)?))
        }
    }
}

/// A copy behind a pointer, which shares the parts.
#[inline(never)]
fn shared_copy(alloc: Global, t: &Term) -> Result<Rc<Term>, NoMemory>
    ensures { IfOk result (λ r. shared_tree r ≡ tree t.now) }
{
    Ok(Rc::new(alloc, t.clone()?)?)
}

/// An application as it stands.
#[inline(never)]
pub(crate) fn applied(alloc: Global, f: &Rc<Term>, u: &Rc<Term>) -> Result<Rc<Term>, NoMemory>
    ensures { IfOk result (λ r. shared_tree r ≡ app (shared_tree f.now) (shared_tree u.now)) }
{
    Ok(Rc::new(alloc, Term::App(f.clone()?, u.clone()?))?)
}

/// Whether a term is a constructor under arguments.
fn is_constructed(t: &Term) -> bool
    ensures { result ≡ is_constructor (head_of (tree t.now)) }
{
    match head(t) {
        Term::Ctor(_) => true,
        _ => false,
    }
}

/// A function of a `fix` under the arguments before its recursive one, whose value is `v`: a step where that is a constructor under arguments.
#[inline(never)]
#[tactic(auto, using(cic_work::proofs::Depths::stops_on))]
pub(crate) fn recursive_turn(
    alloc: Global,
    f: &Rc<Term>,
    u: &Rc<Term>,
    v: &Rc<Term>,
    work: &mut Work,
) -> Result<Turn, Stop>
    requires { is_there (unfolds_to (shared_tree f.now)) ≡ true }
    ensures answer { Counts turned result (budget work.new) (recursive_turn (shared_tree f.now) (shared_tree u.now) (shared_tree v.now) (the_tree (unfolds_to (shared_tree f.now))) (budget work.old)) }
    ensures depth { work.new.depth ≡ work.old.depth }
    ensures rest { work.new.rest ≤ work.old.rest }
    ensures falls { IfOk result (λ turn. Falls turn work.old.rest work.new.rest) }
{
    if !is_constructed(v) {
        return Ok(Turn::Answer(applied(alloc, f, u)?));
    }
    work.step()?;
    let unfolded = unfold(alloc, f)?;
    Ok(Turn::Again(applied_again(alloc, unfolded, f, v)?))
}

/// What a function unfolds to, under the arguments of `f` and then the value of the recursive one.
#[inline(never)]
fn applied_again(
    alloc: Global,
    unfolded: Rc<Term>,
    f: &Rc<Term>,
    v: &Rc<Term>,
) -> Result<Rc<Term>, NoMemory>
    ensures { IfOk result (λ r. shared_tree r ≡ app (apply (shared_tree unfolded) (arguments_of (shared_tree f.now))) (shared_tree v.now)) }
{
    let before = arguments(alloc, f)?;
    let function = apply(alloc, unfolded, before.as_slice())?;
    Ok(Rc::new(alloc, Term::App(function, v.clone()?))?)
}

/// The branch that a constructor under arguments selects, with its arguments put in.
#[inline(never)]
fn selected(
    alloc: Global,
    env: &Env,
    id: &GlobalId,
    all: &Branches,
    v: &Term,
) -> Result<Option<Rc<Term>>, TermFault>
    ensures { MakesIfAny 4000 (matched (items env.now) id.now (branches all.now) (arguments_of (tree v.now)) (head_of (tree v.now))) result }
{
    let Term::Ctor(constructor) = head(v) else {
        return Ok(None);
    };
    match env.constructor(constructor) {
        None => Ok(None),
        Some(found) => {
            let owner = found.owner;
            if owner != id {
                return Ok(None);
            }
            let own = arguments(alloc, v)?;
            branch_result(
                alloc,
                found.params as usize,
                own.as_slice(),
                all,
                found.place as usize,
            )
        }
    }
}

/// The branch of a match that its value selects.
fn selection(alloc: Global, env: &Env, t: &Term, v: &Term) -> Result<Option<Rc<Term>>, TermFault>
    requires { IsCase t.now }
    ensures { MakesIfAny 4000 (selection (items env.now) t.now (tree v.now)) result }
{
    match t {
        Term::Case { ind, branches, .. } => selected(alloc, env, ind, branches, v),
        _ => unreachable!(),
    }
}

/// The match with that value.
#[inline(never)]
fn stuck(alloc: Global, t: &Term, v: &Rc<Term>) -> Result<Rc<Term>, NoMemory>
    requires { IsCase t.now }
    ensures { IfOk result (λ r. shared_tree r ≡ with_value t.now (shared_tree v.now)) }
{
    match t {
        Term::Case {
            arity,
            ind,
            motive,
            branches,
            ..
        } => {
            let ind = ind.clone()?;
            let motive = motive.clone()?;
            let branches = branches.clone()?;
            let scrutinee = v.clone()?;
            Ok(Rc::new(
                alloc,
                Term::Case {
                    arity: *arity,
                    ind,
                    motive,
                    scrutinee,
                    branches,
                },
            )?)
        }
        _ => unreachable!(),
    }
}

/// A match whose value is `v`: a step to the branch that it selects, where there is one.
#[inline(never)]
#[tactic(auto, using(cic_work::proofs::Depths::stops_on))]
pub(crate) fn match_turn(
    alloc: Global,
    env: &Env,
    t: &Term,
    v: &Rc<Term>,
    work: &mut Work,
) -> Result<Turn, Stop>
    requires { IsCase t.now }
    ensures answer { Counts turned result (budget work.new) (match_turn (with_value t.now (shared_tree v.now)) (selection (items env.now) t.now (shared_tree v.now)) (budget work.old)) }
    ensures depth { work.new.depth ≡ work.old.depth }
    ensures rest { work.new.rest ≤ work.old.rest }
    ensures falls { IfOk result (λ turn. Falls turn work.old.rest work.new.rest) }
{
    match selection(alloc, env, t, v) {
        Ok(None) => Ok(Turn::Answer(stuck(alloc, t, v)?)),
        Ok(Some(branch)) => {
            work.step()?;
            Ok(Turn::Again(branch))
        }
        Err(TermFault::Deep) => {
            work.step()?;
            Err(Stop::Deep)
        }
        Err(TermFault::NoMemory) => Err(Stop::NoMemory),
    }
}
