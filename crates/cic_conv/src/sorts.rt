//! Sorts that are made equal, and a sort that is at most another. Coq Reference Manual, "Subtyping rules".
ghost use Rattle.std.specs.Prelude.{◌≡◌, IfOk, false, if◌then◌else◌, length, None, Some};
ghost use Rattle.std.specs.Option.{option_map};
ghost use Rattle.cic_names.specs.Sameness.{same_atoms};
ghost use Rattle.cic_terms.specs.Denotes.{tree_sort};
ghost use Rattle.cic_terms.specs.Tree.{sort, typ};
ghost use Rattle.cic_rules.specs.Numbering.{plain_level};
ghost use Rattle.cic_counted.specs.Evaluation.{atoms_below, equal_levels, equal_sorts, levels_at_most, sorts_at_most};
ghost use Rattle.cic_counted.specs.Outcome.{follow, give, mismatch, note, universe_form};
ghost use Rattle.cic_env.specs.Contexts.{context};
ghost use Rattle.cic_work.specs.Verdicts.{cause_of};
ghost use Rattle.cic_work.specs.calls.Counting.{Counts, StopsWith, budget, no_value};
ghost use Rattle.cic_conv.specs.calls.Sorts.{bound};

use crate::comparing::differ;
use cic_env::{Cause, Context};
use cic_names::{Atom, Constraint, Expr, Level, Sort};
use cic_terms::Term;
use cic_work::{Stop, Work};
use memory::NoMemory;
use std::alloc::Global;

/// The refusal of two expressions that no constraints between levels compare.
#[inline(never)]
fn universe_form(alloc: Global, e: &Expr, f: &Expr) -> Stop
    ensures { StopsWith result (universe_form (typ e.now) (typ f.now)) }
{
    match forms(e, f) {
        Ok(cause) => Stop::refuse(alloc, cause),
        Err(_) => Stop::NoMemory,
    }
}

fn forms(e: &Expr, f: &Expr) -> Result<Cause, NoMemory>
    ensures { IfOk result (λ cause. cause_of cause ≡ universe_form (typ e.now) (typ f.now)) }
{
    let found = Sort::Typ(e.clone()?);
    let wanted = Sort::Typ(f.clone()?);
    Ok(Cause::UniverseForm { found, wanted })
}

/// Whether the two have the same atoms.
fn same_exprs(e: &Expr, f: &Expr) -> bool
    ensures { result ≡ same_atoms e.now f.now }
{
    e == f
}

/// The level of an expression that is one level without plus.
fn plain_level(e: &Expr) -> Option<&Level>
    ensures { option_map (λ level. level.now) result ≡ plain_level e.now }
{
    match e.atoms() {
        [atom] => level_without_plus(atom),
        _ => None,
    }
}

fn level_without_plus(atom: &Atom) -> Option<&Level>
    ensures { option_map (λ level. level.now) result ≡ (if atom.now.plus then None else Some atom.now.level) }
{
    if atom.plus { None } else { Some(&atom.level) }
}

/// Finds that a level is at most another, or below it where `strict` holds.
#[inline(never)]
fn note_bound(l: &Level, strict: bool, m: &Level, work: &mut Work) -> Result<(), Stop>
    ensures answer { Counts no_value result (budget work.new) (note (bound l.now strict m.now) (budget work.old)) }
    ensures depth { work.new.depth ≡ work.old.depth }
    ensures rest { work.new.rest ≡ work.old.rest }
{
    let left = l.clone()?;
    let right = m.clone()?;
    work.note(Constraint {
        left,
        strict,
        right,
    })
}

/// Finds that two levels are equal.
#[tactic(auto, using(cic_work::proofs::Depths::stops_on))]
fn note_equal(l: &Level, m: &Level, work: &mut Work) -> Result<(), Stop>
    ensures answer { Counts no_value result (budget work.new) (follow (note (bound l.now false m.now) (budget work.old)) (λ _. note (bound m.now false l.now))) }
    ensures depth { work.new.depth ≡ work.old.depth }
    ensures rest { work.new.rest ≡ work.old.rest }
{
    note_bound(l, false, m, work)?;
    note_bound(m, false, l, work)
}

/// Two expressions are made equal.
fn equal_exprs(alloc: Global, e: &Expr, f: &Expr, work: &mut Work) -> Result<(), Stop>
    ensures answer { Counts no_value result (budget work.new) ((if same_atoms e.now f.now then give tt else equal_levels e.now f.now (plain_level e.now) (plain_level f.now)) (budget work.old)) }
    ensures depth { work.new.depth ≡ work.old.depth }
    ensures rest { work.new.rest ≡ work.old.rest }
{
    if same_exprs(e, f) {
        return Ok(());
    }
    match (plain_level(e), plain_level(f)) {
        (Some(l), Some(m)) => note_equal(l, m, work),
        _ => Err(universe_form(alloc, e, f)),
    }
}

/// Two sorts that are not alike, as terms.
fn mismatch(alloc: Global, ctx: &Context, a: &Sort, b: &Sort) -> Result<Stop, NoMemory>
    ensures { IfOk result (λ stop. StopsWith stop (mismatch (length (context ctx.now)) (sort (tree_sort a.now)) (sort (tree_sort b.now)))) }
{
    let found = Term::Sort(a.clone()?);
    let wanted = Term::Sort(b.clone()?);
    Ok(differ(alloc, ctx, &found, &wanted))
}

/// The refusal of two sorts that are not alike.
#[inline(never)]
fn sorts_differ(alloc: Global, ctx: &Context, a: &Sort, b: &Sort) -> Stop
    ensures { StopsWith result (mismatch (length (context ctx.now)) (sort (tree_sort a.now)) (sort (tree_sort b.now))) }
{
    match mismatch(alloc, ctx, a, b) {
        Ok(stop) => stop,
        Err(_) => Stop::NoMemory,
    }
}

/// Two sorts are made equal: two plain levels by two constraints.
#[inline(never)]
pub(crate) fn equal_sorts(
    alloc: Global,
    ctx: &Context,
    a: &Sort,
    b: &Sort,
    work: &mut Work,
) -> Result<(), Stop>
    ensures answer { Counts no_value result (budget work.new) (equal_sorts (context ctx.now) (tree_sort a.now) (tree_sort b.now) (budget work.old)) }
    ensures depth { work.new.depth ≡ work.old.depth }
    ensures rest { work.new.rest ≡ work.old.rest }
{
    match (a, b) {
        (Sort::Prop, Sort::Prop) => Ok(()),
        (Sort::Set, Sort::Set) => Ok(()),
        (Sort::Typ(e), Sort::Typ(f)) => equal_exprs(alloc, e, f, work),
        _ => Err(sorts_differ(alloc, ctx, a, b)),
    }
}

/// Finds that every atom of an expression is at most a level, or below it where it has plus.
#[tactic(auto, using(cic_work::proofs::Depths::stops_on))]
fn atoms_below(atoms: &[Atom], m: &Level, work: &mut Work) -> Result<(), Stop>
    ensures answer { Counts no_value result (budget work.new) (atoms_below atoms.now m.now (budget work.old)) }
    ensures depth { work.new.depth ≡ work.old.depth }
    ensures rest { work.new.rest ≡ work.old.rest }
{
    for atom in atoms {
        note_bound(&atom.level, atom.plus, m, work)?;
    }
    Ok(())
}

/// An expression is at most another.
fn exprs_at_most(alloc: Global, e: &Expr, f: &Expr, work: &mut Work) -> Result<(), Stop>
    ensures answer { Counts no_value result (budget work.new) ((if same_atoms e.now f.now then give tt else levels_at_most e.now f.now (plain_level f.now)) (budget work.old)) }
    ensures depth { work.new.depth ≡ work.old.depth }
    ensures rest { work.new.rest ≡ work.old.rest }
{
    if same_exprs(e, f) {
        return Ok(());
    }
    match plain_level(f) {
        Some(m) => atoms_below(e.atoms(), m, work),
        None => Err(universe_form(alloc, e, f)),
    }
}

/// A sort is at most another, under the constraints that are found. It is no counted call.
#[inline(never)]
pub fn sorts_at_most(
    alloc: Global,
    ctx: &Context,
    a: &Sort,
    b: &Sort,
    work: &mut Work,
) -> Result<(), Stop>
    ensures answer { Counts no_value result (budget work.new) (sorts_at_most (context ctx.now) (tree_sort a.now) (tree_sort b.now) (budget work.old)) }
    ensures depth { work.new.depth ≡ work.old.depth }
    ensures rest { work.new.rest ≡ work.old.rest }
{
    match (a, b) {
        (Sort::Prop, _) => Ok(()),
        (Sort::Set, Sort::Set) => Ok(()),
        (Sort::Set, Sort::Typ(_)) => Ok(()),
        (Sort::Typ(e), Sort::Typ(f)) => exprs_at_most(alloc, e, f, work),
        _ => Err(sorts_differ(alloc, ctx, a, b)),
    }
}
