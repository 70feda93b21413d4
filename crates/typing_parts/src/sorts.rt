//! The type of a sort, and the sort of a product. Coq Reference Manual, "Typing rules".
ghost use Rattle.std.specs.Prelude.{◌≡◌, ◌≤◌, ◌++◌, ◌∷◌, [], true, IfOk, OnOk, Some, None, if◌then◌else◌, length};
ghost use Rattle.std.specs.List.{list_any};
ghost use Rattle.std.specs.Option.{option_map};
ghost use Rattle.cic_names.specs.Sameness.{same_atom};
ghost use Rattle.cic_terms.specs.Denotes.{tree_sort};
ghost use Rattle.cic_terms.specs.Tree.{sort};
ghost use Rattle.cic_rules.specs.Numbering.{plain_level};
ghost use Rattle.cic_counted.specs.Inference.{add_atoms, next_level, product_sort, type_of_sort};
ghost use Rattle.cic_counted.specs.Outcome.{follow, give, or_refuse, universe_form};
ghost use Rattle.cic_spines.specs.Lists.{shared_tree};
ghost use Rattle.cic_work.specs.calls.Counting.{Counts, budget};

use crate::refusals::universe_form;
use cic_names::{Atom, Expr, Level, Sort};
use cic_terms::Term;
use cic_work::{Stop, Work};
use memory::NoMemory;
use std::alloc::Global;
use std::rc::Rc;

/// The level of an expression that is one level without plus.
fn plain_level(e: &Expr) -> Option<&Level>
    ensures { option_map (λ level. level.now) result ≡ plain_level e.now }
{
    match e.atoms() {
        [atom] => level_without_plus(atom),
        _ => None,
    }
}

fn level_without_plus(atom: &Atom) -> Option<&Level>
    ensures { option_map (λ level. level.now) result ≡ (if atom.now.plus then None else Some atom.now.level) }
{
    if atom.plus { None } else { Some(&atom.level) }
}

/// The atom one above a level.
fn atom_above(level: &Level) -> Result<Atom, NoMemory>
    ensures { IfOk result (λ atom. (atom.level ≡ level.now) × (atom.plus ≡ true)) }
{
    let level = level.clone()?;
    Ok(Atom { level, plus: true })
}

/// The expression that is one atom.
fn single(alloc: Global, atom: Atom) -> Result<Expr, NoMemory>
    ensures { IfOk result (λ e. e ≡ atom ∷ []) }
{
    let mut atoms = Vec::new(alloc);
    atoms.push(atom)?;
    Expr::new(alloc, atoms)
}

/// The sort one above a level.
#[inline(never)]
fn sort_above(alloc: Global, level: &Level) -> Result<Rc<Term>, NoMemory>
    ensures { IfOk result (λ r. shared_tree r ≡ sort (next_level level.now)) }
{
    let atom = atom_above(level)?;
    let above = single(alloc, atom)?;
    Ok(Rc::new(alloc, Term::Sort(Sort::Typ(above)))?)
}

/// The sort one above `Set`, which is the type of `Prop` too.
#[inline(never)]
fn sort_above_set(alloc: Global) -> Result<Rc<Term>, NoMemory>
    ensures { IfOk result (λ r. shared_tree r ≡ sort (next_level Level.Set)) }
{
    sort_above(alloc, &Level::Set)
}

/// The type of a sort.
pub fn type_of_sort(alloc: Global, s: &Sort, work: &Work) -> Result<Rc<Term>, Stop>
    ensures { Counts shared_tree result (budget work.now) (type_of_sort (tree_sort s.now) (budget work.now)) }
{
    match s {
        Sort::Prop => Ok(sort_above_set(alloc)?),
        Sort::Set => Ok(sort_above_set(alloc)?),
        Sort::Typ(e) => match plain_level(e) {
            Some(level) => Ok(sort_above(alloc, level)?),
            None => Err(universe_form(alloc, s, s)),
        },
    }
}

/// Whether an atom is one of several.
fn is_among(atom: &Atom, atoms: &[Atom]) -> bool
    ensures { result ≡ list_any (same_atom atom.now) atoms.now }
{
    for other in atoms {
        if atom == other {
            return true;
        }
    }
    false
}

/// Adds an atom that is not there yet.
fn add_atom(atoms: &mut Vec<Atom>, atom: &Atom) -> Result<(), NoMemory>
    ensures { OnOk result (atoms.new.items ≡ (if list_any (same_atom atom.now) atoms.old.items then atoms.old.items else atoms.old.items ++ atom.now ∷ [])) }
{
    if is_among(atom, atoms.as_slice()) {
        return Ok(());
    }
    atoms.push(atom.clone()?)?;
    Ok(())
}

/// Adds the atoms that are not there yet, each once.
fn add_atoms(atoms: &mut Vec<Atom>, more: &[Atom]) -> Result<(), NoMemory>
    ensures { OnOk result (atoms.new.items ≡ add_atoms atoms.old.items more.now) }
{
    for atom in more {
        add_atom(atoms, atom)?;
    }
    Ok(())
}

/// The maximum of two expressions: all their atoms, each once.
#[inline(never)]
#[tactic(auto, using(crate::proofs::Atoms::added_twice, crate::proofs::Atoms::some_added))]
fn maximum(alloc: Global, e: &Expr, f: &Expr) -> Result<Expr, NoMemory>
    ensures { IfOk result (λ r. r ≡ add_atoms [] (e.now ++ f.now)) }
{
    let mut atoms = Vec::new(alloc);
    add_atoms(&mut atoms, e.atoms())?;
    add_atoms(&mut atoms, f.atoms())?;
    Expr::new(alloc, atoms)
}

/// The sort of a product, from those of its domain and its codomain.
#[inline(never)]
fn sort_of_product(alloc: Global, domain: &Sort, codomain: &Sort) -> Result<Sort, NoMemory>
    ensures { IfOk result (λ r. product_sort (tree_sort domain.now) (tree_sort codomain.now) ≡ Some (tree_sort r)) }
{
    match (domain, codomain) {
        (_, Sort::Prop) => Ok(Sort::Prop),
        (Sort::Prop, _) => Ok(codomain.clone()?),
        (Sort::Set, _) => Ok(codomain.clone()?),
        (_, Sort::Set) => Ok(domain.clone()?),
        (Sort::Typ(e), Sort::Typ(f)) => Ok(Sort::Typ(maximum(alloc, e, f)?)),
    }
}

/// The type of a product, by the sorts of its domain and its codomain.
#[inline(never)]
pub fn type_of_product(
    alloc: Global,
    domain: &Sort,
    codomain: &Sort,
    work: &Work,
) -> Result<Rc<Term>, Stop>
    ensures { Counts shared_tree result (budget work.now) (follow (or_refuse (product_sort (tree_sort domain.now) (tree_sort codomain.now)) (universe_form (tree_sort domain.now) (tree_sort codomain.now)) (budget work.now)) (λ s. give (sort s))) }
{
    let sort = sort_of_product(alloc, domain, codomain)?;
    Ok(Rc::new(alloc, Term::Sort(sort))?)
}
