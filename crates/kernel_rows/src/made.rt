//! Terms and blocks that the samples do not make: blocks of two types, matches on types with one index, and functions
//! by recursion on their second argument.

use cic_env::{Block, CtorDecl, Decl, IndType};
use cic_names::NoMemory;
use cic_terms::{Branch, Branches, FixBodies, FixBody, Term};
use kernel_samples::{Made, Maker, one, two};
use std::rc::Rc;

fn part_of_block(
    maker: Maker,
    name: &str,
    arity: Term,
    ctors: Vec<CtorDecl>,
) -> Result<IndType, NoMemory> {
    let id = maker.id(name)?;
    Ok(IndType { id, arity, ctors })
}

/// A type in Set of a block.
pub fn type_in_set(
    maker: Maker,
    name: &str,
    ctors: Result<Vec<CtorDecl>, NoMemory>,
) -> Result<IndType, NoMemory> {
    let ctors = ctors?;
    match maker.domain(maker.set()) {
        Ok(arity) => part_of_block(maker, name, arity, ctors),
        Err(fault) => Err(fault),
    }
}

/// A block of two types without parameters.
pub fn block_of_two(
    maker: Maker,
    first: Result<IndType, NoMemory>,
    second: Result<IndType, NoMemory>,
) -> Result<Decl, NoMemory> {
    let types = two(maker.alloc, first, second)?;
    Ok(Decl::Inductive(Block { params: 0, types }))
}

fn case_at_one(
    maker: Maker,
    ind: &str,
    motive: Rc<Term>,
    scrutinee: Rc<Term>,
    branches: Vec<Branch>,
) -> Made {
    let ind = maker.id(ind)?;
    let branches = Rc::new(maker.alloc, Branches::from_vec(branches))?;
    let made = Term::Case {
        arity: 1,
        ind,
        motive,
        scrutinee,
        branches,
    };
    Ok(Rc::new(maker.alloc, made)?)
}

/// A match with one branch on a type with one index: the motive stands under the index and the value.
pub fn matching_at_one(
    maker: Maker,
    ind: &str,
    motive: Made,
    scrutinee: Made,
    branch: Result<Branch, NoMemory>,
) -> Made {
    let branches = one(maker.alloc, branch);
    match (motive, scrutinee) {
        (Ok(motive), Ok(scrutinee)) => case_at_one(maker, ind, motive, scrutinee, branches?),
        _ => Err(NoMemory),
    }
}

/// The function by recursion on its second argument.
pub fn by_second(function: Result<FixBody, NoMemory>) -> Result<FixBody, NoMemory> {
    match function {
        Ok(function) => Ok(FixBody { k: 1, ..function }),
        Err(fault) => Err(fault),
    }
}

/// The second of two functions that call each other.
pub fn second_of(maker: Maker, functions: Result<Vec<FixBody>, NoMemory>) -> Made {
    let bodies = FixBodies::from_vec(functions?);
    let bodies = Rc::new(maker.alloc, bodies)?;
    Ok(Rc::new(maker.alloc, Term::Fix { which: 1, bodies })?)
}
