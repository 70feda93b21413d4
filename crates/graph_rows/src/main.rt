//! Runs the graph and its slow body over the same random lists of constraints, fills a graph with as many levels as may
//! be, and prints what the graph answers for short lists.
#![tactic(auto)]

use anyhow::bail;
use cic_names::{Constraint, Level, LevelName, Name, NoMemory, Part};
use std::alloc::Global;
use univ_graph::{Graph, GraphFault, Tag};

mod rows;

/// How many levels a random list has, Set among them.
const FEW_LEVELS: u32 = 12;

/// How many levels there may be, Set among them.
const MOST_LEVELS: u32 = 1 << 20;

/// The level with a number, of which Set has 0.
fn level(owner: &Name, number: u32) -> Result<Level, NoMemory> {
    if number == 0 {
        return Ok(Level::Set);
    }
    Ok(Level::Named(LevelName {
        lib: owner.clone()?,
        owner: owner.clone()?,
        part: Part::Visible(number),
    }))
}

/// The next of a row of numbers that look random.
fn next_random(seed: u32) -> u32 {
    seed.wrapping_mul(1_664_525).wrapping_add(1_013_904_223)
}

/// A constraint of a list, which the seed says. One of two is strict.
fn random_constraint(owner: &Name, seed: u32) -> Result<Constraint, NoMemory> {
    let draw = next_random(next_random(seed)).wrapping_shr(8);
    Ok(Constraint {
        left: level(owner, draw % FEW_LEVELS)?,
        strict: draw.wrapping_shr(16) % 2 == 0,
        right: level(owner, draw.wrapping_shr(8) % FEW_LEVELS)?,
    })
}

/// What there was in the lists.
#[derive(Drop)]
struct Counts {
    taken: u32,
    refused: u32,
    /// How often only one of the two bodies took a constraint, or its numbers did not meet it.
    differ: u32,
}

/// Whether a graph takes the constraint and meets it then.
fn takes(graph: &mut Graph, asked: &Constraint, owner: &Name) -> Result<bool, NoMemory> {
    match graph.enforce(asked, Tag::Visible(owner.clone()?)) {
        Ok(()) => Ok(graph.holds(asked)),
        Err(GraphFault::Conflict(_) | GraphFault::Limit(_)) => Ok(false),
        Err(GraphFault::NoMemory) => Err(NoMemory),
    }
}

/// The same by the slow body.
fn takes_plainly(graph: &mut Graph, asked: &Constraint, owner: &Name) -> Result<bool, NoMemory> {
    match graph.enforce_plainly(asked, Tag::Visible(owner.clone()?)) {
        Ok(()) => Ok(graph.holds(asked)),
        Err(GraphFault::Conflict(_) | GraphFault::Limit(_)) => Ok(false),
        Err(GraphFault::NoMemory) => Err(NoMemory),
    }
}

/// Gives both bodies one list of so many constraints.
fn compare(
    alloc: Global,
    owner: &Name,
    list: u32,
    size: u32,
    counts: &mut Counts,
) -> Result<(), NoMemory> {
    let mut quick = Graph::new(alloc);
    let mut plain = Graph::new(alloc);
    for i in 0..size {
        let seed = list.wrapping_mul(65_537).wrapping_add(i);
        let asked = random_constraint(owner, seed)?;
        let taken = takes(&mut quick, &asked, owner)?;
        if taken != takes_plainly(&mut plain, &asked, owner)? {
            counts.differ = counts.differ.saturating_add(1);
        }
        if taken {
            counts.taken = counts.taken.saturating_add(1);
        } else {
            counts.refused = counts.refused.saturating_add(1);
        }
    }
    Ok(())
}

/// The number in the fault where one level more is asked for than may be.
fn overfull(alloc: Global, owner: &Name) -> Result<u32, NoMemory> {
    let mut graph = Graph::new(alloc);
    for number in 1..=MOST_LEVELS {
        let asked = Constraint {
            left: Level::Set,
            strict: true,
            right: level(owner, number)?,
        };
        match graph.enforce(&asked, Tag::Levels) {
            Ok(()) => {}
            Err(GraphFault::Limit(levels)) => return Ok(levels),
            Err(GraphFault::Conflict(_)) => return Ok(0),
            Err(GraphFault::NoMemory) => return Err(NoMemory),
        }
    }
    Ok(1)
}

fn main(rt: HostRuntime) -> anyhow::Result<()> {
    let alloc = rt.alloc();
    let owner = Name::new(alloc, b"Levels")?;
    let mut counts = Counts {
        taken: 0,
        refused: 0,
        differ: 0,
    };
    for list in 0..300 {
        if compare(alloc, &owner, list, 40, &mut counts).is_err() {
            bail!("no memory");
        }
    }
    let Counts {
        taken,
        refused,
        differ,
    } = counts;
    println!(rt; "{taken} taken, {refused} refused, {differ} differ")?;
    let Ok(levels) = overfull(alloc, &owner) else {
        bail!("no memory");
    };
    println!(rt; "limit passed at {levels} levels")?;
    rows::run(&rt)
}
