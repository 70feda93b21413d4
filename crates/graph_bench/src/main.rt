//! Enforces constraints between so many universe levels in an order that a word names: `graph_bench SIZE SHAPE`, or
//! `graph_bench SIZE SHAPE plainly` for the slow body. It prints counts.
#![tactic(auto)]

use anyhow::bail;
use cic_names::{Constraint, Level, LevelName, Name, NoMemory, Part};
use std::alloc::Global;
use std::env;
use univ_graph::{Graph, GraphFault, Tag};

/// A level that the number names.
fn level(owner: &Name, number: u32) -> Result<Level, NoMemory> {
    Ok(Level::Named(LevelName {
        lib: owner.clone()?,
        owner: owner.clone()?,
        part: Part::Visible(number),
    }))
}

/// The next of a row of numbers that look random.
fn next_random(seed: u32) -> u32 {
    seed.wrapping_mul(1_664_525).wrapping_add(1_013_904_223)
}

/// Two random numbers below the size.
fn random_pair(size: u32, seed: u32) -> (u32, u32) {
    let first = next_random(next_random(seed));
    let second = next_random(first);
    (
        first.wrapping_shr(8) % size.max(1),
        second.wrapping_shr(8) % size.max(1),
    )
}

/// The ends of a constraint of a random acyclic set: the less of two random numbers first.
fn random_ends(size: u32, i: u32) -> (u32, u32) {
    let (first, second) = random_pair(size, i);
    if first < second {
        (first, second)
    } else {
        (second, first.saturating_add(1))
    }
}

/// The numbers of the levels at the ends of the constraint with this number.
fn ends(shape: &str, size: u32, i: u32) -> (u32, u32) {
    let link = match shape {
        "backwards" => size.saturating_sub(i).saturating_sub(1),
        "shuffled" => i.wrapping_mul(7919) % size.max(1),
        _ => i,
    };
    match shape {
        "star" => (0, link.saturating_add(1)),
        "random" => random_ends(size, i),
        _ => (link, link.saturating_add(1)),
    }
}

/// A constraint between levels that numbers name.
#[derive(Clone, Copy)]
struct Asked {
    left: u32,
    strict: bool,
    right: u32,
}

/// A constraint of a chain of levels that becomes equal. Each level of it is above one of a strict chain. The constraints
/// of the first four parts go along the strict chain, up to the chain, along it, and strictly from each level to one more,
/// those of the fifth part back along the chain, and those of further parts from any of its levels to any other.
fn of_equal_chain(size: u32, part: u32, link: u32) -> Asked {
    let next = link.saturating_add(1);
    let below = size.saturating_add(next);
    let above = size.saturating_add(1).saturating_add(below);
    let (left, strict, right) = match part {
        0 => (below, true, below.saturating_add(1)),
        1 => (below, false, link),
        2 => (link, false, next),
        3 => (link, true, above),
        4 => (next, false, link),
        _ => {
            let seed = link.wrapping_add(part.wrapping_mul(1_000_003));
            let (first, second) = random_pair(size, seed);
            (first, false, second)
        }
    };
    Asked {
        left,
        strict,
        right,
    }
}

/// Which parts of those constraints there are, in order. None for another shape.
fn parts_of(shape: &str) -> &'static [u32] {
    match shape {
        "equal" | "knotted" => &[0, 1, 2, 4],
        "merged" => &[0, 1, 2, 3, 4],
        "tied" => &[2, 0, 1, 4],
        "woven" => &[0, 1, 5, 6, 7],
        _ => &[],
    }
}

/// The constraint with this number.
fn constraint_at(shape: &str, size: u32, i: u32) -> Asked {
    let link = i % size.max(1);
    if let Some(part) = parts_of(shape).get((i / size.max(1)) as usize) {
        let link = if shape == "knotted" {
            link.wrapping_mul(7919) % size.max(1)
        } else {
            link
        };
        return of_equal_chain(size, *part, link);
    }
    let (left, right) = ends(shape, size, i);
    Asked {
        left,
        strict: true,
        right,
    }
}

/// How many constraints there are.
fn count_of(shape: &str, size: u32) -> u32 {
    match parts_of(shape).len() {
        0 => size,
        4 => size.saturating_mul(4),
        _ => size.saturating_mul(5),
    }
}

/// What there is in the end.
struct Counts {
    levels: usize,
    enforced: usize,
    /// How many constraints the numbers met before.
    held: u32,
    /// How many steps the last cycle has.
    steps: usize,
}

/// The constraint itself.
fn made(owner: &Name, asked: &Asked) -> Result<Constraint, NoMemory> {
    Ok(Constraint {
        left: level(owner, asked.left)?,
        strict: asked.strict,
        right: level(owner, asked.right)?,
    })
}

/// Enforces a constraint between levels, and gives the number of steps of the cycle that it would close.
fn enforce(
    graph: &mut Graph,
    owner: &Name,
    asked: &Asked,
    plainly: bool,
) -> Result<usize, NoMemory> {
    let constraint = made(owner, asked)?;
    let tag = Tag::Visible(owner.clone()?);
    let answer = if plainly {
        graph.enforce_plainly(&constraint, tag)
    } else {
        graph.enforce(&constraint, tag)
    };
    match answer {
        Ok(()) => Ok(0),
        Err(GraphFault::Conflict(cycle)) => Ok(cycle.steps().len()),
        Err(GraphFault::Limit(_)) => Ok(0),
        Err(GraphFault::NoMemory) => Err(NoMemory),
    }
}

fn build(
    alloc: Global,
    owner: &Name,
    size: u32,
    shape: &str,
    plainly: bool,
) -> Result<Counts, NoMemory> {
    let mut graph = Graph::new(alloc);
    let mut held: u32 = 0;
    for i in 0..count_of(shape, size) {
        let asked = constraint_at(shape, size, i);
        if graph.holds(&made(owner, &asked)?) {
            held = held.saturating_add(1);
        }
        enforce(&mut graph, owner, &asked, plainly)?;
    }
    let steps = if shape == "cycle" {
        let back = Asked {
            left: size,
            strict: true,
            right: 0,
        };
        enforce(&mut graph, owner, &back, plainly)?
    } else {
        0
    };
    Ok(Counts {
        levels: graph.numbering()?.len(),
        enforced: graph.enforced()?.len(),
        held,
        steps,
    })
}

fn main(rt: HostRuntime) -> anyhow::Result<()> {
    let alloc = rt.alloc();
    let mut words = env::args(&rt)?;
    let (Some(_), Some(size), Some(shape)) = (words.next(), words.next(), words.next()) else {
        bail!(
            "graph_bench SIZE SHAPE, where SHAPE is forwards, backwards, shuffled, star, random, cycle, equal, merged, knotted, tied or woven"
        );
    };
    let size: u32 = size.as_str().parse()?;
    let owner = Name::new(alloc, b"Levels")?;
    let plainly = words.next().is_some();
    let Ok(counts) = build(alloc, &owner, size, shape.as_str(), plainly) else {
        bail!("no memory");
    };
    let Counts {
        levels,
        enforced,
        held,
        steps,
    } = counts;
    println!(rt;
        "{levels} levels, {enforced} constraints, {held} met before, {steps} steps of a cycle"
    )?;
    Ok(())
}
