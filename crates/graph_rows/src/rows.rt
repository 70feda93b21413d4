//! Short lists of constraints: what a graph answers for each, and whether its numbers meet all that it took.
use anyhow::bail;
use cic_names::{Constraint, Level, LevelName, Name, Part};
use std::alloc::Global;
use std::fmt;
use univ_graph::{Cycle, Graph, GraphFault, LevelNumber, Tag, level_number, meets};

fn level_name(alloc: Global, word: &str) -> anyhow::Result<LevelName> {
    Ok(LevelName {
        lib: Name::new(alloc, b"Lib")?,
        owner: Name::new(alloc, word.as_bytes())?,
        part: Part::Declared,
    })
}

fn level(alloc: Global, word: &str) -> anyhow::Result<Level> {
    if word == "Set" {
        return Ok(Level::Set);
    }
    Ok(Level::Named(level_name(alloc, word)?))
}

/// The constraint of a text as `u < v` or `u <= v`.
fn constraint(alloc: Global, text: &str) -> anyhow::Result<Constraint> {
    let mut words = text.split_whitespace();
    let (Some(left), Some(sign), Some(right)) = (words.next(), words.next(), words.next()) else {
        bail!("no constraint");
    };
    Ok(Constraint {
        left: level(alloc, left)?,
        strict: sign == "<",
        right: level(alloc, right)?,
    })
}

/// Strict constraints are tagged as visible ones, and the others as those of opaque bodies.
fn tag(alloc: Global, constraint: &Constraint) -> anyhow::Result<Tag> {
    let lib = Name::new(alloc, b"Lib")?;
    if constraint.strict {
        Ok(Tag::Visible(lib))
    } else {
        Ok(Tag::Proofs(lib))
    }
}

fn level_text(level: &Level) -> &str {
    match level {
        Level::Set => "Set",
        Level::Named(name) => name.owner.text(),
    }
}

fn tag_text(tag: &Tag) -> &str {
    match tag {
        Tag::Levels => "levels",
        Tag::Visible(_) => "visible",
        Tag::Proofs(_) => "proofs",
    }
}

/// A constraint as a text.
#[derive(Clone, Copy)]
struct InWords<'a> {
    constraint: &'a Constraint,
}

impl fmt::Display for InWords<'_> {
    fn fmt<W: fmt::Write>(&self, f: &mut fmt::Formatter<W>) -> fmt::Result {
        let left = level_text(&self.constraint.left);
        let right = level_text(&self.constraint.right);
        let sign = if self.constraint.strict { "<" } else { "<=" };
        write!(f, "{left} {sign} {right}")
    }
}

/// Prints the steps of a cycle with their tags.
fn print_cycle(rt: &HostRuntime, cycle: &Cycle) -> anyhow::Result<()> {
    for step in cycle.steps() {
        let words = InWords {
            constraint: &step.constraint,
        };
        let tag = tag_text(&step.tag);
        println!(rt; "  {words} ({tag})")?;
    }
    Ok(())
}

fn print_answer(rt: &HostRuntime, answer: &Result<(), GraphFault>) -> anyhow::Result<()> {
    match answer {
        Ok(()) => {}
        Err(GraphFault::Conflict(cycle)) => print_cycle(rt, cycle)?,
        Err(GraphFault::Limit(_) | GraphFault::NoMemory) => bail!("no answer"),
    }
    Ok(())
}

/// Gives a constraint to a graph, and prints what it answers: nothing where it takes it, else the cycle.
fn ask(rt: &HostRuntime, graph: &mut Graph, text: &str) -> anyhow::Result<()> {
    let alloc = rt.alloc();
    let asked = constraint(alloc, text)?;
    let tag = tag(alloc, &asked)?;
    println!(rt; "{text}")?;
    let answer = graph.enforce(&asked, tag);
    print_answer(rt, &answer)
}

/// Prints how many constraints the graph has, how many of them its numbers meet, and of how many levels.
fn print_graph(rt: &HostRuntime, graph: &Graph) -> anyhow::Result<()> {
    let numbers = graph.numbering()?;
    let enforced = graph.enforced()?;
    let met = enforced.iter().filter(|c| meets(&numbers, c)).count();
    let (levels, constraints) = (numbers.len(), enforced.len());
    println!(rt; "{levels} levels, {constraints} constraints, {met} met")?;
    Ok(())
}

/// Gives constraints to a new graph.
fn list(rt: &HostRuntime, texts: &[&str]) -> anyhow::Result<()> {
    let mut graph = Graph::new(rt.alloc());
    for text in texts {
        ask(rt, &mut graph, text)?;
    }
    print_graph(rt, &graph)
}

/// Prints the numbers of Set, of a level with the number 7 and of one that is not there, and whether the second is less
/// than the third.
fn print_numbers(rt: &HostRuntime) -> anyhow::Result<()> {
    let alloc = rt.alloc();
    let numbers = [LevelNumber {
        level: level_name(alloc, "u")?,
        number: 7,
    }];
    let asked = constraint(alloc, "u < v")?;
    let set = level_number(&numbers, &Level::Set);
    let there = level_number(&numbers, &asked.left);
    let absent = level_number(&numbers, &asked.right);
    let met = meets(&numbers, &asked);
    println!(rt; "numbers {set}, {there} and {absent}, less: {met}")?;
    Ok(())
}

pub fn run(rt: &HostRuntime) -> anyhow::Result<()> {
    list(rt, &["u < u", "u <= Set"])?;
    list(rt, &["u < v", "u < v", "v < u"])?;
    list(rt, &["u <= v", "v <= u", "u < v"])?;
    list(rt, &["Set < u", "Set <= Set", "Set < Set"])?;
    list(rt, &["e < f", "d < e", "c < d", "b < c", "a < b", "f <= a"])?;
    print_numbers(rt)
}
