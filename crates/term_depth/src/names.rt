//! Words that are identifiers, levels, sorts and constraints.
use cic_names::{
    Atom, Constraint, Constraints, Expr, GlobalId, Level, LevelName, Name, NameFault, NoMemory,
    Part, Sort,
};
use std::alloc::Global;

/// What comes of the bytes as a name.
fn verdict(alloc: Global, bytes: &[u8]) -> &'static str {
    match Name::new(alloc, bytes) {
        Ok(_) => "an identifier",
        Err(NameFault::NotIdent) => "no identifier",
        Err(NameFault::Long) => "long",
        Err(NameFault::NoMemory) => "no memory",
    }
}

fn print_words(rt: &HostRuntime) -> anyhow::Result<()> {
    let words = [
        "é", "α1", "x'", "_x", "x", "Foralls", "set", "_", "1x", "forall", "Set", "end", "", "x-y",
        "'x", "½",
    ];
    for word in words {
        println!(rt; "{word:?}: {}", verdict(rt.alloc(), word.as_bytes()))?;
    }
    println!(rt; "half a letter: {}", verdict(rt.alloc(), &[0xc3]))?;
    println!(rt; "255 bytes: {}", verdict(rt.alloc(), &[b'a'; 255]))?;
    println!(rt; "256 bytes: {}", verdict(rt.alloc(), &[b'a'; 256]))?;
    Ok(())
}

/// A level of the library A.
fn level(alloc: Global, owner: &str, part: Part) -> Result<Level, NameFault> {
    Ok(Level::Named(LevelName {
        lib: Name::new(alloc, b"A")?,
        owner: Name::new(alloc, owner.as_bytes())?,
        part,
    }))
}

/// That the level is below Set, or at most Set.
fn below_set(alloc: Global, owner: &str, strict: bool) -> Result<Constraint, NameFault> {
    Ok(Constraint {
        left: level(alloc, owner, Part::Declared)?,
        strict,
        right: Level::Set,
    })
}

/// Which constraint of a set this is, or how many there are where it is none.
fn place(set: &Constraints, wanted: &Constraint) -> usize {
    set.iter().position(|c| *c == *wanted).unwrap_or(set.len())
}

/// Puts rows into a set and prints where each stands.
fn print_constraints(rt: &HostRuntime) -> anyhow::Result<()> {
    let alloc = rt.alloc();
    let mut set = Constraints::new(alloc);
    let rows = [
        ("aa", true),
        ("b", true),
        ("b", false),
        ("aa", false),
        ("b", false),
    ];
    for (owner, strict) in rows {
        set.insert(below_set(alloc, owner, strict)?)?;
    }
    println!(rt; "{} constraints", set.len())?;
    for (owner, strict) in rows {
        let at = place(&set, &below_set(alloc, owner, strict)?);
        println!(rt; "{owner} {strict}: {at}")?;
    }
    Ok(())
}

/// `Type` at the successor of the level.
fn successor(alloc: Global, level: Level) -> Result<Sort, NoMemory> {
    let mut atoms = Vec::new(alloc);
    atoms.push(Atom { level, plus: true })?;
    Ok(Sort::Typ(Expr::new(alloc, atoms)?))
}

/// Whether a copy of the sort is that sort.
fn copies(sort: &Sort) -> Result<bool, NoMemory> {
    Ok(sort.clone()? == *sort)
}

/// Whether a copy of the constraint is that constraint.
fn copies_constraint(constraint: &Constraint) -> Result<bool, NoMemory> {
    Ok(constraint.clone()? == *constraint)
}

fn print_copies(rt: &HostRuntime) -> anyhow::Result<()> {
    let alloc = rt.alloc();
    let sort = successor(alloc, level(alloc, "u", Part::Visible(0))?)?;
    println!(rt;
        "sort: copied {}, is Set {}",
        copies(&sort)?,
        sort == Sort::Set
    )?;
    let constraint = below_set(alloc, "u", true)?;
    println!(rt; "constraint: copied {}", copies_constraint(&constraint)?)?;
    Ok(())
}

/// Prints an id, a level of each kind and a constraint of each kind.
fn print_texts(rt: &HostRuntime) -> anyhow::Result<()> {
    let alloc = rt.alloc();
    let id = GlobalId {
        lib: Name::new(alloc, b"Init")?,
        name: Name::new(alloc, b"nat")?,
    };
    println!(rt; "{id}")?;
    println!(rt; "{}", Level::Set)?;
    println!(rt; "{}", level(alloc, "c", Part::Visible(0))?)?;
    println!(rt; "{}", level(alloc, "c", Part::Proof(12))?)?;
    println!(rt; "{}", below_set(alloc, "u", true)?)?;
    println!(rt; "{}", below_set(alloc, "u", false)?)?;
    Ok(())
}

pub(crate) fn print_rows(rt: &HostRuntime) -> anyhow::Result<()> {
    print_words(rt)?;
    print_constraints(rt)?;
    print_copies(rt)?;
    print_texts(rt)
}
