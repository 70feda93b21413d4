//! The libraries that the names behind `Require` mean.
ghost use Rattle.std.specs.Prelude.{◌≡◌, ◌++◌, ◌∷◌, ℕ, List, IfOk, IfErr, OnOk, MatchOption, MatchBool};
ghost use Rattle.std.specs.Option.{option_copied, option_map};
ghost use Rattle.gal_raw.specs.Denotes.{identifier, qualified};
ghost use Rattle.gal_requires.specs.Required.{denoted, all_denoted};
ghost use Rattle.gal_requires.specs.Roots.{MayStand, Spells, IsLibrary, Means, mention, mentions_of, mentions, named_of, Roots, IsRootFault};
ghost use Rattle.gal_requires.specs.calls.Steps.{Adds, Nameless, Goes, Fails};

use crate::libraries::Libraries;
use crate::requiring::{Require, RequireList};
use cic_names::{LibName, Name, NameFault};
use gal_lines::Lines;
use gal_raw::{Identifier, QualifiedName};
use memory::NoMemory;
use std::alloc::Global;

/// Why names behind `Require` mean no libraries.
#[derive(Clone, Copy, Drop)]
pub enum RootFault<'a> {
    /// The first name that means none, as it is written, and where its sentence stands.
    Unknown { name: Identifier<'a>, lines: Lines },
    NoMemory,
}

/// Whether nothing stands behind `From`, or the prefix.
fn may_stand(prefix: Option<&Name>, from: Option<Identifier<'_>>) -> bool
    ensures { MatchBool result (MayStand (option_copied prefix.entry) (option_map identifier from.entry)) (MayStand (option_copied prefix.entry) (option_map identifier from.entry) → ⊥) }
{
    match from {
        None => true,
        Some(from) => match prefix {
            None => false,
            Some(prefix) => prefix.bytes() == from.text,
        },
    }
}

/// What stands behind a dot.
fn behind_dot(text: &[u8]) -> Option<&[u8]>
    ensures { MatchOption result ((rest : List ℕ) → text.now ≡ 46 ∷ rest → ⊥) (λ rest. text.now ≡ 46 ∷ rest.now) }
{
    match text.split_first() {
        None => None,
        Some((byte, rest)) => { if *byte == b'.' { Some(rest) } else { None } }
    }
}

/// What stands behind the prefix and a dot.
fn behind_prefix<'a>(prefix: &Name, text: &'a [u8]) -> Option<&'a [u8]>
    ensures { MatchOption result ((rest : List ℕ) → text.now ≡ prefix.now ++ (46 ∷ rest) → ⊥) (λ rest. text.now ≡ prefix.now ++ (46 ∷ rest.now)) }
{
    match text.strip_prefix(prefix.bytes()) {
        Some(rest) => behind_dot(rest),
        None => None,
    }
}

/// The library's name, as far as it is one, without the prefix.
fn spelled<'a>(prefix: Option<&Name>, name: QualifiedName<'a>) -> Option<&'a [u8]>
    ensures { MatchOption result ((l : List ℕ) → Spells (option_copied prefix.entry) (qualified name.entry) l → ⊥) (λ l. Spells (option_copied prefix.entry) (qualified name.entry) l.now) }
{
    match name {
        QualifiedName::Short(name) => Some(name.text),
        QualifiedName::Long(name) => match prefix {
            Some(prefix) => behind_prefix(prefix, name.text),
            None => None,
        },
    }
}

/// The name, if these bytes are one.
fn named(alloc: Global, bytes: &[u8]) -> Result<Option<LibName>, NoMemory>
    ensures { IfOk result (λ found. MatchOption found (¬ IsLibrary bytes.now) (λ name. (name ≡ bytes.now) × IsLibrary bytes.now)) }
{
    match Name::new(alloc, bytes) {
        Ok(name) => Ok(Some(name)),
        Err(NameFault::NoMemory) => Err(NoMemory),
        Err(_) => Ok(None),
    }
}

/// The library that a name behind the `Require` means.
fn library(
    alloc: Global,
    prefix: Option<&Name>,
    require: &Require<'_, '_>,
    name: QualifiedName<'_>,
) -> Result<Option<LibName>, NoMemory>
    ensures { IfOk result (λ found. MatchOption found ((l : List ℕ) → Means (option_copied prefix.entry) (mention (denoted require.now) (qualified name.entry)) l → ⊥) (λ l. Means (option_copied prefix.entry) (mention (denoted require.now) (qualified name.entry)) l)) }
{
    if !may_stand(prefix, require.from) {
        return Ok(None);
    }
    match spelled(prefix, name) {
        None => Ok(None),
        Some(text) => named(alloc, text),
    }
}

fn identifier_of(name: QualifiedName<'_>) -> Identifier<'_>
    ensures { identifier result ≡ named_of (qualified name.entry) }
{
    match name {
        QualifiedName::Short(name) => name,
        QualifiedName::Long(name) => name,
    }
}

/// One more name behind the `Require`.
fn add<'a>(
    libraries: &mut Libraries,
    alloc: Global,
    prefix: Option<&Name>,
    require: &Require<'_, 'a>,
    name: QualifiedName<'a>,
) -> Result<(), RootFault<'a>>
    ensures added { OnOk result (Adds (option_copied prefix.entry) (mention (denoted require.now) (qualified name.entry)) libraries.old libraries.new) }
    ensures fault { IfErr result (λ fault. Nameless (option_copied prefix.entry) (mention (denoted require.now) (qualified name.entry)) fault) }
{
    match library(alloc, prefix, require, name) {
        Err(NoMemory) => Err(RootFault::NoMemory),
        Ok(None) => Err(RootFault::Unknown {
            name: identifier_of(name),
            lines: require.lines,
        }),
        Ok(Some(found)) => match libraries.insert(found) {
            Ok(()) => Ok(()),
            Err(NoMemory) => Err(RootFault::NoMemory),
        },
    }
}

/// The names behind the `Require`.
fn add_all<'a>(
    libraries: &mut Libraries,
    alloc: Global,
    prefix: Option<&Name>,
    require: &Require<'_, 'a>,
) -> Result<(), RootFault<'a>>
    ensures added { OnOk result (Goes (option_copied prefix.entry) libraries.old libraries.new (mentions_of (denoted require.now))) }
    ensures fault { IfErr result (λ fault. Fails (option_copied prefix.entry) libraries.old (mentions_of (denoted require.now)) fault) }
{
    for name in require.names {
        add(libraries, alloc, prefix, require, *name)?;
    }
    Ok(())
}

/// The libraries that a file requires, each once, in the order of their first mentions; or the first name that means
/// none. Where the libraries have a prefix, it may stand before a name or behind `From`.
pub fn roots<'a>(
    alloc: Global,
    list: &RequireList<'_, 'a>,
    prefix: Option<&Name>,
) -> Result<Libraries, RootFault<'a>>
    ensures roots { IfOk result (λ libraries. Roots (option_copied prefix.entry) (mentions (all_denoted list.now)) libraries) }
    ensures fault { IfErr result (λ fault. IsRootFault (option_copied prefix.entry) (mentions (all_denoted list.now)) fault) }
{
    let mut libraries = Libraries::new(alloc);
    for require in list.items.as_slice() {
        add_all(&mut libraries, alloc, prefix, require)?;
    }
    Ok(libraries)
}
