//! Interfaces of libraries, read and written.
ghost use Rattle.std.specs.Prelude.{◌≡◌, ◌++◌, ◌≤◌, ◌<◌, ◌^◌, OnOk, length, drop};
ghost use Rattle.lib_format.specs.Lists.{list_bytes};
ghost use Rattle.cic_names.specs.Orders.{name_bytes};
ghost use Rattle.lib_format.specs.Contents.{need_bytes, flag_byte, library_bytes, library_contents, IsLibrary};
ghost use Rattle.lib_format.specs.ContentsReading.{read_flag, read_need, read_needs, read_levels, read_library};
ghost use Rattle.term_codec.specs.calls.Answers.{Reads};
ghost use Rattle.lib_codec.specs.calls.Lists.{needs_of, levels_of};

use crate::declarations::{read_declarations, read_new_name};
use crate::names::Names;
use crate::writing::put_declarations;
use cic_names::{Name, NoMemory};
use lib_format::{Library, Need, NeedFlag};
use seg_format::{Bytes, Defect};
use std::alloc::Global;
use term_codec::{
    Stop, byte_at, encode_constraints, number_at, put_byte, put_name, put_number, read_constraints,
    read_name,
};

#[tactic(auto, unfolding(lib_format::specs::ContentsReading::read_flag))]
fn read_flag(b: &[u8], place: &mut usize) -> Result<NeedFlag, Stop>
    requires { place.old ≤ length b.now }
    ensures { Reads (λ v. v) b.now (read_flag (drop place.old b.now)) place.new result }
{
    let at = *place;
    match byte_at(b, place)? {
        0 => Ok(NeedFlag::Plain),
        1 => Ok(NeedFlag::Import),
        2 => Ok(NeedFlag::Export),
        _ => Err(Stop::Wrong(Defect::Tag, at)),
    }
}

/// A library that is required.
#[tactic(auto, unfolding(lib_format::specs::ContentsReading::read_need))]
fn read_need(alloc: Global, b: &[u8], place: &mut usize) -> Result<Need, Stop>
    requires { place.old ≤ length b.now }
    ensures { Reads (λ v. v) b.now (read_need (drop place.old b.now)) place.new result }
{
    let flag = read_flag(b, place)?;
    let lib = read_name(alloc, b, place)?;
    Ok(Need { flag, lib })
}

/// The libraries that are required. The count takes no memory before they are read.
#[tactic(auto, unfolding(lib_format::specs::Lists::read_list))]
fn read_needs(alloc: Global, b: &[u8], place: &mut usize) -> Result<Vec<Need>, Stop>
    requires { place.old ≤ length b.now }
    ensures { Reads needs_of b.now (read_needs (drop place.old b.now)) place.new result }
{
    let count = number_at(b, place)?;
    let mut items = Vec::new(alloc);
    for _i in 0..count {
        let one = read_need(alloc, b, place)?;
        items.push(one)?;
    }
    Ok(items)
}

/// The levels that are declared. The count takes no memory before they are read.
#[tactic(auto, unfolding(lib_format::specs::Lists::read_list))]
fn read_levels(alloc: Global, b: &[u8], place: &mut usize) -> Result<Vec<Name>, Stop>
    requires { place.old ≤ length b.now }
    ensures { Reads levels_of b.now (read_levels (drop place.old b.now)) place.new result }
{
    let count = number_at(b, place)?;
    let mut seen = Names::new(alloc);
    let mut items = Vec::new(alloc);
    for _i in 0..count {
        let one = read_new_name(alloc, b, place, &mut seen)?;
        items.push(one)?;
    }
    Ok(items)
}

/// An interface.
#[tactic(auto, unfolding(lib_format::specs::ContentsReading::read_library))]
pub(crate) fn read_library(alloc: Global, b: &[u8], place: &mut usize) -> Result<Library, Stop>
    requires { place.old ≤ length b.now }
    ensures { Reads library_contents b.now (read_library (drop place.old b.now)) place.new result }
{
    let name = read_name(alloc, b, place)?;
    let needs = read_needs(alloc, b, place)?;
    let levels = read_levels(alloc, b, place)?;
    let decls = read_declarations(alloc, b, place, &name)?;
    let visible = read_constraints(alloc, b, place)?;
    Ok(Library {
        name,
        needs,
        levels,
        decls,
        visible,
    })
}

fn flag_byte(flag: NeedFlag) -> u8
    ensures { result ≡ flag_byte flag }
{
    match flag {
        NeedFlag::Plain => 0,
        NeedFlag::Import => 1,
        NeedFlag::Export => 2,
    }
}

fn put_need(bytes: &mut Bytes, need: &Need) -> Result<(), NoMemory>
    ensures { OnOk result (bytes.new.items ≡ bytes.old.items ++ need_bytes need.now) }
{
    put_byte(bytes, flag_byte(need.flag))?;
    put_name(bytes, &need.lib)
}

fn put_needs(bytes: &mut Bytes, all: &[Need]) -> Result<(), NoMemory>
    requires { length all.now < 2 ^ 32 }
    ensures { OnOk result (bytes.new.items ≡ bytes.old.items ++ list_bytes (λ before n. need_bytes n) all.now) }
{
    put_number(bytes, all.len() as u32)?;
    for need in all {
        put_need(bytes, need)?;
    }
    Ok(())
}

fn put_levels(bytes: &mut Bytes, all: &[Name]) -> Result<(), NoMemory>
    requires { length all.now < 2 ^ 32 }
    ensures { OnOk result (bytes.new.items ≡ bytes.old.items ++ list_bytes (λ before l. name_bytes l) all.now) }
{
    put_number(bytes, all.len() as u32)?;
    for level in all {
        put_name(bytes, level)?;
    }
    Ok(())
}

/// Writes an interface.
#[tactic(auto, using(crate::proofs::Writable::declarations_writable))]
pub(crate) fn put_library(
    alloc: Global,
    bytes: &mut Bytes,
    library: &Library,
) -> Result<(), NoMemory>
    requires { IsLibrary (library_contents library.now) }
    ensures { OnOk result (bytes.new.items ≡ bytes.old.items ++ library_bytes (library_contents library.now)) }
{
    put_name(bytes, &library.name)?;
    put_needs(bytes, library.needs.as_slice())?;
    put_levels(bytes, library.levels.as_slice())?;
    put_declarations(bytes, library.decls.as_slice())?;
    let visible = encode_constraints(alloc, &library.visible)?;
    Ok(bytes.extend_from_slice(visible.as_slice())?)
}
