//! Declarations of a library, read.
ghost use Rattle.std.specs.Prelude.{◌≡◌, ◌++◌, ◌∷◌, [], ◌≤◌, length, drop, map, IfOk};
ghost use Rattle.cic_env.specs.Declarations.{declaration, type_declaration, constructor_declaration};
ghost use Rattle.lib_format.specs.DeclarationBytes.{declared_names, type_names, block_names, constructor_names, opaque_count};
ghost use Rattle.lib_format.specs.DeclarationReading.{read_new_name, read_new, read_constructor, read_constructors, read_inductive_type, read_inductive_types, read_axiom, read_transparent, read_place, read_opaque, read_block, read_declaration, read_declarations};
ghost use Rattle.term_codec.specs.calls.Answers.{Reads};
ghost use Rattle.lib_codec.specs.calls.Lists.{types_of, constructors_of, declarations_of};

use crate::names::Names;
use cic_env::{Block, CtorDecl, Decl, IndType};
use cic_names::{GlobalId, Name};
use cic_terms::MOST_REL;
use seg_format::Defect;
use std::alloc::Global;
use term_codec::{Stop, byte_at, limited_at, number_at, read_name, read_owned};

/// A name that was not seen, which is seen then.
#[tactic(auto, unfolding(lib_format::specs::DeclarationReading::read_new_name))]
pub(crate) fn read_new_name(
    alloc: Global,
    b: &[u8],
    place: &mut usize,
    seen: &mut Names,
) -> Result<Name, Stop>
    requires { place.old ≤ length b.now }
    ensures value { Reads (λ v. v) b.now (read_new_name seen.old (drop place.old b.now)) place.new result }
    ensures seen { IfOk result (λ name. seen.new ≡ seen.old ++ name ∷ []) }
{
    let at = *place;
    let name = read_name(alloc, b, place)?;
    if seen.see(&name)? {
        Ok(name)
    } else {
        Err(Stop::Wrong(Defect::Name, at))
    }
}

/// Such a name of the library.
#[tactic(auto, unfolding(lib_format::specs::DeclarationReading::read_new))]
fn read_new(
    alloc: Global,
    b: &[u8],
    place: &mut usize,
    library: &Name,
    seen: &mut Names,
) -> Result<GlobalId, Stop>
    requires { place.old ≤ length b.now }
    ensures value { Reads (λ v. v) b.now (read_new library.now seen.old (drop place.old b.now)) place.new result }
    ensures seen { IfOk result (λ id. seen.new ≡ seen.old ++ id.name ∷ []) }
{
    let name = read_new_name(alloc, b, place, seen)?;
    let lib = library.clone()?;
    Ok(GlobalId { lib, name })
}

#[tactic(auto, unfolding(lib_format::specs::DeclarationReading::read_constructor))]
fn read_constructor(
    alloc: Global,
    b: &[u8],
    place: &mut usize,
    library: &Name,
    seen: &mut Names,
) -> Result<CtorDecl, Stop>
    requires { place.old ≤ length b.now }
    ensures value { Reads constructor_declaration b.now (read_constructor library.now seen.old (drop place.old b.now)) place.new result }
    ensures seen { IfOk result (λ c. seen.new ≡ seen.old ++ c.id.name ∷ []) }
{
    let id = read_new(alloc, b, place, library, seen)?;
    let ty = read_owned(alloc, b, place)?;
    Ok(CtorDecl { id, ty })
}

/// The constructors of a type. The count takes no memory before they are read.
#[tactic(auto, unfolding(lib_format::specs::Lists::read_list))]
fn read_constructors(
    alloc: Global,
    b: &[u8],
    place: &mut usize,
    library: &Name,
    seen: &mut Names,
) -> Result<Vec<CtorDecl>, Stop>
    requires { place.old ≤ length b.now }
    ensures value { Reads constructors_of b.now (read_constructors library.now seen.old (drop place.old b.now)) place.new result }
    ensures seen { IfOk result (λ cs. seen.new ≡ seen.old ++ constructor_names (constructors_of cs)) }
{
    let count = number_at(b, place)?;
    let mut items = Vec::new(alloc);
    for _i in 0..count {
        let one = read_constructor(alloc, b, place, library, seen)?;
        items.push(one)?;
    }
    Ok(items)
}

/// A type with its constructors.
#[tactic(auto, unfolding(lib_format::specs::DeclarationReading::read_inductive_type))]
fn read_inductive_type(
    alloc: Global,
    b: &[u8],
    place: &mut usize,
    library: &Name,
    seen: &mut Names,
) -> Result<IndType, Stop>
    requires { place.old ≤ length b.now }
    ensures value { Reads type_declaration b.now (read_inductive_type library.now seen.old (drop place.old b.now)) place.new result }
    ensures seen { IfOk result (λ t. seen.new ≡ seen.old ++ type_names (type_declaration t)) }
{
    let id = read_new(alloc, b, place, library, seen)?;
    let arity = read_owned(alloc, b, place)?;
    let ctors = read_constructors(alloc, b, place, library, seen)?;
    Ok(IndType { id, arity, ctors })
}

/// The types of a block, at least one. The count takes no memory before they are read.
#[tactic(auto, unfolding(lib_format::specs::Lists::read_some))]
fn read_types(
    alloc: Global,
    b: &[u8],
    place: &mut usize,
    library: &Name,
    seen: &mut Names,
) -> Result<Vec<IndType>, Stop>
    requires { place.old ≤ length b.now }
    ensures value { Reads types_of b.now (read_inductive_types library.now seen.old (drop place.old b.now)) place.new result }
    ensures seen { IfOk result (λ ts. seen.new ≡ seen.old ++ block_names (types_of ts)) }
{
    let at = *place;
    let count = number_at(b, place)?;
    if count == 0 {
        return Err(Stop::Wrong(Defect::Number, at));
    }
    let mut items = Vec::new(alloc);
    for _i in 0..count {
        let one = read_inductive_type(alloc, b, place, library, seen)?;
        items.push(one)?;
    }
    Ok(items)
}

#[tactic(auto, unfolding(lib_format::specs::DeclarationReading::read_axiom))]
fn read_axiom(
    alloc: Global,
    b: &[u8],
    place: &mut usize,
    library: &Name,
    seen: &mut Names,
) -> Result<Decl, Stop>
    requires { place.old ≤ length b.now }
    ensures value { Reads declaration b.now (read_axiom library.now seen.old (drop place.old b.now)) place.new result }
    ensures seen { IfOk result (λ d. seen.new ≡ seen.old ++ declared_names (declaration d)) }
{
    let id = read_new(alloc, b, place, library, seen)?;
    let ty = read_owned(alloc, b, place)?;
    Ok(Decl::Axiom { id, ty })
}

#[tactic(auto, unfolding(lib_format::specs::DeclarationReading::read_transparent))]
fn read_transparent(
    alloc: Global,
    b: &[u8],
    place: &mut usize,
    library: &Name,
    seen: &mut Names,
) -> Result<Decl, Stop>
    requires { place.old ≤ length b.now }
    ensures value { Reads declaration b.now (read_transparent library.now seen.old (drop place.old b.now)) place.new result }
    ensures seen { IfOk result (λ d. seen.new ≡ seen.old ++ declared_names (declaration d)) }
{
    let id = read_new(alloc, b, place, library, seen)?;
    let ty = read_owned(alloc, b, place)?;
    let body = read_owned(alloc, b, place)?;
    Ok(Decl::Transparent { id, ty, body })
}

/// The place of an opaque body, which counts those before it.
#[tactic(auto, unfolding(lib_format::specs::DeclarationReading::read_place))]
pub(crate) fn read_place(b: &[u8], place: &mut usize, index: usize) -> Result<u32, Stop>
    requires { place.old ≤ length b.now }
    ensures { Reads (λ v. v) b.now (read_place index (drop place.old b.now)) place.new result }
{
    let at = *place;
    let number = number_at(b, place)?;
    if number as usize != index {
        return Err(Stop::Wrong(Defect::Number, at));
    }
    Ok(number)
}

#[tactic(auto, unfolding(lib_format::specs::DeclarationReading::read_opaque))]
fn read_opaque(
    alloc: Global,
    b: &[u8],
    place: &mut usize,
    library: &Name,
    seen: &mut Names,
    index: usize,
) -> Result<Decl, Stop>
    requires { place.old ≤ length b.now }
    ensures value { Reads declaration b.now (read_opaque library.now seen.old index (drop place.old b.now)) place.new result }
    ensures seen { IfOk result (λ d. seen.new ≡ seen.old ++ declared_names (declaration d)) }
{
    let id = read_new(alloc, b, place, library, seen)?;
    let ty = read_owned(alloc, b, place)?;
    let _index = read_place(b, place, index)?;
    Ok(Decl::Opaque { id, ty, body: None })
}

#[tactic(auto, unfolding(lib_format::specs::DeclarationReading::read_block))]
fn read_block(
    alloc: Global,
    b: &[u8],
    place: &mut usize,
    library: &Name,
    seen: &mut Names,
) -> Result<Decl, Stop>
    requires { place.old ≤ length b.now }
    ensures value { Reads declaration b.now (read_block library.now seen.old (drop place.old b.now)) place.new result }
    ensures seen { IfOk result (λ d. seen.new ≡ seen.old ++ declared_names (declaration d)) }
{
    let params = limited_at(b, place, MOST_REL)?;
    let types = read_types(alloc, b, place, library, seen)?;
    Ok(Decl::Inductive(Block { params, types }))
}

/// A declaration behind `index` constants that do not unfold.
#[tactic(auto, unfolding(lib_format::specs::DeclarationReading::read_declaration, lib_format::specs::DeclarationReading::kind_of))]
fn read_declaration(
    alloc: Global,
    b: &[u8],
    place: &mut usize,
    library: &Name,
    seen: &mut Names,
    index: usize,
) -> Result<Decl, Stop>
    requires { place.old ≤ length b.now }
    ensures value { Reads declaration b.now (read_declaration library.now seen.old index (drop place.old b.now)) place.new result }
    ensures seen { IfOk result (λ d. seen.new ≡ seen.old ++ declared_names (declaration d)) }
{
    let at = *place;
    match byte_at(b, place)? {
        1 => read_axiom(alloc, b, place, library, seen),
        2 => read_transparent(alloc, b, place, library, seen),
        3 => read_opaque(alloc, b, place, library, seen, index),
        4 => read_block(alloc, b, place, library, seen),
        _ => Err(Stop::Wrong(Defect::Tag, at)),
    }
}

/// Whether the declaration has a place among the opaque bodies: one, or none.
pub(crate) fn opaque_count(decl: &Decl) -> u32
    ensures value { result ≡ opaque_count (declaration decl.now) }
    ensures one { result ≤ 1 }
{
    match decl {
        Decl::Opaque { .. } => 1,
        Decl::Axiom { .. } | Decl::Transparent { .. } | Decl::Inductive(_) => 0,
    }
}

/// Declarations in order. The count takes no memory before they are read.
#[tactic(auto, unfolding(lib_format::specs::Lists::read_list))]
pub(crate) fn read_declarations(
    alloc: Global,
    b: &[u8],
    place: &mut usize,
    library: &Name,
) -> Result<Vec<Decl>, Stop>
    requires { place.old ≤ length b.now }
    ensures { Reads declarations_of b.now (read_declarations library.now (drop place.old b.now)) place.new result }
{
    let count = number_at(b, place)?;
    let mut seen = Names::new(alloc);
    let mut opaques = 0;
    let mut items = Vec::new(alloc);
    for _i in 0..count {
        let one = read_declaration(alloc, b, place, library, &mut seen, opaques)?;
        opaques += opaque_count(&one) as usize;
        items.push(one)?;
    }
    Ok(items)
}
