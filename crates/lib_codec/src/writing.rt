//! Declarations, written behind what is there.
ghost use Rattle.std.specs.Prelude.{◌≡◌, ◌++◌, ◌<◌, ◌^◌, OnOk, length, map};
ghost use Rattle.std.specs.List.{AllByRecursion};
ghost use Rattle.cic_terms.specs.Denotes.{tree};
ghost use Rattle.cic_env.specs.Declarations.{declaration, type_declaration, constructor_declaration, block};
ghost use Rattle.cic_rules.specs.Environment.{inductive};
ghost use Rattle.term_format.specs.Storable.{HasRow};
ghost use Rattle.lib_format.specs.Lists.{list_bytes};
ghost use Rattle.lib_format.specs.DeclarationBytes.{declaration_bytes, declarations_bytes, type_bytes, constructor_bytes};
ghost use Rattle.lib_codec.specs.calls.Writing.{TypeCanBeWritten, BlockCanBeWritten, CanBeWritten, ConstructorCanBeWritten, constant_bytes};

use crate::declarations::opaque_count;
use cic_env::{Block, CtorDecl, Decl, IndType};
use cic_names::{Name, NoMemory};
use cic_terms::Term;
use seg_format::Bytes;
use term_codec::{put_byte, put_name, put_number, put_term};

fn put_constructor(bytes: &mut Bytes, c: &CtorDecl) -> Result<(), NoMemory>
    requires { ConstructorCanBeWritten (constructor_declaration c.now) }
    ensures { OnOk result (bytes.new.items ≡ bytes.old.items ++ constructor_bytes (constructor_declaration c.now)) }
{
    put_name(bytes, &c.id.name)?;
    put_term(bytes, &c.ty)
}

fn put_constructors(bytes: &mut Bytes, all: &[CtorDecl]) -> Result<(), NoMemory>
    requires few { length all.now < 2 ^ 32 }
    requires each { AllByRecursion ConstructorCanBeWritten (map constructor_declaration all.now) }
    ensures { OnOk result (bytes.new.items ≡ bytes.old.items ++ list_bytes (λ before c. constructor_bytes c) (map constructor_declaration all.now)) }
{
    put_number(bytes, all.len() as u32)?;
    for c in all {
        put_constructor(bytes, c)?;
    }
    Ok(())
}

fn put_type(bytes: &mut Bytes, t: &IndType) -> Result<(), NoMemory>
    requires { TypeCanBeWritten (type_declaration t.now) }
    ensures { OnOk result (bytes.new.items ≡ bytes.old.items ++ type_bytes (type_declaration t.now)) }
{
    put_name(bytes, &t.id.name)?;
    put_term(bytes, &t.arity)?;
    put_constructors(bytes, t.ctors.as_slice())
}

fn put_types(bytes: &mut Bytes, all: &[IndType]) -> Result<(), NoMemory>
    requires few { length all.now < 2 ^ 32 }
    requires each { AllByRecursion TypeCanBeWritten (map type_declaration all.now) }
    ensures { OnOk result (bytes.new.items ≡ bytes.old.items ++ list_bytes (λ before t. type_bytes t) (map type_declaration all.now)) }
{
    put_number(bytes, all.len() as u32)?;
    for t in all {
        put_type(bytes, t)?;
    }
    Ok(())
}

fn put_constant(bytes: &mut Bytes, kind: u8, name: &Name, ty: &Term) -> Result<(), NoMemory>
    requires { HasRow (tree ty.now) }
    ensures { OnOk result (bytes.new.items ≡ bytes.old.items ++ constant_bytes kind name.now (tree ty.now)) }
{
    put_byte(bytes, kind)?;
    put_name(bytes, name)?;
    put_term(bytes, ty)
}

fn put_block(bytes: &mut Bytes, b: &Block) -> Result<(), NoMemory>
    requires { BlockCanBeWritten (block b.now) }
    ensures { OnOk result (bytes.new.items ≡ bytes.old.items ++ declaration_bytes 0 (inductive (block b.now))) }
{
    put_byte(bytes, 4)?;
    put_number(bytes, b.params)?;
    put_types(bytes, b.types.as_slice())
}

/// A declaration behind `index` constants that do not unfold.
fn put_declaration(bytes: &mut Bytes, index: u32, decl: &Decl) -> Result<(), NoMemory>
    requires { CanBeWritten (declaration decl.now) }
    ensures { OnOk result (bytes.new.items ≡ bytes.old.items ++ declaration_bytes index (declaration decl.now)) }
{
    match decl {
        Decl::Axiom { id, ty } => put_constant(bytes, 1, &id.name, ty),
        Decl::Transparent { id, ty, body } => {
            put_constant(bytes, 2, &id.name, ty)?;
            put_term(bytes, body)
        }
        Decl::Opaque { id, ty, .. } => {
            put_constant(bytes, 3, &id.name, ty)?;
            put_number(bytes, index)
        }
        Decl::Inductive(block) => put_block(bytes, block),
    }
}

/// Declarations in order.
pub(crate) fn put_declarations(bytes: &mut Bytes, all: &[Decl]) -> Result<(), NoMemory>
    requires few { length all.now < 2 ^ 32 }
    requires each { AllByRecursion CanBeWritten (map declaration all.now) }
    ensures { OnOk result (bytes.new.items ≡ bytes.old.items ++ declarations_bytes (map declaration all.now)) }
{
    put_number(bytes, all.len() as u32)?;
    let mut opaques = 0;
    for decl in all {
        put_declaration(bytes, opaques, decl)?;
        opaques += opaque_count(decl);
    }
    Ok(())
}
