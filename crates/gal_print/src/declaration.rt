//! The text of a declaration.
ghost use Rattle.std.specs.Prelude.{◌≡◌, ◌++◌, OnOk, map, string_bytes};
ghost use Rattle.cic_names.specs.Texts.{id_text};
ghost use Rattle.cic_terms.specs.Denotes.{tree};
ghost use Rattle.cic_env.specs.Declarations.{declaration, type_declaration, constructor_declaration};
ghost use Rattle.cic_env.specs.Environments.{items};
ghost use Rattle.gal_print.specs.Declarations.{type_line, body_line, constructor_lines, block_lines, declaration_text};

use crate::pieces::push_part;
use crate::term::print_term;
use cic_env::{CtorDecl, Decl, Env, IndType};
use cic_names::GlobalId;
use cic_terms::Term;
use memory::NoMemory;

/// Adds an id.
fn push_id(text: &mut String, id: &GlobalId) -> Result<(), NoMemory>
    ensures { OnOk result (string_bytes text.new ≡ string_bytes text.old ++ id_text id.now) }
{
    write!(text, "{id}").map_err(|_| NoMemory)
}

/// Adds an id with its type.
fn push_type(text: &mut String, env: &Env, id: &GlobalId, ty: &Term) -> Result<(), NoMemory>
    ensures { OnOk result (string_bytes text.new ≡ string_bytes text.old ++ type_line (items env.now) id.now (tree ty.now)) }
{
    push_id(text, id)?;
    push_part(text, " : ")?;
    print_term(text, env, 0, ty)?;
    push_part(text, "\n")
}

/// Adds an id with its body.
fn push_body(text: &mut String, env: &Env, id: &GlobalId, body: &Term) -> Result<(), NoMemory>
    ensures { OnOk result (string_bytes text.new ≡ string_bytes text.old ++ body_line (items env.now) id.now (tree body.now)) }
{
    push_id(text, id)?;
    push_part(text, " := ")?;
    print_term(text, env, 0, body)?;
    push_part(text, "\n")
}

/// Adds constructors with their types.
fn push_constructors(text: &mut String, env: &Env, ctors: &[CtorDecl]) -> Result<(), NoMemory>
    ensures { OnOk result (string_bytes text.new ≡ string_bytes text.old ++ constructor_lines (items env.now) (map constructor_declaration ctors.now)) }
{
    for ctor in ctors {
        push_type(text, env, &ctor.id, &ctor.ty)?;
    }
    Ok(())
}

/// Adds a type of a block with its arity, and its constructors.
fn push_one(text: &mut String, env: &Env, ty: &IndType) -> Result<(), NoMemory>
    ensures { OnOk result (string_bytes text.new ≡ string_bytes text.old
        ++ (type_line (items env.now) ty.now.id (tree ty.now.arity) ++ constructor_lines (items env.now) (type_declaration ty.now).constructors)) }
{
    push_type(text, env, &ty.id, &ty.arity)?;
    push_constructors(text, env, ty.ctors.as_slice())
}

/// Adds the types of a block, each before its constructors.
fn push_types(text: &mut String, env: &Env, types: &[IndType]) -> Result<(), NoMemory>
    ensures { OnOk result (string_bytes text.new ≡ string_bytes text.old ++ block_lines (items env.now) (map type_declaration types.now)) }
{
    for ty in types {
        push_one(text, env, ty)?;
    }
    Ok(())
}

/// Adds a declaration, a line for each of its ids with its type, and one for the body of a constant that unfolds.
pub fn print_decl(text: &mut String, env: &Env, decl: &Decl) -> Result<(), NoMemory>
    ensures { OnOk result (string_bytes text.new ≡ string_bytes text.old ++ declaration_text (items env.now) (declaration decl.now)) }
{
    match decl {
        Decl::Axiom { id, ty } | Decl::Opaque { id, ty, .. } => push_type(text, env, id, ty),
        Decl::Transparent { id, ty, body } => {
            push_type(text, env, id, ty)?;
            push_body(text, env, id, body)
        }
        Decl::Inductive(block) => push_types(text, env, block.types.as_slice()),
    }
}
