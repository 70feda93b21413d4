//! The names of declarations, and their ids.
ghost use Rattle.std.specs.Prelude.{◌≡◌, ◌++◌, ◌∷◌, [], map, IfOk, OnOk};
ghost use Rattle.std.specs.Option.{option_map};
ghost use Rattle.cic_env.specs.Declarations.{declaration, constructor_declaration, type_declaration};
ghost use Rattle.cic_rules.specs.Environment.{declared_ids, constructor_ids, type_ids};
ghost use Rattle.cic_terms.specs.Denotes.{tree};
ghost use Rattle.section_terms.specs.Hypotheses.{ids_of, without_lets};
ghost use Rattle.section_terms.specs.Names.{names_in};
ghost use Rattle.section_terms.specs.Used.{names_in_body, names_in_constructors, names_in_types, statement_names, body_names};
ghost use Rattle.section_uses.specs.Kept.{hypothesis};
ghost use Rattle.section_core.specs.Answers.{Declares, DeclaresFirst};

use crate::copying::copied_id;
use cic_env::{CtorDecl, Decl, IndType};
use cic_names::GlobalId;
use cic_terms::Term;
use memory::NoMemory;
use section_uses::{Hypothesis, note_names};
use std::alloc::Global;

fn note_id(id: &GlobalId, ids: &mut Vec<GlobalId>) -> Result<(), NoMemory>
    ensures { OnOk result (ids.new.items ≡ ids.old.items ++ id.now ∷ []) }
{
    ids.push(copied_id(id)?)?;
    Ok(())
}

/// Puts the ids behind the others.
pub(crate) fn note_ids(more: &[GlobalId], ids: &mut Vec<GlobalId>) -> Result<(), NoMemory>
    ensures { OnOk result (ids.new.items ≡ ids.old.items ++ more.now) }
{
    for id in more {
        note_id(id, ids)?;
    }
    Ok(())
}

/// The same ids.
pub(crate) fn copied_ids(alloc: Global, old: &[GlobalId]) -> Result<Vec<GlobalId>, NoMemory>
    ensures { IfOk result (λ ids. ids.items ≡ old.now) }
{
    let mut ids = Vec::new(alloc);
    note_ids(old, &mut ids)?;
    Ok(ids)
}

fn note_constructors(ctors: &[CtorDecl], names: &mut Vec<GlobalId>) -> Result<(), NoMemory>
    ensures { OnOk result (names.new.items ≡ names.old.items ++ names_in_constructors (map constructor_declaration ctors.now)) }
{
    for ctor in ctors {
        note_names(&ctor.ty, names)?;
    }
    Ok(())
}

fn note_type(ty: &IndType, names: &mut Vec<GlobalId>) -> Result<(), NoMemory>
    ensures { OnOk result (names.new.items ≡ names.old.items ++ (names_in (tree ty.now.arity) ++ names_in_constructors (map constructor_declaration ty.now.ctors.items))) }
{
    note_names(&ty.arity, names)?;
    note_constructors(ty.ctors.as_slice(), names)
}

fn note_types(types: &[IndType], names: &mut Vec<GlobalId>) -> Result<(), NoMemory>
    ensures { OnOk result (names.new.items ≡ names.old.items ++ names_in_types (map type_declaration types.now)) }
{
    for ty in types {
        note_type(ty, names)?;
    }
    Ok(())
}

/// Puts the names of the statement of a declaration behind the others.
pub(crate) fn note_statement(decl: &Decl, names: &mut Vec<GlobalId>) -> Result<(), NoMemory>
    ensures { OnOk result (names.new.items ≡ names.old.items ++ statement_names (declaration decl.now)) }
{
    match decl {
        Decl::Axiom { ty, .. } | Decl::Transparent { ty, .. } | Decl::Opaque { ty, .. } => {
            note_names(ty, names)
        }
        Decl::Inductive(block) => note_types(block.types.as_slice(), names),
    }
}

fn note_optional(body: &Option<Term>, names: &mut Vec<GlobalId>) -> Result<(), NoMemory>
    ensures { OnOk result (names.new.items ≡ names.old.items ++ names_in_body (option_map tree body.now)) }
{
    match body {
        None => Ok(()),
        Some(body) => note_names(body, names),
    }
}

/// Puts the names of the body of a declaration behind the others.
pub(crate) fn note_body(decl: &Decl, names: &mut Vec<GlobalId>) -> Result<(), NoMemory>
    ensures { OnOk result (names.new.items ≡ names.old.items ++ body_names (declaration decl.now)) }
{
    match decl {
        Decl::Axiom { .. } | Decl::Inductive(_) => Ok(()),
        Decl::Transparent { body, .. } => note_names(body, names),
        Decl::Opaque { body, .. } => note_optional(body, names),
    }
}

fn note_constructor_ids(ctors: &[CtorDecl], ids: &mut Vec<GlobalId>) -> Result<(), NoMemory>
    ensures { OnOk result (ids.new.items ≡ ids.old.items ++ constructor_ids (map constructor_declaration ctors.now)) }
{
    for ctor in ctors {
        note_id(&ctor.id, ids)?;
    }
    Ok(())
}

fn note_ids_of_type(ty: &IndType, ids: &mut Vec<GlobalId>) -> Result<(), NoMemory>
    ensures { OnOk result (ids.new.items ≡ ids.old.items ++ ty.now.id ∷ constructor_ids (map constructor_declaration ty.now.ctors.items)) }
{
    note_id(&ty.id, ids)?;
    note_constructor_ids(ty.ctors.as_slice(), ids)
}

fn note_type_ids(types: &[IndType], ids: &mut Vec<GlobalId>) -> Result<(), NoMemory>
    ensures { OnOk result (ids.new.items ≡ ids.old.items ++ type_ids (map type_declaration types.now)) }
{
    for ty in types {
        note_ids_of_type(ty, ids)?;
    }
    Ok(())
}

fn note_declared(decl: &Decl, ids: &mut Vec<GlobalId>) -> Result<(), NoMemory>
    ensures { OnOk result (ids.new.items ≡ ids.old.items ++ declared_ids (declaration decl.now)) }
{
    match decl {
        Decl::Axiom { id, .. } | Decl::Transparent { id, .. } | Decl::Opaque { id, .. } => {
            note_id(id, ids)
        }
        Decl::Inductive(block) => note_type_ids(block.types.as_slice(), ids),
    }
}

/// The ids that a declaration declares.
pub(crate) fn ids_declared(alloc: Global, decl: &Decl) -> Result<Vec<GlobalId>, NoMemory>
    ensures { IfOk result (λ ids. ids.items ≡ declared_ids (declaration decl.now)) }
{
    let mut ids = Vec::new(alloc);
    note_declared(decl, &mut ids)?;
    Ok(ids)
}

/// The id that a declaration declares first.
pub(crate) fn first_id(alloc: Global, decl: &Decl) -> Result<GlobalId, NoMemory>
    requires { Declares (declaration decl.now) }
    ensures { IfOk result (λ id. DeclaresFirst id (declaration decl.now)) }
{
    let ids = ids_declared(alloc, decl)?;
    copied_id(&ids[0])
}

/// The ids of hypotheses.
pub(crate) fn hypothesis_ids(
    alloc: Global,
    hypotheses: &[Hypothesis],
) -> Result<Vec<GlobalId>, NoMemory>
    ensures { IfOk result (λ ids. ids.items ≡ ids_of (map hypothesis hypotheses.now)) }
{
    let mut ids = Vec::new(alloc);
    for h in hypotheses {
        note_id(&h.id, &mut ids)?;
    }
    Ok(ids)
}

fn note_variable(h: &Hypothesis, ids: &mut Vec<GlobalId>) -> Result<(), NoMemory>
    ensures { OnOk result (ids.new.items ≡ ids.old.items ++ ids_of (without_lets (hypothesis h.now ∷ []))) }
{
    match &h.body {
        Some(_) => Ok(()),
        None => note_id(&h.id, ids),
    }
}

/// The ids of the variables among hypotheses.
pub(crate) fn variable_ids(
    alloc: Global,
    hypotheses: &[Hypothesis],
) -> Result<Vec<GlobalId>, NoMemory>
    ensures { IfOk result (λ ids. ids.items ≡ ids_of (without_lets (map hypothesis hypotheses.now))) }
{
    let mut ids = Vec::new(alloc);
    for h in hypotheses {
        note_variable(h, &mut ids)?;
    }
    Ok(ids)
}
