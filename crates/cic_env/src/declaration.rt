//! Declarations, as the program keeps them. Copies share the parts of every term.
ghost use Rattle.std.specs.Prelude.{◌≡◌, IfOk, map, length, drop, ◌++◌};
ghost use Rattle.cic_env.specs.Declarations.{block, constructor_declaration, type_declaration, declaration, without_body};

use cic_names::{GlobalId, NoMemory};
use cic_terms::Term;
use std::alloc::Global;

/// A declaration. Coq Reference Manual, "Typing rules", the global environment.
#[derive(Drop)]
pub enum Decl {
    /// An axiom: an id with its type.
    Axiom {
        id: GlobalId,
        ty: Term,
    },
    /// A constant that unfolds to its body.
    Transparent {
        id: GlobalId,
        ty: Term,
        body: Term,
    },
    /// A constant that does not unfold. Its body may not be there.
    Opaque {
        id: GlobalId,
        ty: Term,
        body: Option<Term>,
    },
    /// Mutual inductive types.
    Inductive(Block),
}

/// Mutual inductive types, which share their first `params` parameters. Coq Reference Manual, "Inductive types".
#[derive(Drop)]
pub struct Block {
    pub params: u32,
    pub types: Vec<IndType>,
}

/// An inductive type: its arity begins with the products of the parameters.
#[derive(Drop)]
pub struct IndType {
    pub id: GlobalId,
    pub arity: Term,
    pub ctors: Vec<CtorDecl>,
}

/// A constructor: its type begins with the products of the parameters.
#[derive(Drop)]
pub struct CtorDecl {
    pub id: GlobalId,
    pub ty: Term,
}

/// The same id, which shares its names.
pub(crate) fn shared_id(id: &GlobalId) -> Result<GlobalId, NoMemory>
    ensures { IfOk result (λ r. r ≡ id.now) }
{
    Ok(id.clone()?)
}

impl CtorDecl {
    fn copy(&self) -> Result<CtorDecl, NoMemory>
        ensures { IfOk result (λ c. constructor_declaration c ≡ constructor_declaration self.now) }
    {
        Ok(CtorDecl {
            id: shared_id(&self.id)?,
            ty: self.ty.clone()?,
        })
    }
}

fn copy_constructors(alloc: Global, ctors: &[CtorDecl]) -> Result<Vec<CtorDecl>, NoMemory>
    ensures { IfOk result (λ copies. map constructor_declaration copies.items ≡ map constructor_declaration ctors.now) }
{
    let mut copies = Vec::new(alloc);
    for ctor in ctors {
        copies.push(ctor.copy()?)?;
    }
    Ok(copies)
}

impl IndType {
    fn copy(&self, alloc: Global) -> Result<IndType, NoMemory>
        ensures { IfOk result (λ t. type_declaration t ≡ type_declaration self.now) }
    {
        Ok(IndType {
            id: shared_id(&self.id)?,
            arity: self.arity.clone()?,
            ctors: copy_constructors(alloc, self.ctors.as_slice())?,
        })
    }
}

fn copy_types(alloc: Global, types: &[IndType]) -> Result<Vec<IndType>, NoMemory>
    ensures { IfOk result (λ copies. map type_declaration copies.items ≡ map type_declaration types.now) }
{
    let mut copies = Vec::new(alloc);
    for ty in types {
        copies.push(ty.copy(alloc)?)?;
    }
    Ok(copies)
}

impl Block {
    /// The same block, whose terms share their parts.
    pub fn copy(&self, alloc: Global) -> Result<Block, NoMemory>
        ensures { IfOk result (λ b. block b ≡ block self.now) }
    {
        Ok(Block {
            params: self.params,
            types: copy_types(alloc, self.types.as_slice())?,
        })
    }
}

impl Decl {
    /// The same declaration without an opaque body. Its terms share their parts.
    pub fn without_body(&self, alloc: Global) -> Result<Decl, NoMemory>
        ensures { IfOk result (λ d. declaration d ≡ without_body (declaration self.now)) }
    {
        match self {
            Decl::Axiom { id, ty } => Ok(Decl::Axiom {
                id: shared_id(id)?,
                ty: ty.clone()?,
            }),
            Decl::Transparent { id, ty, body } => Ok(Decl::Transparent {
                id: shared_id(id)?,
                ty: ty.clone()?,
                body: body.clone()?,
            }),
            Decl::Opaque { id, ty, .. } => Ok(Decl::Opaque {
                id: shared_id(id)?,
                ty: ty.clone()?,
                body: None,
            }),
            Decl::Inductive(block) => Ok(Decl::Inductive(block.copy(alloc)?)),
        }
    }
}
