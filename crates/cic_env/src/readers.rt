//! What the rules see of an environment, each in one look-up.
ghost use Rattle.std.specs.Prelude.{◌≡◌};
ghost use Rattle.std.specs.Option.{option_map};
ghost use Rattle.cic_terms.specs.Denotes.{tree};
ghost use Rattle.cic_rules.specs.Environment.{element, constant_type, constant_type_in, transparent_body, transparent_body_in, inductive_type_of, inductive_type_in_block, whole_block, constructor_of, constructor_in_block};
ghost use Rattle.cic_env.specs.Declarations.{block, constant_meaning};
ghost use Rattle.cic_env.specs.Environments.{items};
ghost use Rattle.cic_env.specs.Readers.{type_of, ctor_of, type_in_block};

use crate::declaration::{Block, Decl};
use crate::entry::Entry;
use crate::environment::Env;
use cic_names::GlobalId;
use cic_terms::Term;

/// A type of a block, whole or bare: its arity and its number of parameters.
#[derive(Drop)]
pub struct TypeOf<'e> {
    pub arity: &'e Term,
    pub params: u32,
}

/// A constructor of a whole block: its type, the type that it belongs to, its place among that type's
/// constructors, and its number of parameters.
#[derive(Drop)]
pub struct CtorOf<'e> {
    pub ty: &'e Term,
    pub owner: &'e GlobalId,
    pub place: u32,
    pub params: u32,
}

/// The type of the constant that a declaration declares.
fn type_of_constant(decl: &Decl) -> Option<&Term>
    ensures { option_map (λ ty. tree ty.now) result ≡ constant_type_in (constant_meaning decl.now) }
{
    match decl {
        Decl::Axiom { ty, .. } => Some(ty),
        Decl::Transparent { ty, .. } => Some(ty),
        Decl::Opaque { ty, .. } => Some(ty),
        Decl::Inductive(_) => None,
    }
}

/// The body of the transparent constant that a declaration declares.
fn body_of_constant(decl: &Decl) -> Option<&Term>
    ensures { option_map (λ body. tree body.now) result ≡ transparent_body_in (constant_meaning decl.now) }
{
    match decl {
        Decl::Transparent { body, .. } => Some(body),
        Decl::Axiom { .. } | Decl::Opaque { .. } | Decl::Inductive(_) => None,
    }
}

/// The type at a place of a block.
fn type_at(b: &Block, index: u32) -> Option<TypeOf<'_>>
    ensures { option_map type_of result ≡ inductive_type_in_block (block b.now) (element (block b.now).types index) }
{
    let ty = b.types.get(index as usize)?;
    Some(TypeOf {
        arity: &ty.arity,
        params: b.params,
    })
}

/// The constructor at the second place of the type at the first place of a block.
fn constructor_at(b: &Block, index: u32, place: u32) -> Option<CtorOf<'_>>
    ensures { option_map ctor_of result ≡ constructor_in_block (block b.now) place (element (block b.now).types index) }
{
    let ty = b.types.get(index as usize)?;
    let ctor = ty.ctors.get(place as usize)?;
    Some(CtorOf {
        ty: &ctor.ty,
        owner: &ty.id,
        place,
        params: b.params,
    })
}

impl Env {
    /// The type of a constant.
    pub fn constant_type(&self, id: &GlobalId) -> Option<&Term>
        ensures { option_map (λ ty. tree ty.now) result ≡ constant_type (items self.now) id.now }
    {
        match self.get(id) {
            Some(Entry::Decl(decl)) => type_of_constant(decl),
            Some(Entry::Typ(_, _)) | Some(Entry::Ctor(_, _, _)) | Some(Entry::Bare(_, _)) | None =>
                None,
        }
    }

    /// The body of a transparent constant.
    pub fn transparent_body(&self, id: &GlobalId) -> Option<&Term>
        ensures { option_map (λ body. tree body.now) result ≡ transparent_body (items self.now) id.now }
    {
        match self.get(id) {
            Some(Entry::Decl(decl)) => body_of_constant(decl),
            Some(Entry::Typ(_, _)) | Some(Entry::Ctor(_, _, _)) | Some(Entry::Bare(_, _)) | None =>
                None,
        }
    }

    /// The arity of a type, whole or bare, and its number of parameters.
    pub fn inductive_type(&self, id: &GlobalId) -> Option<TypeOf<'_>>
        ensures { option_map type_of result ≡ inductive_type_of (items self.now) id.now }
    {
        match self.get(id) {
            Some(Entry::Typ(block, index)) => type_at(block, index),
            Some(Entry::Bare(block, index)) => type_at(block, index),
            Some(Entry::Decl(_)) | Some(Entry::Ctor(_, _, _)) | None => None,
        }
    }

    /// The whole block of a type, with the place of the type in it.
    pub fn whole_block(&self, id: &GlobalId) -> Option<(&Block, u32)>
        ensures { option_map (λ found. type_in_block (block found.0.now) found.1) result ≡ whole_block (items self.now) id.now }
    {
        match self.get(id) {
            Some(Entry::Typ(block, index)) => Some((block, index)),
            Some(Entry::Decl(_)) | Some(Entry::Ctor(_, _, _)) | Some(Entry::Bare(_, _)) | None =>
                None,
        }
    }

    /// A constructor of a whole block.
    pub fn constructor(&self, id: &GlobalId) -> Option<CtorOf<'_>>
        ensures { option_map ctor_of result ≡ constructor_of (items self.now) id.now }
    {
        match self.get(id) {
            Some(Entry::Ctor(block, index, place)) => constructor_at(block, index, place),
            Some(Entry::Decl(_)) | Some(Entry::Typ(_, _)) | Some(Entry::Bare(_, _)) | None => None,
        }
    }
}
