//! Copies of declarations, which share the parts of every term.
ghost use Rattle.std.specs.Prelude.{◌≡◌, IfOk};
ghost use Rattle.std.specs.Option.{option_map};
ghost use Rattle.cic_env.specs.Declarations.{declaration};
ghost use Rattle.cic_terms.specs.Denotes.{tree};

use cic_env::Decl;
use cic_names::GlobalId;
use cic_terms::Term;
use memory::NoMemory;
use std::alloc::Global;

/// The same id, which shares its names.
pub(crate) fn copied_id(id: &GlobalId) -> Result<GlobalId, NoMemory>
    ensures { IfOk result (λ r. r ≡ id.now) }
{
    Ok(id.clone()?)
}

fn copied_body(body: &Option<Term>) -> Result<Option<Term>, NoMemory>
    ensures { IfOk result (λ b. option_map tree b ≡ option_map tree body.now) }
{
    match body {
        None => Ok(None),
        Some(body) => Ok(Some(body.clone()?)),
    }
}

/// The same declaration.
pub(crate) fn copied(alloc: Global, decl: &Decl) -> Result<Decl, NoMemory>
    ensures { IfOk result (λ d. declaration d ≡ declaration decl.now) }
{
    match decl {
        Decl::Opaque { id, ty, body } => Ok(Decl::Opaque {
            id: copied_id(id)?,
            ty: ty.clone()?,
            body: copied_body(body)?,
        }),
        _ => Ok(decl.without_body(alloc)?),
    }
}
