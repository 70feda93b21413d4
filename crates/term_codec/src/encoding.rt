//! What callers write: a list of constraints, and a term.
ghost use Rattle.std.specs.Prelude.{◌≡◌, IfOk};
ghost use Rattle.term_format.specs.Spelling.{constraints_bytes, term_bytes};
ghost use Rattle.term_format.specs.Storable.{AreStorable, IsStorable};
ghost use Rattle.cic_terms.specs.Denotes.{tree};

use crate::writing::{put_constraint, put_number};
use crate::writing_terms::put_term;
use cic_names::{Constraints, NoMemory};
use cic_terms::Term;
use seg_format::Bytes;
use std::alloc::Global;

/// The bytes of a list of constraints.
pub fn encode_constraints(alloc: Global, all: &Constraints) -> Result<Bytes, NoMemory>
    requires { AreStorable all.now }
    ensures { IfOk result (λ bytes. bytes.items ≡ constraints_bytes all.now) }
{
    let mut bytes = Vec::new(alloc);
    put_number(&mut bytes, all.len() as u32)?;
    for one in all.iter() {
        put_constraint(&mut bytes, one)?;
    }
    Ok(bytes)
}

/// The bytes of a term.
pub fn encode_term(alloc: Global, t: &Term) -> Result<Bytes, NoMemory>
    requires { IsStorable (tree t.now) }
    ensures { IfOk result (λ bytes. bytes.items ≡ term_bytes (tree t.now)) }
{
    let mut bytes = Vec::new(alloc);
    put_term(&mut bytes, t)?;
    Ok(bytes)
}
