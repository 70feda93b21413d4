//! Texts of terms and declarations, sent.
ghost use Rattle.cic_terms.specs.Denotes.{tree};
ghost use Rattle.cic_env.specs.Declarations.{declaration};
ghost use Rattle.cic_env.specs.Environments.{items};
ghost use Rattle.gal_print.specs.Printing.{term_text};
ghost use Rattle.gal_print.specs.Declarations.{declaration_text};
ghost use Rattle.gal_print.specs.Sent.{SentText, CountsFaults};

use crate::declaration::print_decl;
use crate::term::print_term;
use cic_env::{Decl, Env};
use cic_io::{Sink, SinkFault};
use cic_terms::Term;
use memory::NoMemory;
use std::alloc::Global;
use thiserror::Error;

/// Why a text was not sent.
#[derive(Clone, Copy, Debug, PartialEq, Eq, Error)]
pub enum PrintFault {
    /// The sink failed, and counted it.
    #[error("the sink failed")]
    Failed,
    /// There was no memory for the text. Nothing was sent.
    #[error("out of memory")]
    NoMemory,
}

/// Sends a text.
fn send<O: Sink>(text: &str, out: &mut O) -> Result<(), PrintFault>
    ensures sent { SentText text.now result (O.sent out.old) (O.sent out.new) }
    ensures faults { CountsFaults result (O.faults out.old) (O.faults out.new) }
{
    match out.write(text.as_bytes()) {
        Ok(()) => Ok(()),
        Err(SinkFault::Failed) => Err(PrintFault::Failed),
    }
}

/// Sends a term that stands in a context of `depth` entries, which are named first.
pub fn print_term_into<O: Sink>(
    alloc: Global,
    env: &Env,
    depth: u32,
    t: &Term,
    out: &mut O,
) -> Result<(), PrintFault>
    ensures sent { SentText (term_text (items env.now) depth (tree t.now)) result (O.sent out.old) (O.sent out.new) }
    ensures faults { CountsFaults result (O.faults out.old) (O.faults out.new) }
{
    let mut text = String::new(alloc);
    match print_term(&mut text, env, depth, t) {
        Ok(()) => send(text.as_str(), out),
        Err(NoMemory) => Err(PrintFault::NoMemory),
    }
}

/// Sends a declaration, a line for each of its ids with its type, and one for the body of a constant that unfolds.
pub fn print_decl_into<O: Sink>(
    alloc: Global,
    env: &Env,
    decl: &Decl,
    out: &mut O,
) -> Result<(), PrintFault>
    ensures sent { SentText (declaration_text (items env.now) (declaration decl.now)) result (O.sent out.old) (O.sent out.new) }
    ensures faults { CountsFaults result (O.faults out.old) (O.faults out.new) }
{
    let mut text = String::new(alloc);
    match print_decl(&mut text, env, decl) {
        Ok(()) => send(text.as_str(), out),
        Err(NoMemory) => Err(PrintFault::NoMemory),
    }
}
