//! The text of a term.
ghost use Rattle.std.specs.Prelude.{◌≡◌, ◌++◌, OnOk, string_bytes};
ghost use Rattle.cic_terms.specs.Denotes.{tree};
ghost use Rattle.cic_env.specs.Environments.{items};
ghost use Rattle.gal_print.specs.Printing.{term_text};
ghost use Rattle.gal_print.specs.calls.Output.{in_front};

use crate::names::Names;
use crate::output::{Output, open};
use crate::pieces::push_piece;
use crate::printing::print_whole;
use cic_env::Env;
use cic_terms::Term;
use memory::NoMemory;

/// Adds the pieces of a text, of which the last comes first.
fn push_pieces(text: &mut String, out: Output<'_>) -> Result<(), NoMemory>
    ensures { OnOk result (string_bytes text.new ≡ string_bytes text.old ++ in_front out.entry) }
{
    let mut pieces = out.pieces;
    while let Some(piece) = pieces.pop() {
        push_piece(text, &piece)?;
    }
    Ok(())
}

/// Adds a term that stands in a context of `depth` entries, which are named first.
pub fn print_term(text: &mut String, env: &Env, depth: u32, t: &Term) -> Result<(), NoMemory>
    ensures { OnOk result (string_bytes text.new ≡ string_bytes text.old ++ term_text (items env.now) depth (tree t.now)) }
{
    let alloc = *text.allocator();
    let mut out = Output {
        pieces: Vec::new(alloc),
        used: Vec::new(alloc),
    };
    let outside = Names::Outside;
    open(&mut out, u64::from(depth))?;
    let names = outside.more(u64::from(depth))?;
    print_whole(&mut out, env, &names, t)?;
    push_pieces(text, out)
}
