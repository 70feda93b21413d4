//! One term, the whole of the tokens.
ghost use Rattle.std.specs.Prelude.{◌≡◌, [], ◌∷◌, IfOk, IfErr};
ghost use Rattle.gal_grammar.specs.Rules.{a_term};
ghost use Rattle.gal_grammar.specs.Tokens.{all_spelled};
ghost use Rattle.gal_raw.specs.Denotes.{tree};
ghost use Rattle.gal_term_parser.specs.Left.{IsTerm};
ghost use Rattle.gal_term_parser.specs.Faults.{IsFaultOf};

use crate::fault::Fault;
use crate::reader::Parser;
use gal_lexer::Token;
use gal_raw::Raw;
use std::alloc::Global;

/// The term that all of the tokens are, or the first token where reading it fails.
#[tactic(auto, using(crate::proofs::Marks::term_read, crate::proofs::Marks::term_syntax, crate::proofs::Marks::term_nesting))]
pub fn parse_term<'a>(
    alloc: Global,
    source: &'a [u8],
    tokens: &'a [Token],
) -> Result<Raw<'a>, Fault>
    ensures term { IfOk result (λ t. IsTerm (all_spelled source.now tokens.now) (tree t)) }
    ensures fault { IfErr result (λ fault. IsFaultOf (a_term 0 ∷ []) [] (all_spelled source.now tokens.now) fault) }
{
    let mut parser = Parser::new(alloc, source, tokens);
    let found = parser.term(1, false)?;
    match parser.split() {
        None => Ok(found),
        Some(_) => Err(parser.stuck()),
    }
}
