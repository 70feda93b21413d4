//! Functions of a `fix`.
ghost use Rattle.std.specs.Prelude.{◌≡◌, ◌≤◌, ◌<◌, [], ◌∷◌, length, false, true, Some, None};
ghost use Rattle.std.specs.Option.{option_map};
ghost use Rattle.gal_grammar.specs.Terms as S;
ghost use Rattle.gal_lexer.specs.declared.token.Mark.TheVariants as M;
ghost use Rattle.gal_grammar.specs.Tests.{ident};
ghost use Rattle.gal_grammar.specs.Tokens.{all_spelled};
ghost use Rattle.gal_grammar.specs.Values.{term, functions, maybe_name};
ghost use Rattle.gal_grammar.specs.Actions.{push, mk_fix};
ghost use Rattle.gal_grammar.specs.Kinds.{tok, act, nt, fix_tail, k_function, k_functions};
ghost use Rattle.gal_grammar.specs.Rules.{m, a_term, function_behind};
ghost use Rattle.gal_grammar.specs.Grammar.{begins_function};
ghost use Rattle.gal_grammar.specs.calls.Reading.{with_left, begins_open};
ghost use Rattle.gal_raw.specs.Denotes as V;
ghost use Rattle.gal_term_parser.specs.Left.{left};
ghost use Rattle.gal_term_parser.specs.calls.Steps.{Takes, TakesAt, GoesOn, GoesFurther};

use crate::fault::Fault;
use crate::reader::{Lexeme, Parser, split_first};
use gal_lexer::{Mark, Token};
use gal_raw::{Functions, Identifier, Raw};

// Whether the tokens begin with an opening parenthesis.
fn begins_open(source: &[u8], tokens: &[Token]) -> bool
    ensures { result ≡ begins_open (all_spelled source.now tokens.now) }
{
    matches!(
        split_first(source, tokens),
        Some((Lexeme::Mark(Mark::Open), _))
    )
}

// Whether an identifier and an opening parenthesis come.
fn begins_function(source: &[u8], tokens: &[Token]) -> bool
    ensures { result ≡ begins_function (all_spelled source.now tokens.now) }
{
    match split_first(source, tokens) {
        Some((Lexeme::Short(_), rest)) => begins_open(source, rest),
        _ => false,
    }
}

// How many tokens are left where a `with` that nothing can take is refused, behind that word.
#[tactic(auto, using(crate::proofs::Marks::length_spelled))]
fn left_of_with(source: &[u8], tokens: &[Token]) -> usize
    ensures value { result ≡ with_left (all_spelled source.now tokens.now) }
    ensures within { result ≤ length (all_spelled source.now tokens.now) }
{
    match split_first(source, tokens) {
        Some((Lexeme::Short(_), rest)) => rest.len(),
        _ => tokens.len(),
    }
}

impl<'a> Parser<'a> {
    // Whether a `fix` goes on behind its first function.
    #[tactic(auto, using(gal_grammar::proofs::Equations::fix_over, gal_grammar::proofs::Equations::fix_takes, gal_grammar::proofs::Equations::fix_outer, gal_grammar::proofs::Equations::fix_fails))]
    fn goes_on(&mut self, nesting: u32, owned: bool) -> Result<bool, Fault>
        ensures reads { GoesOn owned nesting result (left self.old) (left self.new) }
        ensures on { length (left self.new) ≤ length (left self.old) }
    {
        match self.split() {
            Some((Lexeme::Mark(Mark::With), rest)) => {
                if begins_function(self.source, rest) {
                    self.rest = rest;
                    Ok(true)
                } else if owned {
                    Ok(false)
                } else {
                    Err(Fault::Syntax {
                        left: left_of_with(self.source, rest),
                    })
                }
            }
            _ => Ok(false),
        }
    }

    // Behind a further function of a `fix`: another, or the word `for`.
    fn goes_further(&mut self, nesting: u32) -> Result<bool, Fault>
        ensures reads { GoesFurther nesting result (left self.old) (left self.new) }
        ensures on { length (left self.new) ≤ length (left self.old) }
    {
        match self.split() {
            Some((Lexeme::Mark(Mark::With), rest)) => {
                self.rest = rest;
                Ok(true)
            }
            Some((Lexeme::Mark(Mark::For), rest)) => {
                self.rest = rest;
                Ok(false)
            }
            _ => Err(self.stuck()),
        }
    }

    // A type and a body.
    #[cycle(terms)]
    fn typed_body(&mut self, nesting: u32, owned: bool) -> Result<(Raw<'a>, Raw<'a>), Fault>
        requires { nesting ≤ 500 }
        ensures reads { TakesAt owned (λ vs. vs) (λ p vs. term (V.tree p.1) ∷ term (V.tree p.0) ∷ vs) result (m M.Colon ∷ a_term nesting ∷ m M.Assign ∷ a_term nesting ∷ []) (left self.old) (left self.new) }
        ensures on { length (left self.new) ≤ length (left self.old) }
    {
        self.mark(Mark::Colon)?;
        let ty = self.term(nesting + 1, false)?;
        self.mark(Mark::Assign)?;
        let body = self.term(nesting + 1, owned)?;
        Ok((ty, body))
    }

    /// Reads a function of a `fix`, behind those read before. The flag is that of a term.
    #[cycle(terms)]
    #[tactic(auto, using(gal_grammar::proofs::Equations::function_is))]
    pub fn function(
        &mut self,
        nesting: u32,
        owned: bool,
        block: &mut Functions<'a>,
    ) -> Result<(), Fault>
        requires { nesting ≤ 500 }
        ensures reads { TakesAt owned (λ vs. functions (V.functions block.old) ∷ vs) (λ _ vs. functions (V.functions block.new) ∷ vs) result (nt nesting k_function ∷ []) (left self.old) (left self.new) }
        ensures on { length (left self.new) ≤ length (left self.old) }
    {
        self.function_parts(nesting, owned, block)?;
        Ok(())
    }

    #[cycle(terms)]
    #[tactic(auto, using(gal_grammar::proofs::Complete::act_runs))]
    fn function_parts(
        &mut self,
        nesting: u32,
        owned: bool,
        block: &mut Functions<'a>,
    ) -> Result<(), Fault>
        requires { nesting ≤ 500 }
        ensures reads { TakesAt owned (λ vs. functions (V.functions block.old) ∷ vs) (λ _ vs. functions (V.functions block.new) ∷ vs) result (tok ident ∷ function_behind nesting) (left self.old) (left self.new) }
        ensures on { length (left self.new) ≤ length (left self.old) }
    {
        let name = self.identifier()?;
        let among = self.function_groups(nesting)?;
        let structural = self.structural(nesting)?;
        let (ty, body) = self.typed_body(nesting, owned)?;
        block.push(name, among, structural, ty, body)?;
        Ok(())
    }

    // Behind the word `fix`.
    #[cycle(terms)]
    #[tactic(auto, using(gal_grammar::proofs::Complete::act_runs))]
    pub(crate) fn fix(&mut self, nesting: u32, owned: bool) -> Result<Raw<'a>, Fault>
        requires { nesting ≤ 500 }
        ensures reads { TakesAt owned (λ vs. vs) (λ t vs. term (V.tree t) ∷ vs) result (act (push (maybe_name None)) ∷ act (push (functions S.no_functions)) ∷ nt nesting k_function ∷ fix_tail nesting ∷ act mk_fix ∷ []) (left self.old) (left self.new) }
        ensures on { length (left self.new) ≤ length (left self.old) }
    {
        let mut block = Functions::new(self.alloc);
        self.function(nesting, owned, &mut block)?;
        if self.goes_on(nesting, owned)? {
            let chosen = self.functions(nesting, &mut block)?;
            Ok(Raw::fix(self.alloc, block, Some(chosen))?)
        } else {
            Ok(Raw::fix(self.alloc, block, None)?)
        }
    }

    // The further functions of a `fix`, and the name behind the word `for`.
    #[cycle(terms)]
    #[tactic(auto, using(gal_grammar::proofs::Complete::act_runs))]
    fn functions(
        &mut self,
        nesting: u32,
        block: &mut Functions<'a>,
    ) -> Result<Identifier<'a>, Fault>
        requires { nesting ≤ 500 }
        ensures reads { Takes (λ vs. functions (V.functions block.old) ∷ maybe_name None ∷ vs) (λ x vs. functions (V.functions block.new) ∷ maybe_name (Some (V.identifier x)) ∷ vs) result (nt nesting k_function ∷ nt nesting k_functions ∷ []) (left self.old) (left self.new) }
        ensures on { length (left self.new) ≤ length (left self.old) }
    {
        self.function(nesting, true, block)?;
        'more: while self.goes_further(nesting)? {
            self.function(nesting, true, block)?;
        }
        self.identifier()
    }
}
