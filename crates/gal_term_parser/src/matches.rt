//! `match`: its parts and its branches.
ghost use Rattle.std.specs.Prelude.{◌≡◌, ◌≤◌, ◌<◌, [], ◌∷◌, length, map, false, true, Some, None};
ghost use Rattle.std.specs.Option.{option_map};
ghost use Rattle.gal_lexer.specs.declared.token.Mark.TheVariants as M;
ghost use Rattle.gal_grammar.specs.Tests.{qualid};
ghost use Rattle.gal_grammar.specs.Values.{term, branches, maybe_binder, maybe_within};
ghost use Rattle.gal_grammar.specs.Actions.{push, mk_match};
ghost use Rattle.gal_grammar.specs.Kinds.{tok, act, nt, k_as, k_in, k_with, k_with_any, k_branch, k_branches, k_any_branches, k_more_branches};
ghost use Rattle.gal_grammar.specs.Rules.{m, a_term, branch_behind};
ghost use Rattle.gal_raw.specs.Denotes as V;
ghost use Rattle.gal_term_parser.specs.Left.{left};
ghost use Rattle.gal_term_parser.specs.calls.Steps.{Takes, TakesAt, TakesInside, NextBranch};

use crate::fault::Fault;
use crate::reader::{Lexeme, Parser};
use gal_lexer::Mark;
use gal_raw::{Branches, Raw, Within};

impl<'a> Parser<'a> {
    // The word `return`, or the word `in` with its pattern and the word `return`.
    #[tactic(auto, using(gal_grammar::proofs::Complete::act_runs))]
    fn inside(&mut self, nesting: u32) -> Result<Option<Within<'a>>, Fault>
        ensures reads { TakesInside nesting result (left self.old) (left self.new) }
        ensures on { length (left self.new) ≤ length (left self.old) }
    {
        match self.split() {
            Some((Lexeme::Mark(Mark::Return), rest)) => {
                self.rest = rest;
                Ok(None)
            }
            Some((Lexeme::Mark(Mark::In), rest)) => {
                self.rest = rest;
                let (inductive, names) = self.pattern(nesting)?;
                self.mark(Mark::Return)?;
                Ok(Some(Within { inductive, names }))
            }
            _ => Err(self.stuck()),
        }
    }

    // Behind a branch: another, or the word `end`.
    fn next_branch(&mut self, nesting: u32) -> Result<bool, Fault>
        ensures reads { NextBranch nesting result (left self.old) (left self.new) }
        ensures on { length (left self.new) ≤ length (left self.old) }
    {
        match self.split() {
            Some((Lexeme::Mark(Mark::Bar), rest)) => {
                self.rest = rest;
                Ok(true)
            }
            Some((Lexeme::Mark(Mark::End), rest)) => {
                self.rest = rest;
                Ok(false)
            }
            _ => Err(self.stuck()),
        }
    }

    #[cycle(terms)]
    #[tactic(auto, using(gal_grammar::proofs::Equations::branch_is))]
    fn branch(&mut self, nesting: u32, cases: &mut Branches<'a>) -> Result<(), Fault>
        requires { nesting ≤ 500 }
        ensures reads { TakesAt false (λ vs. branches (V.branches cases.old) ∷ vs) (λ _ vs. branches (V.branches cases.new) ∷ vs) result (nt nesting k_branch ∷ []) (left self.old) (left self.new) }
        ensures on { length (left self.new) ≤ length (left self.old) }
    {
        self.branch_parts(nesting, cases)?;
        Ok(())
    }

    #[cycle(terms)]
    #[tactic(auto, using(gal_grammar::proofs::Complete::act_runs))]
    fn branch_parts(&mut self, nesting: u32, cases: &mut Branches<'a>) -> Result<(), Fault>
        requires { nesting ≤ 500 }
        ensures reads { TakesAt false (λ vs. branches (V.branches cases.old) ∷ vs) (λ _ vs. branches (V.branches cases.new) ∷ vs) result (tok qualid ∷ branch_behind nesting) (left self.old) (left self.new) }
        ensures on { length (left self.new) ≤ length (left self.old) }
    {
        let (constructor, names) = self.pattern(nesting)?;
        self.mark(Mark::Gives)?;
        let body = self.term(nesting + 1, false)?;
        cases.push(constructor, names, body)?;
        Ok(())
    }

    // A branch and those behind it, up to the word `end`.
    #[cycle(terms)]
    fn some_branches(&mut self, nesting: u32, cases: &mut Branches<'a>) -> Result<(), Fault>
        requires { nesting ≤ 500 }
        ensures reads { Takes (λ vs. branches (V.branches cases.old) ∷ vs) (λ _ vs. branches (V.branches cases.new) ∷ vs) result (nt nesting k_branch ∷ nt nesting k_more_branches ∷ []) (left self.old) (left self.new) }
        ensures on { length (left self.new) ≤ length (left self.old) }
    {
        self.branch(nesting, cases)?;
        'more: while self.next_branch(nesting)? {
            self.branch(nesting, cases)?;
        }
        Ok(())
    }

    #[cycle(terms)]
    #[tactic(auto, using(gal_grammar::proofs::Equations::branches_plain, gal_grammar::proofs::Equations::branches_bar, crate::proofs::Marks::not_bar))]
    fn branches(&mut self, nesting: u32, cases: &mut Branches<'a>) -> Result<(), Fault>
        requires { nesting ≤ 500 }
        ensures reads { Takes (λ vs. branches (V.branches cases.old) ∷ vs) (λ _ vs. branches (V.branches cases.new) ∷ vs) result (nt nesting k_branches ∷ []) (left self.old) (left self.new) }
        ensures on { length (left self.new) ≤ length (left self.old) }
    {
        self.take(Mark::Bar);
        self.some_branches(nesting, cases)
    }

    #[cycle(terms)]
    #[tactic(auto, using(gal_grammar::proofs::Equations::any_some, gal_grammar::proofs::Equations::any_end, crate::proofs::Marks::not_end))]
    fn any_branches(&mut self, nesting: u32, cases: &mut Branches<'a>) -> Result<(), Fault>
        requires { nesting ≤ 500 }
        ensures reads { Takes (λ vs. branches (V.branches cases.old) ∷ vs) (λ _ vs. branches (V.branches cases.new) ∷ vs) result (nt nesting k_any_branches ∷ []) (left self.old) (left self.new) }
        ensures on { length (left self.new) ≤ length (left self.old) }
    {
        if self.take(Mark::End) {
            return Ok(());
        }
        self.branches(nesting, cases)
    }

    // The motive and the branches of a `match` without the word `in`.
    #[cycle(terms)]
    #[tactic(auto, using(gal_grammar::proofs::Complete::act_runs, gal_grammar::proofs::Equations::with_is))]
    fn cases(&mut self, nesting: u32) -> Result<(Raw<'a>, Branches<'a>), Fault>
        requires { nesting ≤ 500 }
        ensures reads { Takes (λ vs. vs) (λ p vs. branches (V.branches p.1) ∷ term (V.tree p.0) ∷ vs) result (a_term nesting ∷ nt nesting k_with ∷ []) (left self.old) (left self.new) }
        ensures on { length (left self.new) ≤ length (left self.old) }
    {
        let motive = self.term(nesting + 1, true)?;
        self.mark(Mark::With)?;
        let mut list = Branches::new(self.alloc);
        self.branches(nesting, &mut list)?;
        Ok((motive, list))
    }

    // The same of a `match` that may have no branches.
    #[cycle(terms)]
    #[tactic(auto, using(gal_grammar::proofs::Complete::act_runs, gal_grammar::proofs::Equations::with_any_is))]
    fn any_cases(&mut self, nesting: u32) -> Result<(Raw<'a>, Branches<'a>), Fault>
        requires { nesting ≤ 500 }
        ensures reads { Takes (λ vs. vs) (λ p vs. branches (V.branches p.1) ∷ term (V.tree p.0) ∷ vs) result (a_term nesting ∷ nt nesting k_with_any ∷ []) (left self.old) (left self.new) }
        ensures on { length (left self.new) ≤ length (left self.old) }
    {
        let motive = self.term(nesting + 1, true)?;
        self.mark(Mark::With)?;
        let mut list = Branches::new(self.alloc);
        self.any_branches(nesting, &mut list)?;
        Ok((motive, list))
    }

    // Behind the word `match`.
    #[cycle(terms)]
    #[tactic(auto, using(gal_grammar::proofs::Complete::act_runs))]
    pub(crate) fn match_of(&mut self, nesting: u32) -> Result<Raw<'a>, Fault>
        requires { nesting ≤ 500 }
        ensures reads { Takes (λ vs. vs) (λ t vs. term (V.tree t) ∷ vs) result (a_term nesting ∷ act (push (maybe_binder None)) ∷ nt nesting k_as ∷ act (push (maybe_within None)) ∷ nt nesting k_in ∷ act mk_match ∷ []) (left self.old) (left self.new) }
        ensures on { length (left self.new) ≤ length (left self.old) }
    {
        let value = self.term(nesting + 1, false)?;
        let name = self.as_binder(nesting)?;
        match self.inside(nesting)? {
            Some(inside) => {
                let (motive, cases) = self.any_cases(nesting)?;
                Ok(Raw::match_of(self.alloc, value, name, Some(inside), motive, cases)?)
            }
            None => {
                let (motive, cases) = self.cases(nesting)?;
                Ok(Raw::match_of(self.alloc, value, name, None, motive, cases)?)
            }
        }
    }
}
