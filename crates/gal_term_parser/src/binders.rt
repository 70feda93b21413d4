//! Groups of binders.
ghost use Rattle.std.specs.Prelude.{◌≡◌, ◌≤◌, ◌<◌, [], ◌∷◌, length, OnOk, false};
ghost use Rattle.gal_grammar.specs.Terms as S;
ghost use Rattle.gal_lexer.specs.declared.token.Mark.TheVariants as M;
ghost use Rattle.gal_grammar.specs.Tests.{name};
ghost use Rattle.gal_grammar.specs.Values.{binders, groups};
ghost use Rattle.gal_grammar.specs.Actions.{push, add_binder, add_group};
ghost use Rattle.gal_grammar.specs.Kinds.{tok, act, nt, k_names, k_binders, k_groups, k_some_groups};
ghost use Rattle.gal_grammar.specs.Rules.{m, a_term, in_group};
ghost use Rattle.gal_raw.specs.Denotes as V;
ghost use Rattle.gal_term_parser.specs.Left.{left};
ghost use Rattle.gal_term_parser.specs.calls.Steps.{Takes, TakesAt};

use crate::fault::Fault;
use crate::reader::Parser;
use gal_lexer::Mark;
use gal_raw::Groups;

impl<'a> Parser<'a> {
    // The binders of `forall` and of `fun`: groups in parentheses, or one group without them.
    #[cycle(terms)]
    #[tactic(auto, using(gal_grammar::proofs::Complete::act_runs, gal_grammar::proofs::Equations::bare_binders, crate::proofs::Marks::not_open))]
    pub(crate) fn all_binders(&mut self, nesting: u32) -> Result<Groups<'a>, Fault>
        requires { nesting ≤ 500 }
        ensures reads { TakesAt false (λ vs. vs) (λ g vs. groups (V.groups g) ∷ vs) result (act (push (groups S.no_groups)) ∷ nt nesting k_binders ∷ []) (left self.old) (left self.new) }
        ensures on { length (left self.new) ≤ length (left self.old) }
    {
        let mut among = Groups::new(self.alloc);
        if self.take(Mark::Open) {
            self.group(nesting, &mut among)?;
            self.groups(nesting, &mut among)?;
        } else {
            self.bare_group(nesting, &mut among)?;
        }
        Ok(among)
    }

    // Names and their type without parentheses.
    #[cycle(terms)]
    #[tactic(auto, using(gal_grammar::proofs::Complete::act_runs))]
    fn bare_group(&mut self, nesting: u32, among: &mut Groups<'a>) -> Result<(), Fault>
        requires { nesting ≤ 500 }
        ensures reads { TakesAt false (λ vs. groups (V.groups among.old) ∷ vs) (λ _ vs. groups (V.groups among.new) ∷ vs) result (act (push (binders [])) ∷ tok name ∷ act add_binder ∷ nt nesting k_names ∷ m M.Colon ∷ a_term nesting ∷ act add_group ∷ []) (left self.old) (left self.new) }
        ensures on { length (left self.new) ≤ length (left self.old) }
    {
        let names = self.some_binders(nesting)?;
        self.mark(Mark::Colon)?;
        let ty = self.term(nesting + 1, false)?;
        among.push(names, ty)?;
        Ok(())
    }

    // A group behind its parenthesis.
    #[cycle(terms)]
    #[tactic(auto, using(gal_grammar::proofs::Complete::act_runs))]
    fn group(&mut self, nesting: u32, among: &mut Groups<'a>) -> Result<(), Fault>
        requires { nesting ≤ 500 }
        ensures reads { Takes (λ vs. groups (V.groups among.old) ∷ vs) (λ _ vs. groups (V.groups among.new) ∷ vs) result (in_group nesting) (left self.old) (left self.new) }
        ensures on { length (left self.new) ≤ length (left self.old) }
    {
        let names = self.some_binders(nesting)?;
        self.mark(Mark::Colon)?;
        let ty = self.term(nesting + 1, false)?;
        self.mark(Mark::Close)?;
        among.push(names, ty)?;
        Ok(())
    }

    /// Reads groups in parentheses, none or more, behind those read before.
    #[cycle(terms)]
    #[tactic(auto, using(gal_grammar::proofs::Complete::act_runs, crate::proofs::Marks::groups_over))]
    pub fn groups(&mut self, nesting: u32, among: &mut Groups<'a>) -> Result<(), Fault>
        requires { nesting ≤ 500 }
        ensures reads { Takes (λ vs. groups (V.groups among.old) ∷ vs) (λ _ vs. groups (V.groups among.new) ∷ vs) result (nt nesting k_groups ∷ []) (left self.old) (left self.new) }
        ensures on { length (left self.new) ≤ length (left self.old) }
    {
        'more: while self.take(Mark::Open) {
            self.group(nesting, among)?;
        }
        Ok(())
    }

    // One group or more.
    #[cycle(terms)]
    #[tactic(auto, using(gal_grammar::proofs::Equations::some_groups_are))]
    fn some_groups(&mut self, nesting: u32, among: &mut Groups<'a>) -> Result<(), Fault>
        requires { nesting ≤ 500 }
        ensures reads { Takes (λ vs. groups (V.groups among.old) ∷ vs) (λ _ vs. groups (V.groups among.new) ∷ vs) result (nt nesting k_some_groups ∷ []) (left self.old) (left self.new) }
        ensures on { length (left self.new) ≤ length (left self.old) }
        ensures more { OnOk result (length (left self.new) < length (left self.old)) }
    {
        self.mark(Mark::Open)?;
        self.group(nesting, among)?;
        self.groups(nesting, among)?;
        Ok(())
    }

    // The groups of a function.
    #[cycle(terms)]
    #[tactic(auto, using(gal_grammar::proofs::Complete::act_runs))]
    pub(crate) fn function_groups(&mut self, nesting: u32) -> Result<Groups<'a>, Fault>
        requires { nesting ≤ 500 }
        ensures reads { Takes (λ vs. vs) (λ g vs. groups (V.groups g) ∷ vs) result (act (push (groups S.no_groups)) ∷ nt nesting k_some_groups ∷ []) (left self.old) (left self.new) }
        ensures on { length (left self.new) ≤ length (left self.old) }
        ensures more { OnOk result (length (left self.new) < length (left self.old)) }
    {
        let mut among = Groups::new(self.alloc);
        self.some_groups(nesting, &mut among)?;
        Ok(among)
    }
}
