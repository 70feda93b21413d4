//! Terms: products, functions, `let`, applications and arrows.
ghost use Rattle.std.specs.Prelude.{◌≡◌, ◌≤◌, ◌<◌, [], ◌∷◌, length, OnOk, MatchBool, false};
ghost use Rattle.gal_grammar.specs.Terms as S;
ghost use Rattle.gal_lexer.specs.declared.token.Mark.TheVariants as M;
ghost use Rattle.gal_grammar.specs.Tests.{ident};
ghost use Rattle.gal_grammar.specs.Values.{groups, term};
ghost use Rattle.gal_grammar.specs.Actions.{push, mk_prod, mk_func, mk_let};
ghost use Rattle.gal_grammar.specs.Kinds.{tok, act, nt, k_term, k_atom, k_tail, k_binders, k_groups, k_type_level};
ghost use Rattle.gal_grammar.specs.Rules.{m, a_term};
ghost use Rattle.gal_grammar.specs.calls.Reading.{begins_term, begins_atom};
ghost use Rattle.gal_raw.specs.Denotes as V;
ghost use Rattle.gal_term_parser.specs.declared.fault.Fault.TheVariants as F;
ghost use Rattle.gal_term_parser.specs.Left.{left};
ghost use Rattle.gal_term_parser.specs.calls.Steps.{Takes, TakesAt, Keeps};

use crate::fault::Fault;
use crate::reader::{Lexeme, Parser};
use gal_lexer::Mark;
use gal_raw::{Application, Groups, QualifiedName, Raw};

/// How deep terms may stand within one another.
const DEEPEST_NESTING: u32 = 500;

impl<'a> Parser<'a> {
    /// Reads a term of the nesting. The flag says whether a `with` that no function follows can come behind it.
    #[cycle(terms)]
    #[tactic(auto, using(gal_grammar::proofs::Equations::too_deep, gal_grammar::proofs::Equations::no_term))]
    pub fn term(&mut self, nesting: u32, owned: bool) -> Result<Raw<'a>, Fault>
        requires { nesting ≤ 501 }
        ensures reads { TakesAt owned (λ vs. vs) (λ t vs. term (V.tree t) ∷ vs) result (nt nesting k_term ∷ []) (left self.old) (left self.new) }
        ensures on { length (left self.new) ≤ length (left self.old) }
    {
        if nesting > DEEPEST_NESTING {
            return Err(self.too_deep());
        }
        self.shallow_term(nesting, owned)
    }

    fn is_at_term(&self) -> bool
        ensures { result ≡ begins_term (left self.now) }
    {
        matches!(
            self.split(),
            Some((
                Lexeme::Short(_)
                    | Lexeme::Long(_)
                    | Lexeme::Mark(
                        Mark::Forall
                            | Mark::Fun
                            | Mark::Let
                            | Mark::Fix
                            | Mark::At
                            | Mark::Prop
                            | Mark::Set
                            | Mark::Typ
                            | Mark::Open
                            | Mark::Match
                    ),
                _
            ))
        )
    }

    fn is_at_atom(&self) -> bool
        ensures { result ≡ begins_atom (left self.now) }
    {
        matches!(
            self.split(),
            Some((
                Lexeme::Short(_)
                    | Lexeme::Long(_)
                    | Lexeme::Mark(
                        Mark::At | Mark::Prop | Mark::Set | Mark::Typ | Mark::Open | Mark::Match
                    ),
                _
            ))
        )
    }

    // The fault where a term is past the deepest nesting, or is none.
    fn too_deep(&self) -> Fault
        ensures { MatchBool (begins_term (left self.now)) (result ≡ F.Nesting (length (left self.now))) (result ≡ F.Syntax (length (left self.now))) }
    {
        if self.is_at_term() {
            Fault::Nesting { left: self.len() }
        } else {
            self.stuck()
        }
    }

    #[cycle(terms)]
    #[tactic(auto, using(gal_grammar::proofs::Equations::term_is_application, gal_grammar::proofs::Equations::forall_row, gal_grammar::proofs::Equations::fun_row, gal_grammar::proofs::Equations::let_row, gal_grammar::proofs::Equations::fix_row))]
    fn shallow_term(&mut self, nesting: u32, owned: bool) -> Result<Raw<'a>, Fault>
        requires { nesting ≤ 500 }
        ensures reads { TakesAt owned (λ vs. vs) (λ t vs. term (V.tree t) ∷ vs) result (nt nesting k_term ∷ []) (left self.old) (left self.new) }
        ensures on { length (left self.new) ≤ length (left self.old) }
    {
        match self.split() {
            Some((Lexeme::Mark(Mark::Forall), rest)) => {
                self.rest = rest;
                self.product(nesting, owned)
            }
            Some((Lexeme::Mark(Mark::Fun), rest)) => {
                self.rest = rest;
                self.abstraction(nesting, owned)
            }
            Some((Lexeme::Mark(Mark::Let), rest)) => {
                self.rest = rest;
                self.let_in(nesting, owned)
            }
            Some((Lexeme::Mark(Mark::Fix), rest)) => {
                self.rest = rest;
                self.fix(nesting, owned)
            }
            _ => {
                let made = self.arrow_or_application(nesting, owned)?;
                Ok(made)
            }
        }
    }

    // A head with its arguments, and an arrow behind them, if there is one.
    #[cycle(terms)]
    fn arrow_or_application(&mut self, nesting: u32, owned: bool) -> Result<Raw<'a>, Fault>
        requires { nesting ≤ 500 }
        ensures reads { TakesAt owned (λ vs. vs) (λ t vs. term (V.tree t) ∷ vs) result (nt nesting k_atom ∷ nt nesting k_tail ∷ []) (left self.old) (left self.new) }
        ensures on { length (left self.new) ≤ length (left self.old) }
    {
        let head = self.atom(nesting)?;
        self.behind_head(head, nesting, owned)
    }

    // Behind the word `forall`.
    #[cycle(terms)]
    #[tactic(auto, using(gal_grammar::proofs::Complete::act_runs))]
    fn product(&mut self, nesting: u32, owned: bool) -> Result<Raw<'a>, Fault>
        requires { nesting ≤ 500 }
        ensures reads { TakesAt owned (λ vs. vs) (λ t vs. term (V.tree t) ∷ vs) result (act (push (groups S.no_groups)) ∷ nt nesting k_binders ∷ m M.Comma ∷ a_term nesting ∷ act mk_prod ∷ []) (left self.old) (left self.new) }
        ensures on { length (left self.new) ≤ length (left self.old) }
    {
        let among = self.all_binders(nesting)?;
        self.mark(Mark::Comma)?;
        let body = self.term(nesting + 1, owned)?;
        Ok(Raw::product(self.alloc, among, body)?)
    }

    // Behind the word `fun`.
    #[cycle(terms)]
    #[tactic(auto, using(gal_grammar::proofs::Complete::act_runs))]
    fn abstraction(&mut self, nesting: u32, owned: bool) -> Result<Raw<'a>, Fault>
        requires { nesting ≤ 500 }
        ensures reads { TakesAt owned (λ vs. vs) (λ t vs. term (V.tree t) ∷ vs) result (act (push (groups S.no_groups)) ∷ nt nesting k_binders ∷ m M.Gives ∷ a_term nesting ∷ act mk_func ∷ []) (left self.old) (left self.new) }
        ensures on { length (left self.new) ≤ length (left self.old) }
    {
        let among = self.all_binders(nesting)?;
        self.mark(Mark::Gives)?;
        let body = self.term(nesting + 1, owned)?;
        Ok(Raw::abstraction(self.alloc, among, body)?)
    }

    // Behind the word `let`.
    #[cycle(terms)]
    #[tactic(auto, using(gal_grammar::proofs::Complete::act_runs))]
    fn let_in(&mut self, nesting: u32, owned: bool) -> Result<Raw<'a>, Fault>
        requires { nesting ≤ 500 }
        ensures reads { TakesAt owned (λ vs. vs) (λ t vs. term (V.tree t) ∷ vs) result (tok ident ∷ act (push (groups S.no_groups)) ∷ nt nesting k_groups ∷ m M.Colon ∷ a_term nesting ∷ m M.Assign ∷ a_term nesting ∷ m M.In ∷ a_term nesting ∷ act mk_let ∷ []) (left self.old) (left self.new) }
        ensures on { length (left self.new) ≤ length (left self.old) }
    {
        let name = self.identifier()?;
        let mut among = Groups::new(self.alloc);
        self.groups(nesting, &mut among)?;
        self.mark(Mark::Colon)?;
        let ty = self.term(nesting + 1, false)?;
        self.mark(Mark::Assign)?;
        let body = self.term(nesting + 1, false)?;
        self.mark(Mark::In)?;
        let rest = self.term(nesting + 1, owned)?;
        Ok(Raw::let_in(self.alloc, name, among, ty, body, rest)?)
    }

    // Further arguments.
    #[cycle(terms)]
    #[tactic(auto, using(gal_grammar::proofs::Complete::act_runs, gal_grammar::proofs::Equations::tail_is_atom))]
    fn arguments(&mut self, nesting: u32, parts: &mut Application<'a>) -> Result<(), Fault>
        requires { nesting ≤ 500 }
        ensures reads { Keeps (λ vs. term (V.application parts.old) ∷ vs) (λ _ vs. term (V.application parts.new) ∷ vs) result (nt nesting k_tail ∷ []) (left self.old) (left self.new) }
        ensures on { length (left self.new) ≤ length (left self.old) }
        ensures last { OnOk result (begins_atom (left self.new) ≡ false) }
    {
        'atoms: while self.is_at_atom() {
            let argument = self.atom(nesting)?;
            parts.push(argument)?;
        }
        Ok(())
    }

    // A head with its arguments, if there are any.
    #[cycle(terms)]
    #[tactic(auto, using(gal_grammar::proofs::Complete::act_runs, gal_grammar::proofs::Equations::tail_is_atom))]
    fn application(&mut self, head: Raw<'a>, nesting: u32) -> Result<Raw<'a>, Fault>
        requires { nesting ≤ 500 }
        ensures reads { Keeps (λ vs. term (V.tree head.entry) ∷ vs) (λ t vs. term (V.tree t) ∷ vs) result (nt nesting k_tail ∷ []) (left self.old) (left self.new) }
        ensures on { length (left self.new) ≤ length (left self.old) }
        ensures last { OnOk result (begins_atom (left self.new) ≡ false) }
    {
        if !self.is_at_atom() {
            return Ok(head);
        }
        let head = Box::new(self.alloc, head)?;
        let mut parts = Application::new(self.alloc, head);
        self.arguments(nesting, &mut parts)?;
        Ok(Raw::application(parts))
    }

    // Behind a head.
    #[cycle(terms)]
    #[tactic(auto, using(gal_grammar::proofs::Complete::act_runs, gal_grammar::proofs::Equations::tail_ends, crate::proofs::Marks::not_arrow))]
    fn behind_head(&mut self, head: Raw<'a>, nesting: u32, owned: bool) -> Result<Raw<'a>, Fault>
        requires { nesting ≤ 500 }
        ensures reads { TakesAt owned (λ vs. term (V.tree head.entry) ∷ vs) (λ t vs. term (V.tree t) ∷ vs) result (nt nesting k_tail ∷ []) (left self.old) (left self.new) }
        ensures on { length (left self.new) ≤ length (left self.old) }
    {
        let from = self.application(head, nesting)?;
        if self.take(Mark::Arrow) {
            let to = self.term(nesting + 1, owned)?;
            return Ok(Raw::arrow(self.alloc, from, to)?);
        }
        Ok(from)
    }

    #[cycle(terms)]
    #[tactic(auto, using(gal_grammar::proofs::Complete::act_runs))]
    fn atom(&mut self, nesting: u32) -> Result<Raw<'a>, Fault>
        requires { nesting ≤ 500 }
        ensures reads { Takes (λ vs. vs) (λ t vs. term (V.tree t) ∷ vs) result (nt nesting k_atom ∷ []) (left self.old) (left self.new) }
        ensures on { length (left self.new) ≤ length (left self.old) }
        ensures more { OnOk result (length (left self.new) < length (left self.old)) }
    {
        match self.split() {
            Some((Lexeme::Short(name), rest)) => {
                self.rest = rest;
                Ok(Raw::reference(QualifiedName::Short(name)))
            }
            Some((Lexeme::Long(name), rest)) => {
                self.rest = rest;
                Ok(Raw::reference(QualifiedName::Long(name)))
            }
            Some((Lexeme::Mark(Mark::Prop), rest)) => {
                self.rest = rest;
                Ok(Raw::prop())
            }
            Some((Lexeme::Mark(Mark::Set), rest)) => {
                self.rest = rest;
                Ok(Raw::set())
            }
            Some((Lexeme::Mark(Mark::At), rest)) => {
                self.rest = rest;
                let name = self.qualified_name()?;
                Ok(Raw::reference(name))
            }
            Some((Lexeme::Mark(Mark::Typ), rest)) => {
                self.rest = rest;
                self.type_level(nesting)
            }
            Some((Lexeme::Mark(Mark::Open), rest)) => {
                self.rest = rest;
                let inside = self.term(nesting + 1, false)?;
                self.mark(Mark::Close)?;
                Ok(inside)
            }
            Some((Lexeme::Mark(Mark::Match), rest)) => {
                self.rest = rest;
                self.match_of(nesting)
            }
            _ => Err(self.stuck()),
        }
    }

    // Behind the word `Type`.
    #[tactic(auto, using(gal_grammar::proofs::Complete::act_runs, crate::proofs::Marks::level_ends))]
    fn type_level(&mut self, nesting: u32) -> Result<Raw<'a>, Fault>
        ensures reads { Takes (λ vs. vs) (λ t vs. term (V.tree t) ∷ vs) result (act (push (term S.type_any)) ∷ nt nesting k_type_level ∷ []) (left self.old) (left self.new) }
        ensures on { length (left self.new) ≤ length (left self.old) }
    {
        if !self.take(Mark::LevelOpen) {
            return Ok(Raw::type_any());
        }
        let level = self.qualified_name()?;
        self.mark(Mark::BraceClose)?;
        Ok(Raw::type_at(level))
    }
}
