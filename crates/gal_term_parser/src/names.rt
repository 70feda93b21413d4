//! Names, and lists of them.
ghost use Rattle.std.specs.Prelude.{◌≡◌, ◌≤◌, ◌<◌, ℕ, List, [], ◌∷◌, length, map, IfOk, OnOk, MatchBool, true, false, None};
ghost use Rattle.std.specs.Option.{option_map};
ghost use Rattle.gal_grammar.specs.Tests.{ident, qualid, name, word};
ghost use Rattle.gal_grammar.specs.Values.{a_name, a_qual, a_binder, binders, maybe_name, maybe_binder, term};
ghost use Rattle.gal_grammar.specs.Actions.{push, add_binder};
ghost use Rattle.gal_grammar.specs.Kinds.{tok, act, nt, k_names, k_struct, k_as};
ghost use Rattle.gal_raw.specs.Denotes.{identifier, qualified, binder};
ghost use Rattle.gal_term_parser.specs.Left.{left};
ghost use Rattle.gal_term_parser.specs.calls.Steps.{Takes, TakesIf, MayTake, begins};

use crate::fault::Fault;
use crate::reader::{Lexeme, Parser};
use gal_lexer::Mark;
use gal_raw::{Binder, Identifier, QualifiedName};
use std::alloc::{AllocError, Global};

// A list of no names.
fn no_names<'a>(alloc: Global) -> Vec<Binder<'a>>
    ensures { map binder result.items ≡ [] }
{
    Vec::new(alloc)
}

/// A list of one name.
pub fn one_name<'a>(alloc: Global, only: Binder<'a>) -> Result<Vec<Binder<'a>>, AllocError>
    ensures { IfOk result (λ v. map binder v.items ≡ binder only.entry ∷ []) }
{
    let mut found = Vec::new(alloc);
    match found.push(only) {
        Ok(()) => Ok(found),
        Err(_) => Err(AllocError),
    }
}

impl<'a> Parser<'a> {
    /// Reads an identifier.
    pub fn identifier(&mut self) -> Result<Identifier<'a>, Fault>
        ensures reads { Takes (λ vs. vs) (λ x vs. a_name (identifier x) ∷ vs) result (tok ident ∷ []) (left self.old) (left self.new) }
        ensures on { length (left self.new) ≤ length (left self.old) }
        ensures more { OnOk result (length (left self.new) < length (left self.old)) }
    {
        match self.split() {
            Some((Lexeme::Short(found), rest)) => {
                self.rest = rest;
                Ok(found)
            }
            _ => Err(self.stuck()),
        }
    }

    /// Reads a name that may be qualified.
    pub fn qualified_name(&mut self) -> Result<QualifiedName<'a>, Fault>
        ensures reads { Takes (λ vs. vs) (λ x vs. a_qual (qualified x) ∷ vs) result (tok qualid ∷ []) (left self.old) (left self.new) }
        ensures on { length (left self.new) ≤ length (left self.old) }
        ensures more { OnOk result (length (left self.new) < length (left self.old)) }
    {
        match self.split() {
            Some((Lexeme::Short(found), rest)) => {
                self.rest = rest;
                Ok(QualifiedName::Short(found))
            }
            Some((Lexeme::Long(found), rest)) => {
                self.rest = rest;
                Ok(QualifiedName::Long(found))
            }
            _ => Err(self.stuck()),
        }
    }

    // Reads an identifier or `_` if it is the next token.
    fn take_binder(&mut self) -> Option<Binder<'a>>
        ensures { TakesIf name (λ x vs. a_binder (binder x) ∷ vs) result (left self.old) (left self.new) }
    {
        if self.take(Mark::Blank) {
            return Some(Binder::Blank);
        }
        match self.split() {
            Some((Lexeme::Short(found), rest)) => {
                self.rest = rest;
                Some(Binder::Bound(found))
            }
            _ => None,
        }
    }

    // Reads an identifier or `_`.
    #[tactic(auto, using(crate::proofs::Marks::refused))]
    pub(crate) fn binder(&mut self) -> Result<Binder<'a>, Fault>
        ensures reads { Takes (λ vs. vs) (λ x vs. a_binder (binder x) ∷ vs) result (tok name ∷ []) (left self.old) (left self.new) }
        ensures on { length (left self.new) ≤ length (left self.old) }
        ensures more { OnOk result (length (left self.new) < length (left self.old)) }
    {
        match self.take_binder() {
            Some(found) => Ok(found),
            None => Err(self.stuck()),
        }
    }

    // A further name, if there is one.
    #[tactic(auto, using(crate::proofs::Marks::names_end, crate::proofs::Marks::names_more))]
    fn next_binder(&mut self, nesting: u32) -> Option<Binder<'a>>
        ensures { MayTake (λ x vs. a_binder (binder x) ∷ vs) result (nt nesting k_names ∷ []) (act add_binder ∷ nt nesting k_names ∷ []) (left self.old) (left self.new) }
    {
        self.take_binder()
    }

    // Further names behind some.
    #[tactic(auto, using(gal_grammar::proofs::Complete::act_runs, crate::proofs::Marks::map_more))]
    fn binders(&mut self, nesting: u32, found: &mut Vec<Binder<'a>>) -> Result<(), Fault>
        ensures reads { Takes (λ vs. binders (map binder found.old.items) ∷ vs) (λ _ vs. binders (map binder found.new.items) ∷ vs) result (nt nesting k_names ∷ []) (left self.old) (left self.new) }
        ensures on { length (left self.new) ≤ length (left self.old) }
    {
        'more: while let Some(x) = self.next_binder(nesting) {
            found.push(x)?;
        }
        Ok(())
    }

    /// Reads one name or more of binders.
    #[tactic(auto, using(gal_grammar::proofs::Complete::act_runs))]
    pub(crate) fn some_binders(&mut self, nesting: u32) -> Result<Vec<Binder<'a>>, Fault>
        ensures reads { Takes (λ vs. vs) (λ x vs. binders (map binder x.items) ∷ vs) result (act (push (binders [])) ∷ tok name ∷ act add_binder ∷ nt nesting k_names ∷ []) (left self.old) (left self.new) }
        ensures on { length (left self.new) ≤ length (left self.old) }
        ensures more { OnOk result (length (left self.new) < length (left self.old)) }
    {
        let first = self.binder()?;
        let mut found = one_name(self.alloc, first)?;
        self.binders(nesting, &mut found)?;
        Ok(found)
    }

    // A name that may be qualified, and the names behind it.
    #[tactic(auto, using(gal_grammar::proofs::Complete::act_runs))]
    pub(crate) fn pattern(
        &mut self,
        nesting: u32,
    ) -> Result<(QualifiedName<'a>, Vec<Binder<'a>>), Fault>
        ensures reads { Takes (λ vs. vs) (λ p vs. binders (map binder p.1.items) ∷ a_qual (qualified p.0) ∷ vs) result (tok qualid ∷ act (push (binders [])) ∷ nt nesting k_names ∷ []) (left self.old) (left self.new) }
        ensures on { length (left self.new) ≤ length (left self.old) }
        ensures more { OnOk result (length (left self.new) < length (left self.old)) }
    {
        let found = self.qualified_name()?;
        let mut names = no_names(self.alloc);
        self.binders(nesting, &mut names)?;
        Ok((found, names))
    }

    // Reads the word `struct`.
    fn struct_word(&mut self) -> Result<(), Fault>
        ensures reads { Takes (λ vs. vs) (λ _ vs. vs) result (tok (word "struct") ∷ []) (left self.old) (left self.new) }
        ensures on { length (left self.new) ≤ length (left self.old) }
    {
        match self.split() {
            Some((Lexeme::Short(found), rest)) => {
                if b"struct".as_slice() == found.text {
                    self.rest = rest;
                    Ok(())
                } else {
                    Err(self.stuck())
                }
            }
            _ => Err(self.stuck()),
        }
    }

    /// Reads the name behind the word `struct`, if it is there.
    #[tactic(auto, using(gal_grammar::proofs::Complete::act_runs, crate::proofs::Marks::struct_ends))]
    pub(crate) fn structural(&mut self, nesting: u32) -> Result<Option<Identifier<'a>>, Fault>
        ensures reads { Takes (λ vs. vs) (λ x vs. maybe_name (option_map identifier x) ∷ vs) result (act (push (maybe_name None)) ∷ nt nesting k_struct ∷ []) (left self.old) (left self.new) }
        ensures on { length (left self.new) ≤ length (left self.old) }
    {
        if !self.take(Mark::BraceOpen) {
            return Ok(None);
        }
        self.struct_word()?;
        let found = self.identifier()?;
        self.mark(Mark::BraceClose)?;
        Ok(Some(found))
    }

    /// Reads the name behind the word `as`, if it is there.
    #[tactic(auto, using(gal_grammar::proofs::Complete::act_runs, crate::proofs::Marks::as_ends))]
    pub(crate) fn as_binder(&mut self, nesting: u32) -> Result<Option<Binder<'a>>, Fault>
        ensures reads { Takes (λ vs. vs) (λ x vs. maybe_binder (option_map binder x) ∷ vs) result (act (push (maybe_binder None)) ∷ nt nesting k_as ∷ []) (left self.old) (left self.new) }
        ensures on { length (left self.new) ≤ length (left self.old) }
    {
        if !self.take(Mark::As) {
            return Ok(None);
        }
        let found = self.binder()?;
        Ok(Some(found))
    }
}
