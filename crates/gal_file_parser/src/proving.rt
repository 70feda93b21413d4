//! Proofs of definitions and theorems.
ghost use Rattle.std.specs.Prelude.{◌≡◌, ◌≤◌, ◌<◌, [], ◌∷◌, length};
ghost use Rattle.gal_lexer.specs.declared.token.Mark.TheVariants as M;
ghost use Rattle.gal_grammar.specs.Commands.{not_said, qed};
ghost use Rattle.gal_grammar.specs.Values.{term, names, using, a_proof};
ghost use Rattle.gal_grammar.specs.Tests.{ident};
ghost use Rattle.gal_grammar.specs.Actions.{push, add_name, mk_proof, mk_no_proof, set_using_names};
ghost use Rattle.gal_grammar.specs.Kinds.{act, nt, tok, k_idents, k_proof, k_proof_body, k_using, k_ending, k_qed};
ghost use Rattle.gal_grammar.specs.Rules.{m, w, a_term};
ghost use Rattle.gal_raw.specs.Commands as C;
ghost use Rattle.gal_raw.specs.Denotes as V;
ghost use Rattle.gal_term_parser.specs.Left.{left};
ghost use Rattle.gal_term_parser.specs.calls.Steps.{Takes};
ghost use Rattle.gal_file_parser.specs.calls.Steps.{Turns};

use crate::identifiers::read_some_identifiers;
use crate::words::{Word, read_word, take_word};
use gal_lexer::Mark;
use gal_raw::{Ending, Proof, Using};
use gal_term_parser::{Fault, Parser};

// The word that ends a proof.
#[tactic(auto, using(crate::proofs::Rows::qed_row, crate::proofs::Rows::defined_row, crate::proofs::Rows::admitted_row, crate::proofs::Rows::no_qed))]
fn read_ending_word(parser: &mut Parser<'_>) -> Result<Ending, Fault>
    ensures reads { Turns result (nt 0 k_qed ∷ []) (λ e. m M.Stop ∷ act (mk_proof (C.ending e)) ∷ []) (left parser.old) (left parser.new) }
    ensures on { length (left parser.new) ≤ length (left parser.old) }
{
    if take_word(parser, Word::Qed) {
        return Ok(Ending::Qed);
    }
    if take_word(parser, Word::Defined) {
        return Ok(Ending::Defined);
    }
    if take_word(parser, Word::Admitted) {
        return Ok(Ending::Admitted);
    }
    Err(parser.stuck())
}

// Behind the word `exact`.
#[tactic(auto, using(gal_grammar::proofs::Complete::act_runs))]
fn read_exact<'a>(parser: &mut Parser<'a>, said: Using<'a>) -> Result<Proof<'a>, Fault>
    ensures reads { Takes (λ vs. using (C.using said.entry) ∷ vs) (λ p vs. a_proof (C.proof p) ∷ vs) result (a_term 0 ∷ m M.Stop ∷ nt 0 k_qed ∷ []) (left parser.old) (left parser.new) }
    ensures on { length (left parser.new) ≤ length (left parser.old) }
{
    let body = parser.term(1, false)?;
    parser.mark(Mark::Stop)?;
    let ending = read_ending_word(parser)?;
    parser.mark(Mark::Stop)?;
    Ok(Proof::Given {
        using: said,
        body,
        ending,
    })
}

// The word `Admitted` in place of a proof.
#[tactic(auto, using(gal_grammar::proofs::Complete::act_runs))]
fn read_admitted<'a>(parser: &mut Parser<'a>, said: Using<'a>) -> Result<Proof<'a>, Fault>
    ensures reads { Takes (λ vs. using (C.using said.entry) ∷ vs) (λ p vs. a_proof (C.proof p) ∷ vs) result (w "Admitted" ∷ m M.Stop ∷ act mk_no_proof ∷ []) (left parser.old) (left parser.new) }
    ensures on { length (left parser.new) ≤ length (left parser.old) }
{
    read_word(parser, Word::Admitted)?;
    parser.mark(Mark::Stop)?;
    Ok(Proof::Missing { using: said })
}

// A proof behind what it uses.
#[tactic(auto, using(crate::proofs::Rows::exact_row, crate::proofs::Rows::admitted_alone))]
fn read_ending<'a>(parser: &mut Parser<'a>, said: Using<'a>) -> Result<Proof<'a>, Fault>
    ensures reads { Takes (λ vs. using (C.using said.entry) ∷ vs) (λ p vs. a_proof (C.proof p) ∷ vs) result (nt 0 k_ending ∷ []) (left parser.old) (left parser.new) }
    ensures on { length (left parser.new) ≤ length (left parser.old) }
{
    if take_word(parser, Word::Exact) {
        let given = read_exact(parser, said)?;
        return Ok(given);
    }
    let missing = read_admitted(parser, said)?;
    Ok(missing)
}

// The names behind the word `using`.
#[tactic(auto, using(gal_grammar::proofs::Complete::act_runs))]
fn read_used_names<'a>(parser: &mut Parser<'a>) -> Result<Using<'a>, Fault>
    ensures reads { Takes (λ vs. using not_said ∷ vs) (λ u vs. using (C.using u) ∷ vs) result (act (push (names [])) ∷ tok ident ∷ act add_name ∷ nt 0 k_idents ∷ act set_using_names ∷ []) (left parser.old) (left parser.new) }
    ensures on { length (left parser.new) ≤ length (left parser.old) }
{
    let found = read_some_identifiers(parser)?;
    Ok(Using::Names(found))
}

// What stands behind the word `using`.
#[tactic(auto, using(gal_grammar::proofs::Complete::act_runs, crate::proofs::Rows::using_all_row, crate::proofs::Rows::using_names_row))]
fn read_used<'a>(parser: &mut Parser<'a>) -> Result<Using<'a>, Fault>
    ensures reads { Takes (λ vs. using not_said ∷ vs) (λ u vs. using (C.using u) ∷ vs) result (nt 0 k_using ∷ []) (left parser.old) (left parser.new) }
    ensures on { length (left parser.new) ≤ length (left parser.old) }
{
    if parser.take(Mark::Typ) {
        return Ok(Using::Type);
    }
    if take_word(parser, Word::All) {
        return Ok(Using::All);
    }
    let found = read_used_names(parser)?;
    Ok(found)
}

// Behind the words `Proof using`.
fn read_proof_using<'a>(parser: &mut Parser<'a>) -> Result<Proof<'a>, Fault>
    ensures reads { Takes (λ vs. using not_said ∷ vs) (λ p vs. a_proof (C.proof p) ∷ vs) result (nt 0 k_using ∷ m M.Stop ∷ nt 0 k_ending ∷ []) (left parser.old) (left parser.new) }
    ensures on { length (left parser.new) ≤ length (left parser.old) }
{
    let said = read_used(parser)?;
    parser.mark(Mark::Stop)?;
    read_ending(parser, said)
}

// A term behind the word `Proof`.
#[tactic(auto, using(gal_grammar::proofs::Complete::act_runs))]
fn read_proof_term<'a>(parser: &mut Parser<'a>) -> Result<Proof<'a>, Fault>
    ensures reads { Takes (λ vs. using not_said ∷ vs) (λ p vs. a_proof (C.proof p) ∷ vs) result (a_term 0 ∷ m M.Stop ∷ act (mk_proof qed) ∷ []) (left parser.old) (left parser.new) }
    ensures on { length (left parser.new) ≤ length (left parser.old) }
{
    let body = parser.term(1, false)?;
    parser.mark(Mark::Stop)?;
    Ok(Proof::Given {
        using: Using::NotSaid,
        body,
        ending: Ending::Qed,
    })
}

// Behind the word `Proof`.
#[tactic(auto, using(crate::proofs::Rows::using_row, crate::proofs::Rows::body_is_term))]
fn read_proof_body<'a>(parser: &mut Parser<'a>) -> Result<Proof<'a>, Fault>
    ensures reads { Takes (λ vs. using not_said ∷ vs) (λ p vs. a_proof (C.proof p) ∷ vs) result (nt 0 k_proof_body ∷ []) (left parser.old) (left parser.new) }
    ensures on { length (left parser.new) ≤ length (left parser.old) }
{
    if take_word(parser, Word::Using) {
        let found = read_proof_using(parser)?;
        return Ok(found);
    }
    if parser.take(Mark::Stop) {
        let found = read_ending(parser, Using::NotSaid)?;
        return Ok(found);
    }
    let found = read_proof_term(parser)?;
    Ok(found)
}

// A proof.
#[tactic(auto, using(gal_grammar::proofs::Complete::act_runs, crate::proofs::Rows::proof_row, crate::proofs::Rows::proof_plain))]
pub(crate) fn read_proof<'a>(parser: &mut Parser<'a>) -> Result<Proof<'a>, Fault>
    ensures reads { Takes (λ vs. vs) (λ p vs. a_proof (C.proof p) ∷ vs) result (act (push (using not_said)) ∷ nt 0 k_proof ∷ []) (left parser.old) (left parser.new) }
    ensures on { length (left parser.new) ≤ length (left parser.old) }
{
    if take_word(parser, Word::Proof) {
        let found = read_proof_body(parser)?;
        return Ok(found);
    }
    let found = read_ending(parser, Using::NotSaid)?;
    Ok(found)
}
