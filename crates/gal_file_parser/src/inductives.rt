//! The command `Inductive`.
ghost use Rattle.std.specs.Prelude.{◌≡◌, ◌≤◌, ◌<◌, [], ◌∷◌, ◌++◌, length, map, true, None};
ghost use Rattle.std.specs.Option.{option_map};
ghost use Rattle.gal_lexer.specs.declared.token.Mark.TheVariants as M;
ghost use Rattle.gal_grammar.specs.Tests.{ident};
ghost use Rattle.gal_grammar.specs.Values.{groups, ctors, inds, maybe_term, commands};
ghost use Rattle.gal_grammar.specs.Actions.{push, add_ind, say_inductive};
ghost use Rattle.gal_grammar.specs.Kinds.{tok, act, nt, k_ctor, k_ctor_type, k_ctors, k_ctors_behind, k_more_ctors, k_ind, k_inds, k_groups};
ghost use Rattle.gal_grammar.specs.Rules.{m, a_term, ctor_behind};
ghost use Rattle.gal_grammar.specs.Terms.{no_groups};
ghost use Rattle.gal_raw.specs.Commands as C;
ghost use Rattle.gal_raw.specs.Denotes as V;
ghost use Rattle.gal_term_parser.specs.Left.{left};
ghost use Rattle.gal_term_parser.specs.calls.Steps.{Takes, TakesAt, begins};

use gal_lexer::Mark;
use gal_raw::{Command, Commands, Constructor, Groups, Inductive, Raw};
use gal_term_parser::{Fault, Lexeme, Parser};
use std::alloc::Global;

// A list of no constructors.
fn no_constructors<'a>(alloc: Global) -> Vec<Constructor<'a>>
    ensures { map C.constructor result.items ≡ [] }
{
    Vec::new(alloc)
}

// A list of no inductive types.
fn no_inductives<'a>(alloc: Global) -> Vec<Inductive<'a>>
    ensures { map C.inductive result.items ≡ [] }
{
    Vec::new(alloc)
}

// The type of a constructor, if it is there.
#[tactic(auto, using(gal_grammar::proofs::Complete::act_runs, crate::proofs::Ctors::no_ctor_type))]
fn read_constructor_type<'a>(parser: &mut Parser<'a>) -> Result<Option<Raw<'a>>, Fault>
    ensures reads { TakesAt true (λ vs. vs) (λ t vs. maybe_term (option_map V.tree t) ∷ vs) result (act (push (maybe_term None)) ∷ nt 0 k_ctor_type ∷ []) (left parser.old) (left parser.new) }
    ensures on { length (left parser.new) ≤ length (left parser.old) }
{
    if !parser.take(Mark::Colon) {
        return Ok(None);
    }
    let ty = parser.term(1, true)?;
    Ok(Some(ty))
}

// A constructor.
#[tactic(auto, using(gal_grammar::proofs::Complete::act_runs, gal_term_parser::proofs::Marks::map_more))]
fn read_constructor<'a>(
    parser: &mut Parser<'a>,
    found: &mut Vec<Constructor<'a>>,
) -> Result<(), Fault>
    ensures reads { TakesAt true (λ vs. ctors (map C.constructor found.old.items) ∷ vs) (λ _ vs. ctors (map C.constructor found.new.items) ∷ vs) result (tok ident ∷ ctor_behind 0) (left parser.old) (left parser.new) }
    ensures on { length (left parser.new) ≤ length (left parser.old) }
{
    let name = parser.identifier()?;
    let mut among = Groups::new(parser.alloc);
    parser.groups(0, &mut among)?;
    let ty = read_constructor_type(parser)?;
    found.push(Constructor {
        name,
        groups: among,
        ty,
    })?;
    Ok(())
}

// A constructor behind a bar.
#[tactic(auto, using(crate::proofs::Ctors::ctor_is))]
fn read_further_constructor<'a>(
    parser: &mut Parser<'a>,
    found: &mut Vec<Constructor<'a>>,
) -> Result<(), Fault>
    ensures reads { TakesAt true (λ vs. ctors (map C.constructor found.old.items) ∷ vs) (λ _ vs. ctors (map C.constructor found.new.items) ∷ vs) result (nt 0 k_ctor ∷ []) (left parser.old) (left parser.new) }
    ensures on { length (left parser.new) ≤ length (left parser.old) }
{
    read_constructor(parser, found)?;
    Ok(())
}

// Further constructors, each behind a bar.
#[tactic(auto, using(crate::proofs::Ctors::ctors_end))]
fn read_further_constructors<'a>(
    parser: &mut Parser<'a>,
    found: &mut Vec<Constructor<'a>>,
) -> Result<(), Fault>
    ensures reads { TakesAt true (λ vs. ctors (map C.constructor found.old.items) ∷ vs) (λ _ vs. ctors (map C.constructor found.new.items) ∷ vs) result (nt 0 k_more_ctors ∷ []) (left parser.old) (left parser.new) }
    ensures on { length (left parser.new) ≤ length (left parser.old) }
{
    'more: while parser.take(Mark::Bar) {
        read_further_constructor(parser, found)?;
    }
    Ok(())
}

fn is_at_identifier(parser: &Parser<'_>) -> bool
    ensures { result ≡ begins ident (left parser.now) }
{
    matches!(parser.split(), Some((Lexeme::Short(_), _)))
}

// The first constructor and those behind it.
fn read_some_constructors<'a>(
    parser: &mut Parser<'a>,
    found: &mut Vec<Constructor<'a>>,
) -> Result<(), Fault>
    ensures reads { TakesAt true (λ vs. ctors (map C.constructor found.old.items) ∷ vs) (λ _ vs. ctors (map C.constructor found.new.items) ∷ vs) result (tok ident ∷ (ctor_behind 0 ++ (nt 0 k_more_ctors ∷ []))) (left parser.old) (left parser.new) }
    ensures on { length (left parser.new) ≤ length (left parser.old) }
{
    read_constructor(parser, found)?;
    read_further_constructors(parser, found)?;
    Ok(())
}

// The constructors behind the bar that may stand before the first.
#[tactic(auto, using(crate::proofs::Ctors::no_ctors, crate::proofs::Ctors::ctors_are))]
fn read_constructors_behind<'a>(
    parser: &mut Parser<'a>,
    found: &mut Vec<Constructor<'a>>,
) -> Result<(), Fault>
    ensures reads { TakesAt true (λ vs. ctors (map C.constructor found.old.items) ∷ vs) (λ _ vs. ctors (map C.constructor found.new.items) ∷ vs) result (nt 0 k_ctors_behind ∷ []) (left parser.old) (left parser.new) }
    ensures on { length (left parser.new) ≤ length (left parser.old) }
{
    if is_at_identifier(parser) {
        read_some_constructors(parser, found)?;
        return Ok(());
    }
    Ok(())
}

// The constructors of a type.
#[tactic(auto, using(crate::proofs::Ctors::ctors_plain))]
fn read_constructors<'a>(
    parser: &mut Parser<'a>,
    found: &mut Vec<Constructor<'a>>,
) -> Result<(), Fault>
    ensures reads { TakesAt true (λ vs. ctors (map C.constructor found.old.items) ∷ vs) (λ _ vs. ctors (map C.constructor found.new.items) ∷ vs) result (nt 0 k_ctors ∷ []) (left parser.old) (left parser.new) }
    ensures on { length (left parser.new) ≤ length (left parser.old) }
{
    parser.take(Mark::Bar);
    read_constructors_behind(parser, found)?;
    Ok(())
}

// A type of a block behind the word `Inductive` or `with`.
#[tactic(auto, using(gal_grammar::proofs::Complete::act_runs, gal_term_parser::proofs::Marks::map_more))]
fn read_inductive_parts<'a>(
    parser: &mut Parser<'a>,
    found: &mut Vec<Inductive<'a>>,
) -> Result<(), Fault>
    ensures reads { TakesAt true (λ vs. inds (map C.inductive found.old.items) ∷ vs) (λ _ vs. inds (map C.inductive found.new.items) ∷ vs) result (tok ident ∷ act (push (groups no_groups)) ∷ nt 0 k_groups ∷ m M.Colon ∷ a_term 0 ∷ m M.Assign ∷ act (push (ctors [])) ∷ nt 0 k_ctors ∷ act add_ind ∷ []) (left parser.old) (left parser.new) }
    ensures on { length (left parser.new) ≤ length (left parser.old) }
{
    let name = parser.identifier()?;
    let mut among = Groups::new(parser.alloc);
    parser.groups(0, &mut among)?;
    parser.mark(Mark::Colon)?;
    let ty = parser.term(1, false)?;
    parser.mark(Mark::Assign)?;
    let mut constructors = no_constructors(parser.alloc);
    read_constructors(parser, &mut constructors)?;
    found.push(Inductive {
        name,
        groups: among,
        ty,
        constructors,
    })?;
    Ok(())
}

#[tactic(auto, using(crate::proofs::Ctors::ind_is))]
fn read_inductive_type<'a>(
    parser: &mut Parser<'a>,
    found: &mut Vec<Inductive<'a>>,
) -> Result<(), Fault>
    ensures reads { TakesAt true (λ vs. inds (map C.inductive found.old.items) ∷ vs) (λ _ vs. inds (map C.inductive found.new.items) ∷ vs) result (nt 0 k_ind ∷ []) (left parser.old) (left parser.new) }
    ensures on { length (left parser.new) ≤ length (left parser.old) }
{
    read_inductive_parts(parser, found)?;
    Ok(())
}

// A type of a block and those behind it.
#[tactic(auto, using(crate::proofs::Ctors::inds_end))]
fn read_inductive_types<'a>(
    parser: &mut Parser<'a>,
    found: &mut Vec<Inductive<'a>>,
) -> Result<(), Fault>
    ensures reads { Takes (λ vs. inds (map C.inductive found.old.items) ∷ vs) (λ _ vs. inds (map C.inductive found.new.items) ∷ vs) result (nt 0 k_ind ∷ nt 0 k_inds ∷ []) (left parser.old) (left parser.new) }
    ensures on { length (left parser.new) ≤ length (left parser.old) }
{
    read_inductive_type(parser, found)?;
    'more: while parser.take(Mark::With) {
        read_inductive_type(parser, found)?;
    }
    Ok(())
}

// Behind the word `Inductive`.
#[tactic(auto, using(gal_grammar::proofs::Complete::act_runs))]
pub(crate) fn read_inductive<'a>(
    parser: &mut Parser<'a>,
    list: &mut Commands<'a>,
) -> Result<(), Fault>
    ensures reads { Takes (λ vs. commands (C.commands list.old) ∷ vs) (λ _ vs. commands (C.commands list.new) ∷ vs) result (act (push (inds [])) ∷ nt 0 k_ind ∷ nt 0 k_inds ∷ m M.Stop ∷ act say_inductive ∷ []) (left parser.old) (left parser.new) }
    ensures on { length (left parser.new) ≤ length (left parser.old) }
{
    let mut found = no_inductives(parser.alloc);
    read_inductive_types(parser, &mut found)?;
    parser.mark(Mark::Stop)?;
    list.push(Command::Inductive(found))?;
    Ok(())
}
