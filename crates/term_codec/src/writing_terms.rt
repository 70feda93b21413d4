//! Terms, written behind what is there.
ghost use Rattle.std.specs.Prelude.{◌≡◌, ◌++◌, ◌∷◌, [], ◌<◌, ◌^◌, OnOk, length};
ghost use Rattle.cic_terms.specs.Denotes.{tree, tree_sort, branch_list, term_list, shapes, bodies};
ghost use Rattle.cic_terms.specs.Tree.{typ, fix, let_in};
ghost use Rattle.term_format.specs.Spelling.{term_bytes, sort_bytes, id_bytes, branch_bytes, part_bytes, joined};
ghost use Rattle.term_format.specs.Storable.{IsSort, HasRow, HaveRows, AreBranches};
ghost use Rattle.cic_names.specs.Orders.{digits};
ghost use Rattle.term_codec.specs.calls.Functions.{one_bytes, all_bytes, Writable, AreWritable};
ghost use Rattle.term_codec.specs.calls.Kinds.{IsCase};

use crate::writing::{put_byte, put_id, put_level, put_number};
use cic_names::{Atom, GlobalId, NoMemory, Sort};
use cic_terms::{Branch, FixBodies, FixBody, Term};
use seg_format::Bytes;

/// A type at one level.
#[tactic(auto, using(crate::proofs::Sorts::only_one, crate::proofs::Sorts::one_atom))]
fn put_universe(bytes: &mut Bytes, atoms: &[Atom]) -> Result<(), NoMemory>
    requires { IsSort (typ atoms.now) }
    ensures { OnOk result (bytes.new.items ≡ bytes.old.items ++ sort_bytes (typ atoms.now)) }
{
    if atoms.len() != 1 {
        unreachable!()
    }
    put_byte(bytes, 3)?;
    put_level(bytes, &atoms[0].level)
}

#[inline(never)]
fn put_sort(bytes: &mut Bytes, s: &Sort) -> Result<(), NoMemory>
    requires { IsSort (tree_sort s.now) }
    ensures { OnOk result (bytes.new.items ≡ bytes.old.items ++ sort_bytes (tree_sort s.now)) }
{
    match s {
        Sort::Prop => put_byte(bytes, 1),
        Sort::Set => put_byte(bytes, 2),
        Sort::Typ(universe) => put_universe(bytes, universe.atoms()),
    }
}

fn put_variable(bytes: &mut Bytes, n: u32) -> Result<(), NoMemory>
    ensures { OnOk result (bytes.new.items ≡ bytes.old.items ++ 0 ∷ digits n) }
{
    put_byte(bytes, 0)?;
    put_number(bytes, n)
}

fn put_global(bytes: &mut Bytes, tag: u8, id: &GlobalId) -> Result<(), NoMemory>
    ensures { OnOk result (bytes.new.items ≡ bytes.old.items ++ tag ∷ id_bytes id.now) }
{
    put_byte(bytes, tag)?;
    put_id(bytes, id)
}

/// Writes a term.
#[cycle(writing)]
#[inline(never)]
pub fn put_term(bytes: &mut Bytes, t: &Term) -> Result<(), NoMemory>
    requires { HasRow (tree t.now) }
    ensures { OnOk result (bytes.new.items ≡ bytes.old.items ++ term_bytes (tree t.now)) }
{
    match t {
        Term::Rel(n) => put_variable(bytes, *n),
        Term::Sort(s) => put_sort(bytes, s),
        Term::Prod(a, b) => put_pair(bytes, 4, a, b),
        Term::Lam(a, b) => put_pair(bytes, 5, a, b),
        Term::App(f, x) => put_pair(bytes, 7, f, x),
        Term::Let { body, ty, rest } => put_let(bytes, body, ty, rest),
        Term::Const(id) => put_global(bytes, 8, id),
        Term::Ind(id) => put_global(bytes, 9, id),
        Term::Ctor(id) => put_global(bytes, 10, id),
        Term::Case { .. } => put_case(bytes, t),
        Term::Fix { which, bodies } => put_fix(bytes, *which, bodies),
    }
}

#[cycle(writing)]
#[inline(never)]
fn put_pair(bytes: &mut Bytes, tag: u8, first: &Term, second: &Term) -> Result<(), NoMemory>
    requires first { HasRow (tree first.now) }
    requires second { HasRow (tree second.now) }
    ensures { OnOk result (bytes.new.items ≡ bytes.old.items ++ tag ∷ (term_bytes (tree first.now) ++ term_bytes (tree second.now))) }
{
    put_byte(bytes, tag)?;
    put_term(bytes, first)?;
    put_term(bytes, second)
}

#[cycle(writing)]
#[inline(never)]
fn put_let(bytes: &mut Bytes, body: &Term, ty: &Term, rest: &Term) -> Result<(), NoMemory>
    requires body { HasRow (tree body.now) }
    requires ty { HasRow (tree ty.now) }
    requires rest { HasRow (tree rest.now) }
    ensures { OnOk result (bytes.new.items ≡ bytes.old.items ++ term_bytes (let_in (tree body.now) (tree ty.now) (tree rest.now))) }
{
    put_byte(bytes, 6)?;
    put_term(bytes, body)?;
    put_term(bytes, ty)?;
    put_term(bytes, rest)
}

#[cycle(writing)]
#[inline(never)]
fn put_case(bytes: &mut Bytes, t: &Term) -> Result<(), NoMemory>
    requires case { IsCase t.now }
    requires row { HasRow (tree t.now) }
    ensures { OnOk result (bytes.new.items ≡ bytes.old.items ++ term_bytes (tree t.now)) }
{
    let Term::Case {
        arity,
        ind,
        motive,
        scrutinee,
        branches,
    } = t
    else {
        unreachable!()
    };
    put_global(bytes, 11, ind)?;
    put_number(bytes, *arity)?;
    put_term(bytes, motive)?;
    put_term(bytes, scrutinee)?;
    put_branches(bytes, branches.as_slice())
}

#[cycle(writing)]
#[inline(never)]
fn put_branch(bytes: &mut Bytes, branch: &Branch) -> Result<(), NoMemory>
    requires { HasRow (tree branch.now.body) }
    ensures { OnOk result (bytes.new.items ≡ bytes.old.items ++ (digits branch.now.binders ++ term_bytes (tree branch.now.body))) }
{
    put_number(bytes, branch.binders)?;
    put_term(bytes, &branch.body)
}

#[cycle(writing)]
#[inline(never)]
fn put_branches(bytes: &mut Bytes, all: &[Branch]) -> Result<(), NoMemory>
    requires few { length all.now < 2 ^ 32 }
    requires rows { AreBranches (branch_list all.now) }
    ensures { OnOk result (bytes.new.items ≡ bytes.old.items ++ (digits (length all.now) ++ branch_bytes (branch_list all.now))) }
{
    put_number(bytes, all.len() as u32)?;
    for branch in all {
        put_branch(bytes, branch)?;
    }
    Ok(())
}

#[cycle(writing)]
#[inline(never)]
fn put_domains(bytes: &mut Bytes, all: &[Term]) -> Result<(), NoMemory>
    requires { HaveRows (term_list 0 all.now) }
    ensures { OnOk result (bytes.new.items ≡ bytes.old.items ++ joined (part_bytes (term_list 0 all.now))) }
{
    for term in all {
        put_term(bytes, term)?;
    }
    Ok(())
}

#[cycle(writing)]
#[inline(never)]
fn put_function(bytes: &mut Bytes, one: &FixBody) -> Result<(), NoMemory>
    requires { Writable one.now }
    ensures { OnOk result (bytes.new.items ≡ bytes.old.items ++ one_bytes one.now) }
{
    let domains = one.domains.as_slice();
    put_number(bytes, one.k)?;
    put_number(bytes, domains.len() as u32)?;
    put_domains(bytes, domains)?;
    put_term(bytes, &one.codomain)?;
    put_term(bytes, &one.body)
}

#[cycle(writing)]
#[inline(never)]
fn put_functions(bytes: &mut Bytes, all: &[FixBody]) -> Result<(), NoMemory>
    requires { AreWritable all.now }
    ensures { OnOk result (bytes.new.items ≡ bytes.old.items ++ all_bytes all.now) }
{
    for one in all {
        put_function(bytes, one)?;
    }
    Ok(())
}

#[cycle(writing)]
#[inline(never)]
fn put_fix(bytes: &mut Bytes, which: u32, all: &FixBodies) -> Result<(), NoMemory>
    requires { HasRow (fix which (shapes all.now) (bodies all.now)) }
    ensures { OnOk result (bytes.new.items ≡ bytes.old.items ++ term_bytes (fix which (shapes all.now) (bodies all.now))) }
{
    let each = all.as_slice();
    put_byte(bytes, 12)?;
    put_number(bytes, which)?;
    put_number(bytes, each.len() as u32)?;
    put_functions(bytes, each)
}
