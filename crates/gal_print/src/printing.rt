//! Terms, from the end of their text to its begin.
ghost use Rattle.std.specs.Prelude.{◌≡◌, ◌==◌, ◌+◌, ◌-◌, ◌≤◌, ◌<◌, ◌||◌, ◌++◌, IfOk, OnOk, codes, length};
ghost use Rattle.cic_terms.specs.Denotes.{tree, branches, bodies, terms, shapes, domain_count, body_parts};
ghost use Rattle.cic_terms.specs.calls.Kinds.{IsCase, IsFix};
ghost use Rattle.cic_env.specs.Environments.{items};
ghost use Rattle.gal_print.specs.Printing.{text, parts, under, is_atom, stands_bare, in_place, branches_text, domains_text, functions_text, is_used, parts_use, variable_text};
ghost use Rattle.gal_print.specs.calls.Names.{numbers, next_number, Ordered, uses, uses_under, at};
ghost use Rattle.gal_print.specs.calls.Output.{Prints, PrintsBelow};
ghost use Rattle.gal_print.specs.calls.Places.{place_of, type_text, all_branches_text, parts_uses, result_of, function_of};

use crate::heads::{heads_of, put_head, put_pattern, put_struct, put_which};
use crate::names::{Names, Variable, find};
use crate::output::{Output, Piece, close, open, put, word};
use cic_env::Env;
use cic_names::GlobalId;
use cic_terms::{Branches, FixBodies, FixBody, Term, Terms};
use memory::NoMemory;

/// Where a part of a term stands.
#[derive(Clone, Copy)]
pub(crate) enum Place {
    Alone,
    /// As a function, left of an arrow, or before a `with`.
    Function,
    Argument,
}

fn is_atom(t: &Term) -> bool
    ensures { result ≡ is_atom (tree t.now) }
{
    matches!(
        t,
        Term::Rel(_)
            | Term::Sort(_)
            | Term::Const(_)
            | Term::Ind(_)
            | Term::Ctor(_)
            | Term::Case { .. }
    )
}

fn stands_bare(place: Place, t: &Term) -> bool
    ensures { result ≡ stands_bare (place_of place) (tree t.now) }
{
    match place {
        Place::Alone => true,
        Place::Function => is_atom(t) || matches!(t, Term::App(..)),
        Place::Argument => is_atom(t),
    }
}

/// Prints a variable.
#[inline(never)]
fn print_variable(out: &mut Output<'_>, names: &Names<'_>, x: u32) -> Result<(), NoMemory>
    requires ordered { Ordered names.now }
    requires next { length out.old.used.items ≡ next_number names.now }
    ensures printed { OnOk result (Prints (variable_text (numbers names.now) x) (λ i. at (numbers names.now) i (λ y. x == y)) out.old out.new) }
    ensures length { OnOk result (length out.new.used.items ≡ length out.old.used.items) }
{
    match find(names, u64::from(x)) {
        Variable::Bound(number) => {
            out.used[number as usize] = true;
            put(out, Piece::Name(number))
        }
        Variable::Free(x) => put(out, Piece::Unbound(x)),
    }
}

/// Prints a term in parentheses where its place wants them.
#[cycle(print)]
fn print_placed<'t>(
    out: &mut Output<'t>,
    env: &'t Env,
    names: &Names<'_>,
    place: Place,
    t: &'t Term,
) -> Result<(), NoMemory>
    requires ordered { Ordered names.now }
    requires next { length out.old.used.items ≡ next_number names.now }
    ensures printed { OnOk result (Prints (in_place (place_of place) (tree t.now) (text (items env.now) (tree t.now) (numbers names.now) (next_number names.now))) (uses (numbers names.now) (tree t.now)) out.old out.new) }
    ensures length { OnOk result (length out.new.used.items ≡ length out.old.used.items) }
{
    if stands_bare(place, t) {
        print_whole(out, env, names, t)
    } else {
        word(out, ")")?;
        print_whole(out, env, names, t)?;
        word(out, "(")
    }
}

/// Prints the next binder with its type.
#[cycle(print)]
fn print_typed<'t>(
    out: &mut Output<'t>,
    env: &'t Env,
    names: &Names<'_>,
    ty: &'t Term,
) -> Result<(), NoMemory>
    requires ordered { Ordered names.now }
    requires next { length out.old.used.items ≡ next_number names.now }
    ensures printed { OnOk result (Prints (type_text (items env.now) (tree ty.now) (numbers names.now) (next_number names.now)) (uses (numbers names.now) (tree ty.now)) out.old out.new) }
    ensures length { OnOk result (length out.new.used.items ≡ length out.old.used.items) }
{
    let number = out.used.len() as u64;
    print_whole(out, env, names, ty)?;
    word(out, " : ")?;
    put(out, Piece::Name(number))
}

/// Prints a term under so many binders. Gives whether the first of them is used.
#[cycle(print)]
fn print_under<'t>(
    out: &mut Output<'t>,
    env: &'t Env,
    names: &Names<'_>,
    count: u64,
    t: &'t Term,
) -> Result<bool, NoMemory>
    requires ordered { Ordered names.now }
    requires next { length out.old.used.items ≡ next_number names.now }
    ensures printed { OnOk result (Prints (text (items env.now) (tree t.now) (under (next_number names.now) count (numbers names.now)) (next_number names.now + count)) (uses_under count (numbers names.now) (tree t.now)) out.old out.new) }
    ensures used { IfOk result (λ used. 1 ≤ count → used ≡ is_used (count - 1) (tree t.now)) }
    ensures length { OnOk result (length out.new.used.items ≡ length out.old.used.items) }
{
    let first = out.used.len();
    open(out, count)?;
    let inner = (&*names).more(count)?;
    print_whole(out, env, &inner, t)?;
    let used = count > 0 && out.used[first];
    close(out, first as u64);
    Ok(used)
}

/// Prints a term. Coq Reference Manual, "Term grammar".
#[cycle(print)]
pub(crate) fn print_whole<'t>(
    out: &mut Output<'t>,
    env: &'t Env,
    names: &Names<'_>,
    t: &'t Term,
) -> Result<(), NoMemory>
    requires ordered { Ordered names.now }
    requires next { length out.old.used.items ≡ next_number names.now }
    ensures printed { OnOk result (Prints (text (items env.now) (tree t.now) (numbers names.now) (next_number names.now)) (uses (numbers names.now) (tree t.now)) out.old out.new) }
    ensures length { OnOk result (length out.new.used.items ≡ length out.old.used.items) }
{
    match t {
        Term::Rel(x) => print_variable(out, names, *x),
        Term::Sort(sort) => put(out, Piece::OfSort(sort)),
        Term::Const(id) | Term::Ind(id) | Term::Ctor(id) => put(out, Piece::Id(id)),
        Term::Prod(a, b) => {
            if print_under(out, env, names, 1, b)? {
                word(out, ", ")?;
                print_typed(out, env, names, a)?;
                word(out, "forall ")
            } else {
                word(out, " -> ")?;
                print_placed(out, env, names, Place::Function, a)
            }
        }
        Term::Lam(a, b) => {
            print_under(out, env, names, 1, b)?;
            word(out, " => ")?;
            print_typed(out, env, names, a)?;
            word(out, "fun ")
        }
        Term::Let { body, ty, rest } => {
            print_under(out, env, names, 1, rest)?;
            word(out, " in ")?;
            print_whole(out, env, names, body)?;
            word(out, " := ")?;
            print_typed(out, env, names, ty)?;
            word(out, "let ")
        }
        Term::App(f, x) => {
            print_placed(out, env, names, Place::Argument, x)?;
            word(out, " ")?;
            print_placed(out, env, names, Place::Function, f)
        }
        Term::Case { .. } => print_match(out, env, names, t),
        Term::Fix { .. } => print_fix(out, env, names, t),
    }
}

#[cycle(print)]
#[inline(never)]
fn print_match<'t>(
    out: &mut Output<'t>,
    env: &'t Env,
    names: &Names<'_>,
    t: &'t Term,
) -> Result<(), NoMemory>
    requires kind { IsCase t.now }
    requires ordered { Ordered names.now }
    requires next { length out.old.used.items ≡ next_number names.now }
    ensures printed { OnOk result (Prints (text (items env.now) (tree t.now) (numbers names.now) (next_number names.now)) (uses (numbers names.now) (tree t.now)) out.old out.new) }
    ensures length { OnOk result (length out.new.used.items ≡ length out.old.used.items) }
{
    let Term::Case {
        arity,
        ind,
        motive,
        scrutinee,
        branches,
    } = t
    else {
        unreachable!()
    };
    word(out, " end")?;
    print_branches(out, env, names, ind, branches)?;
    word(out, " with")?;
    print_under(out, env, names, u64::from(*arity) + 1, motive)?;
    word(out, " return ")?;
    put_pattern(out, env, ind, *arity, branches.as_slice().len())?;
    word(out, " as ")?;
    print_whole(out, env, names, scrutinee)?;
    word(out, "match ")
}

/// Prints the branches of a match on a type.
#[cycle(print)]
#[inline(never)]
fn print_branches<'t>(
    out: &mut Output<'t>,
    env: &'t Env,
    names: &Names<'_>,
    ind: &'t GlobalId,
    all: &'t Branches,
) -> Result<(), NoMemory>
    requires ordered { Ordered names.now }
    requires next { length out.old.used.items ≡ next_number names.now }
    ensures printed { OnOk result (Prints (all_branches_text (items env.now) ind.now (branches all.now) (numbers names.now) (next_number names.now)) (parts_uses (numbers names.now) (branches all.now)) out.old out.new) }
    ensures length { OnOk result (length out.new.used.items ≡ length out.old.used.items) }
{
    let branches = all.as_slice();
    let heads = heads_of(env, ind, branches.len());
    for i in (0..branches.len()).rev() {
        let branch = &branches[i];
        print_under(out, env, names, u64::from(branch.binders), &branch.body)?;
        put_head(out, &heads, i, branch.binders)?;
    }
    Ok(())
}

#[cycle(print)]
#[inline(never)]
fn print_fix<'t>(
    out: &mut Output<'t>,
    env: &'t Env,
    names: &Names<'_>,
    t: &'t Term,
) -> Result<(), NoMemory>
    requires kind { IsFix t.now }
    requires ordered { Ordered names.now }
    requires next { length out.old.used.items ≡ next_number names.now }
    ensures printed { OnOk result (Prints (text (items env.now) (tree t.now) (numbers names.now) (next_number names.now)) (uses (numbers names.now) (tree t.now)) out.old out.new) }
    ensures length { OnOk result (length out.new.used.items ≡ length out.old.used.items) }
{
    let Term::Fix { which, bodies } = t else {
        unreachable!()
    };
    let first = out.used.len() as u64;
    let all = bodies.as_slice().len();
    put_which(out, all, *which)?;
    open(out, all as u64)?;
    print_functions(out, env, names, bodies)?;
    close(out, first);
    word(out, "fix ")
}

/// Prints the functions of a fix, the numbers of which are taken.
#[cycle(print)]
#[inline(never)]
fn print_functions<'t>(
    out: &mut Output<'t>,
    env: &'t Env,
    names: &Names<'_>,
    all: &'t FixBodies,
) -> Result<(), NoMemory>
    requires ordered { Ordered names.now }
    requires next { length out.old.used.items ≡ next_number names.now + length (shapes all.now) }
    ensures printed { OnOk result (PrintsBelow (next_number names.now) (functions_text (length (shapes all.now)) (shapes all.now) (next_number names.now) (parts (items env.now) (bodies all.now)) (numbers names.now) (next_number names.now)) (parts_uses (numbers names.now) (bodies all.now)) out.old out.new) }
    ensures length { OnOk result (length out.new.used.items ≡ length out.old.used.items) }
{
    let functions = all.as_slice();
    let Some(last) = functions.len().checked_sub(1) else {
        return Ok(());
    };
    print_function(
        out,
        env,
        names,
        functions.len(),
        last,
        Place::Alone,
        &functions[last],
    )?;
    for i in (0..last).rev() {
        word(out, " with ")?;
        print_function(
            out,
            env,
            names,
            functions.len(),
            i,
            Place::Function,
            &functions[i],
        )?;
    }
    Ok(())
}

/// Prints function `i` of `all`, the numbers of which are taken.
#[cycle(print)]
#[inline(never)]
fn print_function<'t>(
    out: &mut Output<'t>,
    env: &'t Env,
    names: &Names<'_>,
    all: usize,
    i: usize,
    place: Place,
    one: &'t FixBody,
) -> Result<(), NoMemory>
    requires ordered { Ordered names.now }
    requires next { length out.old.used.items ≡ next_number names.now + all }
    requires within { i < all }
    ensures printed { OnOk result (PrintsBelow (next_number names.now) (function_of (items env.now) all (place_of place) (next_number names.now + i) one.now (numbers names.now) (next_number names.now)) (parts_uses (numbers names.now) (body_parts all one.now)) out.old out.new) }
    ensures length { OnOk result (length out.new.used.items ≡ length out.old.used.items) }
{
    let first = out.used.len() as u64;
    let domains = one.domains.as_slice().len() as u64;
    let functions = (&*names).more(all as u64)?;
    let outside = Names::Run {
        first,
        count: 0,
        outer: &*names,
    };
    open(out, domains)?;
    print_placed(out, env, &functions.more(domains)?, place, &one.body)?;
    word(out, " := ")?;
    print_whole(out, env, &outside.more(domains)?, &one.codomain)?;
    put_struct(out, first, one.k)?;
    print_domains(out, env, &outside, &one.domains)?;
    put(out, Piece::Name(first - all as u64 + i as u64))
}

/// Prints the domains of a function, which are open, and closes them.
#[cycle(print)]
#[inline(never)]
fn print_domains<'t>(
    out: &mut Output<'t>,
    env: &'t Env,
    names: &Names<'_>,
    all: &'t Terms,
) -> Result<(), NoMemory>
    requires ordered { Ordered names.now }
    requires next { length out.old.used.items ≡ next_number names.now + length (parts (items env.now) (terms all.now)) }
    ensures printed { OnOk result (PrintsBelow (next_number names.now) (domains_text (parts (items env.now) (terms all.now)) (numbers names.now) (next_number names.now)) (parts_uses (numbers names.now) (terms all.now)) out.old out.new) }
    ensures length { OnOk result (length out.new.used.items ≡ next_number names.now) }
{
    let domains = all.as_slice();
    let first = out.used.len() as u64 - domains.len() as u64;
    for j in (0..domains.len()).rev() {
        close(out, first + j as u64);
        word(out, ")")?;
        print_typed(out, env, &(&*names).more(j as u64)?, &domains[j])?;
        word(out, " (")?;
    }
    Ok(())
}
