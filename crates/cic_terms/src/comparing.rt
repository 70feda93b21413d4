ghost use Rattle.std.specs.Prelude.{◌↔◌, ◌≡◌, IsTrue, ◌∷◌, []};
ghost use Rattle.cic_terms.specs.Denotes.{tree, branches, bodies, terms, shapes, shape, body_parts, tree_sort};
ghost use Rattle.cic_terms.specs.calls.Answer.{SameParts, SameBodies};
ghost use Rattle.cic_terms.specs.calls.Kinds.{IsCase};

use crate::term::{Branches, FixBodies, FixBody, Term, Terms};

/// Whether the two are the same tree.
#[cycle(same)]
pub fn same(a: &Term, b: &Term) -> bool
    ensures { IsTrue result ↔ (tree a.now ≡ tree b.now) }
{
    match (a, b) {
        (Term::Rel(m), Term::Rel(n)) => m == n,
        (Term::Sort(s), Term::Sort(u)) => s == u,
        (Term::Prod(a, c), Term::Prod(b, d)) => same(a, b) && same(c, d),
        (Term::Lam(a, c), Term::Lam(b, d)) => same(a, b) && same(c, d),
        (Term::App(a, c), Term::App(b, d)) => same(a, b) && same(c, d),
        (Term::Const(i), Term::Const(j)) => i == j,
        (Term::Ind(i), Term::Ind(j)) => i == j,
        (Term::Ctor(i), Term::Ctor(j)) => i == j,
        (
            Term::Let { body, ty, rest },
            Term::Let {
                body: body_b,
                ty: ty_b,
                rest: rest_b,
            },
        ) => same(body, body_b) && same(ty, ty_b) && same(rest, rest_b),
        (Term::Case { .. }, Term::Case { .. }) => same_case(a, b),
        (
            Term::Fix { which, bodies },
            Term::Fix {
                which: which_b,
                bodies: bodies_b,
            },
        ) => which == which_b && same_bodies(bodies, bodies_b),
        _ => false,
    }
}

/// `same` of a match and a term.
#[cycle(same)]
fn same_case(a: &Term, b: &Term) -> bool
    requires { IsCase a.now }
    ensures { IsTrue result ↔ (tree a.now ≡ tree b.now) }
{
    match (a, b) {
        (
            Term::Case {
                ind,
                arity,
                motive,
                scrutinee,
                branches,
            },
            Term::Case {
                ind: ind_b,
                arity: arity_b,
                motive: motive_b,
                scrutinee: scrutinee_b,
                branches: branches_b,
            },
        ) => {
            ind == ind_b
                && arity == arity_b
                && same(motive, motive_b)
                && same(scrutinee, scrutinee_b)
                && same_branches(branches, branches_b)
        }
        _ => false,
    }
}

#[cycle(same)]
fn same_branches(a: &Branches, b: &Branches) -> bool
    ensures { IsTrue result ↔ (branches a.now ≡ branches b.now) }
{
    if a.items.len() != b.items.len() {
        return false;
    }
    for i in 0..a.items.len() {
        if a.items[i].binders != b.items[i].binders || !same(&a.items[i].body, &b.items[i].body) {
            return false;
        }
    }
    true
}

#[cycle(same)]
fn same_terms(a: &Terms, b: &Terms) -> bool
    ensures { IsTrue result ↔ (terms a.now ≡ terms b.now) }
{
    if a.items.len() != b.items.len() {
        return false;
    }
    for i in 0..a.items.len() {
        if !same(&a.items[i], &b.items[i]) {
            return false;
        }
    }
    true
}

#[cycle(same)]
fn same_body(a: &FixBody, b: &FixBody) -> bool
    ensures { IsTrue result ↔ SameParts a.now b.now }
{
    a.k == b.k
        && same_terms(&a.domains, &b.domains)
        && same(&a.codomain, &b.codomain)
        && same(&a.body, &b.body)
}

#[cycle(same)]
fn same_bodies(a: &FixBodies, b: &FixBodies) -> bool
    ensures { IsTrue result ↔ SameBodies a.now b.now }
{
    if a.items.len() != b.items.len() {
        return false;
    }
    for i in 0..a.items.len() {
        if !same_body(&a.items[i], &b.items[i]) {
            return false;
        }
    }
    true
}
