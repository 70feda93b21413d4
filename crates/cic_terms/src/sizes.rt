ghost use Rattle.std.specs.Prelude.{◌≡◌, ◌+◌, ◌-◌, ◌^◌, min, ◌∷◌, []};
ghost use Rattle.cic_terms.specs.Denotes.{tree, branches, bodies, terms, shapes, shape, body_parts, tree_sort};
ghost use Rattle.cic_terms.specs.Sizes.{depth_tree, depth_children};

use crate::term::{Branches, FixBodies, FixBody, Term, Terms};

/// How deep a term is, which stands still at the end of its type.
#[cycle(depth)]
pub fn depth(t: &Term) -> u32
    ensures { result ≡ min (depth_tree (tree t.now)) (2 ^ 32 - 1) }
{
    match t {
        Term::Rel(_) | Term::Sort(_) | Term::Const(_) | Term::Ind(_) | Term::Ctor(_) => 1,
        Term::Prod(a, b) | Term::Lam(a, b) | Term::App(a, b) => {
            depth(a).max(depth(b)).saturating_add(1)
        }
        Term::Let { body, ty, rest } => depth(body)
            .max(depth(ty).max(depth(rest)))
            .saturating_add(1),
        Term::Case {
            motive,
            scrutinee,
            branches,
            ..
        } => depth(motive)
            .max(depth(scrutinee).max(branches_depth(branches)))
            .saturating_add(1),
        Term::Fix { bodies, .. } => bodies_depth(bodies).saturating_add(1),
    }
}

#[cycle(depth)]
fn branches_depth(all: &Branches) -> u32
    ensures { result ≡ min (depth_children (branches all.now)) (2 ^ 32 - 1) }
{
    let mut most = 0;
    for branch in &all.items {
        most = depth(&branch.body).max(most);
    }
    most
}

#[cycle(depth)]
fn terms_depth(all: &Terms) -> u32
    ensures { result ≡ min (depth_children (terms all.now)) (2 ^ 32 - 1) }
{
    let mut most = 0;
    for term in &all.items {
        most = depth(term).max(most);
    }
    most
}

#[cycle(depth)]
fn bodies_depth(all: &FixBodies) -> u32
    ensures { result ≡ min (depth_children (bodies all.now)) (2 ^ 32 - 1) }
{
    let mut most = 0;
    for one in &all.items {
        most = body_depth(one).max(most);
    }
    most
}

#[cycle(depth)]
fn body_depth(one: &FixBody) -> u32
    ensures { result ≡ min (depth_children (body_parts 0 one.now)) (2 ^ 32 - 1) }
{
    terms_depth(&one.domains).max(depth(&one.codomain).max(depth(&one.body)))
}
