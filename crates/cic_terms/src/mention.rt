ghost use Rattle.std.specs.Prelude.{◌↔◌, IsTrue, ◌∷◌, []};
ghost use Rattle.cic_terms.specs.Denotes.{tree, branches, bodies, terms, shapes, shape, body_parts, tree_sort};
ghost use Rattle.cic_terms.specs.Mentions.{Mentions, ChildrenMention};
ghost use Rattle.cic_terms.specs.calls.Answer.{PartsMention};

use crate::term::{Branches, FixBodies, FixBody, Term, Terms};
use cic_names::GlobalId;

/// Whether the id stands in the term.
#[cycle(mentions)]
pub fn mentions(t: &Term, id: &GlobalId) -> bool
    ensures { IsTrue result ↔ Mentions id.now (tree t.now) }
{
    match t {
        Term::Rel(_) | Term::Sort(_) => false,
        Term::Const(other) | Term::Ind(other) | Term::Ctor(other) => other == id,
        Term::Prod(a, b) | Term::Lam(a, b) | Term::App(a, b) => mentions(a, id) || mentions(b, id),
        Term::Let { body, ty, rest } => mentions(body, id)
            || mentions(ty, id)
            || mentions(rest, id),
        Term::Case {
            ind,
            motive,
            scrutinee,
            branches,
            ..
        } => {
            ind == id
                || mentions(motive, id)
                || mentions(scrutinee, id)
                || branches_mention(branches, id)
        }
        Term::Fix { bodies, .. } => bodies_mention(bodies, id),
    }
}

#[cycle(mentions)]
fn branches_mention(all: &Branches, id: &GlobalId) -> bool
    ensures { IsTrue result ↔ ChildrenMention id.now (branches all.now) }
{
    for branch in &all.items {
        if mentions(&branch.body, id) {
            return true;
        }
    }
    false
}

#[cycle(mentions)]
fn terms_mention(all: &Terms, id: &GlobalId) -> bool
    ensures { IsTrue result ↔ ChildrenMention id.now (terms all.now) }
{
    for term in &all.items {
        if mentions(term, id) {
            return true;
        }
    }
    false
}

#[cycle(mentions)]
fn body_mentions(one: &FixBody, id: &GlobalId) -> bool
    ensures { IsTrue result ↔ PartsMention id.now one.now }
{
    terms_mention(&one.domains, id) || mentions(&one.codomain, id) || mentions(&one.body, id)
}

#[cycle(mentions)]
fn bodies_mention(all: &FixBodies, id: &GlobalId) -> bool
    ensures { IsTrue result ↔ ChildrenMention id.now (bodies all.now) }
{
    for one in &all.items {
        if body_mentions(one, id) {
            return true;
        }
    }
    false
}
