//! Where the types of a block occur in a term, and whether they are strictly positive in it.
ghost use Rattle.std.specs.Prelude.{◌≡◌, ◌-◌, drop, length};
ghost use Rattle.cic_terms.specs.Denotes.{tree};
ghost use Rattle.cic_rules.specs.Telescopes.{is_among};
ghost use Rattle.cic_counted.specs.BlockTests.{occurs, occurs_in_any, is_type_among, is_applied_among, is_strictly_positive};
ghost use Rattle.cic_counted.specs.Readings.{arguments_of};
ghost use Rattle.cic_positivity.specs.calls.Parts.{ids_of};

use cic_env::IndType;
use cic_names::GlobalId;
use cic_spines::head;
use cic_terms::{Term, mentions};

/// Whether the id of one of the types stands in the term.
pub fn occurs(types: &[IndType], t: &Term) -> bool
    ensures { result ≡ occurs (ids_of types.now) (tree t.now) }
{
    for ty in types {
        if mentions(t, &ty.id) {
            return true;
        }
    }
    false
}

/// Whether the id is that of one of the types.
pub fn is_among(id: &GlobalId, types: &[IndType]) -> bool
    ensures { result ≡ is_among id.now (ids_of types.now) }
{
    for ty in types {
        if *id == ty.id {
            return true;
        }
    }
    false
}

fn is_type_among(types: &[IndType], t: &Term) -> bool
    ensures { result ≡ is_type_among (ids_of types.now) (tree t.now) }
{
    match t {
        Term::Ind(id) => is_among(id, types),
        _ => false,
    }
}

/// The function of the application under its last `count` arguments, or its head where it has fewer.
fn under_arguments(count: u32, t: &Term) -> &Term
    ensures { length (arguments_of (tree result.now)) ≡ length (arguments_of (tree t.now)) - count }
{
    let mut at = t;
    for _passed in 0..count {
        let Term::App(function, _) = at else {
            return at;
        };
        at = function;
    }
    at
}

/// Whether one of the types occurs in an argument of the application behind the first `count`.
pub fn occurs_behind(types: &[IndType], count: u32, t: &Term) -> bool
    ensures { result ≡ occurs_in_any (ids_of types.now) (drop count (arguments_of (tree t.now))) }
{
    let mut at = t;
    let mut ahead = under_arguments(count, t);
    while let Term::App(further, _) = ahead {
        let Term::App(function, argument) = at else {
            return false;
        };
        if occurs(types, argument) {
            return true;
        }
        at = function;
        ahead = further;
    }
    false
}

/// Whether the term is one of the types applied to terms in which none of them occurs.
pub fn is_applied_among(types: &[IndType], t: &Term) -> bool
    ensures { result ≡ is_applied_among (ids_of types.now) (tree t.now) }
{
    is_type_among(types, head(t)) && !occurs_behind(types, 0, t)
}

/// Whether the types are strictly positive in the term as written: they occur in no domain of its products, and after them in nothing but the head.
pub(crate) fn is_strictly_positive(types: &[IndType], t: &Term) -> bool
    ensures { result ≡ is_strictly_positive (ids_of types.now) (tree t.now) }
{
    let mut at = t;
    while let Term::Prod(domain, rest) = at {
        if occurs(types, domain) {
            return false;
        }
        at = rest;
    }
    !occurs(types, at) || is_applied_among(types, at)
}
