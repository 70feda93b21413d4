//! The products of a type as written.
ghost use Rattle.std.specs.Prelude.{◌≡◌, ◌-◌, ◌^◌, length, min, drop};
ghost use Rattle.cic_terms.specs.Denotes.{tree};
ghost use Rattle.cic_rules.specs.Telescopes.{domains_of, conclusion_of};
ghost use Rattle.cic_positivity.specs.calls.Parts.{begins_alike};

use cic_terms::{Term, same};

/// What stands after the last product.
pub fn conclusion(t: &Term) -> &Term
    ensures { tree result.now ≡ conclusion_of (tree t.now) }
{
    let mut at = t;
    while let Term::Prod(_, rest) = at {
        at = rest;
    }
    at
}

/// How many products there are, up to the greatest number of the type.
pub(crate) fn product_count(t: &Term) -> u64
    ensures { result ≡ min (length (domains_of (tree t.now))) (2 ^ 64 - 1) }
{
    let mut count: u64 = 0;
    let mut at = t;
    while let Term::Prod(_, rest) = at {
        count = count.saturating_add(1);
        at = rest;
    }
    count
}

/// What stands under the first `count` products, or under all where there are fewer.
pub fn under_products(count: u32, t: &Term) -> &Term
    ensures { domains_of (tree result.now) ≡ drop count (domains_of (tree t.now)) }
{
    let mut at = t;
    for _passed in 0..count {
        let Term::Prod(_, rest) = at else {
            return at;
        };
        at = rest;
    }
    at
}

/// Whether the type has at least `count` products, the first of them with the domains that the first of `other` have.
pub(crate) fn begins_alike(count: u32, other: &Term, t: &Term) -> bool
    ensures { result ≡ begins_alike count (tree other.now) (tree t.now) }
{
    let mut at = t;
    let mut wanted = other;
    for _passed in 0..count {
        let Term::Prod(domain, rest) = at else {
            return false;
        };
        let Term::Prod(wanted_domain, wanted_rest) = wanted else {
            return false;
        };
        if !same(domain, wanted_domain) {
            return false;
        }
        at = rest;
        wanted = wanted_rest;
    }
    true
}
