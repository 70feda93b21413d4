//! Whether two matches, and two functions of a `fix`, have the same shape, so that they are compared part by part.
ghost use Rattle.std.specs.Prelude.{◌≡◌, ◌&&◌, nat_eq};
ghost use Rattle.cic_terms.specs.calls.Kinds.{IsCase};
ghost use Rattle.cic_terms.specs.Denotes.{branch_list, shape, shape_list};
ghost use Rattle.cic_counted.specs.Evaluation.{same_places};
ghost use Rattle.cic_counted.specs.Sameness.{same_shapes};
ghost use Rattle.cic_conv.specs.calls.Parts.{matches_alike};

use crate::comparing::same_ids;
use cic_terms::{Branch, FixBody, Term};

/// Whether there are as many branches, each with as many binders.
#[tactic(auto, using(crate::proofs::Alike::unequal_places))]
fn same_binders(xs: &[Branch], ys: &[Branch]) -> bool
    ensures { result ≡ same_places (branch_list xs.now) (branch_list ys.now) }
{
    if xs.len() != ys.len() {
        return false;
    }
    for i in 0..xs.len() {
        if xs[i].binders != ys[i].binders {
            return false;
        }
    }
    true
}

/// Whether two matches are on the same type, with as many indices, and their branches have the same binders.
pub(crate) fn same_matches(a: &Term, b: &Term) -> bool
    requires { IsCase a.now × IsCase b.now }
    ensures { result ≡ matches_alike a.now b.now }
{
    match (a, b) {
        (
            Term::Case {
                arity,
                ind,
                branches,
                ..
            },
            Term::Case {
                arity: other_arity,
                ind: other_ind,
                branches: other_branches,
                ..
            },
        ) => {
            same_ids(ind, other_ind)
                && arity == other_arity
                && same_binders(branches.as_slice(), other_branches.as_slice())
        }
        _ => unreachable!(),
    }
}

/// How many domains a function has.
#[tactic(auto, using(crate::proofs::Alike::count_is))]
fn domain_count(one: &FixBody) -> usize
    ensures { result ≡ (shape one.now).domains }
{
    one.domains.as_slice().len()
}

/// Whether two functions have as many domains and the same recursive one.
fn same_shape(a: &FixBody, b: &FixBody) -> bool
    ensures { result ≡ (nat_eq (shape a.now).k (shape b.now).k && nat_eq (shape a.now).domains (shape b.now).domains) }
{
    a.k == b.k && domain_count(a) == domain_count(b)
}

/// Whether there are as many functions, each of the same shape.
#[tactic(auto, using(crate::proofs::Alike::unequal_shapes))]
pub(crate) fn same_shapes(xs: &[FixBody], ys: &[FixBody]) -> bool
    ensures { result ≡ same_shapes (shape_list xs.now) (shape_list ys.now) }
{
    if xs.len() != ys.len() {
        return false;
    }
    for i in 0..xs.len() {
        if !same_shape(&xs[i], &ys[i]) {
            return false;
        }
    }
    true
}
