//! The tests of an arity, and of the type of a constructor.
ghost use Rattle.std.specs.Prelude.{◌≡◌, ◌↔◌, ◌+◌, ◌-◌, ◌<◌, ◌^◌, ℕ, IsTrue, IfSome, IfNone, length, min, take};
ghost use Rattle.cic_terms.specs.Denotes.{tree, tree_sort};
ghost use Rattle.cic_terms.specs.Tree.{ind, rel};
ghost use Rattle.cic_rules.specs.Telescopes.{domains_of};
ghost use Rattle.cic_counted.specs.BlockTests.{is_plain_sort, is_plain_sort_term, is_arity, is_constructor_type, index_count, parameter_variables, same_trees};
ghost use Rattle.cic_counted.specs.Readings.{arguments_of};
ghost use Rattle.cic_counted.specs.Sameness.{same_tree};
ghost use Rattle.cic_env.specs.Declarations.{type_declaration};
ghost use Rattle.cic_positivity.specs.calls.Parts.{WithoutLast, has_arguments, has_conclusion};

use crate::products::{begins_alike, conclusion, product_count, under_products};
use cic_env::IndType;
use cic_names::{GlobalId, Sort};
use cic_spines::{argument_count, head};
use cic_terms::Term;

fn is_plain_sort(sort: &Sort) -> bool
    ensures { result ≡ is_plain_sort (tree_sort sort.now) }
{
    match sort {
        Sort::Prop | Sort::Set => true,
        Sort::Typ(levels) => match levels.atoms() {
            [atom] => !atom.plus,
            _ => false,
        },
    }
}

fn is_plain_sort_term(t: &Term) -> bool
    ensures { result ≡ is_plain_sort_term (tree t.now) }
{
    match t {
        Term::Sort(sort) => is_plain_sort(sort),
        _ => false,
    }
}

/// Whether the arity is at least so many products, the first of them with the domains of the first type's parameters, and then a plain sort.
pub(crate) fn is_arity(parameters: u32, first: &Term, arity: &Term) -> bool
    ensures { result ≡ is_arity parameters (take parameters (domains_of (tree first.now))) (tree arity.now) }
{
    begins_alike(parameters, first, arity) && is_plain_sort_term(conclusion(arity))
}

fn is_type(t: &Term, id: &GlobalId) -> bool
    ensures { IsTrue result ↔ (tree t.now ≡ ind id.now) }
{
    match t {
        Term::Ind(other) => other == id,
        _ => false,
    }
}

/// Whether the term is the variable with this number, or with one that is greater than any of the type.
fn is_variable(t: &Term, number: u64) -> bool
    ensures { (k : ℕ) → number ≡ min k (2 ^ 64 - 1) → result ≡ same_tree (tree t.now) (rel k) }
{
    match t {
        Term::Rel(n) => u64::from(*n) == number,
        _ => false,
    }
}

/// The application without its last arguments, as many as `products` has products, where it has so many.
fn without_indices<'a>(products: &Term, t: &'a Term) -> Option<&'a Term>
    ensures found { IfSome result (λ kept. WithoutLast (length (domains_of (tree products.now))) (arguments_of (tree t.now)) (arguments_of (tree kept.now))) }
    ensures fewer { IfNone result (length (arguments_of (tree t.now)) < length (domains_of (tree products.now))) }
{
    let mut left = products;
    let mut at = t;
    while let Term::Prod(_, rest) = left {
        let Term::App(function, _) = at else {
            return None;
        };
        left = rest;
        at = function;
    }
    Some(at)
}

/// Whether the arguments of the application are so many parameters in order, as variables under the products of `rest`.
fn are_parameters(parameters: u32, rest: &Term, t: &Term) -> bool
    ensures { result ≡ same_trees (arguments_of (tree t.now)) (parameter_variables parameters (length (domains_of (tree rest.now)))) }
{
    let above = product_count(rest);
    let mut at = t;
    for place in 0..parameters {
        let Term::App(function, argument) = at else {
            return false;
        };
        if !is_variable(argument, above.saturating_add(u64::from(place))) {
            return false;
        }
        at = function;
    }
    argument_count(at) == 0
}

/// Whether the application has the parameters, as variables under the products of `rest`, and as many further arguments as `indices` has products.
fn has_arguments(parameters: u32, rest: &Term, indices: &Term, t: &Term) -> bool
    ensures { result ≡ has_arguments parameters (length (domains_of (tree rest.now))) (length (domains_of (tree indices.now))) (arguments_of (tree t.now)) }
{
    match without_indices(indices, t) {
        None => false,
        Some(kept) => are_parameters(parameters, rest, kept),
    }
}

/// Whether the conclusion of a constructor's type is the type `ty` applied to the parameters and to as many further arguments as it has indices.
fn has_conclusion(parameters: u32, ty: &IndType, of: &Term) -> bool
    ensures { result ≡ has_conclusion parameters ty.now.id (index_count parameters (type_declaration ty.now)) (tree of.now) }
{
    let applied = conclusion(of);
    is_type(head(applied), &ty.id)
        && has_arguments(
            parameters,
            under_products(parameters, of),
            under_products(parameters, &ty.arity),
            applied,
        )
}

/// Whether the type of a constructor of `ty` is at least so many products, the first of them with the domains of the first type's parameters, and then the type applied to the parameters and to as many further arguments as it has indices.
pub(crate) fn is_constructor_type(parameters: u32, first: &Term, ty: &IndType, of: &Term) -> bool
    ensures { result ≡ is_constructor_type parameters (take parameters (domains_of (tree first.now))) ty.now.id (index_count parameters (type_declaration ty.now)) (tree of.now) }
{
    begins_alike(parameters, first, of) && has_conclusion(parameters, ty, of)
}
