//! The sorts that a type eliminates into.
ghost use Rattle.std.specs.Prelude.{◌≡◌};
ghost use Rattle.cic_terms.specs.Denotes.{tree};
ghost use Rattle.cic_rules.specs.Telescopes.{conclusion_of};
ghost use Rattle.cic_counted.specs.Inference.{ends_in_prop};
ghost use Rattle.cic_env.specs.Declarations.{type_declaration};
ghost use Rattle.cic_ind.specs.Eliminations.{targets};

use cic_env::IndType;
use cic_names::Sort;
use cic_terms::Term;

/// The sorts that a type eliminates into. Coq Reference Manual, "Theory of inductive definitions".
#[derive(Clone, Copy, Debug, PartialEq, Eq, Drop)]
pub enum Targets {
    /// Every sort.
    All,
    /// Prop alone.
    PropOnly,
    /// Every sort, where the arguments of its one constructor are propositions, and else Prop.
    IfArgumentsProp,
}

/// What stands after the last product of an arity.
fn conclusion(arity: &Term) -> &Term
    ensures { tree result.now ≡ conclusion_of (tree arity.now) }
{
    let mut at = arity;
    while let Term::Prod(_, rest) = at {
        at = rest;
    }
    at
}

fn is_prop(t: &Term) -> bool
    ensures { result ≡ ends_in_prop (tree t.now) }
{
    match t {
        Term::Sort(Sort::Prop) => true,
        _ => false,
    }
}

/// The sorts that a type eliminates into.
pub fn elimination(ty: &IndType) -> Targets
    ensures { result ≡ targets (type_declaration ty.now) }
{
    if !is_prop(conclusion(&ty.arity)) {
        return Targets::All;
    }
    match ty.ctors.as_slice() {
        [] => Targets::All,
        [_] => Targets::IfArgumentsProp,
        _ => Targets::PropOnly,
    }
}
