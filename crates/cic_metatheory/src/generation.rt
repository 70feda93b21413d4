//! Law: generation of products.
ghost use Rattle.std.specs.Prelude.{◌∷◌};
ghost use Rattle.cic_terms.specs.Tree.{Tree, prod};
ghost use Rattle.cic_rules.specs.Numbering.{Numbering};
ghost use Rattle.cic_rules.specs.Environment.{Environment, Context, assumed};
ghost use Rattle.cic_rules.specs.Typing.{Typed, HasSort};

/// The domain of a product that has a type has a sort, and its codomain has one under the domain.
#[tactic(auto, using(crate::proofs::typings::ProductParts::domain_has_sort, crate::proofs::typings::ProductParts::codomain_has_sort))]
pub fn parts_of_products_have_sorts()
    ensures domain { (E : Environment) (N : Numbering) (G : Context) (a b t : Tree) → Typed E N G (prod a b) t → HasSort E N G a }
    ensures codomain { (E : Environment) (N : Numbering) (G : Context) (a b t : Tree) → Typed E N G (prod a b) t → HasSort E N (assumed a ∷ G) b }
{}
