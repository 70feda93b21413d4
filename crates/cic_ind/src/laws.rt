//! Laws of the definitions: each function has an empty body, and its contract is the law.
ghost use Rattle.std.specs.Prelude.{◌≡◌, ◌∷◌, [], drop, if◌then◌else◌, take, ℕ};
ghost use Rattle.cic_names.specs.declared.name.GlobalId.{GlobalId};
ghost use Rattle.cic_terms.specs.Tree.{TreeSort};
ghost use Rattle.cic_rules.specs.Environment.{ConstructorDeclaration, TypeDeclaration};
ghost use Rattle.cic_rules.specs.Telescopes.{domains_of, extend};
ghost use Rattle.cic_counted.specs.Inference.{Calls, all_propositions, eliminates, is_prop};
ghost use Rattle.cic_counted.specs.Outcome.{bad_elimination, give, refuse};
ghost use Rattle.cic_ind.specs.Eliminations.{targets};

use crate::eliminations::Targets;

/// What the check of a `match` asks of a sort is read off the sorts that the type eliminates into.
pub fn elimination_asks()
    ensures all { (calls : Calls) (id : GlobalId) (r : ℕ) (t : TypeDeclaration) (s : TreeSort) → targets t ≡ Targets.All → eliminates calls id r t s ≡ give tt }
    ensures prop_only { (calls : Calls) (id : GlobalId) (r : ℕ) (t : TypeDeclaration) (s : TreeSort) → targets t ≡ Targets.PropOnly → eliminates calls id r t s ≡ (if is_prop s then give tt else refuse (bad_elimination id)) }
    ensures if_arguments { (calls : Calls) (id : GlobalId) (r : ℕ) (t : TypeDeclaration) (s : TreeSort) (c : ConstructorDeclaration) → targets t ≡ Targets.IfArgumentsProp → t.constructors ≡ c ∷ [] → eliminates calls id r t s ≡ (if is_prop s then give tt else all_propositions calls id (extend [] (take r (domains_of c.type))) (drop r (domains_of c.type))) }
    ensures one { (t : TypeDeclaration) → targets t ≡ Targets.IfArgumentsProp → (c : ConstructorDeclaration) × (t.constructors ≡ c ∷ []) }
{}
