//! Laws of the definitions: each function has an empty body, and its contract is the law.
ghost use Rattle.std.specs.Prelude.{◌≡◌, [], ◌∷◌, List, None, Some, ℕ};
ghost use Rattle.cic_terms.specs.declared.term.FixBodies.{FixBodies};
ghost use Rattle.cic_terms.specs.Denotes.{bodies, shapes};
ghost use Rattle.cic_terms.specs.calls.Walk.{map_tree};
ghost use Rattle.cic_terms.specs.Tree.{Children, Shape, Tree, app, fix, lam, no_child, prop, rel, set, sort};
ghost use Rattle.cic_rules.specs.Telescopes.{substitute_all};
ghost use Rattle.cic_counted.specs.Readings.{functions_of};
ghost use Rattle.cic_counted.specs.Evaluation.{unfolds};
ghost use Rattle.cic_spines.specs.Fixes.{functions, unfolding_of};
ghost use Rattle.cic_spines.specs.calls.Several.{several};

/// Several terms are put in by one walk as they are one after the other.
pub fn at_once_is_one_by_one()
    ensures { (us : List Tree) (t : Tree) → map_tree (several us) 0 t ≡ substitute_all us t }
{}

/// The parts of each `fix` of the program are made of functions.
pub fn fixes_have_functions()
    ensures { (all : FixBodies) → functions_of (shapes all) (bodies all) ≡ Some (functions all) }
{}

/// What evaluation unfolds a function to, at as many arguments as stand before its recursive one, is what it unfolds to.
pub fn evaluation_unfolds_to_it()
    ensures { (count which : ℕ) (all : List Shape) (parts : Children) (F : Tree) → unfolds count (fix which all parts) ≡ Some F → unfolding_of which all parts ≡ Some F }
{}

/// Small terms: the last term goes to the innermost variable, variables outside are lowered, a term is lifted past a binder, and a variable that the term binds stays.
pub fn small_substitutions()
    ensures order { map_tree (several (sort set ∷ sort prop ∷ [])) 0 (app (rel 0) (app (rel 1) (rel 2))) ≡ app (sort prop) (app (sort set) (rel 0)) }
    ensures lifted { map_tree (several (rel 4 ∷ [])) 0 (lam (sort set) (rel 1)) ≡ lam (sort set) (rel 5) }
    ensures bound { map_tree (several (rel 4 ∷ [])) 0 (lam (sort set) (rel 0)) ≡ lam (sort set) (rel 0) }
{}

/// A `fix` of no functions unfolds to nothing.
pub fn no_function_unfolds_to_nothing()
    ensures { unfolding_of 0 [] no_child ≡ None }
{}
