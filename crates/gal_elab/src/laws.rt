//! Laws: what written terms stand for is determined.
ghost use Rattle.std.specs.Prelude.{◌≡◌, ◌⊎◌, ℕ, List, []};
ghost use Rattle.cic_terms.specs.Tree.{Tree};
ghost use Rattle.cic_env.specs.Environments.{items};
ghost use Rattle.gal_parser.specs.Views.{raw_term};
ghost use Rattle.gal_elab.specs.Scoping.{Binders, StandsFor, FirstUnknown};

use cic_env::Env;
use cic_names::Name;
use gal_parser::Raw;

/// Under any binders, a written term stands for at most one term.
pub fn one_term(library: &Name, env: &Env, raw: &Raw)
    ensures { (binders : Binders) (t u : Tree) → StandsFor library.now (items env.now) binders (raw_term raw.now) t → StandsFor library.now (items env.now) binders (raw_term raw.now) u → t ≡ u }
{}

/// Under any binders, a written term stands for a term or has a first unknown name, and not both.
pub fn known_or_unknown(library: &Name, env: &Env, raw: &Raw)
    ensures either { (binders : Binders) → ((t : Tree) × StandsFor library.now (items env.now) binders (raw_term raw.now) t) ⊎ ((name : List ℕ) × FirstUnknown library.now (items env.now) binders (raw_term raw.now) name) }
    ensures not_both { (binders : Binders) (t : Tree) (name : List ℕ) → StandsFor library.now (items env.now) binders (raw_term raw.now) t → FirstUnknown library.now (items env.now) binders (raw_term raw.now) name → ⊥ }
{}
