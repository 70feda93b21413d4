//! Laws of scopes.
ghost use Rattle.std.specs.Prelude.{◌≡◌, ◌++◌, ◌∷◌, [], List};
ghost use Rattle.cic_names.specs.declared.name.GlobalId.{GlobalId as Id};
ghost use Rattle.gal_grammar.specs.Terms.{Qual};
ghost use Rattle.gal_scoping.specs.Scopes.{Scope as Meanings};
ghost use Rattle.gal_scoping.specs.Names.{global_id};
ghost use Rattle.gal_scoping.specs.Levels.{level_named};
ghost use Rattle.name_scope.specs.Agreement.{Agrees};
ghost use Rattle.name_scope.specs.calls.Changes.{Brings};

/// What is kept may stand for all that was added: scopes that answer alike mean the same by each name, and what imports
/// bring stays alike where more is brought.
pub fn kept_stands_for_all()
    ensures ids { (all kept : Meanings) → Agrees all kept → (x : Qual) → global_id kept x ≡ global_id all x }
    ensures levels { (all kept : Meanings) → Agrees all kept → (x : Qual) → level_named kept x ≡ level_named all x }
    ensures brings { (all kept after : List Id) (id : Id) → Brings all kept → Brings (kept ++ id ∷ []) after → Brings (all ++ id ∷ []) after }
{}
