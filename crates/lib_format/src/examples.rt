//! Worked examples: bytes written out by the table, and bytes with each defect at its place. A place is told by how many
//! bytes there are from it to the end.
#![tactic(auto)]

ghost use Rattle.std.specs.Prelude.{◌≡◌, [], ◌∷◌, ◌++◌, codes, None, Some};
ghost use Rattle.cic_terms.specs.Tree.{sort, prop, set};
ghost use Rattle.cic_rules.specs.Environment.{axiom_of, transparent, opaque, inductive};
ghost use Rattle.lib_format.specs.DeclarationBytes.{declaration_bytes, declarations_bytes, IsDeclaration};
ghost use Rattle.lib_format.specs.Contents.{library_bytes};
ghost use Rattle.lib_format.specs.declared.stored.NeedFlag.TheVariants.{Plain, Export};
ghost use Rattle.lib_format.specs.calls.Examples.{of_A, numbers, numbers_with, requiring, need_of, zeros};
ghost use Rattle.seg_format.specs.declared.faults.Defect.TheVariants.{Short, Tag, Number};
ghost use Rattle.seg_format.specs.declared.faults.Defect.TheVariants.{Name as NoName};
ghost use Rattle.term_format.specs.Reading.{value, wrong};
ghost use Rattle.lib_format.specs.DeclarationReading.{read_declaration};
ghost use Rattle.lib_format.specs.ContentsReading.{read_levels, read_flag, read_digest};

/// Declarations by the table.
pub fn declarations()
    ensures axiom { declaration_bytes 0 (axiom_of (of_A (codes "a")) (sort prop)) ≡ 1 ∷ 1 ∷ 97 ∷ 1 ∷ [] }
    ensures unfolds { declaration_bytes 0 (transparent (of_A (codes "a")) (sort set) (sort prop)) ≡ 2 ∷ 1 ∷ 97 ∷ 2 ∷ 1 ∷ [] }
    ensures does_not_unfold { declaration_bytes 258 (opaque (of_A (codes "a")) (sort prop) None) ≡ 3 ∷ 1 ∷ 97 ∷ 1 ∷ 0 ∷ 0 ∷ 1 ∷ 2 ∷ [] }
    ensures block { declaration_bytes 0 (inductive numbers) ≡ numbers_with 115 }
    ensures no_opaque_body { IsDeclaration (codes "A") [] 0 (opaque (of_A (codes "a")) (sort prop) (Some (sort prop))) → ⊥ }
    ensures bodies_in_order { declarations_bytes (opaque (of_A (codes "a")) (sort prop) None ∷ opaque (of_A (codes "b")) (sort prop) None ∷ []) ≡ (0 ∷ 0 ∷ 0 ∷ 2 ∷ []) ++ (3 ∷ 1 ∷ 97 ∷ 1 ∷ 0 ∷ 0 ∷ 0 ∷ 0 ∷ []) ++ (3 ∷ 1 ∷ 98 ∷ 1 ∷ 0 ∷ 0 ∷ 0 ∷ 1 ∷ []) }
{}

/// Libraries without declarations.
pub fn libraries()
    ensures empty { library_bytes (requiring []) ≡ (1 ∷ 65 ∷ []) ++ zeros ++ zeros ++ zeros ++ zeros }
    ensures requires_two { library_bytes (requiring (need_of Plain (codes "B") ∷ need_of Export (codes "C") ∷ [])) ≡ (1 ∷ 65 ∷ 0 ∷ 0 ∷ 0 ∷ 2 ∷ 0 ∷ 1 ∷ 66 ∷ 2 ∷ 1 ∷ 67 ∷ []) ++ zeros ++ zeros ++ zeros }
{}

/// Declarations that are read, where no name was seen.
pub fn declarations_read()
    ensures axiom { read_declaration (codes "A") [] 0 (1 ∷ 1 ∷ 97 ∷ 1 ∷ 7 ∷ []) ≡ value (axiom_of (of_A (codes "a")) (sort prop)) (7 ∷ []) }
    ensures block { read_declaration (codes "A") [] 0 (numbers_with 115) ≡ value (inductive numbers) [] }
{}

/// Bytes that are no declaration.
pub fn declaration_defects()
    ensures name_seen { read_declaration (codes "A") (codes "a" ∷ []) 0 (1 ∷ 1 ∷ 97 ∷ 1 ∷ []) ≡ wrong NoName 3 }
    ensures name_of_the_type { read_declaration (codes "A") [] 0 (numbers_with 110) ≡ wrong NoName 13 }
    ensures constructor_twice { read_declaration (codes "A") [] 0 (numbers_with 111) ≡ wrong NoName 13 }
    ensures place_of_body { read_declaration (codes "A") [] 1 (3 ∷ 1 ∷ 97 ∷ 1 ∷ 0 ∷ 0 ∷ 0 ∷ 0 ∷ []) ≡ wrong Number 4 }
    ensures no_kind { read_declaration (codes "A") [] 0 (5 ∷ []) ≡ wrong Tag 1 }
    ensures no_types { read_declaration (codes "A") [] 0 (4 ∷ 0 ∷ 0 ∷ 0 ∷ 0 ∷ 0 ∷ 0 ∷ 0 ∷ 0 ∷ []) ≡ wrong Number 4 }
    ensures many_parameters { read_declaration (codes "A") [] 0 (4 ∷ 0 ∷ 16 ∷ 0 ∷ 1 ∷ []) ≡ wrong Number 4 }
{}

/// Bytes that are no part of an interface or a summary.
#[tactic(auto, unfolding(crate::specs::ContentsReading::read_flag, crate::specs::ContentsReading::read_digest))]
pub fn other_defects()
    ensures level_twice { read_levels (0 ∷ 0 ∷ 0 ∷ 2 ∷ 1 ∷ 117 ∷ 1 ∷ 117 ∷ []) ≡ wrong NoName 2 }
    ensures no_flag { read_flag (3 ∷ 1 ∷ 66 ∷ []) ≡ wrong Tag 3 }
    ensures digest_cut { read_digest (1 ∷ 2 ∷ 3 ∷ 4 ∷ 5 ∷ 6 ∷ 7 ∷ 8 ∷ 9 ∷ 10 ∷ 11 ∷ 12 ∷ 13 ∷ 14 ∷ 15 ∷ []) ≡ wrong Short 0 }
{}
