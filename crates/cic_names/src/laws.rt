//! Laws: the orders of names, levels and constraints are total, and they and the tests of equality tell different ones apart.
ghost use Rattle.std.specs.Prelude.{◌≡◌, ◌↔◌, ℕ, List, IsTrue};
ghost use Rattle.std.specs.Cmp.{IsTotalOrder};
ghost use Rattle.std.specs.declared.cmp.Ordering.TheVariants.{Equal};
ghost use Rattle.cic_names.specs.Orders.{name_order, level_order, constraint_order};
ghost use Rattle.cic_names.specs.Sameness.{same_name, same_id, same_level_name, same_level, same_atom, same_atoms, same_constraint};
ghost use Rattle.cic_names.specs.Texts.{id_text};
ghost use Rattle.cic_names.specs.Identifier.{IsIdentifier};
ghost use Rattle.cic_names.specs.declared.name.GlobalId.{GlobalId};
ghost use Rattle.cic_names.specs.declared.level.LevelName.{LevelName};
ghost use Rattle.cic_names.specs.declared.level.Level.{Level};
ghost use Rattle.cic_names.specs.declared.level.Atom.{Atom};
ghost use Rattle.cic_names.specs.declared.level.Sort.{Sort};
ghost use Rattle.cic_names.specs.declared.constraint.Constraint.{Constraint};

use crate::constraint::Constraint;
use crate::level::{Atom, Expr, Level, LevelName, Sort};
use crate::name::{GlobalId, Name};

/// The orders are total.
#[tactic(auto, using(crate::proofs::OrderLaws::name_order_total, crate::proofs::OrderLaws::level_order_total, crate::proofs::OrderLaws::constraint_order_total))]
pub fn orders_are_total()
    ensures names { IsTotalOrder name_order }
    ensures levels { IsTotalOrder level_order }
    ensures constraints { IsTotalOrder constraint_order }
{}

/// Different names, levels and constraints have different places in the orders.
#[tactic(auto, using(crate::proofs::OrderLaws::name_order_decides, crate::proofs::OrderLaws::level_order_decides, crate::proofs::OrderLaws::constraint_order_decides))]
pub fn orders_decide_equality()
    ensures names { (a b : List ℕ) → (name_order a b ≡ Equal) ↔ (a ≡ b) }
    ensures levels { (a b : Level) → (level_order a b ≡ Equal) ↔ (a ≡ b) }
    ensures constraints { (a b : Constraint) → (constraint_order a b ≡ Equal) ↔ (a ≡ b) }
{}

/// The tests of equality are true exactly where the two are equal.
#[tactic(auto, using(crate::proofs::Equality::same_name_decides, crate::proofs::Equality::same_id_decides, crate::proofs::Equality::same_level_name_decides, crate::proofs::Equality::same_level_decides, crate::proofs::Equality::same_atom_decides, crate::proofs::Equality::same_atoms_decides, crate::proofs::Equality::same_constraint_decides))]
pub fn tests_decide_equality()
    ensures names { (a b : List ℕ) → IsTrue (same_name a b) ↔ (a ≡ b) }
    ensures ids { (a b : GlobalId) → IsTrue (same_id a b) ↔ (a ≡ b) }
    ensures level_names { (a b : LevelName) → IsTrue (same_level_name a b) ↔ (a ≡ b) }
    ensures levels { (a b : Level) → IsTrue (same_level a b) ↔ (a ≡ b) }
    ensures atoms { (a b : Atom) → IsTrue (same_atom a b) ↔ (a ≡ b) }
    ensures expressions { (a b : List Atom) → IsTrue (same_atoms a b) ↔ (a ≡ b) }
    ensures constraints { (a b : Constraint) → IsTrue (same_constraint a b) ↔ (a ≡ b) }
{}

/// `==` is true exactly where the two are equal.
#[tactic(auto, using(crate::proofs::Equality::same_name_decides, crate::proofs::Equality::id_equal_decides, crate::proofs::Equality::level_name_equal_decides, crate::proofs::Equality::level_equal_decides, crate::proofs::Equality::atom_equal_decides, crate::proofs::Equality::expression_equal_decides, crate::proofs::Equality::sort_equal_decides, crate::proofs::Equality::constraint_equal_decides))]
pub fn equal_decides_equality()
    ensures names { (a b : List ℕ) → IsTrue (⟦<Name as PartialEq>⟧.eq a b) ↔ (a ≡ b) }
    ensures ids { (a b : GlobalId) → IsTrue (⟦<GlobalId as PartialEq>⟧.eq a b) ↔ (a ≡ b) }
    ensures level_names { (a b : LevelName) → IsTrue (⟦<LevelName as PartialEq>⟧.eq a b) ↔ (a ≡ b) }
    ensures levels { (a b : Level) → IsTrue (⟦<Level as PartialEq>⟧.eq a b) ↔ (a ≡ b) }
    ensures atoms { (a b : Atom) → IsTrue (⟦<Atom as PartialEq>⟧.eq a b) ↔ (a ≡ b) }
    ensures expressions { (a b : List Atom) → IsTrue (⟦<Expr as PartialEq>⟧.eq a b) ↔ (a ≡ b) }
    ensures sorts { (a b : Sort) → IsTrue (⟦<Sort as PartialEq>⟧.eq a b) ↔ (a ≡ b) }
    ensures constraints { (a b : Constraint) → IsTrue (⟦<Constraint as PartialEq>⟧.eq a b) ↔ (a ≡ b) }
{}

/// A clone is equal to what it was made from.
#[tactic(auto, using(crate::proofs::Clones::id_clone_is, crate::proofs::Clones::level_name_clone_is, crate::proofs::Clones::level_clone_is, crate::proofs::Clones::atom_clone_is, crate::proofs::Clones::sort_clone_is, crate::proofs::Clones::constraint_clone_is))]
pub fn clones_are_equal()
    ensures names { (a b : List ℕ) → ⟦<Name as Clone>⟧.is_clone a b → b ≡ a }
    ensures ids { (a b : GlobalId) → ⟦<GlobalId as Clone>⟧.is_clone a b → b ≡ a }
    ensures level_names { (a b : LevelName) → ⟦<LevelName as Clone>⟧.is_clone a b → b ≡ a }
    ensures levels { (a b : Level) → ⟦<Level as Clone>⟧.is_clone a b → b ≡ a }
    ensures atoms { (a b : Atom) → ⟦<Atom as Clone>⟧.is_clone a b → b ≡ a }
    ensures expressions { (a b : List Atom) → ⟦<Expr as Clone>⟧.is_clone a b → b ≡ a }
    ensures sorts { (a b : Sort) → ⟦<Sort as Clone>⟧.is_clone a b → b ≡ a }
    ensures constraints { (a b : Constraint) → ⟦<Constraint as Clone>⟧.is_clone a b → b ≡ a }
{}

/// Two ids have one text only where they are the same: no identifier holds a dot.
pub fn ids_are_told_apart_by_text()
    ensures { (a b : GlobalId) → IsIdentifier a.lib → IsIdentifier b.lib → id_text a ≡ id_text b → a ≡ b }
{}
