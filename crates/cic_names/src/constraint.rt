//! Universe constraints, and sets of them in the order of their byte strings.
ghost use Rattle.std.specs.Prelude.{◌≡◌, IfOk, OnOk, OnErr, ◌↔◌, IsTrue, length, ◌<◌, ◌^◌, Some, nat_eq, refl, not, []};
ghost use Rattle.std.specs.Cmp.{on_equiv, on_total, on_per, on_po, partial_equiv_from_equiv};
ghost use Rattle.std.specs.Cmp.Lexicographic.{pointwise, nat_list_eq_equiv, nat_list_cmp_total, texts_ties, texts_po};
ghost use Rattle.std.specs.List.{list_any};
ghost use Rattle.std.specs.List.Sorted.{IsStrictlySortedBy};
ghost use Rattle.std.specs.Ordering.{is_eq};
ghost use Rattle.cic_names.specs.Orders.{constraint_bytes, constraint_order, insert_constraint, insert_constraints};

use crate::level::Level;
use crate::order::constraint_order;
use memory::NoMemory;
use std::alloc::Global;
use std::cmp::Ordering;
use std::collections::BTreeSet;
use std::collections::btree_set::Iter;
use std::marker::Model;

/// That the left level is at most the right one, or below it where `strict` holds. Coq Reference Manual, "Polymorphic Universes", universe constraints.
#[derive(Clone, Debug, Drop)]
pub struct Constraint {
    pub left: Level,
    pub strict: bool,
    pub right: Level,
}

impl PartialEq for Constraint {
    ghost eq = { λ a b. pointwise nat_eq (constraint_bytes a) (constraint_bytes b) };

    ghost laws = { on_per constraint_bytes (partial_equiv_from_equiv nat_list_eq_equiv) };

    fn eq(&self, other: &Constraint) -> bool {
        self.cmp(other).is_eq()
    }
}

impl Eq for Constraint {
    ghost laws = { on_equiv constraint_bytes nat_list_eq_equiv };
}

impl PartialOrd for Constraint {
    ghost partial_cmp = { λ a b. Some (constraint_order a b) };

    ghost laws = { on_po constraint_bytes texts_po };

    fn partial_cmp(&self, other: &Constraint) -> Option<Ordering> {
        Some(self.cmp(other))
    }
}

impl Ord for Constraint {
    ghost cmp = { constraint_order };

    ghost total = { on_total constraint_bytes nat_list_cmp_total };

    ghost matches_partial_cmp = { λ a b. refl };

    ghost matches_eq = { λ a b. texts_ties (constraint_bytes a) (constraint_bytes b) };

    fn cmp(&self, other: &Constraint) -> Ordering {
        constraint_order(self, other)
    }
}

/// A set of constraints, seen as its list in the order of their byte strings.
#[derive(Debug, Drop)]
pub struct Constraints {
    set: BTreeSet<Constraint>,
}

impl Model for Constraints {
    ghost use Rattle.std.specs.Prelude.{List};
    ghost use Rattle.cic_names.specs.declared.constraint.Constraint.{Constraint};

    ghost Value = { List Constraint };

    ghost view = { λ c. c.set.keys };
}

impl Constraints {
    /// The empty set.
    pub fn new(alloc: Global) -> Constraints
        ensures { result ≡ [] }
    {
        Constraints {
            set: BTreeSet::new(alloc),
        }
    }

    /// How many constraints there are.
    pub fn len(&self) -> usize
        ensures value { result ≡ length self.now }
        ensures ordered { IsStrictlySortedBy constraint_order self.now }
    {
        self.set.len()
    }

    /// Whether there is none.
    pub fn is_empty(&self) -> bool
        ensures { IsTrue result ↔ (length self.now ≡ 0) }
    {
        self.set.is_empty()
    }

    /// Whether a constraint with the same byte string is there.
    pub fn contains(&self, constraint: &Constraint) -> bool
        ensures { result ≡ list_any (λ c. is_eq (constraint_order constraint.now c)) self.now }
    {
        self.set.contains(constraint)
    }

    /// Adds a constraint, and says whether it is new.
    pub fn insert(&mut self, constraint: Constraint) -> Result<bool, NoMemory>
        ensures set { OnOk result (self.new ≡ insert_constraint self.old constraint) }
        ensures added { IfOk result (λ added. added ≡ not (list_any (λ c. is_eq (constraint_order constraint c)) self.old)) }
        ensures unchanged { OnErr result (self.new ≡ self.old) }
        ensures ordered { IsStrictlySortedBy constraint_order self.new }
    {
        Ok(self.set.insert(constraint)?)
    }

    /// The constraints in order.
    pub fn iter(&self) -> Iter<'_, Constraint>
        ensures value { result ≡ self.now }
        ensures ordered { IsStrictlySortedBy constraint_order self.now }
    {
        self.set.iter()
    }
}
