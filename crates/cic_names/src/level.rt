//! Universe levels, and the sorts of terms.
ghost use Rattle.std.specs.Prelude.{◌≡◌, IfOk, length, ◌≤◌};
ghost use Rattle.std.specs.Cmp.{partial_equiv_from_equiv};
ghost use Rattle.std.specs.Cmp.Lexicographic.{pointwise, lists_equiv};

use crate::name::{LibName, Name};
use memory::NoMemory;
use std::alloc::{AllocError, Global};
use std::marker::Model;
use std::rc::Rc;

/// Which part of a declaration, or which sentence, a level comes from.
#[derive(Clone, Copy, Debug, PartialEq, Eq, Hash)]
pub enum Part {
    /// A level that a sentence `Universe` declares.
    Declared,
    /// An anonymous level of what other libraries can see. The number counts those of the owner.
    Visible(u32),
    /// An anonymous level of an opaque body. The number counts those of the owner.
    Proof(u32),
}

/// A named universe level.
#[derive(Clone, Debug, Drop, PartialEq, Eq, Hash)]
pub struct LevelName {
    pub lib: LibName,
    /// The declaration that brings the level, or the declared level itself.
    pub owner: Name,
    pub part: Part,
}

/// A universe level: `Set`, which is the least, or a named one.
#[derive(Clone, Debug, Drop, PartialEq, Eq, Hash)]
pub enum Level {
    Set,
    Named(LevelName),
}

/// A level, or its successor where `plus` holds.
#[derive(Clone, Debug, Drop, PartialEq, Eq)]
pub struct Atom {
    pub level: Level,
    pub plus: bool,
}

/// The maximum of one atom or more. Copies share the atoms.
#[derive(Debug, Drop)]
pub struct Expr {
    atoms: Rc<Vec<Atom>>,
}

impl Model for Expr {
    ghost use Rattle.std.specs.Prelude.{List, length, ◌≤◌};
    ghost use Rattle.cic_names.specs.declared.level.Atom.{Atom};

    ghost Value = { List Atom };

    ghost view = { λ e. e.atoms.value.items };

    ghost invariant = { λ e. 1 ≤ length e.atoms.value.items };
}

/// `Prop`, `Set`, or `Type` at a universe.
#[derive(Clone, Debug, Drop, PartialEq, Eq)]
pub enum Sort {
    Prop,
    Set,
    Typ(Expr),
}

impl Expr {
    /// The maximum of these atoms.
    pub fn new(alloc: Global, atoms: Vec<Atom>) -> Result<Expr, NoMemory>
        requires { 1 ≤ length atoms.items }
        ensures { IfOk result (λ e. e ≡ atoms.items) }
    {
        Ok(Expr {
            atoms: Rc::new(alloc, atoms)?,
        })
    }

    /// The atoms, of which there is at least one.
    pub fn atoms(&self) -> &[Atom]
        ensures value { result.now ≡ self.now }
        ensures some { 1 ≤ length self.now }
    {
        self.atoms.as_slice()
    }
}

impl Clone for Expr {
    ghost is_clone = { λ a b. b ≡ a };

    fn clone(&self) -> Result<Expr, AllocError> {
        Ok(Expr {
            atoms: self.atoms.clone()?,
        })
    }
}

impl PartialEq for Expr {
    ghost use Rattle.cic_names.specs.contracts.level.AtomEq.TheImpl.Laws.{laws-law};

    ghost eq = { pointwise ⟦<Atom as PartialEq>⟧.eq };

    ghost laws = { partial_equiv_from_equiv (lists_equiv laws-law) };

    fn eq(&self, other: &Expr) -> bool {
        self.atoms == other.atoms
    }
}

impl Eq for Expr {
    ghost use Rattle.cic_names.specs.contracts.level.AtomEq.TheImpl.Laws.{laws-law};

    ghost laws = { lists_equiv laws-law };
}
