//! What the segments of a library file hold.
use cic_env::Decl;
use cic_names::{Constraints, LibName, Name};

/// How a library is required: alone, with its names, or with its names for those too that require this one.
#[derive(Clone, Copy, Debug, PartialEq, Eq)]
pub enum NeedFlag {
    Plain,
    Import,
    Export,
}

/// A library that is required.
#[derive(Debug, Drop)]
pub struct Need {
    pub flag: NeedFlag,
    pub lib: LibName,
}

/// The interface of a library: what it requires, the levels and declarations in order, and the constraints that everyone
/// sees. The bodies of constants that do not unfold are left out.
#[derive(Drop)]
pub struct Library {
    pub name: LibName,
    pub needs: Vec<Need>,
    pub levels: Vec<Name>,
    pub decls: Vec<Decl>,
    pub visible: Constraints,
}

/// A library that was loaded, with the digest that its interface had.
#[derive(Debug, Drop)]
pub struct Recorded {
    pub lib: LibName,
    pub digest: [u8; 16],
}

/// What a library was made from: its source by its digest, the budget, and the libraries that were loaded, in order.
#[derive(Debug, Drop)]
pub struct Summary {
    pub name: LibName,
    pub source: [u8; 16],
    pub budget: u32,
    pub closure: Vec<Recorded>,
}

/// A row of the head of the opaques: where the body of a constant that does not unfold stands behind the head, how many
/// bytes it has, and their digest.
#[derive(Clone, Copy, Debug, PartialEq, Eq)]
pub struct OpaqueRow {
    pub place: u32,
    pub length: u32,
    pub digest: [u8; 16],
}
