//! Names as they are written.
use std::alloc::Global;

/// An identifier: the place of its first byte in the source, and its text.
#[derive(Clone, Copy, Debug, Drop)]
pub struct Identifier<'a> {
    pub place: u32,
    pub text: &'a [u8],
}

/// A name: an identifier, or identifiers joined by dots.
#[derive(Clone, Copy, Debug, Drop)]
pub enum QualifiedName<'a> {
    Short(Identifier<'a>),
    Long(Identifier<'a>),
}

/// The name of a binder.
#[derive(Clone, Copy, Debug, Drop)]
pub enum Binder<'a> {
    Bound(Identifier<'a>),
    /// `_`
    Blank,
}

/// What stands behind the word `in` of a `match`: a type's name, and names for its indices.
#[derive(Drop)]
pub struct Within<'a> {
    pub inductive: QualifiedName<'a>,
    pub names: Vec<Binder<'a>>,
}
