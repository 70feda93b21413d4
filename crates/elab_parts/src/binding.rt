//! Binders with their types.
use crate::parts::Part;

/// A binder: its name, if it has one, and its type under the binders before it, where that is within the limits.
#[derive(Drop)]
pub struct Binding<'a> {
    pub name: Option<&'a [u8]>,
    pub ty: Option<Part>,
}
