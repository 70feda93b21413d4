//! Functions of a fix that are read.
use crate::binding::Binding;
use crate::parts::Part;

/// A function that is read: the place behind `struct`, if there is one, and its parts.
#[derive(Drop)]
pub struct ReadFunction<'a> {
    pub structural: Option<u32>,
    pub binders: Vec<Binding<'a>>,
    pub codomain: Option<Part>,
    pub body: Option<Part>,
}
