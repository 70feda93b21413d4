//! What stands in a section, as the program keeps it.
use crate::using::Using;
use cic_env::Decl;
use section_uses::Hypothesis;

/// A declaration of a section, with the hypotheses of the section that it uses.
#[derive(Drop)]
pub(crate) struct Added {
    pub(crate) decl: Decl,
    pub(crate) usage: Using,
    pub(crate) uses: Vec<Hypothesis>,
}

/// What stands in a section.
#[derive(Drop)]
pub(crate) enum Entry {
    Assumed(Hypothesis),
    Added(Added),
}

/// A declaration that is kept of a section.
#[derive(Drop)]
pub(crate) struct Kept {
    pub(crate) decl: Decl,
    pub(crate) usage: Using,
}
