//! Lists of parts, each with its depth.
ghost use Rattle.std.specs.Prelude.{◌≡◌, ◌≤◌};
ghost use Rattle.cic_terms.specs.Denotes.{term_list, body_list, body_parts};
ghost use Rattle.cic_terms.specs.Sizes.{depth_children, max_rel_children};

use cic_terms::{FixBody, Term};

/// Terms in a row within the limits, with the greatest of their depths.
#[derive(Drop)]
pub struct Domains {
    pub terms: Vec<Term>,
    pub depth: u32,
    ghost measured: { depth ≡ depth_children (term_list 0 terms.items) },
    ghost low: { depth ≤ 4000 },
    ghost small: { max_rel_children (term_list 0 terms.items) ≤ 1048576 },
}

/// A function within the limits, with the greatest depth of its parts.
#[derive(Drop)]
pub struct Body {
    pub body: FixBody,
    pub depth: u32,
    ghost measured: { depth ≡ depth_children (body_parts 0 body) },
    ghost low: { depth ≤ 4000 },
    ghost small: { max_rel_children (body_parts 0 body) ≤ 1048576 },
}

/// Functions within the limits, with the greatest depth of their parts.
#[derive(Drop)]
pub struct Bodies {
    pub items: Vec<FixBody>,
    pub depth: u32,
    ghost measured: { depth ≡ depth_children (body_list 0 items.items) },
    ghost low: { depth ≤ 4000 },
    ghost small: { max_rel_children (body_list 0 items.items) ≤ 1048576 },
}
