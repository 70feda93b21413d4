//! Terms with their depths.
ghost use Rattle.std.specs.Prelude.{◌≡◌, ◌≤◌};
ghost use Rattle.cic_terms.specs.Denotes.{tree};
ghost use Rattle.cic_terms.specs.Sizes.{depth_tree, max_rel};

use cic_terms::Term;
use std::rc::Rc;

/// A term within the limits, with its depth.
#[derive(Drop)]
pub struct Part {
    pub term: Rc<Term>,
    pub depth: u32,
    ghost measured: { depth ≡ depth_tree (tree term.value) },
    ghost low: { depth ≤ 4000 },
    ghost small: { max_rel (tree term.value) ≤ 1048576 },
}
