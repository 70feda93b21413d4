//! The branches of a match with their depth.
ghost use Rattle.std.specs.Prelude.{◌≡◌, ◌≤◌};
ghost use Rattle.cic_terms.specs.Denotes.{branch_list};
ghost use Rattle.cic_terms.specs.Sizes.{depth_children, max_rel_children};

use cic_terms::Branch;

/// Branches within the limits, with the greatest depth of their bodies.
#[derive(Drop)]
pub struct Cases {
    pub items: Vec<Branch>,
    pub depth: u32,
    ghost measured: { depth ≡ depth_children (branch_list items.items) },
    ghost low: { depth ≤ 4000 },
    ghost small: { max_rel_children (branch_list items.items) ≤ 1048576 },
}
