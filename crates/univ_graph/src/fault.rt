//! Why a graph does not take a constraint.
use univ_cycles::Cycle;

/// Why a constraint was not enforced. The graph is as it was before.
#[derive(Debug, Drop)]
pub enum GraphFault {
    /// No numbering meets the enforced constraints and the new one: a cycle that shows it.
    Conflict(Cycle),
    /// There would be this many levels, which is more than are allowed.
    Limit(u32),
    /// There was no memory.
    NoMemory,
}
