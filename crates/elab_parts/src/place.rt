//! Places of a library at which terms are written.
use cic_env::Env;
use cic_names::Name;
use name_scope::Scope;

/// A name that the command at hand declares before or with the place: of a constant, or of a type of its block.
#[derive(Drop)]
pub enum Fresh {
    Constant(Name),
    Type(Name),
}

/// What names mean at a place, what is declared before it, what the command at hand has declared so far, and whose
/// the anonymous levels are.
#[derive(Clone, Copy, Drop)]
pub struct Place<'p> {
    pub scope: &'p Scope,
    pub env: &'p Env,
    pub fresh: &'p [Fresh],
    /// The declaration to which anonymous levels belong.
    pub owner: &'p Name,
    /// Whether they belong to its opaque body.
    pub opaque: bool,
}
