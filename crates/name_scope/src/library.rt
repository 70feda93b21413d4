//! Libraries whose names may be written.
use crate::name_set::NameSet;
use cic_names::LibName;

/// A library whose names may be written, with the levels that it declares.
#[derive(Drop)]
pub(crate) struct Library {
    pub(crate) name: LibName,
    pub(crate) levels: NameSet,
}
