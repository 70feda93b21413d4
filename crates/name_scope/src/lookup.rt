//! Look-ups of the names of libraries.
ghost use Rattle.std.specs.Prelude.{◌≡◌, Ok, Err, IfOk, OnOk, true, false};
ghost use Rattle.memory.specs.Telling.{Tells, IfReason};
ghost use Rattle.gal_scoping.specs.Readings.{unknown};
ghost use Rattle.gal_scoping.specs.Names.{named_id, is_name};
ghost use Rattle.name_scope.specs.Faults.{fault};
ghost use Rattle.name_scope.specs.Answering.{own_reading};

use crate::fault::NameFault;
use crate::imports::Imports;
use crate::name_set::NameSet;
use cic_names::{GlobalId, LibName, Name};
use memory::NoMemory;
use std::alloc::Global;

fn joined(library: &LibName, name: &Name) -> Result<GlobalId, NoMemory>
    ensures { IfOk result (λ id. id ≡ record { lib = library.now; name = name.now }) }
{
    let lib = library.clone()?;
    let name = name.clone()?;
    Ok(GlobalId { lib, name })
}

/// The id of a name without a library before it: the library's own, or what imports bring.
pub(crate) fn short<'a>(
    library: &LibName,
    own: &NameSet,
    brought: &Imports,
    name: &'a [u8],
) -> Result<GlobalId, NameFault<'a>>
    ensures { Tells fault result (λ id. named_id own.now brought.now library.now name.now ≡ Ok id) (λ f. named_id own.now brought.now library.now name.now ≡ Err f) }
{
    match own.get(name) {
        Some(found) => Ok(joined(library, found)?),
        None => brought.get(name),
    }
}

/// The id of a name that is to be among these of the library. The fault is that of the name as it is written.
pub(crate) fn own_id<'a>(
    library: &LibName,
    names: &NameSet,
    name: &[u8],
    written: &'a [u8],
) -> Result<GlobalId, NameFault<'a>>
    ensures { Tells fault result (λ id. own_reading library.now names.now name.now written.now ≡ Ok id) (λ f. own_reading library.now names.now name.now written.now ≡ Err f) }
{
    match names.get(name) {
        Some(found) => Ok(joined(library, found)?),
        None => Err(NameFault::Unknown(written)),
    }
}

/// The id of these bytes in a library, if they are a name.
#[tactic(auto, using(crate::proofs::NameLaws::name_holds, crate::proofs::NameLaws::no_identifier, crate::proofs::NameLaws::long_name))]
pub(crate) fn foreign<'a>(
    alloc: Global,
    library: &LibName,
    name: &[u8],
    written: &'a [u8],
) -> Result<GlobalId, NameFault<'a>>
    ensures found { IfOk result (λ id. id ≡ record { lib = library.now; name = name.now }) }
    ensures name { OnOk result (is_name name.now ≡ true) }
    ensures fault { IfReason fault result (λ f. (f ≡ unknown written.now) × (is_name name.now ≡ false)) }
{
    match Name::new(alloc, name) {
        Ok(name) => Ok(joined(library, &name)?),
        Err(cic_names::NameFault::NoMemory) => Err(NameFault::NoMemory),
        Err(_) => Err(NameFault::Unknown(written)),
    }
}
