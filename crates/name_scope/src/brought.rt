//! What imports bring for a name.
ghost use Rattle.std.specs.Prelude.{◌≡◌, Ok, Err, Some, None, IfOk};
ghost use Rattle.std.specs.Option.{option_copied};
ghost use Rattle.memory.specs.Telling.{Tells};
ghost use Rattle.cic_names.specs.Sameness.{same_id};
ghost use Rattle.name_scope.specs.Faults.{fault};
ghost use Rattle.name_scope.specs.Kept.{reading, IsNext};

use crate::fault::NameFault;
use cic_names::{GlobalId, NoMemory};

/// The first id that was brought for a name, and the first that differs from it.
#[derive(Drop)]
pub(crate) struct Brought {
    pub(crate) one: GlobalId,
    pub(crate) other: Option<GlobalId>,
}

pub(crate) fn copied(id: &GlobalId) -> Result<GlobalId, NoMemory>
    ensures { IfOk result (λ r. r ≡ id.now) }
{
    Ok(id.clone()?)
}

fn are_same(a: &GlobalId, b: &GlobalId) -> bool
    ensures { result ≡ same_id a.now b.now }
{
    *a == *b
}

/// The id that the name stands for.
pub(crate) fn id_of<'a>(
    brought: Option<&Brought>,
    name: &'a [u8],
) -> Result<GlobalId, NameFault<'a>>
    ensures { Tells fault result (λ id. reading name.now (option_copied brought.entry) ≡ Ok id) (λ f. reading name.now (option_copied brought.entry) ≡ Err f) }
{
    match brought {
        None => Err(NameFault::Unknown(name)),
        Some(brought) => match &brought.other {
            None => Ok(copied(&brought.one)?),
            Some(other) => Err(NameFault::Ambiguous {
                name,
                one: copied(&brought.one)?,
                two: copied(other)?,
            }),
        },
    }
}

fn only(id: &GlobalId) -> Result<Brought, NoMemory>
    ensures { IfOk result (λ b. b ≡ record { one = id.now; other = None }) }
{
    Ok(Brought {
        one: copied(id)?,
        other: None,
    })
}

fn both(one: &GlobalId, other: &GlobalId) -> Result<Brought, NoMemory>
    ensures { IfOk result (λ b. b ≡ record { one = one.now; other = Some other.now }) }
{
    Ok(Brought {
        one: copied(one)?,
        other: Some(copied(other)?),
    })
}

/// What is kept instead where one more id is brought, or nothing where that changes nothing.
pub(crate) fn next(brought: Option<&Brought>, id: &GlobalId) -> Result<Option<Brought>, NoMemory>
    ensures { IfOk result (IsNext (option_copied brought.entry) id.now) }
{
    match brought {
        None => Ok(Some(only(id)?)),
        Some(brought) => {
            if brought.other.is_some() || are_same(&brought.one, id) {
                Ok(None)
            } else {
                Ok(Some(both(&brought.one, id)?))
            }
        }
    }
}
