//! One list of names that is kept for several ids.
ghost use Rattle.std.specs.Prelude.{◌≡◌, ◌<◌, ◌∷◌, [], length, IfOk, OnOk};
ghost use Rattle.section_uses.specs.Kept.{layers_of};
ghost use Rattle.section_core.specs.calls.Layers.{PutsAll};

use crate::copying::copied_id;
use cic_names::GlobalId;
use memory::NoMemory;
use section_uses::Lists;
use std::rc::Rc;

/// The same names, which are shared.
fn shared(names: &Rc<Vec<GlobalId>>) -> Result<Rc<Vec<GlobalId>>, NoMemory>
    ensures { IfOk result (λ r. r.value.items ≡ names.now.value.items) }
{
    Ok(names.clone()?)
}

/// Keeps the names for an id, in the last layer.
fn put_one(lists: &mut Lists, id: &GlobalId, names: &Rc<Vec<GlobalId>>) -> Result<(), NoMemory>
    requires { 0 < length (layers_of lists.old) }
    ensures { OnOk result (PutsAll (id.now ∷ []) names.now.value.items (layers_of lists.old) (layers_of lists.new)) }
{
    let id = copied_id(id)?;
    let names = shared(names)?;
    lists.put(id, names)?;
    Ok(())
}

/// Keeps the names for each of the ids, in the last layer.
pub(crate) fn put_all(
    lists: &mut Lists,
    ids: &[GlobalId],
    names: &Rc<Vec<GlobalId>>,
) -> Result<(), NoMemory>
    requires { 0 < length (layers_of lists.old) }
    ensures { OnOk result (PutsAll ids.now names.now.value.items (layers_of lists.old) (layers_of lists.new)) }
{
    for id in ids {
        put_one(lists, id, names)?;
    }
    Ok(())
}
