//! The levels of the binders around a term, by their names.

ghost use Rattle.std.specs.Prelude.{◌≡◌, IfOk, OnOk, Some};
ghost use Rattle.gal_elab.specs.calls.Resolving.{put};
ghost use Rattle.gal_elab.specs.calls.LookingUp.{levels_in};

use cic_names::Name;
use memory::NoMemory;
use std::collections::HashMap;

/// From a name to the level of its innermost binder, which is the number of binders outside it.
pub(crate) type Levels = HashMap<Name, u32>;

/// Puts a binder of the name inside all others, and gives the level that the name had before.
pub(crate) fn enter(levels: &mut Levels, name: &Name, level: u32) -> Result<Option<u32>, NoMemory>
    ensures hidden { IfOk result (λ hidden. hidden ≡ levels_in levels.old name.now) }
    ensures levels { OnOk result (levels_in levels.new ≡ put name.now (Some level) (levels_in levels.old)) }
{
    Ok(levels.insert(name.clone()?, level)?)
}

/// Gives the name the level that it had before.
pub(crate) fn leave(levels: &mut Levels, name: &Name, hidden: Option<u32>) -> Result<(), NoMemory>
    ensures { OnOk result (levels_in levels.new ≡ put name.now hidden (levels_in levels.old)) }
{
    match hidden {
        Some(level) => {
            enter(levels, name, level)?;
        }
        None => {
            levels.remove(name);
        }
    }
    Ok(())
}
