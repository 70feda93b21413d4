//! Binders in a row, each under those before it.
ghost use Rattle.std.specs.Prelude.{◌≡◌, ◌++◌, ◌∷◌, [], ◌+◌, map, reverse, length, drop, OnOk, IfOk};
ghost use Rattle.std.specs.Option.{option_copied};
ghost use Rattle.gal_raw.specs.Denotes.{binder};
ghost use Rattle.gal_scoping.specs.Names.{binder_name};
ghost use Rattle.elab_parts.specs.Binders.{around_of};
ghost use Rattle.elab_parts.specs.calls.Parts.{known, pair_tree, lifted};
ghost use Rattle.elab_parts.specs.calls.Bindings.{known_binding, bindings_known, over_all};

use crate::around::Around;
use crate::binding::Binding;
use crate::making::{Pair, lift, make_pair};
use crate::parts::Part;
use gal_raw::Binder;
use memory::NoMemory;
use std::alloc::Global;

/// The text of a binder's name, if it has one.
pub fn binder_text<'a>(written: &Binder<'a>) -> Option<&'a [u8]>
    ensures { option_copied result ≡ binder_name (binder written.now) }
{
    match written {
        Binder::Bound(name) => Some(name.text),
        Binder::Blank => None,
    }
}

/// One more binder of a group, of which so many stand before it.
fn add_binding<'a>(
    alloc: Global,
    telescope: &mut Vec<Binding<'a>>,
    around: &mut Around<'a>,
    written: &Binder<'a>,
    ty: &Option<Part>,
    passed: usize,
) -> Result<(), NoMemory>
    ensures telescope { OnOk result (map known_binding telescope.new.items ≡ map known_binding telescope.old.items ++ record { name = binder_name (binder written.now); type = lifted passed (known ty.now) } ∷ []) }
    ensures around { OnOk result (around_of around.new ≡ binder_name (binder written.now) ∷ around_of around.old) }
{
    let name = binder_text(written);
    let ty = lift(alloc, ty, passed)?;
    telescope.push(Binding { name, ty })?;
    around.enter(name)
}

/// The binders of one group, which share its type.
pub fn add_group<'a>(
    alloc: Global,
    telescope: &mut Vec<Binding<'a>>,
    around: &mut Around<'a>,
    group: &[Binder<'a>],
    ty: &Option<Part>,
) -> Result<(), NoMemory>
    ensures telescope { OnOk result (map known_binding telescope.new.items ≡ map known_binding telescope.old.items ++ bindings_known 0 (map binder group.now) (known ty.now)) }
    ensures around { OnOk result (around_of around.new ≡ reverse (map binder_name (map binder group.now)) ++ around_of around.old) }
{
    for passed in 0..group.len() {
        add_binding(alloc, telescope, around, &group[passed], ty, passed)?;
    }
    Ok(())
}

/// The products, or abstractions, over the binders.
pub fn over(
    alloc: Global,
    kind: Pair,
    telescope: &[Binding<'_>],
    body: Option<Part>,
) -> Result<Option<Part>, NoMemory>
    ensures { IfOk result (λ part. known part ≡ over_all (pair_tree kind) (map known_binding telescope.now) (known body)) }
{
    let mut made = body;
    let count = telescope.len();
    for place in 0..count {
        made = make_pair(alloc, kind, &telescope[count - 1 - place].ty, &made)?;
    }
    Ok(made)
}
