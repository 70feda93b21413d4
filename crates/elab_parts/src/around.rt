//! The binders around a place.
ghost use Rattle.std.specs.Prelude.{◌≡◌, ◌∷◌, ◌-◌, ◌≤◌, ℕ, [], OnOk, drop, length};
ghost use Rattle.std.specs.Option.{option_copied};
ghost use Rattle.elab_parts.specs.Binders.{around_of};
ghost use Rattle.gal_scoping.specs.Names.{variable_of, has_name};

use memory::NoMemory;
use std::alloc::Global;

/// The names of the binders around a place, the innermost last. Some have none.
#[derive(Drop)]
pub struct Around<'a> {
    pub names: Vec<Option<&'a [u8]>>,
}

impl<'a> Around<'a> {
    /// No binders.
    pub fn new(alloc: Global) -> Around<'a>
        ensures { around_of result ≡ [] }
    {
        Around {
            names: Vec::new(alloc),
        }
    }

    /// How many binders there are.
    pub fn len(&self) -> usize
        ensures { result ≡ length (around_of self.now) }
    {
        self.names.len()
    }

    /// One binder more, inside all others.
    pub fn enter(&mut self, name: Option<&'a [u8]>) -> Result<(), NoMemory>
        ensures { OnOk result (around_of self.new ≡ option_copied name.entry ∷ around_of self.old) }
    {
        self.names.push(name)?;
        Ok(())
    }

    /// The outermost `len` binders alone.
    pub fn leave(&mut self, len: usize)
        requires { len ≤ length (around_of self.old) }
        ensures { around_of self.new ≡ drop (length (around_of self.old) - len) (around_of self.old) }
    {
        self.names.truncate(len);
    }

    /// The innermost binder of the name, counted from the innermost of all.
    pub fn variable(&self, name: &[u8]) -> Option<usize>
        ensures { result ≡ variable_of (around_of self.now) name.now }
    {
        let names = self.names.as_slice();
        for place in 0..names.len() {
            if has_name(name, names[names.len() - 1 - place]) {
                return Some(place);
            }
        }
        None
    }
}

/// Whether a binder has the name.
pub fn has_name(name: &[u8], binder: Option<&[u8]>) -> bool
    ensures { result ≡ has_name name.now (option_copied binder.entry) }
{
    match binder {
        Some(other) => name == other,
        None => false,
    }
}
