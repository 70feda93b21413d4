//! Lists of names that are kept for names.
ghost use Rattle.std.specs.Prelude.{◌≡◌, ◌++◌, ◌∷◌, [], ◌<◌, ℕ, OnOk, length};
ghost use Rattle.section_uses.specs.Kept.{list_of, layers_of};
ghost use Rattle.section_uses.specs.calls.Layers.{PutsLast, LosesLast};
ghost use Rattle.cic_names.specs.declared.name.GlobalId.{GlobalId as Id};

use cic_names::GlobalId;
use indexmap::IndexMap;
use memory::NoMemory;
use std::alloc::Global;
use std::rc::Rc;

/// The names that are kept for names.
pub(crate) type Layer = IndexMap<GlobalId, Rc<Vec<GlobalId>>>;

/// For each name a list of names: what a constant of a section is generalised over, or applied to. They lie in
/// layers, one for each open section: what is kept in a later layer hides what earlier ones keep for the same name.
#[derive(Drop)]
pub struct Lists {
    pub(crate) layers: Vec<Layer>,
}

impl Lists {
    /// No layer.
    pub fn new(alloc: Global) -> Lists
        ensures empty { (id : Id) → list_of result id ≡ [] }
        ensures layers { layers_of result ≡ [] }
    {
        Lists {
            layers: Vec::new(alloc),
        }
    }

    /// What is kept for the name.
    pub fn of(&self, id: &GlobalId) -> &[GlobalId]
        ensures { result.now ≡ list_of self.now id.now }
    {
        for i in (0..self.layers.len()).rev() {
            if let Some(names) = self.layers[i].get(id) {
                return names.as_slice();
            }
        }
        &[]
    }

    /// Begins a layer in which nothing is kept.
    pub fn enter(&mut self, alloc: Global) -> Result<(), NoMemory>
        ensures { OnOk result (layers_of self.new ≡ layers_of self.old ++ [] ∷ []) }
    {
        self.layers.push(IndexMap::new(alloc))?;
        Ok(())
    }

    /// Ends the last layer.
    pub fn leave(&mut self)
        requires { 0 < length (layers_of self.old) }
        ensures { LosesLast (layers_of self.old) (layers_of self.new) }
    {
        self.layers.pop();
    }

    /// Keeps the names for a name, in the last layer.
    pub fn put(&mut self, id: GlobalId, names: Rc<Vec<GlobalId>>) -> Result<(), NoMemory>
        requires { 0 < length (layers_of self.old) }
        ensures { OnOk result (PutsLast id names (layers_of self.old) (layers_of self.new)) }
    {
        let Some(mut layer) = self.layers.pop() else {
            unreachable!()
        };
        layer.insert(id, names)?;
        self.layers.push(layer)?;
        Ok(())
    }
}
