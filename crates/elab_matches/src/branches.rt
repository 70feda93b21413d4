//! Branches that are read.
ghost use Rattle.std.specs.Prelude.{◌<◌, OnOk, length};
ghost use Rattle.elab_matches.specs.calls.Tables.{IsTableOf, Notes, SameEntries};

use elab_parts::Part;
use memory::NoMemory;
use std::alloc::Global;

/// A branch that is read: the place of its constructor, how many names it binds, and its body, where that is within
/// the limits.
#[derive(Drop)]
pub struct ReadBranch {
    pub place: u32,
    pub binders: u32,
    pub body: Option<Part>,
}

/// The branches that are read so far, in order, with a table of where the first of each constructor stands.
#[derive(Drop)]
pub struct Done {
    branches: Vec<ReadBranch>,
    table: Vec<Option<usize>>,
    ghost indexed: { IsTableOf branches.items table.items },
}

/// Makes room for an entry.
fn grow(table: &mut Vec<Option<usize>>, place: u32) -> Result<(), NoMemory>
    ensures same { SameEntries table.old.items table.new.items }
    ensures room { OnOk result (place < length table.new.items) }
{
    let len = place as usize + 1;
    if table.len() < len {
        table.resize(len, None)?;
    }
    Ok(())
}

/// Writes an entry where there is none.
fn note(table: &mut Vec<Option<usize>>, place: usize, index: usize)
    requires { place < length table.old.items }
    ensures { Notes table.old.items place index table.new.items }
{
    if table[place].is_none() {
        table[place] = Some(index);
    }
}

impl Done {
    ghost use Rattle.std.specs.Prelude.{◌≡◌, ◌∷◌, ◌++◌, [], OnOk};
    ghost use Rattle.std.specs.Option.{option_map};
    ghost use Rattle.elab_matches.specs.calls.Tables.{index_of};
    ghost use Rattle.elab_matches.specs.calls.Branches.{known_branch, done_of, branch_of};

    /// No branches.
    pub fn new(alloc: Global) -> Done
        ensures { done_of result ≡ [] }
    {
        Done {
            branches: Vec::new(alloc),
            table: Vec::new(alloc),
        }
    }

    /// Where the first branch of the constructor at a place stands.
    fn index(&self, place: usize) -> Option<usize>
        ensures { result ≡ index_of self.now.branches.items place }
    {
        match self.table.get(place) {
            Some(index) => *index,
            None => None,
        }
    }

    /// The first branch of the constructor at a place.
    pub fn branch(&self, place: usize) -> Option<&ReadBranch>
        ensures { option_map (λ b. known_branch b.now) result ≡ branch_of (done_of self.now) place }
    {
        match self.index(place) {
            Some(index) => self.branches.get(index),
            None => None,
        }
    }

    /// One more branch.
    pub fn push(&mut self, branch: ReadBranch) -> Result<(), NoMemory>
        ensures { OnOk result (done_of self.new ≡ done_of self.old ++ known_branch branch ∷ []) }
    {
        let place = branch.place;
        let index = self.branches.len();
        grow(&mut self.table, place)?;
        self.branches.push(branch)?;
        note(&mut self.table, place as usize, index);
        Ok(())
    }
}
