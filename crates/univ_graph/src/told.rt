//! What a graph keeps, told as numbers and lists.
ghost use Rattle.std.specs.Prelude.{◌≡◌, ◌+◌, [], length, IfOk};
ghost use Rattle.cic_names.specs.Orders.{insert_constraints};
ghost use Rattle.univ_cycles.specs.Numbers.{numbering, constraints};
ghost use Rattle.univ_cycles.specs.calls.Places.{paired, rest};
ghost use Rattle.univ_graph.specs.calls.Boards.{tagged, kept, IsWhole};
ghost use Rattle.cic_rules.specs.Numbering as rules;

use crate::board::Board;
use cic_names::{Constraints, Level, NoMemory};
use std::alloc::Global;
use univ_cycles::LevelNumber;

impl Board {
    /// The number of a level: 0 for Set, and 1 for a named level that is not there.
    pub fn number(&self, level: &Level) -> u32
        requires { IsWhole self.now }
        ensures { result ≡ rules.level_number (kept self.now).numbers level.now }
    {
        match self.place_of(level) {
            Some(place) => self.numbers[place],
            None => 1,
        }
    }

    /// The named levels with their numbers.
    pub fn numbering(&self, alloc: Global) -> Result<Vec<LevelNumber>, NoMemory>
        requires { length self.now.numbers.items ≡ length self.now.names + 1 }
        ensures { IfOk result (λ v. numbering v.items ≡ paired self.now.names (rest self.now.numbers.items)) }
    {
        let mut told = Vec::new(alloc);
        let names = self.names.names();
        for i in 0..names.len() {
            let level = names[i].clone()?;
            let number = self.numbers[i + 1];
            if told.push(LevelNumber { level, number }).is_err() {
                return Err(NoMemory);
            }
        }
        Ok(told)
    }

    /// The constraints of the edges, as a set.
    pub fn enforced(&self, alloc: Global) -> Result<Constraints, NoMemory>
        ensures { IfOk result (λ s. s ≡ insert_constraints [] (constraints (tagged self.now.edges.items))) }
    {
        let mut set = Constraints::new(alloc);
        for edge in &self.edges {
            set.insert(edge.tagged.constraint.clone()?)?;
        }
        Ok(set)
    }
}
