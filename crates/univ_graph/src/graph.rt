//! A graph of universe constraints: what was enforced, and numbers for its levels that meet it.
use crate::board::Board;
use crate::fault::GraphFault;
use crate::moving::Strategy;
use cic_names::{Constraint, Constraints, Level, NoMemory};
use std::alloc::Global;
use std::marker::Model;
use univ_cycles::{LevelNumber, Tag, level_number};

/// Universe constraints that were enforced with their tags, and a number for each of their levels. Contracts see the
/// tagged constraints in order and the numbering that is kept. The board is made for the first constraint.
#[derive(Drop)]
pub struct Graph {
    alloc: Global,
    board: Option<Board>,
}

impl Model for Graph {
    ghost use Rattle.univ_graph.specs.Kept.{Kept};
    ghost use Rattle.univ_graph.specs.calls.Boards.{kept_of, AreWhole};

    ghost Value = { Kept };

    ghost view = { λ g. kept_of g.board };

    ghost invariant = { λ g. AreWhole g.board };
}

impl Graph {
    ghost use Rattle.std.specs.Prelude.{◌≡◌, ◌↔◌, IsTrue, IfOk, []};
    ghost use Rattle.cic_rules.specs.Numbering as rules;
    ghost use Rattle.univ_graph.specs.Kept.{Answers, IsWitness};
    ghost use Rattle.cic_names.specs.Orders.{insert_constraints};
    ghost use Rattle.univ_cycles.specs.Numbers.{numbering, constraints};

    /// A graph with no constraints.
    pub fn new(alloc: Global) -> Graph
        ensures { result ≡ record { enforced = []; numbers = [] } }
    {
        Graph { alloc, board: None }
    }

    fn enforce_in(
        &mut self,
        constraint: &Constraint,
        tag: Tag,
        strategy: Strategy,
    ) -> Result<(), GraphFault>
        ensures { Answers self.old self.new (record { constraint = constraint.now; tag = tag }) result }
    {
        match &mut self.board {
            Some(board) => board.enforce(self.alloc, constraint, tag, strategy),
            None => {
                let Ok(mut board) = Board::new(self.alloc) else {
                    return Err(GraphFault::NoMemory);
                };
                let answer = board.enforce(self.alloc, constraint, tag, strategy);
                self.board = Some(board);
                answer
            }
        }
    }

    /// Takes a constraint where a numbering meets all that was enforced and it, and the levels are at most 2^20.
    pub fn enforce(&mut self, constraint: &Constraint, tag: Tag) -> Result<(), GraphFault>
        ensures { Answers self.old self.new (record { constraint = constraint.now; tag = tag }) result }
    {
        self.enforce_in(constraint, tag, Strategy::InGaps)
    }

    /// `enforce` by the slow body, which raises all that is reached. It keeps other numbers.
    pub fn enforce_plainly(&mut self, constraint: &Constraint, tag: Tag) -> Result<(), GraphFault>
        ensures { Answers self.old self.new (record { constraint = constraint.now; tag = tag }) result }
    {
        self.enforce_in(constraint, tag, Strategy::Plainly)
    }

    fn number(&self, level: &Level) -> u32
        ensures { result ≡ rules.level_number self.now.numbers level.now }
    {
        match &self.board {
            Some(board) => board.number(level),
            None => level_number(&[], level),
        }
    }

    /// Whether the kept numbers meet a constraint. Set counts 0, and a named level that is not there 1.
    pub fn holds(&self, constraint: &Constraint) -> bool
        ensures { IsTrue result ↔ rules.Meets self.now.numbers constraint.now }
    {
        let left = self.number(&constraint.left);
        let right = self.number(&constraint.right);
        if constraint.strict {
            left < right
        } else {
            left <= right
        }
    }

    /// The kept numbers of the named levels, which meet all that was enforced.
    pub fn numbering(&self) -> Result<Vec<LevelNumber>, NoMemory>
        ensures value { IfOk result (λ v. numbering v.items ≡ self.now.numbers) }
        ensures witness { IsWitness self.now }
    {
        match &self.board {
            Some(board) => board.numbering(self.alloc),
            None => Ok(Vec::new(self.alloc)),
        }
    }

    /// The set of all that was enforced.
    pub fn enforced(&self) -> Result<Constraints, NoMemory>
        ensures { IfOk result (λ s. s ≡ insert_constraints [] (constraints self.now.enforced)) }
    {
        match &self.board {
            Some(board) => board.enforced(self.alloc),
            None => Ok(Constraints::new(self.alloc)),
        }
    }
}
