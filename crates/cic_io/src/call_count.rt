ghost use Rattle.std.specs.Prelude.{◌≡◌, IsTrue, ◌↔◌};
ghost use Rattle.std.specs.Bool.{OnTrue, OnFalse};
ghost use Rattle.cic_io.specs.Files.{Rose};
ghost use Rattle.cic_io.specs.Calls.{NextFails, OneMore, NoneMade};

use crate::calls::Calls;
use crate::counting::count_fault;

/// The calls of an object in memory: which are to fail, how many there were, and how many failed.
#[derive(Debug, Drop)]
pub(crate) struct CallCount {
    fail: Calls,
    made: u64,
    pub(crate) faults: u64,
}

impl CallCount {
    pub(crate) fn new(fail: Calls) -> CallCount
        ensures { NoneMade result fail }
    {
        CallCount {
            fail,
            made: 0,
            faults: 0,
        }
    }

    /// Counts the next call, and says whether it is to fail, which is counted as a fault.
    pub(crate) fn next_fails(&mut self) -> bool
        ensures counted { OneMore self.old self.new }
        ensures listed { IsTrue result ↔ NextFails self.old }
        ensures rose { OnTrue result (Rose self.old.faults self.new.faults) }
        ensures quiet { OnFalse result (self.new.faults ≡ self.old.faults) }
    {
        self.made = self.made.saturating_add(1);
        let fails = self.fail.has(self.made);
        if fails {
            count_fault(&mut self.faults);
        }
        fails
    }
}
