ghost use Rattle.cic_io.specs.Files.{Rose};
ghost use Rattle.cic_io.specs.Reading.{RisesBy};

/// Counts one fault more.
pub(crate) fn count_fault(faults: &mut u64)
    ensures { Rose faults.old faults.new }
{
    *faults = faults.saturating_add(1);
}

/// Counts the bytes that a read gave.
pub(crate) fn count_taken(taken: &mut u64, count: usize)
    ensures { RisesBy taken.old taken.new count }
{
    *taken = taken.saturating_add(count as u64);
}
