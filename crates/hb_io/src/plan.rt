//! Which calls of an object in memory fail, and the counts of calls and faults.
ghost use Rattle.std.specs.Prelude.{◌≡◌, ◌≤◌, ◌↔◌, IsTrue};
ghost use Rattle.hb_io.specs.Faults.{next_count, FailsNext};

use crate::Failed;

/// The numbers, from 1, of the calls that fail, and the counts of calls and faults.
#[derive(Drop)]
pub(crate) struct Plan {
    pub(crate) failing: Vec<u64>,
    pub(crate) calls: u64,
    pub(crate) faults: u64,
}

impl Plan {
    pub(crate) fn new(failing: Vec<u64>) -> Self
        ensures { result ≡ record { failing = failing; calls = 0; faults = 0 } }
    {
        Plan {
            failing,
            calls: 0,
            faults: 0,
        }
    }

    /// Counts a call, and says whether it is to fail.
    pub(crate) fn fails_next(&mut self) -> bool
        ensures listed { IsTrue result ↔ FailsNext self.old.failing.items self.old.calls }
        ensures after { self.new ≡ record self.old { calls = next_count self.old.calls } }
    {
        self.calls = self.calls.saturating_add(1);
        self.failing.contains(&self.calls)
    }
}

/// Counts a fault, and gives the error of it.
pub(crate) fn fault(faults: &mut u64) -> Failed
    ensures after { faults.new ≡ next_count faults.old }
    ensures counted { faults.old ≤ faults.new }
{
    *faults = faults.saturating_add(1);
    Failed
}
