//! Counts of faults.
ghost use Rattle.std.specs.Prelude.{◌≡◌, ◌≤◌};
ghost use Rattle.tb_link.specs.Counts.{last_count, counted};

use crate::source::Failed;

/// How many faults an object has had, up to 2^64 - 1, where the count stands still.
#[derive(Clone, Copy, Debug, PartialEq, Eq)]
pub struct Faults {
    count: u64,
    ghost bounded: { count ≤ last_count },
}

impl Faults {
    /// No fault so far.
    pub fn none() -> Faults
        ensures { result.count ≡ 0 }
    {
        Faults { count: 0 }
    }

    /// Counts one fault more, and gives what to answer.
    pub fn rise(&mut self) -> Failed
        ensures { self.new.count ≡ counted self.old.count }
    {
        self.count = self.count.saturating_add(1);
        Failed
    }
}
