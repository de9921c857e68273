//! Sinks of bytes.
ghost use Rattle.std.specs.Prelude.{◌≤◌, OnOk, OnErr};
ghost use Rattle.tb_link.specs.Counts.{last_count};
ghost use Rattle.tb_link.specs.Sinks.{SinkState, Takes, FailsToTake};
ghost use Rattle.tb_link.specs.Sources.{SourceState, LeavesSource, no_source};

use crate::source::Failed;

/// Where bytes go.
pub trait Sink {
    /// The bytes taken, where it tells them, and its count of faults.
    ghost sink: { Self → SinkState };

    /// Where it is a source too, what a write leaves of the source.
    ghost source_beside: { Self → SourceState } = { λ _. no_source };

    /// Writes the whole piece. Where it fails, a prefix of the piece was taken.
    fn write(&mut self, bytes: &[u8]) -> Result<(), Failed>
        ensures takes { OnOk result (Takes (sink self.old) (sink self.new) bytes.now) }
        ensures fails { OnErr result (FailsToTake (sink self.old) (sink self.new) bytes.now) }
        ensures beside { LeavesSource (source_beside self.old) (source_beside self.new) };

    /// The count of faults is at most its last value.
    ghost bounded: { (self : Self) → (sink self).faults ≤ last_count };
}
