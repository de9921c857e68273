//! Sources of bytes.
ghost use Rattle.std.specs.Prelude.{◌<◌, ◌≤◌, length, codes, Some, IfOk, OnErr};
ghost use Rattle.tb_link.specs.Counts.{last_count};
ghost use Rattle.tb_link.specs.Sources.{SourceState, Gives, FailsToGive};
ghost use Rattle.tb_link.specs.Sinks.{SinkState, LeavesSink, no_sink};

use std::error::Error;
use std::fmt;

/// An object that was handed in failed, and its count of faults has risen.
#[derive(Clone, Copy, Debug, PartialEq, Eq)]
pub struct Failed;

impl fmt::Display for Failed {
    ghost output = { λ _. Some (codes "a stream or a device failed") };

    fn fmt<W: fmt::Write>(&self, f: &mut fmt::Formatter<W>) -> fmt::Result {
        write!(f, "a stream or a device failed")
    }
}

impl Error for Failed {}

/// Where bytes come from.
pub trait Source {
    /// The bytes left, where it tells them, its count of faults, and how many reads there were.
    ghost source: { Self → SourceState };

    /// Where it is a sink too, what a read leaves of the sink.
    ghost sink_beside: { Self → SinkState } = { λ _. no_sink };

    /// Reads the next bytes, at least one. 0 exactly at the end of the input.
    fn read(&mut self, into: &mut [u8]) -> Result<usize, Failed>
        requires { 0 < length into.old }
        ensures gives { IfOk result (Gives (source self.old) (source self.new) into.new) }
        ensures fails { OnErr result (FailsToGive (source self.old) (source self.new)) }
        ensures beside { LeavesSink (sink_beside self.old) (sink_beside self.new) };

    /// The count of faults is at most its last value.
    ghost bounded: { (self : Self) → (source self).faults ≤ last_count };
}
