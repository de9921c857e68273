//! Where links come from.
ghost use Rattle.std.specs.Prelude.{◌≡◌, ◌≤◌, IfOk, OnErr};
ghost use Rattle.tb_link.specs.Counts.{last_count};
ghost use Rattle.tb_gates.specs.Gates.{GateState, NextLink, FailsToOpen, TakesBack, MayTakeBack, HandsBackFewer, most_links};

use crate::link::Link;
use tb_link::Failed;

/// Gives links one after the other, at most 1,000,000, and takes them back.
pub trait Gate {
    type Conn: Link + Send;

    /// The links that it will still give and those handed back, where it tells them, how many it gave, and its count of
    /// faults.
    ghost gate: { Self → GateState Self.Conn };

    /// The next link, `None` exactly where no link is left. A fault is counted exactly where one is answered.
    fn next(&mut self) -> Result<Option<Self::Conn>, Failed>
        ensures gives { IfOk result (NextLink (gate self.old) (gate self.new)) }
        ensures fails { OnErr result (FailsToOpen (gate self.old) (gate self.new)) };

    /// Takes a link back.
    fn done(&mut self, conn: Self::Conn)
        requires { MayTakeBack (gate self.old) }
        ensures takes { TakesBack (gate self.old) (gate self.new) conn };

    /// The count of faults is at most its last value.
    ghost bounded: { (self : Self) → (gate self).faults ≤ last_count };

    /// Where it tells its links, no more of them were handed back than given.
    ghost fewer: { (self : Self) → HandsBackFewer (gate self) };

    /// No gate has given more links than it may.
    ghost few: { (self : Self) → (gate self).given ≤ most_links };
}
