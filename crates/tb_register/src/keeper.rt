//! What a keeper of the register promises.
ghost use Rattle.std.specs.Prelude.{◌≤◌, Bool, IsTrue, IfOk, IfErr};
ghost use Rattle.tb_link.specs.Counts.{last_count};
ghost use Rattle.tb_register.specs.Keepers.{KeeperState, Puts, Gives, Refuses, LacksMemory, IsInOrder};

use crate::row::Row;
use std::alloc::AllocError;
use tb_link::Failed;
use tb_terms::Cusip;
use tb_units::OutOfMemory;

/// Why a keeper refuses a call.
#[derive(Clone, Copy, Debug, PartialEq, Eq)]
pub enum KeeperFault {
    /// The keeper failed, and its count of faults has risen.
    Failed,
    /// There is no memory for the answer.
    OutOfMemory,
}

impl From<Failed> for KeeperFault {
    ghost use Rattle.std.specs.Prelude.{◌≡◌};
    ghost use Rattle.tb_register.specs.declared.keeper.KeeperFault.TheVariants as fault;

    ghost from_gives = { λ _ e. e ≡ fault.Failed };

    fn from(_: Failed) -> KeeperFault {
        KeeperFault::Failed
    }
}

impl From<AllocError> for KeeperFault {
    ghost use Rattle.std.specs.Prelude.{◌≡◌};
    ghost use Rattle.tb_register.specs.declared.keeper.KeeperFault.TheVariants as fault;

    ghost from_gives = { λ _ e. e ≡ fault.OutOfMemory };

    fn from(_: AllocError) -> KeeperFault {
        KeeperFault::OutOfMemory
    }
}

impl From<OutOfMemory> for KeeperFault {
    ghost use Rattle.std.specs.Prelude.{◌≡◌};
    ghost use Rattle.tb_register.specs.declared.keeper.KeeperFault.TheVariants as fault;

    ghost from_gives = { λ _ e. e ≡ fault.OutOfMemory };

    fn from(_: OutOfMemory) -> KeeperFault {
        KeeperFault::OutOfMemory
    }
}

/// A table of rows, at most one of an auction, in rising byte order of the auctions' names.
pub trait Keeper {
    /// Its table, where it tells that, and its count of faults.
    ghost keeper: { Self → KeeperState };

    /// Whether its count rises only where it answers that it failed.
    ghost counts_failures: { Bool };

    /// Puts a row, where none of its auction is there. Else it answers the row that is there, and the table stays.
    fn put(&mut self, row: &Row) -> Result<Option<Row>, KeeperFault>
        ensures puts { IfOk result (Puts row.now (keeper self.old) (keeper self.new)) }
        ensures refused { IfErr result (Refuses (keeper self.old) (keeper self.new)) }
        ensures lacked { IsTrue counts_failures
            → IfErr result (LacksMemory (keeper self.old).faults (keeper self.new).faults) };

    /// The rows of a bill, in order.
    fn of_cusip(&mut self, cusip: &Cusip) -> Result<Vec<Row>, KeeperFault>
        ensures gives { IfOk result (λ rows. Gives cusip.now.bytes (keeper self.old) (keeper self.new) rows.items) }
        ensures refused { IfErr result (Refuses (keeper self.old) (keeper self.new)) }
        ensures lacked { IsTrue counts_failures
            → IfErr result (LacksMemory (keeper self.old).faults (keeper self.new).faults) };

    /// A table that is told is in order.
    ghost in_order: { (self : Self) → IsInOrder (keeper self) };

    /// The count of faults is at most its last value.
    ghost bounded: { (self : Self) → (keeper self).faults ≤ last_count };
}
