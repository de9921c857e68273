//! Published auctions are filed: the row of each is put into the register.
ghost use Rattle.std.specs.Prelude.{◌≡◌, ◌+◌, ◌^◌, ◌<◌, IfErr, IsTrue};
ghost use Rattle.tb_register.specs.Rows.{kept};
ghost use Rattle.tb_filing.specs.Filing.{FilingEnds, IsPutAs, LacksMemory, counted};

use crate::results::row_on;
use std::alloc::Global;
use tb_desk::Desk;
use tb_disk::Disk;
use tb_register::{Keeper, KeeperFault, Row};
use tb_units::{Ident, OutOfMemory};

/// Why not all was filed.
#[derive(Clone, Copy, Debug, PartialEq, Eq)]
pub enum FilingFault {
    /// The register has another row of this auction.
    Differs(Ident),
    /// The keeper failed, and its count of faults has risen.
    Failed,
    OutOfMemory,
}

/// How many rows were added to the register, and how many were there.
#[derive(Clone, Copy, Debug, PartialEq, Eq)]
pub struct Tally {
    pub added: u64,
    pub present: u64,
}

impl Tally {
    // With one row more, which was added or was there.
    fn counted(self, added: bool) -> Tally
        requires added { self.added + 1 < 2 ^ 64 }
        requires present { self.present + 1 < 2 ^ 64 }
        ensures { result ≡ counted added self }
    {
        if added {
            Tally {
                added: self.added + 1,
                present: self.present,
            }
        } else {
            Tally {
                added: self.added,
                present: self.present + 1,
            }
        }
    }
}

impl From<KeeperFault> for FilingFault {
    ghost use Rattle.tb_register.specs.declared.keeper.KeeperFault.{KeeperFault};
    ghost use Rattle.tb_filing.specs.Filing.{of_keeper};

    ghost from_gives = { λ fault e. e ≡ of_keeper fault };

    fn from(fault: KeeperFault) -> FilingFault {
        match fault {
            KeeperFault::Failed => FilingFault::Failed,
            KeeperFault::OutOfMemory => FilingFault::OutOfMemory,
        }
    }
}

impl From<OutOfMemory> for FilingFault {
    ghost use Rattle.tb_filing.specs.declared.filing.FilingFault.TheVariants as fault;

    ghost from_gives = { λ _ e. e ≡ fault.OutOfMemory };

    fn from(_: OutOfMemory) -> FilingFault {
        FilingFault::OutOfMemory
    }
}

/// Puts the row of each published auction into the register, in the order in which the auctions were published, up to
/// the first of which another row is there.
pub fn file_published<D: Disk, K: Keeper>(
    alloc: Global,
    desk: &Desk<D>,
    keeper: &mut K,
) -> Result<Tally, FilingFault>
    ensures ends { FilingEnds desk.now.host.history result (K.keeper keeper.old) (K.keeper keeper.new) }
    ensures lacked { IsTrue K.counts_failures
        → IfErr result (LacksMemory (K.keeper keeper.old) (K.keeper keeper.new)) }
{
    // The number of entries, below 2^33, is told with the history: there are no more publications.
    let _ = desk.entries();
    let mut tally = Tally {
        added: 0,
        present: 0,
    };
    let mut place = 0;
    'auctions: loop {
        let Some(auction) = desk.published(place) else {
            return Ok(tally);
        };
        let row = row_on(alloc, desk, &auction)?;
        let added = put(keeper, &row)?;
        tally = tally.counted(added);
        place += 1;
    }
}

// Puts a row, and tells whether it is added; else it was there.
#[tactic(auto, using(crate::proofs::PutLemmas::memory_of))]
fn put<K: Keeper>(keeper: &mut K, row: &Row) -> Result<bool, FilingFault>
    ensures put { IsPutAs (kept row.now) result (K.keeper keeper.old) (K.keeper keeper.new) }
    ensures lacked { IsTrue K.counts_failures
        → IfErr result (LacksMemory (K.keeper keeper.old) (K.keeper keeper.new)) }
{
    match keeper.put(row)? {
        None => Ok(true),
        Some(found) if found == *row => Ok(false),
        Some(_) => Err(FilingFault::Differs(row.auction)),
    }
}
