//! Published auctions are filed, and it is told what the register has then.
ghost use Rattle.std.specs.Prelude.{◌≡◌, Option, IfOk, IfErr, IfSome, IsTrue, map};
ghost use Rattle.tb_link.specs.Counts.{Rose};
ghost use Rattle.tb_register.specs.Rows.{kept};
ghost use Rattle.tb_register.specs.declared.keeper.KeeperFault.TheVariants as fault;
ghost use Rattle.tb_filing.specs.Filing.{LacksMemory};
ghost use Rattle.tb_filing.specs.Telling.{TellingEnds, told_rows};

use crate::filing::{FilingFault, file_published};
use crate::texts::register_text;
use std::alloc::Global;
use tb_desk::Desk;
use tb_disk::Disk;
use tb_register::{Keeper, KeeperFault, Row};
use tb_terms::Cusip;

/// Files the published auctions, and answers the text of what was added and what was there, with the rows of a bill
/// where one is named.
pub fn file_and_tell<D: Disk, K: Keeper>(
    alloc: Global,
    desk: &Desk<D>,
    bill: &Option<Cusip>,
    keeper: &mut K,
) -> Result<Vec<u8>, FilingFault>
    ensures ends { TellingEnds bill.now desk.now.host.history result (K.keeper keeper.old) (K.keeper keeper.new) }
    ensures lacked { IsTrue K.counts_failures
        → IfErr result (LacksMemory (K.keeper keeper.old) (K.keeper keeper.new)) }
{
    let tally = file_published(alloc, desk, keeper)?;
    let rows = rows_of(alloc, bill, keeper)?;
    Ok(register_text(alloc, tally, &rows)?)
}

// The rows of a bill, or none where no bill is named.
fn rows_of<K: Keeper>(
    alloc: Global,
    bill: &Option<Cusip>,
    keeper: &mut K,
) -> Result<Vec<Row>, KeeperFault>
    ensures rows { IfOk result (λ rows. IfSome (K.keeper keeper.old).table
        (λ table. map kept rows.items ≡ told_rows bill.now table)) }
    ensures table { (K.keeper keeper.new).table ≡ (K.keeper keeper.old).table }
    ensures no_fault { IfOk result (λ rows. (K.keeper keeper.new).faults ≡ (K.keeper keeper.old).faults) }
    ensures rose { IfErr result (λ why. why ≡ fault.Failed
        → Rose (K.keeper keeper.old).faults (K.keeper keeper.new).faults) }
    ensures lacked { IsTrue K.counts_failures → IfErr result (λ why. why ≡ fault.OutOfMemory
        → (K.keeper keeper.new).faults ≡ (K.keeper keeper.old).faults) }
{
    match bill {
        Some(bill) => keeper.of_cusip(bill),
        None => Ok(Vec::new(alloc)),
    }
}
