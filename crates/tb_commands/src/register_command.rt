//! The command `register`.
ghost use Rattle.std.specs.Prelude.{◌≡◌, IsTrue};
ghost use Rattle.tb_desk.specs.declared.fault.OpenFault.{OpenFault};
ghost use Rattle.tb_link.specs.Sources.{SourceState};
ghost use Rattle.tb_commands.specs.Endings.{of_disk, of_register};
ghost use Rattle.tb_commands.specs.RegisterRun.{RegisterEnds, Registers, of_filing};
ghost use Rattle.tb_commands.specs.declared.ending.Ending.TheVariants as ending;

use crate::command_endings::{DiskEnding, RegisterEnding};
use std::alloc::Global;
use tb_desk::Desk;
use tb_disk::Disk;
use tb_filing::{FilingFault, file_and_tell};
use tb_link::Sink;
use tb_register::Keeper;
use tb_terms::Cusip;

/// Files the published auctions of the history that the disk stands for in the register, prints how many rows were
/// added and how many were there, with the rows of a bill where one is named, in one write, and hands the disk back. It
/// reads no input and adds nothing to the history.
pub fn register<D: Disk, O: Sink, K: Keeper>(
    alloc: Global,
    bill: &Option<Cusip>,
    out: &mut O,
    disk: D,
    keeper: &mut K,
) -> (DiskEnding<RegisterEnding>, D)
    ensures ends { (input : SourceState) → RegisterEnds bill.now result.0 input input
        (record { out = O.sink out.old; disk = D.disk disk; keeper = K.keeper keeper.old })
        (record { out = O.sink out.new; disk = D.disk result.1; keeper = K.keeper keeper.new }) }
    // The desk was opened before anything was filed or written.
    ensures unbegun { (why : OpenFault) → result.0 ≡ DiskEnding.Unopened why
        → (out.new ≡ out.old) × (keeper.new ≡ keeper.old) }
    // A keeper that failed isn't told as want of memory, where its count rises only as it fails.
    ensures lacked { IsTrue K.counts_failures → of_disk of_register result.0 ≡ ending.OutOfMemory
        → (K.keeper keeper.new).faults ≡ (K.keeper keeper.old).faults }
{
    match Desk::open(alloc, disk) {
        Ok(desk) => {
            let ending = register_on(alloc, &desk, bill, out, keeper);
            (DiskEnding::Opened(ending), desk.into_disk())
        }
        Err((disk, fault)) => (DiskEnding::Unopened(fault), disk),
    }
}

fn register_on<D: Disk, O: Sink, K: Keeper>(
    alloc: Global,
    desk: &Desk<D>,
    bill: &Option<Cusip>,
    out: &mut O,
    keeper: &mut K,
) -> RegisterEnding
    ensures ends { Registers bill.now result desk.now.host.history (O.sink out.old) (O.sink out.new)
        (K.keeper keeper.old) (K.keeper keeper.new) }
    ensures lacked { IsTrue K.counts_failures → of_register result ≡ ending.OutOfMemory
        → (K.keeper keeper.new).faults ≡ (K.keeper keeper.old).faults }
{
    match file_and_tell(alloc, desk, bill, keeper) {
        Ok(text) => match out.write(&text) {
            Ok(()) => RegisterEnding::Done,
            Err(_) => RegisterEnding::WriteFault,
        },
        Err(fault) => unfiled(&fault),
    }
}

fn unfiled(fault: &FilingFault) -> RegisterEnding
    ensures { result ≡ of_filing fault.now }
{
    match fault {
        FilingFault::Differs(auction) => RegisterEnding::Differs(*auction),
        FilingFault::Failed => RegisterEnding::KeeperFault,
        FilingFault::OutOfMemory => RegisterEnding::OutOfMemory,
    }
}
