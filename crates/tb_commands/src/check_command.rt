//! The command `check`.
ghost use Rattle.std.specs.Prelude.{◌≡◌, ◌∷◌, ◌++◌, [], codes, Some, IfSome};
ghost use Rattle.tb_units.specs.Bytes.{line_feed};
ghost use Rattle.tb_link.specs.Sources.{SourceState};
ghost use Rattle.tb_disk.specs.Past.{contents_of};
ghost use Rattle.tb_desk.specs.Desks.{IsRead};
ghost use Rattle.tb_desk.specs.declared.fault.OpenFault.{OpenFault};
ghost use Rattle.tb_commands.specs.CheckRun.{CauseOf, CheckEnds, TellsRemains, Writes};
ghost use Rattle.tb_commands.specs.Endings.{IsUnopened, of_check, of_disk};

use crate::command_endings::{CheckEnding, DiskEnding};
use std::alloc::Global;
use tb_desk::{Desk, Remains};
use tb_disk::Disk;
use tb_journal::DiskFault;
use tb_link::Sink;

/// Tells what remains in the journal behind its last group, in one write, and hands the disk back: a line where an
/// append may have left that, and an ending of its own where none did. It reads no input and adds nothing to the
/// history.
pub fn check<D: Disk, O: Sink>(alloc: Global, out: &mut O, disk: D) -> (DiskEnding<CheckEnding>, D)
    ensures ends { (input : SourceState) → CheckEnds result.0 input input
        (record { out = O.sink out.old; disk = D.disk disk })
        (record { out = O.sink out.new; disk = D.disk result.1 }) }
    // Where the disk failed, or no desk was opened, nothing was written.
    ensures unbegun { IsUnopened (of_disk of_check result.0) → O.sink out.new ≡ O.sink out.old }
{
    match Desk::open(alloc, disk) {
        Ok(mut desk) => {
            let ending = tell_remains(&mut desk, out);
            (DiskEnding::Opened(ending), desk.into_disk())
        }
        Err((disk, fault)) => (DiskEnding::Unopened(fault), disk),
    }
}

fn tell_remains<D: Disk, O: Sink>(desk: &mut Desk<D>, out: &mut O) -> CheckEnding
    requires sure { desk.old.doubt ≡ [] }
    ensures told { IfSome (D.disk desk.old.disk).past
        (λ past. TellsRemains (contents_of past) result (O.sink out.old) (O.sink out.new)) }
    ensures cause { CauseOf result
        (record { out = O.sink out.old; disk = D.disk desk.old.disk })
        (record { out = O.sink out.new; disk = D.disk desk.new.disk }) }
    ensures read { IsRead desk.old desk.new }
    ensures kept { (D.disk desk.new.disk).past ≡ (D.disk desk.old.disk).past }
{
    match desk.remains() {
        Ok(Remains::Nothing) => write_line(b"nothing\n", out),
        Ok(Remains::TornAppend) => write_line(b"a torn append\n", out),
        Ok(Remains::Damage(place)) => CheckEnding::DamagedBehind(place),
        Err(DiskFault) => CheckEnding::DiskFault,
    }
}

fn write_line<O: Sink>(line: &[u8], out: &mut O) -> CheckEnding
    ensures { Writes line.now result (O.sink out.old) (O.sink out.new) }
{
    match out.write(line) {
        Ok(()) => CheckEnding::Done,
        Err(_) => CheckEnding::WriteFault,
    }
}
