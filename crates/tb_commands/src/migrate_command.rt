//! The command `migrate`.
ghost use Rattle.std.specs.Prelude.{◌≡◌};
ghost use Rattle.tb_commands.specs.MigrateRun.{MigrateEnds};
ghost use Rattle.tb_desk.specs.declared.fault.MigrateFault.{MigrateFault};
ghost use Rattle.tb_commands.specs.declared.command_endings.MigrateEnding.TheVariants as ending;

use crate::command_endings::MigrateEnding;
use crate::number_line::tell_count;
use std::alloc::Global;
use tb_disk::Disk;
use tb_link::Sink;

/// Writes the journal of the first version that the disk holds into the spare, and prints how many entries it has. The
/// disk is only read, and handed back. Nothing is printed before the spare is sealed.
pub fn migrate<D: Disk, O: Sink>(
    alloc: Global,
    out: &mut O,
    mut disk: D,
    spare: &mut D,
) -> (MigrateEnding, D)
    ensures ends { MigrateEnds result.0
        (record { out = O.sink out.old; disk = D.disk disk; spare = D.disk spare.old })
        (record { out = O.sink out.new; disk = D.disk result.1; spare = D.disk spare.new }) }
    // Where no disk was opened nothing was written.
    ensures silent { (why : MigrateFault) → result.0 ≡ ending.Unmigrated why → out.new ≡ out.old }
{
    let ending = match tb_desk::migrate(alloc, &mut disk, spare) {
        Ok(entries) => match tell_count(b"migrated ", entries, out) {
            Ok(()) => MigrateEnding::Done,
            Err(_) => MigrateEnding::WriteFault,
        },
        Err(fault) => MigrateEnding::Unmigrated(fault),
    };
    (ending, disk)
}
