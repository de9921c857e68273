//! A journal that is written anew.
ghost use Rattle.std.specs.Prelude.{◌≡◌, ◌+◌, ◌<◌, ◌≤◌, ◌^◌, length, OnOk, OnErr, IfOk, IfErr, IfSome};
ghost use Rattle.tb_link.specs.Counts.{Rose, NeverFalls};
ghost use Rattle.tb_journal.specs.Journal.{Told};
ghost use Rattle.tb_journal.specs.Frames.{IsPayload};
ghost use Rattle.tb_journal.specs.Writing.{start, behind, IsWriting, Begins, FailsToBegin, Adds, AddsInPart, Seals, SealsInPart};

use crate::fault::DiskFault;
use crate::writer_steps::{FIRST_GATE, FRAME_HEAD, add, begin, finish};
use tb_disk::Disk;
use tb_link::Failed;

/// A journal that is written over whatever a disk held. Until it is sealed no payload is found on the disk. After a
/// fault the writer is given up.
#[derive(Drop)]
pub struct Writer<'d, D: Disk> {
    /// The disk that is written.
    pub disk: &'d mut D,
    /// Where the next frame will stand.
    pub place: u64,
    /// How many frames are written.
    pub ordinal: u64,
}

impl<'d, D: Disk> Writer<'d, D> {
    /// Begins a journal without a payload, and hands the disk back where it fails.
    pub fn begin(disk: &'d mut D) -> Result<Writer<'d, D>, (&'d mut D, DiskFault)>
        ensures same_reference { IfOk result (λ writer. writer.disk.ghost_name ≡ disk.entry.ghost_name) }
        ensures begins { IfOk result (λ writer. Told (D.disk disk.old) (D.disk writer.disk.now) Begins) }
        ensures start { IfOk result (λ writer. (writer.place ≡ start) × (writer.ordinal ≡ 0)) }
        ensures no_fault { IfOk result (λ writer. (D.disk writer.disk.now).faults ≡ (D.disk disk.old).faults) }
        ensures handed_back { IfErr result (λ refused. refused.0.ghost_name ≡ disk.entry.ghost_name) }
        ensures fails { IfErr result (λ refused. FailsToBegin (D.disk disk.old) (D.disk refused.0.now)) }
    {
        match begin(disk) {
            Ok(()) => Ok(Writer {
                disk,
                place: FIRST_GATE,
                ordinal: 0,
            }),
            Err(Failed) => Err((disk, DiskFault)),
        }
    }

    /// Writes a payload of 1 to 32,768 bytes behind those before it. The end, with a closed gate behind, is below 2^42.
    pub fn add(&mut self, payload: &[u8]) -> Result<(), DiskFault>
        requires writing { IfSome (D.disk self.old.disk.now).past (IsWriting self.old.place self.old.ordinal) }
        requires size { IsPayload payload.now }
        requires end { behind self.old.place payload.now + 1 < 2 ^ 42 }
        requires count { self.old.ordinal ≤ self.old.place }
        ensures same_reference { self.new.disk.ghost_name ≡ self.old.disk.ghost_name }
        ensures adds { OnOk result (Told (D.disk self.old.disk.now) (D.disk self.new.disk.now)
            (Adds payload.now self.old.ordinal self.old.place)) }
        ensures next { OnOk result ((self.new.place ≡ behind self.old.place payload.now)
            × (self.new.ordinal ≡ self.old.ordinal + 1)) }
        ensures in_part { OnErr result (Told (D.disk self.old.disk.now) (D.disk self.new.disk.now)
            (AddsInPart self.old.place)) }
        ensures fault { OnErr result (Rose (D.disk self.old.disk.now).faults (D.disk self.new.disk.now).faults) }
        ensures no_fault { OnOk result ((D.disk self.new.disk.now).faults ≡ (D.disk self.old.disk.now).faults) }
        ensures count { NeverFalls (D.disk self.old.disk.now).faults (D.disk self.new.disk.now).faults }
    {
        match add(self.disk, self.place, self.ordinal, payload) {
            Ok(()) => {
                self.place += FRAME_HEAD + payload.len() as u64;
                self.ordinal += 1;
                Ok(())
            }
            Err(Failed) => Err(DiskFault),
        }
    }

    /// Puts the payloads on the disk, and seals them.
    pub fn seal(self) -> Result<(), DiskFault>
        requires writing { IfSome (D.disk self.disk.now).past (IsWriting self.place self.ordinal) }
        requires end { self.place + 1 < 2 ^ 42 }
        ensures seals { OnOk result (Told (D.disk self.entry.disk.now) (D.disk self.exit.0.now)
            (Seals self.entry.place)) }
        ensures in_part { OnErr result (Told (D.disk self.entry.disk.now) (D.disk self.exit.0.now)
            (SealsInPart self.entry.place)) }
        ensures fault { OnErr result (Rose (D.disk self.entry.disk.now).faults (D.disk self.exit.0.now).faults) }
        ensures no_fault { OnOk result ((D.disk self.exit.0.now).faults ≡ (D.disk self.entry.disk.now).faults) }
        ensures count { NeverFalls (D.disk self.entry.disk.now).faults (D.disk self.exit.0.now).faults }
    {
        let Writer {
            disk,
            place,
            ordinal: _,
        } = self;
        match finish(disk, place) {
            Ok(()) => Ok(()),
            Err(Failed) => Err(DiskFault),
        }
    }
}
