//! What a disk promises.
ghost use Rattle.std.specs.Prelude.{◌+◌, ◌^◌, ◌<◌, ◌≤◌, length, IfOk, OnOk, OnErr};
ghost use Rattle.tb_link.specs.Counts.{last_count};
ghost use Rattle.tb_disk.specs.Steps.{Wrote, CutTo, Synced};
ghost use Rattle.tb_disk.specs.Disks.{DiskState, Takes, LeavesDisk, Fails, FailsToWrite, FailsToCut, HasLength, Reaches, Gives};

use tb_link::Failed;

/// A file that may fail, and of which a crash may leave less, more or other bytes than were written.
///
/// A disk that tells what has happened to it tells its contents, what a crash now may leave, the moment, and what a
/// crash since an earlier moment might have left: `contents_of`, `MayLeave`, `moment_of` and `LeftSince` of its past.
pub trait Disk {
    /// What has happened to it, where it tells that, and its count of faults.
    ghost disk: { Self → DiskState };

    /// How many bytes it has.
    fn len(&mut self) -> Result<u64, Failed>
        ensures length { IfOk result (λ n. HasLength (disk self.old) n) }
        ensures same { OnOk result (LeavesDisk (disk self.old) (disk self.new)) }
        ensures fails { OnErr result (Fails (disk self.old) (disk self.new)) };

    /// Reads as many bytes as fit and exist.
    fn read(&mut self, place: u64, into: &mut [u8]) -> Result<usize, Failed>
        ensures gives { IfOk result (λ n. Gives (disk self.old) place into.old into.new n) }
        ensures same { OnOk result (LeavesDisk (disk self.old) (disk self.new)) }
        ensures fails { OnErr result (Fails (disk self.old) (disk self.new)) };

    /// Writes over what is there, and past the end.
    fn write_at(&mut self, place: u64, bytes: &[u8]) -> Result<(), Failed>
        requires place { Reaches (disk self.old) place }
        requires end { place + length bytes.now < 2 ^ 42 }
        ensures writes { OnOk result (Takes (Wrote place bytes.now) (disk self.old) (disk self.new)) }
        ensures fails { OnErr result (FailsToWrite place (length bytes.now) (disk self.old) (disk self.new)) };

    /// Cuts it to `len` bytes.
    fn cut(&mut self, len: u64) -> Result<(), Failed>
        requires { Reaches (disk self.old) len }
        ensures cuts { OnOk result (Takes (CutTo len) (disk self.old) (disk self.new)) }
        ensures fails { OnErr result (FailsToCut len (disk self.old) (disk self.new)) };

    /// Puts everything on the disk: from then on a crash leaves what a read gives, until the next write or cut.
    fn sync(&mut self) -> Result<(), Failed>
        ensures syncs { OnOk result (Takes Synced (disk self.old) (disk self.new)) }
        ensures fails { OnErr result (Fails (disk self.old) (disk self.new)) };

    /// The count of faults is at most its last value.
    ghost bounded: { (self : Self) → (disk self).faults ≤ last_count };
}
