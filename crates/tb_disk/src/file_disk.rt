//! A real file as a disk, which tells nothing.
ghost use Rattle.std.specs.Prelude.{◌≡◌, ◌+◌, ◌-◌, ◌^◌, ◌<◌, ◌≤◌, ◌↔◌, length, Ok, IfOk, OnOk, OnErr, IsErr};
ghost use Rattle.tb_link.specs.Counts.{counted};
ghost use Rattle.tb_disk.specs.Steps.{Wrote, CutTo, Synced};
ghost use Rattle.tb_disk.specs.Disks.{Takes, LeavesDisk, Fails, FailsToWrite, FailsToCut, HasLength, Reaches, Gives};

use crate::disk::Disk;
use crate::name::Name;
use crate::system_file::SystemFile;
use std::fs::File;
use std::io;
use tb_link::{Failed, Faults};

/// What the last sync of a file came to.
#[derive(Clone, Copy, Debug, PartialEq, Eq)]
pub enum LastSync {
    /// It succeeded, or there was none yet.
    Succeeded,
    /// There was none yet, and the device didn't take what memory had of the file: the first one fails.
    Owed,
    /// It failed.
    Failed,
}

/// A file of the system. After a sync has failed none succeeds but one that opened the file anew: a system may drop
/// what it couldn't write, or keep it in memory as if it were written, and let the next sync succeed.
#[derive(Drop)]
pub struct FileDisk {
    file: SystemFile,
    faults: Faults,
    last_sync: LastSync,
}

impl FileDisk {
    ghost use Rattle.tb_disk.specs.Files.{HasNoName};

    /// A disk on the file, which is open for reading and writing. It has had no fault. What memory has of the file is
    /// put on the device and dropped; where the device doesn't take it the first sync fails, with which each opening of
    /// a journal begins. After a sync has failed each later one fails too.
    pub fn new(file: File) -> FileDisk
        ensures no_fault { result.faults.count ≡ 0 }
        ensures nameless { HasNoName result }
    {
        FileDisk::made(file, None)
    }

    /// The same on a file with a name in the current folder. Behind a sync that failed the next one opens the file anew
    /// by it. Each write that makes the file longer, and each sync of one that isn't longer than at the last sync, fails
    /// where the name leads to no file or to another one, or to one that is shorter than its calls left it; whether it
    /// does is looked at once a millisecond at most.
    pub fn named(rt: HostRuntime, name: &'static str, file: File) -> FileDisk
        ensures { result.faults.count ≡ 0 }
    {
        let name = match file.metadata() {
            Ok(found) => Some(Name::new(rt, name, &found)),
            Err(_) => None,
        };
        FileDisk::made(file, name)
    }

    fn made(file: File, name: Option<Name>) -> FileDisk
        ensures no_fault { result.faults.count ≡ 0 }
        ensures name { result.file.name ≡ name }
    {
        let (file, settled) = SystemFile::new(file, name);
        FileDisk {
            file,
            faults: Faults::none(),
            last_sync: match settled {
                Ok(()) => LastSync::Succeeded,
                Err(_) => LastSync::Owed,
            },
        }
    }

    // What the file answered. An error of it is one fault more.
    fn told<T>(&mut self, given: io::Result<T>) -> Result<T, Failed>
        ensures failed { IsErr result ↔ IsErr given }
        ensures value { IfOk result (λ value. given ≡ Ok value) }
        ensures no_fault { OnOk result (self.new.faults ≡ self.old.faults) }
        ensures one_fault { OnErr result (self.new.faults.count ≡ counted self.old.faults.count) }
        ensures kept { (self.new.last_sync ≡ self.old.last_sync) × (self.new.file ≡ self.old.file) }
    {
        match given {
            Ok(value) => Ok(value),
            Err(_) => Err(self.faults.rise()),
        }
    }
}

impl Disk for FileDisk {
    ghost use Rattle.tb_disk.specs.Files.{file_disk, KeepsSync, HasFailed, HasNoName, IsOwed, IsOpenedAnew};

    ghost disk = { file_disk };

    fn len(&mut self) -> Result<u64, Failed>
        ensures length { IfOk result (λ n. HasLength (file_disk self.old) n) }
        ensures same { OnOk result (LeavesDisk (file_disk self.old) (file_disk self.new)) }
        ensures fails { OnErr result (Fails (file_disk self.old) (file_disk self.new)) }
        ensures one_fault { OnErr result (self.new.faults.count ≡ counted self.old.faults.count) }
        ensures kept { KeepsSync self.old self.new }
    {
        let len = self.file.len();
        self.told(len)
    }

    fn read(&mut self, place: u64, into: &mut [u8]) -> Result<usize, Failed>
        ensures gives { IfOk result (λ n. Gives (file_disk self.old) place into.old into.new n) }
        ensures same { OnOk result (LeavesDisk (file_disk self.old) (file_disk self.new)) }
        ensures fails { OnErr result (Fails (file_disk self.old) (file_disk self.new)) }
        ensures one_fault { OnErr result (self.new.faults.count ≡ counted self.old.faults.count) }
        ensures kept { KeepsSync self.old self.new }
    {
        let count = self.file.read(place, into);
        self.told(count)
    }

    fn write_at(&mut self, place: u64, bytes: &[u8]) -> Result<(), Failed>
        requires place { Reaches (file_disk self.old) place }
        requires end { place + length bytes.now < 2 ^ 42 }
        ensures writes { OnOk result (Takes (Wrote place bytes.now) (file_disk self.old) (file_disk self.new)) }
        ensures fails { OnErr result (FailsToWrite place (length bytes.now) (file_disk self.old) (file_disk self.new)) }
        ensures one_fault { OnErr result (self.new.faults.count ≡ counted self.old.faults.count) }
        ensures kept { KeepsSync self.old self.new }
    {
        let written = self.file.write_at(place, bytes);
        self.told(written)
    }

    fn cut(&mut self, len: u64) -> Result<(), Failed>
        requires { Reaches (file_disk self.old) len }
        ensures cuts { OnOk result (Takes (CutTo len) (file_disk self.old) (file_disk self.new)) }
        ensures fails { OnErr result (FailsToCut len (file_disk self.old) (file_disk self.new)) }
        ensures one_fault { OnErr result (self.new.faults.count ≡ counted self.old.faults.count) }
        ensures kept { KeepsSync self.old self.new }
    {
        let cut = self.file.cut(len);
        self.told(cut)
    }

    fn sync(&mut self) -> Result<(), Failed>
        ensures syncs { OnOk result (Takes Synced (file_disk self.old) (file_disk self.new)) }
        ensures fails { OnErr result (Fails (file_disk self.old) (file_disk self.new)) }
        ensures one_fault { OnErr result (self.new.faults.count ≡ counted self.old.faults.count) }
        // Once one has failed, none succeeds that didn't open the file anew.
        ensures stays_failed { HasFailed self.old → OnOk result (IsOpenedAnew self.old self.new) }
        // A file without a name isn't opened anew.
        ensures nameless { HasFailed self.old → HasNoName self.old → IsErr result }
        // What the device didn't take at first is told by the first sync.
        ensures owed { IsOwed self.old → IsErr result }
        ensures noted { IsErr result ↔ HasFailed self.new }
    {
        let synced = match self.last_sync {
            LastSync::Succeeded => self.file.sync(),
            LastSync::Owed => Err(io::ErrorKind::Other.into()),
            LastSync::Failed => self.file.open_anew(),
        };
        self.last_sync = match &synced {
            Ok(()) => LastSync::Succeeded,
            Err(_) => LastSync::Failed,
        };
        self.told(synced)
    }

    ghost bounded = { λ self. self.faults.bounded };
}
