//! A disk without a file.
ghost use Rattle.std.specs.Prelude.{◌≡◌, ◌+◌, ◌^◌, ◌<◌, length, OnErr, IsErr};
ghost use Rattle.tb_link.specs.Counts.{counted};
ghost use Rattle.tb_disk.specs.Disks.{Fails, FailsToWrite, FailsToCut, Reaches};

use crate::disk::Disk;
use tb_link::{Failed, Faults};

/// The disk that a command is handed which uses none. Each call fails, as one fault that is counted.
#[derive(Drop)]
pub struct NoDisk {
    faults: Faults,
}

impl NoDisk {
    /// It has had no fault.
    pub fn new() -> NoDisk
        ensures { result.faults.count ≡ 0 }
    {
        NoDisk {
            faults: Faults::none(),
        }
    }
}

impl Disk for NoDisk {
    ghost use Rattle.tb_disk.specs.Files.{no_disk};

    ghost disk = { no_disk };

    fn len(&mut self) -> Result<u64, Failed>
        ensures always { IsErr result }
        ensures fails { OnErr result (Fails (no_disk self.old) (no_disk self.new)) }
        ensures one_fault { self.new.faults.count ≡ counted self.old.faults.count }
    {
        Err(self.faults.rise())
    }

    fn read(&mut self, _place: u64, _into: &mut [u8]) -> Result<usize, Failed>
        ensures always { IsErr result }
        ensures fails { OnErr result (Fails (no_disk self.old) (no_disk self.new)) }
        ensures one_fault { self.new.faults.count ≡ counted self.old.faults.count }
    {
        Err(self.faults.rise())
    }

    fn write_at(&mut self, place: u64, bytes: &[u8]) -> Result<(), Failed>
        requires place { Reaches (no_disk self.old) place }
        requires end { place + length bytes.now < 2 ^ 42 }
        ensures always { IsErr result }
        ensures fails { OnErr result (FailsToWrite place (length bytes.now) (no_disk self.old) (no_disk self.new)) }
        ensures one_fault { self.new.faults.count ≡ counted self.old.faults.count }
    {
        Err(self.faults.rise())
    }

    fn cut(&mut self, len: u64) -> Result<(), Failed>
        requires { Reaches (no_disk self.old) len }
        ensures always { IsErr result }
        ensures fails { OnErr result (FailsToCut len (no_disk self.old) (no_disk self.new)) }
        ensures one_fault { self.new.faults.count ≡ counted self.old.faults.count }
    {
        Err(self.faults.rise())
    }

    fn sync(&mut self) -> Result<(), Failed>
        ensures always { IsErr result }
        ensures fails { OnErr result (Fails (no_disk self.old) (no_disk self.new)) }
        ensures one_fault { self.new.faults.count ≡ counted self.old.faults.count }
    {
        Err(self.faults.rise())
    }

    ghost bounded = { λ self. self.faults.bounded };
}
