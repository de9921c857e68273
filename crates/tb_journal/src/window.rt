//! A window on a disk, through which a journal is read in large pieces.
ghost use Rattle.std.specs.Prelude.{◌≡◌, ◌↔◌, ◌-◌, ◌+◌, ◌<◌, ◌≤◌, [], ℕ, length, take, drop, OnOk, OnErr, IfSome, IsTrue};
ghost use Rattle.tb_disk.specs.Past.{contents_of};
ghost use Rattle.tb_disk.specs.Disks.{DiskState};
ghost use Rattle.tb_link.specs.Counts.{Rose, NeverFalls};
ghost use Rattle.tb_journal.specs.Windows.{Shows, AreAt};

use std::marker::Model;
use tb_disk::Disk;
use tb_link::Failed;

// Two frames of the longest payload almost: a head isn't read by a call of its own.
const ROOM: usize = 65_536;

/// Bytes of a disk from a place on, and among them the payload that was read last.
#[derive(Drop)]
pub struct Window {
    bytes: [u8; 65536],
    from: u64,
    filled: usize,
    start: usize,
    size: usize,
}

impl Model for Window {
    ghost use Rattle.std.specs.Prelude.{◌≤◌, ◌+◌, take, drop};
    ghost use Rattle.tb_journal.specs.Windows.{WindowView};

    ghost Value = { WindowView };

    ghost view = { λ w. record {
      from = w.from;
      bytes = take w.filled w.bytes;
      payload = take w.size (drop w.start w.bytes);
    } };

    ghost invariant = { λ w. (w.filled ≤ 65536) × (w.start + w.size ≤ 65536) };
}

impl Window {
    /// A window without bytes yet: as far as it goes, it shows every disk.
    pub fn new() -> Window
        ensures shows { (disk : DiskState) → Shows disk result }
        ensures none { result.payload ≡ [] }
    {
        Window {
            bytes: [0; ROOM],
            from: 0,
            filled: 0,
            start: 0,
            size: 0,
        }
    }

    /// The payload that was read last.
    pub fn payload(&self) -> &[u8]
        ensures { result.now ≡ self.now.payload }
    {
        &self.bytes[self.start..self.start + self.size]
    }

    // Whether so many bytes from the place on are in the window.
    fn holds(&self, place: u64, need: usize) -> bool
        requires need { need ≤ 65536 }
        ensures { IsTrue result ↔ ((self.now.from ≤ place) × (place - self.now.from + need ≤ length self.now.bytes)) }
    {
        place >= self.from
            && need <= self.filled
            && place - self.from <= (self.filled - need) as u64
    }

    /// Reads from the place on, where the window lacks so many bytes from there.
    pub(crate) fn fill<D: Disk>(
        &mut self,
        disk: &mut D,
        place: u64,
        need: usize,
    ) -> Result<(), Failed>
        requires need { need ≤ 65536 }
        requires shows { Shows (D.disk disk.old) self.old }
        ensures shows { Shows (D.disk disk.new) self.new }
        ensures begins { OnOk result ((self.new.from ≤ place) × (place - self.new.from ≤ length self.new.bytes)) }
        ensures bytes { OnOk result (IfSome (D.disk disk.old).past (λ past. AreAt place need
            (take need (drop (place - self.new.from) self.new.bytes)) (contents_of past))) }
        ensures kept { (D.disk disk.new).past ≡ (D.disk disk.old).past }
        ensures fault { OnErr result (Rose (D.disk disk.old).faults (D.disk disk.new).faults) }
        ensures no_fault { OnOk result ((D.disk disk.new).faults ≡ (D.disk disk.old).faults) }
        ensures count { NeverFalls (D.disk disk.old).faults (D.disk disk.new).faults }
    {
        if self.holds(place, need) {
            return Ok(());
        }
        // A read that fails may leave anything.
        self.filled = 0;
        self.filled = disk.read(place, &mut self.bytes)?;
        self.from = place;
        Ok(())
    }

    /// So many bytes from the place on, or what the window has of them.
    pub(crate) fn bytes_at(&self, place: u64, need: usize) -> &[u8]
        requires begins { (self.now.from ≤ place) × (place - self.now.from ≤ length self.now.bytes) }
        ensures bytes { result.now ≡ take need (drop (place - self.now.from) self.now.bytes) }
    {
        let at = (place - self.from) as usize;
        let count = need.min(self.filled - at);
        &self.bytes[at..at + count]
    }

    /// Takes so many bytes from the place on as the payload, where the window has them.
    pub(crate) fn take_payload(&mut self, place: u64, size: usize) -> bool
        requires begins { self.old.from ≤ place }
        requires size { size ≤ 65536 }
        ensures taken { IsTrue result ↔ (place - self.old.from + size ≤ length self.old.bytes) }
        ensures payload { IsTrue result → self.new.payload ≡ take size (drop (place - self.old.from) self.old.bytes) }
        ensures bytes { (self.new.from ≡ self.old.from) × (self.new.bytes ≡ self.old.bytes) }
    {
        if !self.holds(place, size) {
            return false;
        }
        self.start = (place - self.from) as usize;
        self.size = size;
        true
    }

    /// Reads so many bytes from the place on, or what the disk has of them, and takes them as the payload.
    pub(crate) fn read_payload<D: Disk>(
        &mut self,
        disk: &mut D,
        place: u64,
        need: usize,
    ) -> Result<(), Failed>
        requires need { need ≤ 65536 }
        requires shows { Shows (D.disk disk.old) self.old }
        ensures shows { Shows (D.disk disk.new) self.new }
        ensures payload { OnOk result (IfSome (D.disk disk.old).past
            (λ past. AreAt place need self.new.payload (contents_of past))) }
        ensures kept { (D.disk disk.new).past ≡ (D.disk disk.old).past }
        ensures fault { OnErr result (Rose (D.disk disk.old).faults (D.disk disk.new).faults) }
        ensures no_fault { OnOk result ((D.disk disk.new).faults ≡ (D.disk disk.old).faults) }
        ensures count { NeverFalls (D.disk disk.old).faults (D.disk disk.new).faults }
    {
        self.fill(disk, place, need)?;
        let count = self.bytes_at(place, need).len();
        let _ = self.take_payload(place, count);
        Ok(())
    }

    /// No payload was read.
    pub(crate) fn take_none(&mut self)
        ensures none { self.new.payload ≡ [] }
        ensures bytes { (self.new.from ≡ self.old.from) × (self.new.bytes ≡ self.old.bytes) }
    {
        self.size = 0;
    }
}
