//! A disk in memory, which tells all that happened to it.
ghost use Rattle.std.specs.Prelude.{◌≡◌, ◌+◌, ◌-◌, ◌*◌, ◌^◌, ◌<◌, ◌≤◌, ◌↔◌, ◌⊎◌, ◌++◌, [], min, take, drop, length, vec_len, vec_capacity, IfOk, OnOk, OnErr, IsErr, IsTrue, Contains};
ghost use Rattle.tb_link.specs.Counts.{counted};
ghost use Rattle.tb_disk.specs.Steps.{Wrote, CutTo, Synced};
ghost use Rattle.tb_disk.specs.Past.{Began, contents_of};
ghost use Rattle.tb_disk.specs.Disks.{Takes, LeavesDisk, Fails, FailsToWrite, FailsToCut, HasLength, Reaches, Gives};
ghost use Rattle.tb_disk.specs.Notes.{WritesNothing, torn_over};
ghost use Rattle.tb_disk.specs.Logging.{recorded, taken_of, HasRoom};

use crate::bytes::{put, tear};
use crate::disk::Disk;
use crate::log::Log;
use crate::note::Note;
use std::alloc::Global;
use tb_link::{Failed, Faults};
use tb_units::OutOfMemory;

/// Keeps its bytes, up to its room, and a record of its calls, and fails at stated calls.
#[derive(Drop)]
pub struct MemoryDisk {
    bytes: Vec<u8>,
    log: Log,
    torn: u8,
    room: u64,
    fails: Vec<u64>,
    calls: u64,
    faults: Faults,
    ghost told: { bytes.items ≡ contents_of (recorded torn log) },
    ghost within: { vec_len bytes ≤ room },
    ghost reserved: { room ≤ vec_capacity bytes },
}

impl MemoryDisk {
    ghost use Rattle.tb_disk.specs.Memory.{memory_disk, MustFail, CountsCall, Passes};

    /// A disk with these contents, all of them synced, and at most `room` bytes. A call fails where its number, from
    /// 0, is in `fails`, where it writes past the room, and where the record of `log_room` bytes hasn't 32 bytes
    /// for it and as many more as it writes. A failed write sets what was there in its range to `torn`, except for
    /// want of room in the record, which changes nothing.
    pub fn new(
        alloc: Global,
        contents: &[u8],
        room: u64,
        log_room: u64,
        fails: Vec<u64>,
        torn: u8,
    ) -> Result<MemoryDisk, OutOfMemory>
        requires { length contents.now ≤ room }
        ensures contents { IfOk result (λ disk. disk.bytes.items ≡ contents.now) }
        ensures start { IfOk result (λ disk. disk.calls ≡ 0) }
        ensures past { IfOk result (λ disk. memory_disk disk
            ≡ record { past = Some (Began contents.now); faults = 0 }) }
        ensures log { IfOk result (λ disk. (taken_of disk.log ≡ 0) × (disk.log.room ≡ log_room)) }
        ensures as_given { IfOk result (λ disk. (disk.room ≡ room) × (disk.fails.items ≡ fails.items)
            × (disk.torn ≡ torn)) }
    {
        let log = Log::new(alloc, contents, log_room as usize)?;
        let mut bytes = Vec::with_capacity(alloc, room as usize)?;
        bytes.extend_from_slice(contents)?;
        Ok(MemoryDisk {
            bytes,
            log,
            torn,
            room,
            fails,
            calls: 0,
            faults: Faults::none(),
        })
    }

    /// How many calls there were.
    pub fn calls(&self) -> u64
        ensures { result ≡ self.now.calls }
    {
        self.calls
    }

    /// The contents.
    pub fn contents(&self) -> &[u8]
        ensures { result.now ≡ self.now.bytes.items }
    {
        self.bytes.as_slice()
    }

    // Whether a write up to this end is to fail, or passes the room.
    fn is_refused(&self, end: u64) -> bool
        ensures { IsTrue result ↔ (Contains self.now.fails.items self.now.calls ⊎ (self.now.room < end)) }
    {
        self.fails.contains(&self.calls) || end > self.room
    }

    // A call that writes no bytes, noted as this where it succeeds.
    fn pass(&mut self, note: Note) -> Result<(), Failed>
        requires { WritesNothing note }
        ensures passes { OnOk result (Passes note self.old self.new) }
        ensures fails { OnErr result (Fails (memory_disk self.old) (memory_disk self.new)) }
        ensures one_fault { OnErr result (self.new.faults.count ≡ counted self.old.faults.count) }
        ensures unchanged { OnErr result (self.new.bytes ≡ self.old.bytes) }
        ensures exactly { IsErr result ↔ MustFail self.old 0 }
        ensures call { CountsCall 0 self.old self.new }
    {
        let stated = self.fails.contains(&self.calls);
        self.calls = self.calls.saturating_add(1);
        if !self.log.has_room(0) {
            return Err(self.faults.rise());
        }
        if stated {
            self.log.note(Note::Nothing, &[]);
            return Err(self.faults.rise());
        }
        self.log.note(note, &[]);
        if let Note::Cut { length } = note {
            self.bytes.truncate(length as usize);
        }
        Ok(())
    }
}

// As many of the bytes from a place on as fit.
fn fill(bytes: &[u8], place: u64, into: &mut [u8]) -> usize
    ensures count { result ≡ min (length into.old) (length bytes.now - place) }
    ensures bytes { into.new ≡ take result (drop place bytes.now) ++ drop result into.old }
{
    let start = (bytes.len() as u64).min(place) as usize;
    let from = &bytes[start..];
    let count = from.len().min(into.len());
    into[..count].copy_from_slice(&from[..count]);
    count
}

impl Disk for MemoryDisk {
    ghost use Rattle.tb_disk.specs.Memory.{memory_disk, MustFail, CountsCall};

    ghost disk = { memory_disk };

    fn len(&mut self) -> Result<u64, Failed>
        ensures length { IfOk result (λ n. HasLength (memory_disk self.old) n) }
        ensures same { OnOk result (LeavesDisk (memory_disk self.old) (memory_disk self.new)) }
        ensures fails { OnErr result (Fails (memory_disk self.old) (memory_disk self.new)) }
        ensures one_fault { OnErr result (self.new.faults.count ≡ counted self.old.faults.count) }
        ensures exactly { IsErr result ↔ MustFail self.old 0 }
        ensures call { CountsCall 0 self.old self.new }
    {
        self.pass(Note::Nothing)?;
        Ok(self.bytes.len() as u64)
    }

    fn read(&mut self, place: u64, into: &mut [u8]) -> Result<usize, Failed>
        ensures gives { IfOk result (λ n. Gives (memory_disk self.old) place into.old into.new n) }
        ensures same { OnOk result (LeavesDisk (memory_disk self.old) (memory_disk self.new)) }
        ensures fails { OnErr result (Fails (memory_disk self.old) (memory_disk self.new)) }
        ensures one_fault { OnErr result (self.new.faults.count ≡ counted self.old.faults.count) }
        ensures nothing { OnErr result (into.new ≡ into.old) }
        ensures exactly { IsErr result ↔ MustFail self.old 0 }
        ensures call { CountsCall 0 self.old self.new }
    {
        self.pass(Note::Nothing)?;
        Ok(fill(&self.bytes, place, into))
    }

    fn write_at(&mut self, place: u64, bytes: &[u8]) -> Result<(), Failed>
        requires place { Reaches (memory_disk self.old) place }
        requires end { place + length bytes.now < 2 ^ 42 }
        ensures writes { OnOk result (Takes (Wrote place bytes.now) (memory_disk self.old) (memory_disk self.new)) }
        ensures fails { OnErr result (FailsToWrite place (length bytes.now)
            (memory_disk self.old) (memory_disk self.new)) }
        ensures one_fault { OnErr result (self.new.faults.count ≡ counted self.old.faults.count) }
        ensures exactly { IsErr result
            ↔ (MustFail self.old (length bytes.now) ⊎ (self.old.room < place + length bytes.now)) }
        ensures torn { OnErr result (HasRoom self.old.log (length bytes.now)
            → self.new.bytes.items ≡ torn_over place (length bytes.now) self.old.torn self.old.bytes.items) }
        ensures nothing { (HasRoom self.old.log (length bytes.now) → ⊥) → self.new.bytes ≡ self.old.bytes }
        ensures call { CountsCall (length bytes.now) self.old self.new }
    {
        let size = bytes.len() as u64;
        let refused = self.is_refused(place + size);
        self.calls = self.calls.saturating_add(1);
        if !self.log.has_room(bytes.len()) {
            return Err(self.faults.rise());
        }
        if refused {
            self.log.note(Note::TornWrite { place, size }, bytes);
            tear(&mut self.bytes, place as usize, bytes.len(), self.torn);
            return Err(self.faults.rise());
        }
        self.log.note(Note::Write { place, size }, bytes);
        put(&mut self.bytes, place as usize, bytes);
        Ok(())
    }

    fn cut(&mut self, len: u64) -> Result<(), Failed>
        requires { Reaches (memory_disk self.old) len }
        ensures cuts { OnOk result (Takes (CutTo len) (memory_disk self.old) (memory_disk self.new)) }
        ensures fails { OnErr result (FailsToCut len (memory_disk self.old) (memory_disk self.new)) }
        ensures one_fault { OnErr result (self.new.faults.count ≡ counted self.old.faults.count) }
        ensures exactly { IsErr result ↔ MustFail self.old 0 }
        ensures unchanged { OnErr result (self.new.bytes ≡ self.old.bytes) }
        ensures call { CountsCall 0 self.old self.new }
    {
        self.pass(Note::Cut { length: len })
    }

    fn sync(&mut self) -> Result<(), Failed>
        ensures syncs { OnOk result (Takes Synced (memory_disk self.old) (memory_disk self.new)) }
        ensures fails { OnErr result (Fails (memory_disk self.old) (memory_disk self.new)) }
        ensures one_fault { OnErr result (self.new.faults.count ≡ counted self.old.faults.count) }
        ensures exactly { IsErr result ↔ MustFail self.old 0 }
        ensures unchanged { self.new.bytes.items ≡ self.old.bytes.items }
        ensures call { CountsCall 0 self.old self.new }
    {
        self.pass(Note::Sync)
    }

    ghost bounded = { λ self. self.faults.bounded };
}
