//! The journal between its calls.
ghost use Rattle.std.specs.Prelude.{◌≡◌, ◌+◌, ◌<◌, ◌≤◌, ◌↔◌, ◌^◌, ℕ, length, slice_index, vec_capacity, None, Some, if◌then◌else◌, IfSome, IsSome, IsNone, IfOk, OnOk, OnErr, IsTrue};
ghost use Rattle.tb_link.specs.Counts.{Rose, NeverFalls};
ghost use Rattle.tb_disk.specs.Steps.{Synced};
ghost use Rattle.tb_disk.specs.Past.{Then, contents_of};
ghost use Rattle.tb_disk.specs.Disks.{Reaches};
ghost use Rattle.tb_journal.specs.Frames.{IsPayload};
ghost use Rattle.tb_journal.specs.Journal.{Told, HoldsSoMany, Adds, Doubts, Stays, LeavesOldOrNew, Settles, StaysInDoubt, LeavesInDoubt, AddsInPart, SyncsOrNot, staged_past, opened_past};
ghost use Rattle.tb_journal.specs.Journals.{SinceOpening, IsJournal};
ghost use Rattle.tb_journal.specs.Places.{StandsAt, GivesFrame, StandsBetween};
ghost use Rattle.tb_journal.specs.Windows.{Shows, AreAt};
ghost use Rattle.tb_journal.specs.Behind.{most_behind};

use crate::behind::MOST_BEHIND;
use crate::device::{gate_is_open, open_gate, read_frame, stage};
use crate::fault::DiskFault;
use crate::form::Form;
use crate::frames::{FRAME_HEAD, LONGEST_PAYLOAD};
use crate::window::Window;
use std::marker::Model;
use std::snapshot::Snapshot;
use tb_disk::Disk;
use tb_link::Failed;

// Room for the longest frame and a closed gate.
pub(crate) const BLOCK: usize = LONGEST_PAYLOAD + FRAME_HEAD;

/// A list of payloads on a disk. It keeps the place of its gate byte, the ordinal of the frame that will stand there
/// and, while a payload may count or not, the place of the gate byte behind that payload; and for contracts the disk as
/// the opening left it. Of the payloads it keeps nothing.
#[derive(Drop)]
pub struct Journal<D: Disk> {
    disk: D,
    gate: u64,
    ordinal: u64,
    doubt: Option<u64>,
    block: Vec<u8>,
    opened: Snapshot<D>,
}

impl<D: Disk> Model for Journal<D> {
    ghost use Rattle.std.specs.Prelude.{vec_capacity};
    ghost use Rattle.tb_journal.specs.Journals.{JournalView, journal_code, IsJournal};

    ghost Value = { JournalView D };

    ghost coded = { journal_code D.code };

    ghost view = { λ a. record {
      disk = a.disk;
      opened = a.opened.value;
      gate = a.gate;
      ordinal = a.ordinal;
      doubt = a.doubt;
    } };

    ghost invariant = { λ a. IsJournal (D.disk a.disk) (D.disk a.opened.value) a.gate a.ordinal a.doubt
        (vec_capacity a.block) };
}

// The four device calls that add a payload.
fn add<D: Disk>(
    disk: &mut D,
    gate: u64,
    ordinal: u64,
    payload: &[u8],
    block: &mut Vec<u8>,
) -> Result<(), Failed>
    requires size { IsPayload payload.now }
    requires room { length payload.now + 13 ≤ vec_capacity block.old }
    requires place { Reaches (D.disk disk.old) (gate + 1) }
    requires many { IfSome (D.disk disk.old).past (HoldsSoMany gate ordinal) }
    requires end { gate + 14 + length payload.now < 2 ^ 42 }
    ensures ok { OnOk result (Told (D.disk disk.old) (D.disk disk.new)
        (Adds payload.now gate (gate + 13 + length payload.now))) }
    ensures steps { OnOk result (Told (D.disk disk.old) (D.disk disk.new)
        (λ before now. now ≡ opened_past gate (staged_past ordinal payload.now gate before))) }
    ensures err { OnErr result (Told (D.disk disk.old) (D.disk disk.new)
        (Doubts payload.now gate (gate + 13 + length payload.now))) }
    ensures steps_failed { OnErr result (Told (D.disk disk.old) (D.disk disk.new)
        (AddsInPart ordinal payload.now gate)) }
    ensures fault { OnErr result (Rose (D.disk disk.old).faults (D.disk disk.new).faults) }
    ensures no_fault { OnOk result ((D.disk disk.new).faults ≡ (D.disk disk.old).faults) }
    ensures count { NeverFalls (D.disk disk.old).faults (D.disk disk.new).faults }
    ensures room { vec_capacity block.old ≤ vec_capacity block.new }
{
    stage(disk, gate, ordinal, payload, block)?;
    open_gate(disk, gate)
}

// A journal that was just opened.
pub(crate) fn opened<D: Disk>(disk: D, gate: u64, ordinal: u64, block: Vec<u8>) -> Journal<D>
    requires room { 32781 ≤ vec_capacity block }
    requires few { ordinal ≤ gate }
    requires since { Told (D.disk disk) (D.disk disk) (SinceOpening gate ordinal None) }
    ensures { result ≡ record { disk = disk; opened = disk; gate = gate; ordinal = ordinal; doubt = None } }
{
    Journal {
        opened: Snapshot::of(&disk),
        disk,
        gate,
        ordinal,
        doubt: None,
        block,
    }
}

impl<D: Disk> Journal<D> {
    /// The disk as it stands.
    pub fn into_disk(self) -> D
        ensures disk { result ≡ self.disk }
        // What the disk holds, and what every crash since the opening left.
        ensures since { Told (D.disk self.opened) (D.disk result) (SinceOpening self.gate self.ordinal self.doubt) }
    {
        let Journal {
            disk,
            gate: _,
            ordinal: _,
            doubt: _,
            block: _,
            opened: _,
        } = self;
        disk
    }

    /// Whether a payload may count or not.
    pub fn unsure(&self) -> bool
        ensures { IsTrue result ↔ IsSome self.now.doubt }
    {
        self.doubt.is_some()
    }

    /// The place of its gate byte, which is where the next frame will stand.
    pub fn gate(&self) -> u64
        ensures { result ≡ self.now.gate }
    {
        self.gate
    }

    /// Reads the payload of the frame at a place into the window, and gives its length and the place behind the frame.
    /// At the standing gate there is none. The window shows this disk or nothing yet.
    ///
    /// Where the disk doesn't tell its contents a frame may read otherwise than it was opened. One that reads as none
    /// is given as no bytes that end at the gate.
    pub fn next_frame(
        &mut self,
        place: u64,
        into: &mut Window,
    ) -> Result<Option<(usize, u64)>, DiskFault>
        requires sure { self.old.doubt ≡ None }
        requires place { StandsAt (D.disk self.old.disk) self.old.gate place }
        requires window { Shows (D.disk self.old.disk) into.old }
        ensures end { IfOk result (λ found. IsNone found ↔ (place ≡ self.old.gate)) }
        ensures frame { IfOk result (λ found. IfSome found (λ frame. IfSome (D.disk self.old.disk).past
            (GivesFrame self.old.gate place into.new.payload frame.1))) }
        ensures size { IfOk result (λ found. IfSome found (λ frame. frame.0 ≡ length into.new.payload)) }
        ensures between { IfOk result (λ found. IfSome found
            (λ frame. StandsBetween self.old.gate place frame.0 frame.1)) }
        ensures next { IfOk result (λ found. IfSome found
            (λ frame. StandsAt (D.disk self.new.disk) self.new.gate frame.1)) }
        ensures window { Shows (D.disk self.new.disk) into.new }
        ensures kept { (D.disk self.new.disk).past ≡ (D.disk self.old.disk).past }
        ensures same { (self.new.gate ≡ self.old.gate) × (self.new.ordinal ≡ self.old.ordinal)
            × (self.new.doubt ≡ self.old.doubt) × (self.new.opened ≡ self.old.opened) }
        ensures fault { OnErr result (Rose (D.disk self.old.disk).faults (D.disk self.new.disk).faults) }
        ensures no_fault { OnOk result ((D.disk self.new.disk).faults ≡ (D.disk self.old.disk).faults) }
        ensures count { NeverFalls (D.disk self.old.disk).faults (D.disk self.new.disk).faults }
    {
        if place == self.gate {
            return Ok(None);
        }
        match read_frame(&mut self.disk, Form::Second, place, self.gate, into) {
            Ok(found) => Ok(Some(found)),
            Err(Failed) => Err(DiskFault),
        }
    }

    /// Reads what stands behind the standing gate byte into the window as its payload: all of it, or one byte more than
    /// an append leaves there. The window shows this disk or nothing yet.
    pub fn read_behind(&mut self, into: &mut Window) -> Result<(), DiskFault>
        requires sure { self.old.doubt ≡ None }
        requires end { self.old.gate < 2 ^ 42 }
        requires window { Shows (D.disk self.old.disk) into.old }
        ensures bytes { OnOk result (IfSome (D.disk self.old.disk).past
            (λ past. AreAt (self.old.gate + 1) (most_behind + 1) into.new.payload (contents_of past))) }
        // So many frames stand before the gate.
        ensures many { IfSome (D.disk self.old.disk).past (HoldsSoMany self.old.gate self.old.ordinal) }
        ensures window { Shows (D.disk self.new.disk) into.new }
        ensures kept { (D.disk self.new.disk).past ≡ (D.disk self.old.disk).past }
        ensures same { (self.new.gate ≡ self.old.gate) × (self.new.ordinal ≡ self.old.ordinal)
            × (self.new.doubt ≡ self.old.doubt) × (self.new.opened ≡ self.old.opened) }
        ensures fault { OnErr result (Rose (D.disk self.old.disk).faults (D.disk self.new.disk).faults) }
        ensures no_fault { OnOk result ((D.disk self.new.disk).faults ≡ (D.disk self.old.disk).faults) }
        ensures count { NeverFalls (D.disk self.old.disk).faults (D.disk self.new.disk).faults }
    {
        match into.read_payload(&mut self.disk, self.gate + 1, MOST_BEHIND + 1) {
            Ok(()) => Ok(()),
            Err(Failed) => Err(DiskFault),
        }
    }

    /// The ordinal of the frame that will stand at the gate.
    pub fn ordinal(&self) -> u64
        ensures { result ≡ self.now.ordinal }
    {
        self.ordinal
    }

    /// Adds a payload. Once it has returned Ok, each crash leaves the payload. After a fault the payload may count or
    /// not, and `resolve` finds out.
    pub fn append(&mut self, payload: &[u8]) -> Result<(), DiskFault>
        requires sure { self.old.doubt ≡ None }
        requires size { IsPayload payload.now }
        requires end { self.old.gate + 14 + length payload.now < 2 ^ 42 }
        ensures adds { OnOk result (Told (D.disk self.old.disk) (D.disk self.new.disk)
            (Adds payload.now self.old.gate self.new.gate)) }
        // From then on a crash leaves the new list and nothing else.
        ensures stays { OnOk result (Told (D.disk self.old.disk) (D.disk self.new.disk)
            (Stays payload.now self.old.gate)) }
        // A write behind the gate, a sync, a write of the gate and a sync.
        ensures steps { OnOk result (Told (D.disk self.old.disk) (D.disk self.new.disk) (λ before now.
            now ≡ opened_past self.old.gate (staged_past self.old.ordinal payload.now self.old.gate before))) }
        // After a fault a beginning of these.
        ensures steps_failed { OnErr result (Told (D.disk self.old.disk) (D.disk self.new.disk)
            (AddsInPart self.old.ordinal payload.now self.old.gate)) }
        ensures doubts { OnErr result (Told (D.disk self.old.disk) (D.disk self.new.disk)
            (Doubts payload.now self.old.gate (self.old.gate + 13 + length payload.now))) }
        // A crash at any moment of the call leaves the payloads from before it, with the new one or without.
        ensures crash { Told (D.disk self.old.disk) (D.disk self.new.disk) (LeavesOldOrNew payload.now self.old.gate) }
        ensures fault { OnErr result (Rose (D.disk self.old.disk).faults (D.disk self.new.disk).faults) }
        ensures no_fault { OnOk result ((D.disk self.new.disk).faults ≡ (D.disk self.old.disk).faults) }
        ensures count { NeverFalls (D.disk self.old.disk).faults (D.disk self.new.disk).faults }
        ensures sure { OnOk result ((self.new.doubt ≡ None)
            × (self.new.gate ≡ self.old.gate + 13 + length payload.now)
            × (self.new.ordinal ≡ self.old.ordinal + 1)) }
        ensures unsure { OnErr result ((self.new.doubt ≡ Some (self.old.gate + 13 + length payload.now))
            × (self.new.gate ≡ self.old.gate) × (self.new.ordinal ≡ self.old.ordinal)) }
        ensures opened { self.new.opened ≡ self.old.opened }
    {
        let next = self.gate + FRAME_HEAD as u64 + payload.len() as u64;
        match add(
            &mut self.disk,
            self.gate,
            self.ordinal,
            payload,
            &mut self.block,
        ) {
            Ok(()) => {
                self.gate = next;
                self.ordinal += 1;
                Ok(())
            }
            Err(Failed) => {
                self.doubt = Some(next);
                Err(DiskFault)
            }
        }
    }

    /// Finds out whether the payload in doubt counts: it syncs and reads the gate byte. After a fault the payload is
    /// in doubt still.
    pub fn resolve(&mut self) -> Result<bool, DiskFault>
        requires { IsSome self.old.doubt }
        ensures settles { IfOk result (λ counts. (next : ℕ) → self.old.doubt ≡ Some next
            → Told (D.disk self.old.disk) (D.disk self.new.disk) (Settles self.old.gate next self.new.gate counts)) }
        ensures byte { IfOk result (λ counts. IfSome (D.disk self.old.disk).past
            (λ past. IsTrue counts ↔ (slice_index (contents_of past) self.old.gate ≡ 1))) }
        // A sync and no other step.
        ensures steps { OnOk result (Told (D.disk self.old.disk) (D.disk self.new.disk)
            (λ before now. now ≡ Then Synced before)) }
        ensures steps_failed { OnErr result (Told (D.disk self.old.disk) (D.disk self.new.disk) SyncsOrNot) }
        ensures doubts { OnErr result ((next : ℕ) → self.old.doubt ≡ Some next
            → Told (D.disk self.old.disk) (D.disk self.new.disk) (StaysInDoubt self.old.gate next)) }
        // A crash at any moment of the call leaves the payloads with the one in doubt or without.
        ensures crash { (next : ℕ) → self.old.doubt ≡ Some next
            → Told (D.disk self.old.disk) (D.disk self.new.disk) (LeavesInDoubt self.old.gate next) }
        ensures fault { OnErr result (Rose (D.disk self.old.disk).faults (D.disk self.new.disk).faults) }
        ensures no_fault { OnOk result ((D.disk self.new.disk).faults ≡ (D.disk self.old.disk).faults) }
        ensures count { NeverFalls (D.disk self.old.disk).faults (D.disk self.new.disk).faults }
        ensures sure { IfOk result (λ counts. (self.new.doubt ≡ None) × ((next : ℕ) → self.old.doubt ≡ Some next
            → self.new.gate ≡ (if counts then next else self.old.gate))
            × (self.new.ordinal ≡ (if counts then self.old.ordinal + 1 else self.old.ordinal))) }
        ensures unsure { OnErr result ((self.new.doubt ≡ self.old.doubt) × (self.new.gate ≡ self.old.gate)
            × (self.new.ordinal ≡ self.old.ordinal)) }
        ensures opened { self.new.opened ≡ self.old.opened }
    {
        let next = self.doubt.unwrap();
        match gate_is_open(&mut self.disk, self.gate) {
            Ok(true) => {
                self.gate = next;
                self.ordinal += 1;
                self.doubt = None;
                Ok(true)
            }
            Ok(false) => {
                self.doubt = None;
                Ok(false)
            }
            Err(Failed) => Err(DiskFault),
        }
    }
}
