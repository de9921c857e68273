//! The device calls of a journal: two put a frame behind the gate, two open the gate, two look at it.
ghost use Rattle.std.specs.Prelude.{◌≡◌, ◌⊎◌, ◌+◌, ◌<◌, ◌≤◌, ◌↔◌, ◌^◌, ℕ, List, [], ◌∷◌, ◌++◌, length, drop, slice_index, vec_capacity, IfOk, OnOk, OnErr, IfSome, IfNone, IsTrue};
ghost use Rattle.tb_link.specs.Counts.{Rose, NeverFalls};
ghost use Rattle.tb_disk.specs.Steps.{Synced};
ghost use Rattle.tb_disk.specs.Past.{Then, contents_of};
ghost use Rattle.tb_disk.specs.Disks.{Reaches};
ghost use Rattle.tb_journal.specs.Frames.{IsPayload, framed, head_of};
ghost use Rattle.tb_journal.specs.Image.{length_in};
ghost use Rattle.tb_journal.specs.Places.{IsPlaceIn, GivesFrameIn, StandsBetweenIn};
ghost use Rattle.tb_journal.specs.Windows.{Shows};
ghost use Rattle.tb_journal.specs.Journal.{Told, HoldsSoMany, Stages, Doubts, Counts, MaybeCounts, WritesInPart, SyncsOrNot, staged_past, opened_past};

use crate::form::Form;
use crate::frames::{CLOSED, OPEN, payload_size};
use crate::window::Window;
use tb_disk::Disk;
use tb_link::Failed;

/// The bytes of a frame without its gate byte, and a closed gate: what is written behind the standing gate.
#[tactic(auto, unfolding(crate::specs::Frames::head_in))]
pub fn spell(block: &mut Vec<u8>, ordinal: u64, payload: &[u8])
    requires size { IsPayload payload.now }
    requires room { length payload.now + 13 ≤ vec_capacity block.old }
    ensures bytes { block.new.items ≡ framed ordinal payload.now ++ 0 ∷ [] }
    ensures room { vec_capacity block.old ≤ vec_capacity block.new }
{
    block.clear();
    let length = payload.len() as u32;
    block.extend_from_slice(&length.to_be_bytes()).unwrap();
    block.extend_from_slice(&ordinal.to_be_bytes()).unwrap();
    block.extend_from_slice(payload).unwrap();
    block.push(CLOSED).unwrap();
}

/// Puts the frame of a payload behind the closed gate, before which so many frames stand.
pub fn stage<D: Disk>(
    disk: &mut D,
    gate: u64,
    ordinal: u64,
    payload: &[u8],
    block: &mut Vec<u8>,
) -> Result<(), Failed>
    requires size { IsPayload payload.now }
    requires room { length payload.now + 13 ≤ vec_capacity block.old }
    requires place { Reaches (D.disk disk.old) (gate + 1) }
    requires many { IfSome (D.disk disk.old).past (HoldsSoMany gate ordinal) }
    requires end { gate + 14 + length payload.now < 2 ^ 42 }
    ensures ok { OnOk result (Told (D.disk disk.old) (D.disk disk.new) (Stages payload.now gate)) }
    ensures steps { OnOk result (Told (D.disk disk.old) (D.disk disk.new)
        (λ before now. now ≡ staged_past ordinal payload.now gate before)) }
    ensures err { OnErr result (Told (D.disk disk.old) (D.disk disk.new)
        (Doubts payload.now gate (gate + 13 + length payload.now))) }
    ensures steps_failed { OnErr result (Told (D.disk disk.old) (D.disk disk.new)
        (WritesInPart (gate + 1) (framed ordinal payload.now ++ 0 ∷ []))) }
    ensures fault { OnErr result (Rose (D.disk disk.old).faults (D.disk disk.new).faults) }
    ensures no_fault { OnOk result ((D.disk disk.new).faults ≡ (D.disk disk.old).faults) }
    ensures count { NeverFalls (D.disk disk.old).faults (D.disk disk.new).faults }
    ensures room { vec_capacity block.old ≤ vec_capacity block.new }
{
    spell(block, ordinal, payload);
    disk.write_at(gate + 1, block)?;
    // The frame is on the disk before its gate opens.
    disk.sync()
}

/// Opens the gate before a frame that is on the disk.
pub fn open_gate<D: Disk>(disk: &mut D, gate: u64) -> Result<(), Failed>
    requires place { Reaches (D.disk disk.old) gate }
    requires end { gate + 1 < 2 ^ 42 }
    ensures ok { OnOk result ((payload : List ℕ) → Told (D.disk disk.old) (D.disk disk.new)
        (Counts payload gate (gate + 13 + length payload))) }
    ensures steps { OnOk result (Told (D.disk disk.old) (D.disk disk.new)
        (λ before now. now ≡ opened_past gate before)) }
    ensures err { OnErr result ((payload : List ℕ) → Told (D.disk disk.old) (D.disk disk.new)
        (MaybeCounts payload gate (gate + 13 + length payload))) }
    ensures steps_failed { OnErr result (Told (D.disk disk.old) (D.disk disk.new) (WritesInPart gate (1 ∷ []))) }
    ensures fault { OnErr result (Rose (D.disk disk.old).faults (D.disk disk.new).faults) }
    ensures no_fault { OnOk result ((D.disk disk.new).faults ≡ (D.disk disk.old).faults) }
    ensures count { NeverFalls (D.disk disk.old).faults (D.disk disk.new).faults }
{
    // The gate byte comes last: a crash before it leaves the old payloads.
    disk.write_at(gate, &[OPEN])?;
    disk.sync()
}

/// Reads the payload of the frame at a place before the gate, and gives its length and the place behind the frame. One
/// that reads as none is given as no bytes that end at the gate.
pub fn read_frame<D: Disk>(
    disk: &mut D,
    form: Form,
    place: u64,
    gate: u64,
    into: &mut Window,
) -> Result<(usize, u64), Failed>
    requires before { place < gate }
    requires place { IfSome (D.disk disk.old).past (IsPlaceIn form gate place) }
    requires window { Shows (D.disk disk.old) into.old }
    ensures frame { IfOk result (λ found. IfSome (D.disk disk.old).past
        (GivesFrameIn form gate place into.new.payload found.1)) }
    ensures size { IfOk result (λ found. found.0 ≡ length into.new.payload) }
    ensures between { IfOk result (λ found. StandsBetweenIn form gate place found.0 found.1 × (found.1 ≤ gate)) }
    ensures window { Shows (D.disk disk.new) into.new }
    ensures kept { (D.disk disk.new).past ≡ (D.disk disk.old).past }
    ensures fault { OnErr result (Rose (D.disk disk.old).faults (D.disk disk.new).faults) }
    ensures no_fault { OnOk result ((D.disk disk.new).faults ≡ (D.disk disk.old).faults) }
    ensures count { NeverFalls (D.disk disk.old).faults (D.disk disk.new).faults }
{
    let before = 1 + form.head_size();
    into.fill(disk, place, before)?;
    let Some(size) = payload_within(form, into.bytes_at(place, before), gate - place) else {
        into.take_none();
        return Ok((0, gate));
    };
    into.fill(disk, place, before + size)?;
    if !into.take_payload(place + before as u64, size) {
        into.take_none();
        return Ok((0, gate));
    }
    Ok((size, place + (before + size) as u64))
}

// How long a payload is, by the bytes of its frame up to it: none where these say no length of a payload, or one that
// needs more than the room.
fn payload_within(form: Form, bytes: &[u8], room: u64) -> Option<usize>
    ensures found { IfSome result (λ size. (1 + head_of form ≤ length bytes.now) × (size ≡ length_in (drop 1 bytes.now))
        × (1 ≤ size) × (size ≤ 32768) × (1 + head_of form + size ≤ room)) }
    ensures none { IfNone result ((length bytes.now < 1 + head_of form) ⊎ (length_in (drop 1 bytes.now) < 1)
        ⊎ (32768 < length_in (drop 1 bytes.now)) ⊎ (room < 1 + head_of form + length_in (drop 1 bytes.now))) }
{
    if bytes.is_empty() {
        return None;
    }
    let size = payload_size(form, &bytes[1..])?;
    if (1 + form.head_size() + size) as u64 > room {
        return None;
    }
    Some(size)
}

/// Syncs, and says whether the gate byte is 1.
pub fn gate_is_open<D: Disk>(disk: &mut D, gate: u64) -> Result<bool, Failed>
    ensures ok { IfOk result (λ counts. Told (D.disk disk.old) (D.disk disk.new) (λ before now.
        (now ≡ Then Synced before)
        × (gate < length (contents_of before) → IsTrue counts ↔ (slice_index (contents_of before) gate ≡ 1)))) }
    ensures err { OnErr result (Told (D.disk disk.old) (D.disk disk.new) SyncsOrNot) }
    ensures fault { OnErr result (Rose (D.disk disk.old).faults (D.disk disk.new).faults) }
    ensures no_fault { OnOk result ((D.disk disk.new).faults ≡ (D.disk disk.old).faults) }
    ensures count { NeverFalls (D.disk disk.old).faults (D.disk disk.new).faults }
{
    disk.sync()?;
    let mut byte = [CLOSED];
    let count = disk.read(gate, &mut byte)?;
    Ok(count == 1 && byte[0] == OPEN)
}
