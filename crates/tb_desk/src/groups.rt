//! Groups of entries on the host machine and in the journal.
ghost use Rattle.std.specs.Prelude.{ℕ, ◌≡◌, ◌+◌, ◌^◌, ◌<◌, ◌≤◌, ◌++◌, ◌∷◌, [], List, None, map, length, true, false, vec_capacity, OnOk, OnErr};
ghost use Rattle.std.specs.List.{All};
ghost use Rattle.tb_link.specs.Counts.{Rose, NeverFalls};
ghost use Rattle.tb_message.specs.declared.message.Entry.{Entry};
ghost use Rattle.tb_message.specs.declared.message.Message.{Message};
ghost use Rattle.tb_message.specs.Spelling.{spellings, IsInRange};
ghost use Rattle.tb_history.specs.Legal.{IsLegal, Follows, last_of};
ghost use Rattle.tb_core.specs.House.{IsBid};
ghost use Rattle.tb_core.specs.Rooms.{Fits};
ghost use Rattle.tb_desk.specs.Stands.{IsGroup, Stands, StandsForEither, CrashesLeave};
ghost use Rattle.tb_desk.specs.Turn.{messages_of};

use tb_core::{Host, room_lasts};
use tb_disk::Disk;
use tb_journal::{DiskFault, Journal};
use tb_message::{Entry, Message};
use tb_units::Moment;

/// Whether a group has no entry.
pub fn is_empty(group: &[Entry]) -> bool
    ensures none { result ≡ true → group.now ≡ [] }
    ensures some { result ≡ false → IsGroup group.now }
{
    group.is_empty()
}

/// Applies an entry. Room for the others lasts.
pub fn apply(host: &mut Host, entry: &Entry)
    requires follows { Follows host.old.history entry.now }
    requires fits { Fits host.old.room (entry.now.message ∷ []) }
    ensures history { host.new.history ≡ host.old.history ++ entry.now ∷ [] }
    ensures room { (others : List Message) → Fits host.old.room (entry.now.message ∷ others)
        → Fits host.new.room others }
{
    room_lasts();
    host.apply(*entry);
}

/// Applies a group. Room for the others lasts.
pub fn apply_all(host: &mut Host, group: &[Entry])
    requires legal { IsLegal (host.old.history ++ group.now) }
    requires fits { (others : List Message) × Fits host.old.room (messages_of group.now ++ others) }
    ensures history { host.new.history ≡ host.old.history ++ group.now }
    ensures room { (others : List Message) → Fits host.old.room (messages_of group.now ++ others)
        → Fits host.new.room others }
{
    room_lasts();
    for entry in group {
        apply(host, entry);
    }
}

// The records of a group, one behind the other.
fn spell(payload: &mut Vec<u8>, group: &[Entry])
    requires in_range { All IsInRange group.now }
    requires few { length group.now ≤ 64 }
    requires room { 32768 ≤ vec_capacity payload.old }
    ensures bytes { payload.new.items ≡ spellings group.now }
    ensures room { vec_capacity payload.old ≤ vec_capacity payload.new }
{
    payload.clear();
    for entry in group {
        payload.extend_from_slice(entry.put().bytes()).unwrap();
    }
}

/// Adds a group to the journal. After a fault it is in doubt.
pub fn add_group<D: Disk>(
    journal: &mut Journal<D>,
    payload: &mut Vec<u8>,
    group: &[Entry],
) -> Result<(), DiskFault>
    requires sure { journal.old.doubt ≡ None }
    requires end { journal.old.gate + 32782 < 2 ^ 42 }
    requires some { IsGroup group.now }
    requires few { length group.now ≤ 64 }
    requires in_range { All IsInRange group.now }
    requires room { 32768 ≤ vec_capacity payload.old }
    ensures added { OnOk result ((history : List Entry)
        → Stands (D.disk journal.old.disk) journal.old.gate journal.old.doubt history []
        → IsLegal (history ++ group.now)
        → Stands (D.disk journal.new.disk) journal.new.gate journal.new.doubt (history ++ group.now) []) }
    ensures doubted { OnErr result ((history : List Entry)
        → Stands (D.disk journal.old.disk) journal.old.gate journal.old.doubt history []
        → IsLegal (history ++ group.now)
        → Stands (D.disk journal.new.disk) journal.new.gate journal.new.doubt history group.now) }
    ensures crash { (history : List Entry)
        → Stands (D.disk journal.old.disk) journal.old.gate journal.old.doubt history []
        → CrashesLeave (StandsForEither history group.now) (D.disk journal.old.disk) (D.disk journal.new.disk) }
    ensures fault { OnErr result (Rose (D.disk journal.old.disk).faults (D.disk journal.new.disk).faults) }
    ensures no_fault { OnOk result ((D.disk journal.new.disk).faults ≡ (D.disk journal.old.disk).faults) }
    ensures count { NeverFalls (D.disk journal.old.disk).faults (D.disk journal.new.disk).faults }
    ensures room { vec_capacity payload.old ≤ vec_capacity payload.new }
{
    spell(payload, group);
    journal.append(payload)
}

/// Takes back a group of bids that was applied, where `before` is the moment of the entry before it and `moment` that
/// of its entries.
pub fn take_back(host: &mut Host, group: &[Entry], before: Moment, moment: Moment)
    requires grown { (earlier : List Entry) × (host.old.history ≡ earlier ++ group.now)
        × (before.seconds ≡ last_of earlier) }
    requires bids { All (λ entry. IsBid entry.message) group.now }
    requires moments { All (λ entry. entry.moment ≡ moment) group.now }
    ensures { (earlier : List Entry) → host.old.history ≡ earlier ++ group.now → host.new.history ≡ earlier }
{
    let mut left = group.len();
    while left > 0 {
        left -= 1;
        host.take_back(moment_before(left, before, moment));
    }
}

// The moment of the entry before the one at a place of a group, where `before` is that of the entry before the group.
fn moment_before(place: usize, before: Moment, moment: Moment) -> Moment
    ensures first { place ≡ 0 → result ≡ before }
    ensures later { 0 < place → result ≡ moment }
{
    if place == 0 { before } else { moment }
}
