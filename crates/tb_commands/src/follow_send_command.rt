//! The command `follow send`.
ghost use Rattle.std.specs.Prelude.{◌≡◌, ◌+◌, ◌^◌, ◌<◌, ◌≤◌, List, [], ◌∷◌, length, true, false, IfOk, IfSome, OnErr, OnOk, IsErrOf};
ghost use Rattle.std.specs.List.{All};
ghost use Rattle.tb_link.specs.Counts.{Rose};
ghost use Rattle.tb_link.specs.Sinks.{FailsToTake, Takes};
ghost use Rattle.tb_link.specs.Sources.{SourceState};
ghost use Rattle.tb_message.specs.Spelling.{IsInRange, spellings};
ghost use Rattle.tb_message.specs.declared.message.Entry.{Entry};
ghost use Rattle.tb_desk.specs.Desks.{IsRead};
ghost use Rattle.tb_desk.specs.Stands.{IsGroup};
ghost use Rattle.tb_desk.specs.declared.fault.OpenFault.{OpenFault};
ghost use Rattle.tb_commands.specs.FollowSendRun.{FollowSendEnds, RoseWith, Sends, sent_of};
ghost use Rattle.tb_commands.specs.FollowSteps.{SendsGroup};
ghost use Rattle.tb_commands.specs.declared.follow_send_command.GroupFault.TheVariants as fault;

use crate::command_endings::{DiskEnding, SendEnding};
use std::alloc::Global;
use tb_desk::Desk;
use tb_disk::Disk;
use tb_journal::{DiskFault, Window};
use tb_link::{Failed, Sink};
use tb_message::Entry;
use tb_parcel::{Parcel, put_parcel};

/// Why the parcels of a group weren't all written.
#[derive(Clone, Copy, Debug, PartialEq, Eq)]
pub enum GroupFault {
    /// The payload isn't a group.
    Unreadable,
    Write,
}

impl From<Failed> for GroupFault {
    ghost from_gives = { λ _ why. why ≡ fault.Write };

    fn from(_failed: Failed) -> GroupFault {
        GroupFault::Write
    }
}

/// Writes the parcels of all entries from a place on, in order and each in one write, and hands the disk back. It reads
/// no input and adds nothing to the history. What stands before that place is only passed over.
pub fn follow_send<D: Disk, O: Sink>(
    alloc: Global,
    from: u64,
    out: &mut O,
    disk: D,
) -> (DiskEnding<SendEnding>, D)
    ensures ends { (input : SourceState) → FollowSendEnds from result.0 input input
        (record { out = O.sink out.old; disk = D.disk disk })
        (record { out = O.sink out.new; disk = D.disk result.1 }) }
    // The desk was opened before anything was written.
    ensures unbegun { (why : OpenFault) → result.0 ≡ DiskEnding.Unopened why → out.new ≡ out.old }
{
    match Desk::open(alloc, disk) {
        Ok(mut desk) => {
            let ending = send_groups(&mut desk, from, out);
            (DiskEnding::Opened(ending), desk.into_disk())
        }
        Err((disk, fault)) => (DiskEnding::Unopened(fault), disk),
    }
}

// Writes the parcels from a place on, group by group.
fn send_groups<D: Disk, O: Sink>(desk: &mut Desk<D>, from: u64, out: &mut O) -> SendEnding
    requires sure { desk.old.doubt ≡ [] }
    ensures sent { IfSome (D.disk desk.old.disk).past
        (λ past. Sends from desk.old.host.history result (O.sink out.old) (O.sink out.new)) }
    ensures cause { RoseWith result
        (record { out = O.sink out.old; disk = D.disk desk.old.disk })
        (record { out = O.sink out.new; disk = D.disk desk.new.disk }) }
    ensures read { IsRead desk.old desk.new }
    ensures kept { (D.disk desk.new.disk).past ≡ (D.disk desk.old.disk).past }
{
    let mut window = Window::new();
    let mut at = desk.first_place();
    let mut before = 0;
    'groups: loop {
        match desk.next_group(at, &mut window) {
            Ok(Some((_size, next))) => match send_group(window.payload(), before, from, out) {
                Ok(behind) => {
                    before = behind;
                    at = next;
                }
                Err(GroupFault::Unreadable) => return SendEnding::Damaged(at),
                Err(GroupFault::Write) => return SendEnding::WriteFault,
            },
            Ok(None) => return SendEnding::Done,
            Err(DiskFault) => return SendEnding::DiskFault,
        }
    }
}

// Writes the parcels of a group, before which so many entries stand, from a place on. It tells how many stand behind
// it.
fn send_group<O: Sink>(
    payload: &[u8],
    before: u64,
    from: u64,
    out: &mut O,
) -> Result<u64, GroupFault>
    requires few { before + length payload.now < 2 ^ 64 }
    ensures sends { (group : List Entry) → IsGroup group → All IsInRange group → payload.now ≡ spellings group
        → SendsGroup from before group result (O.sink out.old) (O.sink out.new) }
    ensures behind { IfOk result (λ behind. (before < behind) × (behind ≤ before + length payload.now)) }
    ensures no_fault { OnOk result ((O.sink out.new).faults ≡ (O.sink out.old).faults) }
    ensures fault { IsErrOf result GroupFault.Write → Rose (O.sink out.old).faults (O.sink out.new).faults }
{
    let mut rest = payload;
    let mut place = before;
    'entries: loop {
        let Some((entry, size)) = Entry::take(rest) else {
            return Err(GroupFault::Unreadable);
        };
        send(&Parcel { place, entry }, from, out)?;
        place += 1;
        rest = &rest[size..];
        if is_done(rest) {
            return Ok(place);
        }
    }
}

// Whether no bytes are left.
fn is_done(rest: &[u8]) -> bool
    ensures done { result ≡ true → rest.now ≡ [] }
    ensures more { result ≡ false → 1 ≤ length rest.now }
{
    rest.is_empty()
}

// Writes a parcel, unless its place is before the one from which on they are sent.
fn send<O: Sink>(parcel: &Parcel, from: u64, out: &mut O) -> Result<(), Failed>
    requires in_range { IsInRange parcel.now.entry }
    ensures takes { OnOk result (Takes (O.sink out.old) (O.sink out.new) (sent_of from (parcel.now ∷ []))) }
    ensures fails { OnErr result (FailsToTake (O.sink out.old) (O.sink out.new) (sent_of from (parcel.now ∷ []))) }
{
    if parcel.place < from {
        return Ok(());
    }
    out.write(put_parcel(parcel).bytes())
}
