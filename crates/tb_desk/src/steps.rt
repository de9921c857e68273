//! The steps of a turn, over the parts of a desk.
ghost use Rattle.std.specs.Prelude.{ℕ, ◌≡◌, ◌≢◌, ◌⊎◌, ◌+◌, ◌^◌, ◌<◌, ◌≤◌, ◌++◌, ◌∷◌, [], List, None, Some, length, true, replicate, vec_capacity, OnOk, OnErr};
ghost use Rattle.tb_units.specs.declared.moment.Moment.{Moment};
ghost use Rattle.tb_units.specs.Names.{is_name};
ghost use Rattle.tb_link.specs.Counts.{Rose, NeverFalls};
ghost use Rattle.tb_message.specs.declared.message.Entry.{Entry};
ghost use Rattle.tb_message.specs.declared.message.Message.{Message};
ghost use Rattle.tb_message.specs.Spelling.{IsNumbered};
ghost use Rattle.tb_history.specs.Legal.{running};
ghost use Rattle.tb_history.specs.OwnPart.{own_part};
ghost use Rattle.tb_core.specs.Rooms.{Fits};
ghost use Rattle.tb_desk.specs.declared.reply.Reply.TheVariants as reply;
ghost use Rattle.tb_desk.specs.declared.reply.GroupReply.TheVariants as group;
ghost use Rattle.tb_desk.specs.Stands.{Stands, StandsForEither, CrashesLeave};
ghost use Rattle.tb_desk.specs.Turn.{Held, Asked, messages_of, asked_of, Resolves, IsAnswered, IsDoubted, IsOneOf, Turns, Replies, AreNumbered, AreBids, DependOnNoOthers, verdicts_on};
ghost use Rattle.tb_desk.specs.Desks.{replies_of, Tells};

use crate::groups::{add_group, apply, apply_all, is_empty, take_back};
use crate::judging::{decide, judge};
use crate::reply::{GroupReply, Reply};
use tb_core::{Host, room_lasts};
use tb_disk::Disk;
use tb_journal::{DiskFault, Journal};
use tb_message::{Entry, Message, Verdict};
use tb_units::{Ident, Moment};

/// Finds out whether the group in doubt counts. After a fault nothing has changed.
pub fn settle<D: Disk>(
    journal: &mut Journal<D>,
    host: &mut Host,
    doubt: &mut Vec<Entry>,
) -> Result<(), DiskFault>
    requires stands { Stands (D.disk journal.old.disk) journal.old.gate journal.old.doubt host.old.history
        doubt.old.items }
    requires room { (others : List Message) × Fits host.old.room (messages_of doubt.old.items ++ others) }
    ensures stands { Stands (D.disk journal.new.disk) journal.new.gate journal.new.doubt host.new.history
        doubt.new.items }
    ensures sure { OnOk result (doubt.new.items ≡ []) }
    ensures resolves { OnOk result (Resolves journal.old.gate (D.disk journal.old.disk)
        (record { history = host.old.history; doubt = doubt.old.items }) host.new.history) }
    ensures room { OnOk result ((others : List Message) → Fits host.old.room (messages_of doubt.old.items ++ others)
        → Fits host.new.room others) }
    ensures same { OnErr result ((host.new ≡ host.old) × (doubt.new.items ≡ doubt.old.items)) }
    ensures unsure { OnErr result (1 ≤ length doubt.old.items) }
    ensures crash { CrashesLeave (StandsForEither host.old.history doubt.old.items) (D.disk journal.old.disk)
        (D.disk journal.new.disk) }
    ensures fault { OnErr result (Rose (D.disk journal.old.disk).faults (D.disk journal.new.disk).faults) }
    ensures no_fault { OnOk result ((D.disk journal.new.disk).faults ≡ (D.disk journal.old.disk).faults) }
    ensures count { NeverFalls (D.disk journal.old.disk).faults (D.disk journal.new.disk).faults }
    ensures buffer { vec_capacity doubt.old ≤ vec_capacity doubt.new }
{
    room_lasts();
    if is_empty(doubt.as_slice()) {
        return Ok(());
    }
    match journal.resolve() {
        Err(fault) => Err(fault),
        Ok(true) => {
            apply_all(host, doubt.as_slice());
            doubt.clear();
            Ok(())
        }
        Ok(false) => {
            doubt.clear();
            Ok(())
        }
    }
}

// The verdict on a message, where nothing is in doubt. What is accepted is added to the journal, and then applied.
fn answer<D: Disk>(
    journal: &mut Journal<D>,
    host: &mut Host,
    doubt: &mut Vec<Entry>,
    payload: &mut Vec<u8>,
    submitter: &Ident,
    number: u64,
    moment: Moment,
    message: &Message,
) -> Reply
    requires stands { Stands (D.disk journal.old.disk) journal.old.gate journal.old.doubt host.old.history
        doubt.old.items }
    requires sure { doubt.old.items ≡ [] }
    requires numbered { IsNumbered number message.now }
    requires room { Fits host.old.room (message.now ∷ []) }
    requires buffers { (64 ≤ vec_capacity doubt.old) × (32768 ≤ vec_capacity payload.old) }
    ensures stands { Stands (D.disk journal.new.disk) journal.new.gate journal.new.doubt host.new.history
        doubt.new.items }
    ensures answered { IsAnswered host.old.history
        (record { submitter = submitter.now; moment = moment; messages = (number, message.now) ∷ [] })
        (record { history = host.new.history; doubt = doubt.new.items }) (replies_of result)
        ⊎ IsDoubted host.old.history
        (record { submitter = submitter.now; moment = moment; messages = (number, message.now) ∷ [] })
        (record { history = host.new.history; doubt = doubt.new.items }) (replies_of result) }
    ensures crash { CrashesLeave (IsOneOf (record { history = host.old.history; doubt = [] })
        (record { history = host.new.history; doubt = doubt.new.items }))
        (D.disk journal.old.disk) (D.disk journal.new.disk) }
    ensures fault { result ≡ reply.DiskFault → Rose (D.disk journal.old.disk).faults (D.disk journal.new.disk).faults }
    ensures no_fault { result ≢ reply.DiskFault → (D.disk journal.new.disk).faults ≡ (D.disk journal.old.disk).faults }
    ensures count { NeverFalls (D.disk journal.old.disk).faults (D.disk journal.new.disk).faults }
    ensures buffers { (vec_capacity doubt.old ≤ vec_capacity doubt.new)
        × (vec_capacity payload.old ≤ vec_capacity payload.new) }
{
    let moment = moment.later(host.last());
    let (verdict, entry) = decide(host, submitter, number, moment, message);
    let Some(entry) = entry else {
        return Reply::Verdict(verdict);
    };
    doubt.push_reserved(entry);
    match add_group(journal, payload, doubt.as_slice()) {
        Ok(()) => {
            apply(host, &entry);
            doubt.clear();
            Reply::Verdict(verdict)
        }
        Err(DiskFault) => Reply::DiskFault,
    }
}

/// One turn: what is in doubt is resolved, and then the message is answered.
pub fn turn<D: Disk>(
    journal: &mut Journal<D>,
    host: &mut Host,
    doubt: &mut Vec<Entry>,
    payload: &mut Vec<u8>,
    submitter: &Ident,
    number: u64,
    moment: Moment,
    message: &Message,
) -> Reply
    requires stands { Stands (D.disk journal.old.disk) journal.old.gate journal.old.doubt host.old.history
        doubt.old.items }
    requires numbered { IsNumbered number message.now }
    requires room { Fits host.old.room (messages_of doubt.old.items ++ message.now ∷ []) }
    requires buffers { (64 ≤ vec_capacity doubt.old) × (32768 ≤ vec_capacity payload.old) }
    ensures stands { Stands (D.disk journal.new.disk) journal.new.gate journal.new.doubt host.new.history
        doubt.new.items }
    ensures turn { Turns journal.old.gate (D.disk journal.old.disk)
        (record { submitter = submitter.now; moment = moment; messages = (number, message.now) ∷ [] })
        (record { history = host.old.history; doubt = doubt.old.items })
        (record { history = host.new.history; doubt = doubt.new.items }) (replies_of result) }
    ensures crash { CrashesLeave (IsOneOf (record { history = host.old.history; doubt = doubt.old.items })
        (record { history = host.new.history; doubt = doubt.new.items }))
        (D.disk journal.old.disk) (D.disk journal.new.disk) }
    ensures fault { result ≡ reply.DiskFault → Rose (D.disk journal.old.disk).faults (D.disk journal.new.disk).faults }
    ensures no_fault { result ≢ reply.DiskFault → (D.disk journal.new.disk).faults ≡ (D.disk journal.old.disk).faults }
    ensures count { NeverFalls (D.disk journal.old.disk).faults (D.disk journal.new.disk).faults }
    ensures buffers { (64 ≤ vec_capacity doubt.new) × (32768 ≤ vec_capacity payload.new) }
{
    match settle(journal, host, doubt) {
        Err(DiskFault) => Reply::DiskFault,
        Ok(()) => answer(
            journal, host, doubt, payload, submitter, number, moment, message,
        ),
    }
}

// The verdicts on the bids of a group, where nothing is in doubt. What is accepted is added to the journal together.
fn answer_group<D: Disk>(
    journal: &mut Journal<D>,
    host: &mut Host,
    doubt: &mut Vec<Entry>,
    payload: &mut Vec<u8>,
    submitter: &Ident,
    moment: Moment,
    messages: &[(u64, Message)],
    verdicts: &mut [Option<Verdict>; 64],
) -> GroupReply
    requires stands { Stands (D.disk journal.old.disk) journal.old.gate journal.old.doubt host.old.history
        doubt.old.items }
    requires sure { doubt.old.items ≡ [] }
    requires few { length messages.now ≤ 64 }
    requires numbered { AreNumbered messages.now }
    requires bids { AreBids messages.now }
    requires room { Fits host.old.room (asked_of messages.now) }
    requires buffers { (64 ≤ vec_capacity doubt.old) × (32768 ≤ vec_capacity payload.old) }
    ensures stands { Stands (D.disk journal.new.disk) journal.new.gate journal.new.doubt host.new.history
        doubt.new.items }
    ensures answered { (replies : Replies) × Tells result verdicts.new replies
        × (IsAnswered host.old.history (record { submitter = submitter.now; moment = moment; messages = messages.now })
        (record { history = host.new.history; doubt = doubt.new.items }) replies
        ⊎ IsDoubted host.old.history (record { submitter = submitter.now; moment = moment; messages = messages.now })
        (record { history = host.new.history; doubt = doubt.new.items }) replies) }
    ensures sealed { DependOnNoOthers messages.now
        → verdicts_on host.old.history submitter.now (running host.old.history moment) messages.now
        ≡ verdicts_on (own_part submitter.now host.old.history) submitter.now (running host.old.history moment)
        messages.now }
    ensures crash { CrashesLeave (IsOneOf (record { history = host.old.history; doubt = [] })
        (record { history = host.new.history; doubt = doubt.new.items }))
        (D.disk journal.old.disk) (D.disk journal.new.disk) }
    ensures fault { result ≡ group.DiskFault → Rose (D.disk journal.old.disk).faults (D.disk journal.new.disk).faults }
    ensures no_fault { result ≢ group.DiskFault → (D.disk journal.new.disk).faults ≡ (D.disk journal.old.disk).faults }
    ensures count { NeverFalls (D.disk journal.old.disk).faults (D.disk journal.new.disk).faults }
    ensures buffers { (64 ≤ vec_capacity doubt.new) × (32768 ≤ vec_capacity payload.new) }
{
    let last = host.last();
    let moment = moment.later(last);
    judge(host, doubt, submitter, moment, messages, verdicts);
    if is_empty(doubt.as_slice()) {
        return GroupReply::Verdicts;
    }
    match add_group(journal, payload, doubt.as_slice()) {
        Ok(()) => {
            doubt.clear();
            GroupReply::Verdicts
        }
        Err(DiskFault) => {
            take_back(host, doubt.as_slice(), last, moment);
            blank(verdicts);
            GroupReply::DiskFault
        }
    }
}

// Nothing in each place.
fn blank(verdicts: &mut [Option<Verdict>; 64])
    ensures { verdicts.new ≡ replicate 64 None }
{
    let none = [None; 64];
    *verdicts = none;
}

/// One turn of a group of bids: what is in doubt is resolved, and then the bids are answered.
pub fn turn_group<D: Disk>(
    journal: &mut Journal<D>,
    host: &mut Host,
    doubt: &mut Vec<Entry>,
    payload: &mut Vec<u8>,
    submitter: &Ident,
    moment: Moment,
    messages: &[(u64, Message)],
    verdicts: &mut [Option<Verdict>; 64],
) -> GroupReply
    requires stands { Stands (D.disk journal.old.disk) journal.old.gate journal.old.doubt host.old.history
        doubt.old.items }
    requires few { length messages.now ≤ 64 }
    requires numbered { AreNumbered messages.now }
    requires bids { AreBids messages.now }
    requires room { Fits host.old.room (messages_of doubt.old.items ++ asked_of messages.now) }
    requires buffers { (64 ≤ vec_capacity doubt.old) × (32768 ≤ vec_capacity payload.old) }
    ensures stands { Stands (D.disk journal.new.disk) journal.new.gate journal.new.doubt host.new.history
        doubt.new.items }
    ensures turn { (replies : Replies) × Tells result verdicts.new replies
        × Turns journal.old.gate (D.disk journal.old.disk)
        (record { submitter = submitter.now; moment = moment; messages = messages.now })
        (record { history = host.old.history; doubt = doubt.old.items })
        (record { history = host.new.history; doubt = doubt.new.items }) replies }
    ensures crash { CrashesLeave (IsOneOf (record { history = host.old.history; doubt = doubt.old.items })
        (record { history = host.new.history; doubt = doubt.new.items }))
        (D.disk journal.old.disk) (D.disk journal.new.disk) }
    ensures fault { result ≡ group.DiskFault → Rose (D.disk journal.old.disk).faults (D.disk journal.new.disk).faults }
    ensures no_fault { result ≢ group.DiskFault → (D.disk journal.new.disk).faults ≡ (D.disk journal.old.disk).faults }
    ensures count { NeverFalls (D.disk journal.old.disk).faults (D.disk journal.new.disk).faults }
    ensures buffers { (64 ≤ vec_capacity doubt.new) × (32768 ≤ vec_capacity payload.new) }
{
    let _ = submitter.bytes();
    match settle(journal, host, doubt) {
        Err(DiskFault) => {
            blank(verdicts);
            GroupReply::DiskFault
        }
        Ok(()) => answer_group(
            journal, host, doubt, payload, submitter, moment, messages, verdicts,
        ),
    }
}
