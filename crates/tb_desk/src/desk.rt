//! The desk between its calls.
ghost use Rattle.std.specs.Prelude.{ℕ, ◌≡◌, ◌≢◌, ◌⊎◌, ◌+◌, ◌*◌, ◌≤◌, ◌++◌, ◌∷◌, [], ◌↔◌, List, None, Some, map, true, false, IsTrue, IfSome, OnOk, OnErr, IfOk, IfErr, IsNone, Ok, Err, length, slice_get, Contains, vec_capacity};
ghost use Rattle.tb_link.specs.Counts.{Rose, NeverFalls, last_count};
ghost use Rattle.tb_disk.specs.Past.{contents_of};
ghost use Rattle.tb_terms.specs.declared.refusal.Refusal.{Refusal};
ghost use Rattle.tb_message.specs.declared.message.Entry.{Entry};
ghost use Rattle.tb_message.specs.Spelling.{IsNumbered};
ghost use Rattle.tb_history.specs.Roster.{registrations, publications, is_published};
ghost use Rattle.tb_history.specs.Legal.{IsLegal, last_of};
ghost use Rattle.tb_history.specs.OwnPart.{own_part};
ghost use Rattle.tb_history.specs.Answer.{submitter_of, query_refusal, asks_on};
ghost use Rattle.tb_history.specs.Readings.{IsReading};
ghost use Rattle.tb_core.specs.declared.refused.QueryRefused.TheVariants as answer;
ghost use Rattle.tb_core.specs.Rooms.{Fits, KeepsRoom, behind, behind_all};
ghost use Rattle.tb_disk.specs.Disks.{DiskState};
ghost use Rattle.tb_journal.specs.Journal.{Told};
ghost use Rattle.tb_journal.specs.Opening.{Finds, IsHarmless, Opens};
ghost use Rattle.tb_journal.specs.Places.{StandsAt, StandsBetween};
ghost use Rattle.tb_journal.specs.Windows.{Shows};
ghost use Rattle.tb_desk.specs.declared.reply.Reply.TheVariants as reply;
ghost use Rattle.tb_desk.specs.declared.reply.GroupReply.TheVariants as group;
ghost use Rattle.tb_desk.specs.declared.fault.OpenFault.TheVariants as fault;
ghost use Rattle.tb_desk.specs.Stands.{StandsForHistory, StandsForEither, Stands, CrashesLeave, LeavesEither};
ghost use Rattle.tb_desk.specs.Replay.{IsExact, LeavesRefused};
ghost use Rattle.tb_desk.specs.Replaying.{IsReplayed, IsReplayFault};
ghost use Rattle.tb_desk.specs.Repeats.{IsRepeatAt};
ghost use Rattle.tb_desk.specs.Walking.{IsBehind, GivesGroup};
ghost use Rattle.tb_desk.specs.Remains.{HasRemains};
ghost use Rattle.tb_desk.specs.Turn.{Turns, Replies, IsOneOf, AreBids, AreNumbered};
ghost use Rattle.tb_desk.specs.Desks.{held, noted, IsSame, IsRead, CrashesSince, replies_of, Tells, told_by, CountsFault, doubted_by};

use crate::fault::{OpenFault, lifted};
use crate::frames::Frames;
use crate::remains::{Remains, remains_of};
use crate::replay::replay;
use crate::reply::{GroupReply, Reply};
use crate::steps::{turn, turn_group};
use http_server::Log;
use std::alloc::Global;
use std::marker::Model;
use std::snapshot::Snapshot;
use tb_core::{Host, QueryRefused};
use tb_disk::Disk;
use tb_history::Reading;
use tb_journal::{DiskFault, Journal, Window};
use tb_message::{Entry, Message, Query, Verdict};
use tb_units::{Ident, Moment, OutOfMemory};

// Entries of the longest group, and bytes of the longest payload.
const LONGEST_GROUP: usize = 64;

const LONGEST_PAYLOAD: usize = 32_768;

/// The host machine on a disk. It keeps the group in doubt. For contracts alone, and in no memory, it keeps the disk as
/// the opening left it, and the groups that were in doubt after a call, each with how many entries stood before it.
#[derive(Drop)]
pub struct Desk<D: Disk> {
    journal: Journal<D>,
    host: Host,
    doubt: Vec<Entry>,
    payload: Vec<u8>,
    faults: u64,
    recovered: u64,
    opened: Snapshot<Journal<D>>,
    doubted: Log<u64, Vec<Entry>>,
}

impl<D: Disk> Model for Desk<D> {
    ghost use Rattle.std.specs.Prelude.{map, vec_capacity};
    ghost use Rattle.tb_desk.specs.Desks.{DeskView, desk_code, noted, IsDesk, HasBuffers};

    ghost Value = { DeskView D };

    ghost coded = { desk_code D.code };

    ghost view = { λ a. record {
      disk = a.journal.disk;
      opened = a.opened.value.disk;
      host = a.host;
      doubt = a.doubt.items;
      gate = a.journal.gate;
      recovered = a.recovered;
      faults = a.faults;
      doubted = map noted a.doubted.items;
    } };

    ghost invariant = { λ a. IsDesk (D.disk a.journal.disk) (D.disk a.opened.value.disk) a.journal.gate a.journal.doubt
        a.host.history a.doubt.items a.recovered a.faults (map noted a.doubted.items)
        × HasBuffers (vec_capacity a.doubt) (vec_capacity a.payload) };
}

// A desk that was just opened.
fn opened<D: Disk>(journal: Journal<D>, host: Host, doubt: Vec<Entry>, payload: Vec<u8>) -> Desk<D>
    requires stands { Stands (D.disk journal.disk) journal.gate journal.doubt host.history [] }
    requires sure { doubt.items ≡ [] }
    requires buffers { (64 ≤ vec_capacity doubt) × (32768 ≤ vec_capacity payload) }
    ensures disk { (result.disk ≡ journal.disk) × (result.opened ≡ journal.disk) × (result.gate ≡ journal.gate) }
    ensures host { result.host ≡ host }
    ensures made { (result.doubt ≡ []) × (result.recovered ≡ length host.history) × (result.faults ≡ 0)
        × (result.doubted ≡ []) }
{
    Desk {
        opened: Snapshot::of(&journal),
        recovered: host.entries(),
        journal,
        host,
        doubt,
        payload,
        faults: 0,
        doubted: Log::new(),
    }
}

// The count of faults after a reply.
fn faults_after(reply: &Reply, faults: u64) -> u64
    ensures { CountsFault (replies_of reply.now) faults result }
{
    match reply {
        Reply::DiskFault => faults.saturating_add(1),
        Reply::Verdict(_) => faults,
    }
}

// Notes the group that is in doubt after a reply, where that is a disk fault.
fn note(reply: &Reply, doubted: &mut Log<u64, Vec<Entry>>, host: &Host, doubt: &Vec<Entry>)
    ensures { map noted doubted.new.items ≡ map noted doubted.old.items
        ++ doubted_by (replies_of reply.now) (record { history = host.now.history; doubt = doubt.now.items }) }
{
    if let Reply::DiskFault = reply {
        *doubted = doubted.and(&host.entries(), doubt);
    }
}

impl<D: Disk> Desk<D> {
    /// Opens the desk on a disk, with the history that it stands for. A refusal hands the disk back.
    pub fn open(alloc: Global, disk: D) -> Result<Desk<D>, (D, OpenFault)>
        ensures found { IfOk result (λ desk. IfSome (D.disk disk).past
            (λ past. StandsForHistory desk.host.history (contents_of past))) }
        ensures made { IfOk result (λ desk. (desk.doubt ≡ []) × (desk.recovered ≡ length desk.host.history)
            × (desk.faults ≡ 0) × (desk.opened ≡ desk.disk) × (desk.doubted ≡ [])) }
        // Each answer is given exactly where it is true of the file.
        ensures exact { IfOk result (λ desk. IfSome (D.disk disk).past
            (λ past. IsExact (contents_of past) (Ok desk.host.history))) }
        ensures exact_refusal { IfErr result (λ refused. IfSome (D.disk disk).past
            (λ past. IsExact (contents_of past) (Err refused.1))) }
        // It begins with a sync. Over more than 18 bytes that is all; else it writes an empty journal and syncs.
        ensures steps { IfOk result (λ desk. Told (D.disk disk) (D.disk desk.disk) Opens) }
        // A refused file was synced and nothing else. A failing disk or want of memory breaks off what an opening does.
        ensures refused { IfErr result (λ refused. Told (D.disk disk) (D.disk refused.0) (LeavesRefused refused.1)) }
        // A crash at any moment leaves what a crash before the call could leave, or what stands for the same payloads.
        ensures crash { IfOk result (λ desk. Told (D.disk disk) (D.disk desk.disk) IsHarmless) }
        ensures crash_refused { IfErr result (λ refused. Told (D.disk disk) (D.disk refused.0) IsHarmless) }
        ensures fault { IfErr result (λ refused. refused.1 ≡ fault.DiskFault
            → Rose (D.disk disk).faults (D.disk refused.0).faults) }
        ensures no_fault { IfOk result (λ desk. (D.disk desk.disk).faults ≡ (D.disk disk).faults) }
        ensures no_fault_refused { IfErr result (λ refused. refused.1 ≢ fault.DiskFault
            → (D.disk refused.0).faults ≡ (D.disk disk).faults) }
        ensures count_refused { IfErr result (λ refused. NeverFalls (D.disk disk).faults (D.disk refused.0).faults) }
    {
        match Journal::open(alloc, disk) {
            Err((disk, fault)) => Err((disk, lifted(fault))),
            Ok(journal) => ready(alloc, journal),
        }
    }

    /// Takes the memory for a message, and for what is in doubt. It is wanting only where there is no room afterwards.
    pub fn make_room(&mut self, message: &Message) -> Result<(), OutOfMemory>
        ensures fits { OnOk result (Fits self.new.host.room (behind self.new.doubt message.now)) }
        ensures lacks { OnErr result (¬ Fits self.new.host.room (behind self.new.doubt message.now)) }
        // All else stays, and no room is lost, whatever the result.
        ensures history { self.new.host.history ≡ self.old.host.history }
        ensures room { KeepsRoom self.old.host.room self.new.host.room }
        ensures same { IsSame self.old self.new }
    {
        match self.host.make_room(&self.doubt, message) {
            Err(_) if self.has_room(message) => Ok(()),
            made => made,
        }
    }

    /// Whether there is room for a message, and for what is in doubt.
    pub fn has_room(&self, message: &Message) -> bool
        ensures { (result ≡ true) ↔ Fits self.now.host.room (behind self.now.doubt message.now) }
    {
        self.host.has_room(&self.doubt, message)
    }

    /// The submitter that is registered with the key.
    pub fn caller(&self, key: &Ident) -> Option<Ident>
        ensures { result ≡ submitter_of (registrations self.now.host.history) key.now }
    {
        self.host.caller(key)
    }

    /// The moment of the last entry, and the first moment there is where there is none.
    pub fn last(&self) -> Moment
        ensures { result.seconds ≡ last_of self.now.host.history }
    {
        self.host.last()
    }

    /// How many entries there are.
    pub fn entries(&self) -> u64
        ensures entries { result ≡ length self.now.host.history }
        ensures limit { length self.now.host.history ≤ 4097 * 1048576 }
        ensures legal { IsLegal self.now.host.history }
        ensures accepted { IsLegal (self.now.host.history ++ self.now.doubt) }
        ensures recovers { self.now.recovered ≤ length self.now.host.history }
        // What every crash since the opening left, and what one now leaves.
        ensures since { CrashesSince (D.disk self.now.opened) (D.disk self.now.disk) self.now.host.history
            self.now.doubt self.now.recovered self.now.faults self.now.doubted }
        ensures leaves { LeavesEither (D.disk self.now.disk) self.now.host.history self.now.doubt }
    {
        self.host.entries()
    }

    /// The auction whose results were published when so many had been before: none where there are not more.
    pub fn published(&self, place: u64) -> Option<Ident>
        ensures { result ≡ slice_get (publications self.now.host.history) place }
    {
        self.host.published(place)
    }

    /// Whether the entry stands in the history.
    pub fn stands(&self, entry: &Entry) -> bool
        ensures { IsTrue result ↔ Contains self.now.host.history entry.now }
    {
        let verdict = self.host.decide(
            &entry.submitter,
            entry.number,
            entry.moment,
            &entry.message,
        );
        repeats_at(&verdict, entry.moment)
    }

    /// The place in the journal where the first group stands, or will stand: no entry stands before it.
    pub fn first_place(&self) -> u64
        requires sure { self.now.doubt ≡ [] }
        ensures place { StandsAt (D.disk self.now.disk) self.now.gate result }
        ensures behind { IfSome (D.disk self.now.disk).past (IsBehind self.now.host.history self.now.gate result 0) }
    {
        let _ = &self.journal;
        Journal::<D>::first_place()
    }

    /// Reads the payload of the group at a place into the window: the records of its entries, one behind the other. It
    /// gives the payload's length and the place behind the group; behind the last group there is none. The window shows
    /// this disk or nothing yet. A fault leaves nothing in doubt, and isn't counted by `faults`.
    ///
    /// Where the disk doesn't tell its contents a payload may read otherwise than it was opened. One that reads as none
    /// is given as no bytes that end at the gate.
    pub fn next_group(
        &mut self,
        place: u64,
        into: &mut Window,
    ) -> Result<Option<(usize, u64)>, DiskFault>
        requires sure { self.old.doubt ≡ [] }
        requires place { StandsAt (D.disk self.old.disk) self.old.gate place }
        requires window { Shows (D.disk self.old.disk) into.old }
        ensures end { IfOk result (λ found. IsNone found ↔ (place ≡ self.old.gate)) }
        // Behind so many entries stands the group that follows on them, and behind the last group stand all.
        ensures group { IfOk result (λ found. IfSome found (λ group. IfSome (D.disk self.old.disk).past (λ past.
            (before : ℕ) → IsBehind self.old.host.history self.old.gate place before past
            → GivesGroup self.old.host.history self.old.gate before into.new.payload group.1 past))) }
        ensures all { IfOk result (λ found. IsNone found → IfSome (D.disk self.old.disk).past (λ past.
            (before : ℕ) → IsBehind self.old.host.history self.old.gate place before past
            → before ≡ length self.old.host.history)) }
        ensures size { IfOk result (λ found. IfSome found (λ group. group.0 ≡ length into.new.payload)) }
        ensures between { IfOk result (λ found. IfSome found
            (λ group. StandsBetween self.old.gate place group.0 group.1)) }
        ensures next { IfOk result (λ found. IfSome found
            (λ group. StandsAt (D.disk self.new.disk) self.new.gate group.1)) }
        ensures window { Shows (D.disk self.new.disk) into.new }
        ensures kept { (D.disk self.new.disk).past ≡ (D.disk self.old.disk).past }
        ensures same { IsRead self.old self.new }
        ensures fault { OnErr result (Rose (D.disk self.old.disk).faults (D.disk self.new.disk).faults) }
        ensures no_fault { OnOk result ((D.disk self.new.disk).faults ≡ (D.disk self.old.disk).faults) }
        ensures count { NeverFalls (D.disk self.old.disk).faults (D.disk self.new.disk).faults }
    {
        self.journal.next_frame(place, into)
    }

    /// What remains in the journal behind its last group. A fault leaves nothing in doubt, and isn't counted by `faults`.
    pub fn remains(&mut self) -> Result<Remains, DiskFault>
        requires sure { self.old.doubt ≡ [] }
        ensures finds { IfOk result (λ found. IfSome (D.disk self.old.disk).past
            (λ past. HasRemains (contents_of past) found)) }
        ensures kept { (D.disk self.new.disk).past ≡ (D.disk self.old.disk).past }
        ensures same { IsRead self.old self.new }
        ensures fault { OnErr result (Rose (D.disk self.old.disk).faults (D.disk self.new.disk).faults) }
        ensures no_fault { OnOk result ((D.disk self.new.disk).faults ≡ (D.disk self.old.disk).faults) }
        ensures count { NeverFalls (D.disk self.old.disk).faults (D.disk self.new.disk).faults }
    {
        let mut window = Window::new();
        self.journal.read_behind(&mut window)?;
        let gate = self.journal.gate();
        let ordinal = self.journal.ordinal();
        Ok(remains_of(gate, ordinal, window.payload()))
    }

    /// Whether a group is in doubt.
    pub fn unsure(&self) -> bool
        ensures { IsTrue result ↔ (1 ≤ length self.now.doubt) }
    {
        !self.doubt.is_empty()
    }

    /// How many of its calls since the opening were answered with a disk fault, or the last value of a count where
    /// there were more.
    pub fn faults(&self) -> u64
        ensures faults { result ≡ self.now.faults }
        ensures counted { ((D.disk self.now.opened).faults + result ≤ (D.disk self.now.disk).faults)
            ⊎ ((D.disk self.now.disk).faults ≡ last_count) }
    {
        self.faults
    }

    /// The disk as it stands.
    pub fn into_disk(self) -> D
        ensures disk { result ≡ self.disk }
        ensures legal { IsLegal self.host.history }
        ensures accepted { IsLegal (self.host.history ++ self.doubt) }
        ensures stands { IfSome (D.disk result).past
            (λ past. StandsForEither self.host.history self.doubt (contents_of past)) }
        ensures leaves { LeavesEither (D.disk result) self.host.history self.doubt }
        ensures since { CrashesSince (D.disk self.opened) (D.disk result) self.host.history self.doubt self.recovered
            self.faults self.doubted }
        ensures counted { ((D.disk self.opened).faults + self.faults ≤ (D.disk result).faults)
            ⊎ ((D.disk result).faults ≡ last_count) }
    {
        let Desk {
            journal,
            host: _,
            doubt: _,
            payload: _,
            faults: _,
            recovered: _,
            opened: _,
            doubted: _,
        } = self;
        journal.into_disk()
    }

    /// What a query of the submitter is answered, by the entries that count.
    pub fn read(
        &self,
        alloc: Global,
        submitter: &Ident,
        query: &Query,
    ) -> Result<Reading, QueryRefused>
        ensures refused { (refusal : Refusal) → (result ≡ Err (answer.Refused refusal))
            ↔ (query_refusal self.now.host.history submitter.now query.now ≡ Some refusal) }
        ensures reading { IfOk result (λ reading. IsReading self.now.host.history submitter.now query.now reading) }
        // Answers are sealed: a refusal is that on the submitter's own part of the history, and so is what is read on
        // an auction whose results aren't published.
        ensures sealed_refusal { (refusal : Refusal) → (result ≡ Err (answer.Refused refusal))
            ↔ (query_refusal (own_part submitter.now self.now.host.history) submitter.now query.now ≡ Some refusal) }
        ensures sealed_reading { (auction : List ℕ) → asks_on auction query.now ≡ true
            → is_published self.now.host.history auction ≡ false
            → IfOk result
            (λ reading. IsReading (own_part submitter.now self.now.host.history) submitter.now query.now reading) }
    {
        self.host.read(alloc, submitter, query)
    }

    /// Answers a message: what is in doubt is resolved, and then the verdict is given at the running moment. What is
    /// accepted stays through a crash at any moment from then on.
    pub fn submit(
        &mut self,
        submitter: &Ident,
        number: u64,
        moment: Moment,
        message: &Message,
    ) -> Reply
        requires room { Fits self.old.host.room (behind self.old.doubt message.now) }
        requires numbered { IsNumbered number message.now }
        // The four ways of a turn.
        ensures turn { Turns self.old.gate (D.disk self.old.disk)
            (record { submitter = submitter.now; moment = moment; messages = (number, message.now) ∷ [] })
            (held self.old) (held self.new) (replies_of result) }
        // A crash at any moment of the call leaves one of these histories.
        ensures crash { CrashesLeave (IsOneOf (held self.old) (held self.new)) (D.disk self.old.disk)
            (D.disk self.new.disk) }
        // From then on a crash leaves the history, and after a fault it or that with what is in doubt.
        ensures sure { result ≢ reply.DiskFault → self.new.doubt ≡ [] }
        ensures leaves { LeavesEither (D.disk self.new.disk) self.new.host.history self.new.doubt }
        ensures fault { result ≡ reply.DiskFault → Rose (D.disk self.old.disk).faults (D.disk self.new.disk).faults }
        ensures no_fault { result ≢ reply.DiskFault → (D.disk self.new.disk).faults ≡ (D.disk self.old.disk).faults }
        ensures count { NeverFalls (D.disk self.old.disk).faults (D.disk self.new.disk).faults }
        ensures faults { CountsFault (replies_of result) self.old.faults self.new.faults }
        // After a disk fault the group that is in doubt then is noted.
        ensures doubted { self.new.doubted ≡ self.old.doubted ++ doubted_by (replies_of result) (held self.new) }
        ensures kept { (self.new.opened ≡ self.old.opened) × (self.new.recovered ≡ self.old.recovered) }
    {
        let reply = turn(
            &mut self.journal,
            &mut self.host,
            &mut self.doubt,
            &mut self.payload,
            submitter,
            number,
            moment,
            message,
        );
        self.faults = faults_after(&reply, self.faults);
        note(&reply, &mut self.doubted, &self.host, &self.doubt);
        reply
    }

    /// Takes the memory for a group of bids, and for what is in doubt. It is wanting only where there is no room
    /// afterwards.
    pub fn make_room_group(&mut self, messages: &[(u64, Message)]) -> Result<(), OutOfMemory>
        ensures fits { OnOk result (Fits self.new.host.room (behind_all self.new.doubt messages.now)) }
        ensures lacks { OnErr result (¬ Fits self.new.host.room (behind_all self.new.doubt messages.now)) }
        ensures history { self.new.host.history ≡ self.old.host.history }
        ensures room { KeepsRoom self.old.host.room self.new.host.room }
        ensures same { IsSame self.old self.new }
    {
        match self.host.make_room_group(&self.doubt, messages) {
            Err(_) if self.has_room_group(messages) => Ok(()),
            made => made,
        }
    }

    /// Whether there is room for a group of bids, and for what is in doubt.
    pub fn has_room_group(&self, messages: &[(u64, Message)]) -> bool
        ensures { (result ≡ true) ↔ Fits self.now.host.room (behind_all self.now.doubt messages.now) }
    {
        self.host.has_room_group(&self.doubt, messages)
    }

    /// Answers a group of bids of one submitter at one moment, under one gate: each is judged on the history and the
    /// bids before it that were accepted, and a crash keeps all that were accepted or none of them. The first places
    /// hold the verdicts in order, the others nothing; after a fault none does.
    pub fn submit_group(
        &mut self,
        submitter: &Ident,
        moment: Moment,
        messages: &[(u64, Message)],
        verdicts: &mut [Option<Verdict>; 64],
    ) -> GroupReply
        requires size { (1 ≤ length messages.now) × (length messages.now ≤ 64) }
        requires bids { AreBids messages.now }
        requires numbered { AreNumbered messages.now }
        requires room { Fits self.old.host.room (behind_all self.old.doubt messages.now) }
        // The ways of a turn.
        ensures turn { (replies : Replies) × Tells result verdicts.new replies
            × Turns self.old.gate (D.disk self.old.disk)
            (record { submitter = submitter.now; moment = moment; messages = messages.now })
            (held self.old) (held self.new) replies }
        ensures crash { CrashesLeave (IsOneOf (held self.old) (held self.new)) (D.disk self.old.disk)
            (D.disk self.new.disk) }
        ensures sure { result ≢ group.DiskFault → self.new.doubt ≡ [] }
        ensures leaves { LeavesEither (D.disk self.new.disk) self.new.host.history self.new.doubt }
        ensures fault { result ≡ group.DiskFault → Rose (D.disk self.old.disk).faults (D.disk self.new.disk).faults }
        ensures no_fault { result ≢ group.DiskFault → (D.disk self.new.disk).faults ≡ (D.disk self.old.disk).faults }
        ensures count { NeverFalls (D.disk self.old.disk).faults (D.disk self.new.disk).faults }
        ensures faults { CountsFault (told_by result) self.old.faults self.new.faults }
        ensures doubted { self.new.doubted ≡ self.old.doubted ++ doubted_by (told_by result) (held self.new) }
        ensures kept { (self.new.opened ≡ self.old.opened) × (self.new.recovered ≡ self.old.recovered) }
    {
        let reply = turn_group(
            &mut self.journal,
            &mut self.host,
            &mut self.doubt,
            &mut self.payload,
            submitter,
            moment,
            messages,
            verdicts,
        );
        self.faults = faults_after_group(&reply, self.faults);
        note_group(&reply, &mut self.doubted, &self.host, &self.doubt);
        reply
    }
}

// Whether the verdict is a repeat of an entry at this moment.
fn repeats_at(verdict: &Verdict, moment: Moment) -> bool
    ensures { IsTrue result ↔ IsRepeatAt verdict.now moment }
{
    match verdict {
        Verdict::Repeat { moment: kept, .. } => *kept == moment,
        _ => false,
    }
}

// The count of faults after a reply to a group.
fn faults_after_group(reply: &GroupReply, faults: u64) -> u64
    ensures { CountsFault (told_by reply.now) faults result }
{
    match reply {
        GroupReply::DiskFault => faults.saturating_add(1),
        GroupReply::Verdicts => faults,
    }
}

// Notes the group that is in doubt after a reply to a group, where that is a disk fault.
fn note_group(
    reply: &GroupReply,
    doubted: &mut Log<u64, Vec<Entry>>,
    host: &Host,
    doubt: &Vec<Entry>,
)
    ensures { map noted doubted.new.items ≡ map noted doubted.old.items
        ++ doubted_by (told_by reply.now) (record { history = host.now.history; doubt = doubt.now.items }) }
{
    if let GroupReply::DiskFault = reply {
        *doubted = doubted.and(&host.entries(), doubt);
    }
}

// A desk on a journal that was just opened.
fn ready<D: Disk>(alloc: Global, mut journal: Journal<D>) -> Result<Desk<D>, (D, OpenFault)>
    requires opened { journal.opened ≡ journal.disk }
    requires sure { journal.doubt ≡ None }
    requires first { StandsAt (D.disk journal.disk) journal.gate 17 }
    requires finds { (old : DiskState) × Told old (D.disk journal.disk) (Finds journal.gate) }
    ensures found { IfOk result (λ desk. IsReplayed (D.disk journal.disk) journal.gate desk.host.history) }
    ensures made { IfOk result (λ desk. (desk.doubt ≡ []) × (desk.recovered ≡ length desk.host.history)
        × (desk.faults ≡ 0) × (desk.opened ≡ desk.disk) × (desk.doubted ≡ [])) }
    ensures refused { IfErr result (λ refused. IsReplayFault (D.disk journal.disk) journal.gate refused.1) }
    ensures kept { IfOk result (λ desk. (D.disk desk.disk).past ≡ (D.disk journal.disk).past) }
    ensures kept_refused { IfErr result (λ refused. (D.disk refused.0).past ≡ (D.disk journal.disk).past) }
    ensures fault { IfErr result (λ refused. refused.1 ≡ fault.DiskFault
        → Rose (D.disk journal.disk).faults (D.disk refused.0).faults) }
    ensures no_fault { IfOk result (λ desk. (D.disk desk.disk).faults ≡ (D.disk journal.disk).faults) }
    ensures no_fault_refused { IfErr result (λ refused. refused.1 ≢ fault.DiskFault
        → (D.disk refused.0).faults ≡ (D.disk journal.disk).faults) }
    ensures count_refused { IfErr result (λ refused. NeverFalls (D.disk journal.disk).faults
        (D.disk refused.0).faults) }
{
    let Ok(doubt) = Vec::with_capacity(alloc, LONGEST_GROUP) else {
        return Err((journal.into_disk(), OpenFault::OutOfMemory));
    };
    let Ok(payload) = Vec::with_capacity(alloc, LONGEST_PAYLOAD) else {
        return Err((journal.into_disk(), OpenFault::OutOfMemory));
    };
    match replay(alloc, &mut journal) {
        Ok(host) => Ok(opened(journal, host, doubt, payload)),
        Err(fault) => Err((journal.into_disk(), fault)),
    }
}
