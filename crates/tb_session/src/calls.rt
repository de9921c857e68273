//! Calls of the room.
ghost use Rattle.std.specs.Prelude.{◌≡◌, ◌≢◌, ◌≤◌, ◌↔◌, Some, None, IsTrue, IsSome};
ghost use Rattle.tb_units.specs.declared.moment.Moment.{Moment};
ghost use Rattle.tb_link.specs.Counts.{NeverFalls, Rose, last_count};
ghost use Rattle.tb_message.specs.declared.message.Entry.{Entry};
ghost use Rattle.tb_message.specs.Spelling.{IsNumbered};
ghost use Rattle.tb_history.specs.Legal.{IsLegal, running};
ghost use Rattle.tb_core.specs.Rooms.{Fits, behind};
ghost use Rattle.tb_desk.specs.Desks.{held};
ghost use Rattle.tb_desk.specs.Stands.{CrashesLeave};
ghost use Rattle.tb_desk.specs.Turn.{IsOneOf};
ghost use Rattle.tb_session.specs.declared.answer.Answer.TheVariants as answer;
ghost use Rattle.tb_session.specs.declared.called.Called.{Called};
ghost use Rattle.tb_session.specs.declared.called.Ask.TheVariants as ask;
ghost use Rattle.tb_session.specs.Calls.{TellsUnknown, caller_on, fault_for};
ghost use Rattle.tb_session.specs.Turned.{Calls, CanBeTold, Does, IsFaultOf, IsNumberedAsk, LacksRoom, LeavesDesk, before_of, message_call, outcome_by, query_call};

use crate::answer::Answer;
use crate::called::{Ask, Called, Outcome};
use crate::room::Room;
use crate::turn::Turn;
use std::alloc::Global;
use tb_core::QueryRefused;
use tb_desk::Reply;
use tb_disk::Disk;
use tb_gates::Clock;
use tb_message::{Entry, Key, Message, Query, Verdict};
use tb_report::readings_are_printable;
use tb_terms::Refusal;
use tb_units::{Ident, Moment};

impl<D: Disk, C: Clock> Room<D, C> {
    /// Whether the key is the operator's or a submitter's.
    pub fn knows(&self, key: &Key) -> bool
        ensures { IsTrue result ↔ IsSome (caller_on self.now.operator self.now.desk.host.history key.now) }
    {
        self.caller(key).is_some()
    }

    /// Answers a message of the key's caller, at a reading of the clock. An unknown key is refused before memory is
    /// taken. Where memory runs out the desk is as it was, its disk with it, and that is answered only where the desk has
    /// no room for the message then.
    pub fn submit(&mut self, key: &Key, number: u64, message: &Message) -> Answer
        requires numbered { IsNumbered number message.now }
        ensures calls { (c : Called) × (c.key ≡ key.now) × (c.ask ≡ ask.Message number message.now)
            × Calls D.disk C.clock self.old self.new c result }
        ensures lacked { result ≡ answer.OutOfMemory → LeavesDesk self.old self.new }
        ensures lacks { result ≡ answer.OutOfMemory
            → ¬ Fits self.new.desk.host.room (behind self.new.desk.doubt message.now) }
        ensures unknown { TellsUnknown (caller_on self.old.operator self.old.desk.host.history key.now) result }
        ensures unasked { caller_on self.old.operator self.old.desk.host.history key.now ≡ None
            → self.new.desk ≡ self.old.desk }
        ensures fault { result ≡ answer.DiskFault → Rose (D.disk self.old.desk.disk).faults
            (D.disk self.new.desk.disk).faults }
        ensures no_fault { result ≢ answer.DiskFault → (D.disk self.new.desk.disk).faults
            ≡ (D.disk self.old.desk.disk).faults }
        ensures count { NeverFalls (D.disk self.old.desk.disk).faults (D.disk self.new.desk.disk).faults }
    {
        let Turn {
            called: _,
            answer,
            before: _,
        } = self.message(key, number, message);
        answer
    }

    /// What the key's caller asks, by the entries that count. It reads no clock and touches no disk.
    pub fn read(&mut self, alloc: Global, key: &Key, query: &Query) -> Answer
        ensures calls { (c : Called) × (c.key ≡ key.now) × (c.ask ≡ ask.Query query.now)
            × Calls D.disk C.clock self.old self.new c result }
        ensures same { self.new ≡ self.old }
        ensures unknown { TellsUnknown (caller_on self.old.operator self.old.desk.host.history key.now) result }
        ensures no_fault { result ≢ answer.DiskFault }
    {
        let Turn {
            called: _,
            answer,
            before: _,
        } = self.query(alloc, key, query);
        answer
    }

    // The submitter whose key it is, or the operator.
    pub(crate) fn caller(&self, key: &Key) -> Option<Ident>
        ensures { result ≡ caller_on self.now.operator self.now.desk.host.history key.now }
    {
        match key {
            Key::Submitter(word) => self.desk.caller(word),
            Key::Operator(name) if *name == self.operator => Ident::of_bytes(b"operator"),
            Key::Operator(_) => None,
        }
    }

    // The turn of a call that was just made.
    fn turn(&self, called: Called, answer: Answer) -> Turn
        ensures call { (result.called ≡ called) × (result.answer ≡ answer) }
        ensures before { result.before ≡ before_of called.outcome self.now.desk.host.history }
    {
        let entries = self.desk.entries();
        let before = match called.outcome {
            Outcome::Added(_) => entries.saturating_sub(1),
            _ => entries,
        };
        Turn {
            called,
            answer,
            before,
        }
    }

    // The history is legal, and a count of faults has a last value.
    pub(crate) fn know_desk(&self)
        ensures legal { IsLegal self.now.desk.host.history }
        ensures limited { self.now.desk.faults ≤ last_count }
        // Where nothing happens a crash leaves the history, or it and what is in doubt.
        ensures still { CrashesLeave (IsOneOf (held self.now.desk) (held self.now.desk)) (D.disk self.now.desk.disk)
            (D.disk self.now.desk.disk) }
    {
        let _entries = self.desk.entries();
        let faults = self.desk.faults();
        let _rest = u64::MAX - faults;
    }

    // The entry of a message that met a fault, on the history that stands.
    fn doubted(&self, submitter: &Ident, number: u64, moment: Moment, message: &Message) -> Entry
        ensures { let at = running self.now.desk.host.history moment in
            result ≡ record { submitter = submitter.now; number = number; moment = at; message = message.now } }
    {
        Entry {
            submitter: *submitter,
            number,
            moment: moment.later(self.desk.last()),
            message: *message,
        }
    }

    // A message of the key's caller, at a moment.
    fn submit_at(
        &mut self,
        key: &Key,
        number: u64,
        moment: Moment,
        message: &Message,
    ) -> (Outcome, Answer)
        requires numbered { IsNumbered number message.now }
        ensures does { let called = message_call key.now number moment message.now result.0 in
            Does self.old.operator (held self.old.desk) (held self.new.desk) self.old.desk.faults self.new.desk.faults
            called result.1 }
        ensures same { (self.new.operator ≡ self.old.operator) × (self.new.desk.opened ≡ self.old.desk.opened)
            × (self.new.clock ≡ self.old.clock) }
        ensures recovered { self.new.desk.recovered ≡ self.old.desk.recovered }
        ensures crash { CrashesLeave (IsOneOf (held self.old.desk) (held self.new.desk)) (D.disk self.old.desk.disk)
            (D.disk self.new.desk.disk) }
        ensures printable { CanBeTold result.1 }
        ensures lacked { result.1 ≡ answer.OutOfMemory → LeavesDesk self.old self.new }
        ensures lacks { result.1 ≡ answer.OutOfMemory
            → ¬ Fits self.new.desk.host.room (behind self.new.desk.doubt message.now) }
        ensures unknown { TellsUnknown (caller_on self.old.operator self.old.desk.host.history key.now) result.1 }
        ensures unasked { caller_on self.old.operator self.old.desk.host.history key.now ≡ None
            → self.new.desk ≡ self.old.desk }
        ensures fault { result.1 ≡ answer.DiskFault → Rose (D.disk self.old.desk.disk).faults
            (D.disk self.new.desk.disk).faults }
        ensures no_fault { result.1 ≢ answer.DiskFault → (D.disk self.new.desk.disk).faults
            ≡ (D.disk self.old.desk.disk).faults }
        ensures count { NeverFalls (D.disk self.old.desk.disk).faults (D.disk self.new.desk.disk).faults }
    {
        self.know_desk();
        let Some(caller) = self.caller(key) else {
            return (Outcome::Told, Answer::refused(Refusal::UnknownKey));
        };
        let _name = caller.bytes();
        if self.desk.make_room(message).is_err() {
            return (Outcome::Lacked, Answer::OutOfMemory);
        }
        let reply = self.desk.submit(&caller, number, moment, message);
        match reply {
            Reply::Verdict(verdict) => {
                let outcome = outcome_of(&caller, number, message, &verdict);
                (outcome, Answer::Verdict(verdict))
            }
            Reply::DiskFault => {
                let entry = self.doubted(&caller, number, moment, message);
                (Outcome::Doubted(entry), Answer::DiskFault)
            }
        }
    }

    // A message, at a reading of the clock.
    fn message(&mut self, key: &Key, number: u64, message: &Message) -> Turn
        requires numbered { IsNumbered number message.now }
        ensures calls { Calls D.disk C.clock self.old self.new result.called result.answer }
        ensures before { result.before ≡ before_of result.called.outcome self.new.desk.host.history }
        ensures asked { (result.called.key ≡ key.now) × (result.called.ask ≡ ask.Message number message.now) }
        ensures lacked { result.answer ≡ answer.OutOfMemory → LeavesDesk self.old self.new }
        ensures lacks { result.answer ≡ answer.OutOfMemory
            → ¬ Fits self.new.desk.host.room (behind self.new.desk.doubt message.now) }
        ensures unknown { TellsUnknown (caller_on self.old.operator self.old.desk.host.history key.now) result.answer }
        ensures unasked { caller_on self.old.operator self.old.desk.host.history key.now ≡ None
            → self.new.desk ≡ self.old.desk }
        ensures fault { result.answer ≡ answer.DiskFault → Rose (D.disk self.old.desk.disk).faults
            (D.disk self.new.desk.disk).faults }
        ensures no_fault { result.answer ≢ answer.DiskFault → (D.disk self.new.desk.disk).faults
            ≡ (D.disk self.old.desk.disk).faults }
        ensures count { NeverFalls (D.disk self.old.desk.disk).faults (D.disk self.new.desk.disk).faults }
    {
        let moment = self.clock.now();
        let (outcome, answer) = self.submit_at(key, number, moment, message);
        let called = Called {
            key: *key,
            ask: Ask::Message {
                number,
                message: *message,
            },
            moment: Some(moment),
            outcome,
        };
        self.turn(called, answer)
    }

    // What a caller, or nobody, is told of a query.
    fn tell(&self, alloc: Global, key: &Key, query: &Query) -> (Outcome, Answer)
        ensures does { let called = query_call key.now query.now result.0 in
            Does self.now.operator (held self.now.desk) (held self.now.desk) self.now.desk.faults self.now.desk.faults
            called result.1 }
        ensures crash { CrashesLeave (IsOneOf (held self.now.desk) (held self.now.desk)) (D.disk self.now.desk.disk)
            (D.disk self.now.desk.disk) }
        ensures printable { CanBeTold result.1 }
        ensures unknown { TellsUnknown (caller_on self.now.operator self.now.desk.host.history key.now) result.1 }
        ensures no_fault { result.1 ≢ answer.DiskFault }
    {
        // What a legal history tells can be printed.
        self.know_desk();
        readings_are_printable();
        let Some(caller) = self.caller(key) else {
            return (Outcome::Told, Answer::refused(Refusal::UnknownKey));
        };
        match self.desk.read(alloc, &caller, query) {
            Ok(reading) => (Outcome::Told, Answer::Reading(reading)),
            Err(QueryRefused::Refused(refusal)) => (Outcome::Told, Answer::refused(refusal)),
            Err(QueryRefused::OutOfMemory) => (Outcome::Lacked, Answer::OutOfMemory),
        }
    }

    fn query(&self, alloc: Global, key: &Key, query: &Query) -> Turn
        ensures calls { Calls D.disk C.clock self.now self.now result.called result.answer }
        ensures before { result.before ≡ before_of result.called.outcome self.now.desk.host.history }
        ensures asked { (result.called.key ≡ key.now) × (result.called.ask ≡ ask.Query query.now) }
        ensures unknown { TellsUnknown (caller_on self.now.operator self.now.desk.host.history key.now) result.answer }
        ensures no_fault { result.answer ≢ answer.DiskFault }
    {
        let (outcome, answer) = self.tell(alloc, key, query);
        let called = Called {
            key: *key,
            ask: Ask::Query(*query),
            moment: None,
            outcome,
        };
        self.turn(called, answer)
    }

    // Whoever has the key is told why nothing could be read, and nobody that the key is unknown.
    fn explain(&self, key: &Key, why: Refusal) -> Answer
        ensures { result ≡ fault_for (caller_on self.now.operator self.now.desk.host.history key.now) why }
    {
        match self.caller(key) {
            Some(_) => Answer::refused(why),
            None => Answer::refused(Refusal::UnknownKey),
        }
    }

    // The turn of what could not be read.
    fn unread(&self, key: &Key, asked: Ask, why: Refusal) -> Turn
        requires fault { IsFaultOf asked why }
        ensures calls { Calls D.disk C.clock self.now self.now result.called result.answer }
        ensures before { result.before ≡ before_of result.called.outcome self.now.desk.host.history }
        ensures asked { (result.called.key ≡ key.now) × (result.called.ask ≡ asked) }
    {
        self.know_desk();
        let answer = self.explain(key, why);
        let called = Called {
            key: *key,
            ask: asked,
            moment: None,
            outcome: Outcome::Told,
        };
        self.turn(called, answer)
    }

    // Makes one call, of whatever kind.
    pub(crate) fn call(&mut self, alloc: Global, key: &Key, asked: &Ask) -> Turn
        requires numbered { IsNumberedAsk asked.now }
        ensures calls { Calls D.disk C.clock self.old self.new result.called result.answer }
        ensures before { result.before ≡ before_of result.called.outcome self.new.desk.host.history }
        ensures asked { (result.called.key ≡ key.now) × (result.called.ask ≡ asked.now) }
        ensures lacks { result.answer ≡ answer.OutOfMemory → LacksRoom asked.now self.new.desk }
    {
        match asked {
            Ask::Message { number, message } => self.message(key, *number, message),
            Ask::Query(query) => self.query(alloc, key, query),
            Ask::BadJson => self.unread(key, *asked, Refusal::BadJson),
            Ask::BadShape(member) => self.unread(key, *asked, Refusal::BadShape(*member)),
        }
    }
}

// How a message came out, by its verdict.
fn outcome_of(submitter: &Ident, number: u64, message: &Message, verdict: &Verdict) -> Outcome
    ensures { result ≡ outcome_by submitter.now number message.now verdict.now }
{
    match verdict {
        Verdict::Accepted { number: _, moment } => Outcome::Added(Entry {
            submitter: *submitter,
            number,
            moment: *moment,
            message: *message,
        }),
        Verdict::Repeat { number: _, moment } => Outcome::Stood(Entry {
            submitter: *submitter,
            number,
            moment: *moment,
            message: *message,
        }),
        Verdict::Refused(_) => Outcome::Told,
    }
}
