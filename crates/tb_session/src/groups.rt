//! Groups of bids under one gate.
ghost use Rattle.std.specs.Prelude.{◌≡◌, ◌≢◌, ◌≤◌, ◌-◌, ◌++◌, List, length, map, replicate, Some, None};
ghost use Rattle.tb_terms.specs.declared.refusal.Refusal.TheVariants as refusal;
ghost use Rattle.tb_message.specs.declared.verdict.Verdict.TheVariants as verdict;
ghost use Rattle.tb_units.specs.declared.moment.Moment.{Moment};
ghost use Rattle.tb_link.specs.Counts.{NeverFalls, Rose};
ghost use Rattle.tb_core.specs.Rooms.{Fits, behind_all};
ghost use Rattle.tb_desk.specs.Desks.{held};
ghost use Rattle.tb_desk.specs.Stands.{CrashesLeave};
ghost use Rattle.tb_desk.specs.Turn.{AreBids, AreNumbered, IsOneOf};
ghost use Rattle.tb_session.specs.declared.answer.GroupAnswer.TheVariants as group;
ghost use Rattle.tb_session.specs.declared.groups.Grouped.TheVariants as grouped;
ghost use Rattle.tb_session.specs.Calls.{caller_on};
ghost use Rattle.tb_session.specs.Groups as spec;
ghost use Rattle.tb_session.specs.Groups.{CallsTogether, DoTogether, Replied, TellUnknown, TellsGroup, replied_by, said_in, told_group, told_together};
ghost use Rattle.tb_session.specs.Turned.{LeavesDesk};

use crate::answer::GroupAnswer;
use crate::room::Room;
use std::snapshot::Snapshot;
use tb_desk::GroupReply;
use tb_disk::Disk;
use tb_gates::Clock;
use tb_lock::Told;
use tb_message::{Key, Message, Verdict};
use tb_terms::Refusal;
use tb_units::{Ident, Moment};

/// How a group of bids came out.
#[derive(Clone, Copy, Debug, PartialEq, Eq)]
pub(crate) enum Grouped {
    /// The key is nobody's.
    Unknown,
    /// There was no memory for it.
    Lacked,
    /// Each bid of this caller has its verdict.
    Told(Ident),
    /// The disk failed. Each bid of this caller may or may not stand, at this running moment.
    Doubted(Ident, Moment),
}

/// The calls of a turn that bids of one key share.
#[derive(Drop)]
pub(crate) struct GroupTurn {
    pub key: Key,
    pub moment: Moment,
    pub came: Grouped,
    // For contracts alone.
    pub bids: Snapshot<Vec<(u64, Message)>>,
    pub verdicts: Snapshot<[Option<Verdict>; 64]>,
    /// How many entries stood behind the last of them.
    pub entries: u64,
}

impl Told for GroupTurn {
    ghost use Rattle.tb_session.specs.Groups.{told_together};

    ghost calls = { told_together };
}

impl<D: Disk, C: Clock> Room<D, C> {
    /// Answers up to 64 bids of the key's caller, at one reading of the clock and under one gate: each is judged on the
    /// history and the bids before it that were accepted, and a crash keeps all that were accepted or none of them. The
    /// first places hold the verdicts in order, the others nothing; where there are no verdicts none does.
    pub fn submit_group(
        &mut self,
        key: &Key,
        messages: &[(u64, Message)],
        verdicts: &mut [Option<Verdict>; 64],
    ) -> GroupAnswer
        requires size { (1 ≤ length messages.now) × (length messages.now ≤ 64) }
        requires bids { AreBids messages.now }
        requires numbered { AreNumbered messages.now }
        ensures calls { (moment : Moment) × (replied : List Replied)
            × CallsTogether D.disk C.clock self.old self.new key.now messages.now moment replied
            × TellsGroup result verdicts.new (said_in replied)
            × TellUnknown (caller_on self.old.operator self.old.desk.host.history key.now) replied }
        ensures lacked { result ≡ group.OutOfMemory → LeavesDesk self.old self.new }
        ensures lacks { result ≡ group.OutOfMemory
            → ¬ Fits self.new.desk.host.room (behind_all self.new.desk.doubt messages.now) }
        ensures unasked { caller_on self.old.operator self.old.desk.host.history key.now ≡ None
            → self.new.desk ≡ self.old.desk }
        ensures fault { result ≡ group.DiskFault → Rose (D.disk self.old.desk.disk).faults
            (D.disk self.new.desk.disk).faults }
        ensures no_fault { result ≢ group.DiskFault → (D.disk self.new.desk.disk).faults
            ≡ (D.disk self.old.desk.disk).faults }
        ensures count { NeverFalls (D.disk self.old.desk.disk).faults (D.disk self.new.desk.disk).faults }
    {
        let (_moment, came) = self.group(key, messages, verdicts);
        group_answer(came)
    }

    // A group at a moment.
    fn group_at(
        &mut self,
        key: &Key,
        moment: Moment,
        messages: &[(u64, Message)],
        verdicts: &mut [Option<Verdict>; 64],
    ) -> Grouped
        requires size { (1 ≤ length messages.now) × (length messages.now ≤ 64) }
        requires bids { AreBids messages.now }
        requires numbered { AreNumbered messages.now }
        ensures does { DoTogether self.old.operator (held self.old.desk) (held self.new.desk) self.old.desk.faults
            self.new.desk.faults (replied_by key.now moment result messages.now verdicts.new) }
        ensures same { (self.new.operator ≡ self.old.operator) × (self.new.desk.opened ≡ self.old.desk.opened)
            × (self.new.clock ≡ self.old.clock) }
        ensures recovered { self.new.desk.recovered ≡ self.old.desk.recovered }
        ensures crash { CrashesLeave (IsOneOf (held self.old.desk) (held self.new.desk)) (D.disk self.old.desk.disk)
            (D.disk self.new.desk.disk) }
        ensures lacked { result ≡ grouped.Lacked → LeavesDesk self.old self.new }
        ensures lacks { result ≡ grouped.Lacked
            → ¬ Fits self.new.desk.host.room (behind_all self.new.desk.doubt messages.now) }
        ensures tells { TellsGroup (spec.answer_of result) verdicts.new
            (said_in (replied_by key.now moment result messages.now verdicts.new)) }
        ensures unknown { TellUnknown (caller_on self.old.operator self.old.desk.host.history key.now)
            (replied_by key.now moment result messages.now verdicts.new) }
        ensures unasked { caller_on self.old.operator self.old.desk.host.history key.now ≡ None
            → self.new.desk ≡ self.old.desk }
        ensures fault { spec.answer_of result ≡ group.DiskFault → Rose (D.disk self.old.desk.disk).faults
            (D.disk self.new.desk.disk).faults }
        ensures no_fault { spec.answer_of result ≢ group.DiskFault → (D.disk self.new.desk.disk).faults
            ≡ (D.disk self.old.desk.disk).faults }
        ensures count { NeverFalls (D.disk self.old.desk.disk).faults (D.disk self.new.desk.disk).faults }
    {
        self.know_desk();
        let Some(caller) = self.caller(key) else {
            refuse_each(messages.len(), verdicts);
            return Grouped::Unknown;
        };
        let _name = caller.bytes();
        if self.desk.make_room_group(messages).is_err() {
            clear(verdicts);
            return Grouped::Lacked;
        }
        match self.desk.submit_group(&caller, moment, messages, verdicts) {
            GroupReply::Verdicts => Grouped::Told(caller),
            GroupReply::DiskFault => Grouped::Doubted(caller, moment.later(self.desk.last())),
        }
    }

    // A group, at a reading of the clock.
    pub(crate) fn group(
        &mut self,
        key: &Key,
        messages: &[(u64, Message)],
        verdicts: &mut [Option<Verdict>; 64],
    ) -> (Moment, Grouped)
        requires size { (1 ≤ length messages.now) × (length messages.now ≤ 64) }
        requires bids { AreBids messages.now }
        requires numbered { AreNumbered messages.now }
        ensures calls { CallsTogether D.disk C.clock self.old self.new key.now messages.now result.0
            (replied_by key.now result.0 result.1 messages.now verdicts.new) }
        ensures lacked { result.1 ≡ grouped.Lacked → LeavesDesk self.old self.new }
        ensures lacks { result.1 ≡ grouped.Lacked
            → ¬ Fits self.new.desk.host.room (behind_all self.new.desk.doubt messages.now) }
        ensures tells { TellsGroup (spec.answer_of result.1) verdicts.new
            (said_in (replied_by key.now result.0 result.1 messages.now verdicts.new)) }
        ensures unknown { TellUnknown (caller_on self.old.operator self.old.desk.host.history key.now)
            (replied_by key.now result.0 result.1 messages.now verdicts.new) }
        ensures unasked { caller_on self.old.operator self.old.desk.host.history key.now ≡ None
            → self.new.desk ≡ self.old.desk }
        ensures fault { spec.answer_of result.1 ≡ group.DiskFault → Rose (D.disk self.old.desk.disk).faults
            (D.disk self.new.desk.disk).faults }
        ensures no_fault { spec.answer_of result.1 ≢ group.DiskFault → (D.disk self.new.desk.disk).faults
            ≡ (D.disk self.old.desk.disk).faults }
        ensures count { NeverFalls (D.disk self.old.desk.disk).faults (D.disk self.new.desk.disk).faults }
    {
        let moment = self.clock.now();
        let came = self.group_at(key, moment, messages, verdicts);
        (moment, came)
    }

    /// Makes a group of bids, for a turn of its own.
    pub(crate) fn group_turn(
        &mut self,
        key: &Key,
        bids: &Vec<(u64, Message)>,
        verdicts: &mut [Option<Verdict>; 64],
    ) -> GroupTurn
        requires size { (1 ≤ length bids.now.items) × (length bids.now.items ≤ 64) }
        requires bids { AreBids bids.now.items }
        requires numbered { AreNumbered bids.now.items }
        ensures calls { CallsTogether D.disk C.clock self.old self.new key.now bids.now.items result.moment
            (replied_by key.now result.moment result.came bids.now.items verdicts.new) }
        ensures lacked { result.came ≡ grouped.Lacked → LeavesDesk self.old self.new }
        ensures lacks { result.came ≡ grouped.Lacked
            → ¬ Fits self.new.desk.host.room (behind_all self.new.desk.doubt bids.now.items) }
        ensures tells { TellsGroup (spec.answer_of result.came) verdicts.new
            (said_in (replied_by key.now result.moment result.came bids.now.items verdicts.new)) }
        ensures told { told_together result ≡ told_group result.came (length self.new.desk.host.history)
            (replied_by key.now result.moment result.came bids.now.items verdicts.new) }
    {
        let (moment, came) = self.group(key, bids, verdicts);
        GroupTurn {
            key: *key,
            moment,
            came,
            bids: Snapshot::of(bids),
            verdicts: Snapshot::of(verdicts),
            entries: self.desk.entries(),
        }
    }
}

// What a group is answered, by how it came out.
pub(crate) fn group_answer(came: Grouped) -> GroupAnswer
    ensures { result ≡ spec.answer_of came }
{
    match came {
        Grouped::Unknown | Grouped::Told(_) => GroupAnswer::Verdicts,
        Grouped::Doubted(_, _) => GroupAnswer::DiskFault,
        Grouped::Lacked => GroupAnswer::OutOfMemory,
    }
}

// No place tells anything.
fn clear(verdicts: &mut [Option<Verdict>; 64])
    ensures { verdicts.new ≡ replicate 64 None }
{
    let none = [None; 64];
    *verdicts = none;
}

// So many places tell that the key is unknown, and the others nothing.
fn refuse_each(count: usize, verdicts: &mut [Option<Verdict>; 64])
    requires few { count ≤ 64 }
    ensures { verdicts.new
        ≡ map Some (replicate count (verdict.Refused refusal.UnknownKey)) ++ replicate (64 - count) None }
{
    clear(verdicts);
    for place in 0..count {
        verdicts[place] = Some(Verdict::Refused(Refusal::UnknownKey));
    }
}
