//! Verdicts on messages, one after another, and the entries that they add.
ghost use Rattle.std.specs.Prelude.{ℕ, ◌≡◌, ◌+◌, ◌-◌, ◌<◌, ◌≤◌, ◌++◌, ◌∷◌, [], List, None, Some, length, map, replicate, IfSome, vec_capacity, vec_len};
ghost use Rattle.std.specs.Option.{option_to_list};
ghost use Rattle.tb_message.specs.declared.message.Message.{Message};
ghost use Rattle.tb_message.specs.Spelling.{IsNumbered};
ghost use Rattle.tb_history.specs.Legal.{IsLegal, Follows, last_of};
ghost use Rattle.tb_history.specs.Verdict.{verdict_on};
ghost use Rattle.tb_core.specs.Rooms.{Fits};
ghost use Rattle.tb_desk.specs.Turn.{added, group_on, verdicts_on, asked_of, AreNumbered};

use crate::groups::apply;
use tb_core::{Host, room_lasts};
use tb_message::{Entry, Message, Verdict};
use tb_units::{Ident, Moment};

/// The verdict on a message, and the entry that it adds.
pub fn decide(
    host: &Host,
    submitter: &Ident,
    number: u64,
    moment: Moment,
    message: &Message,
) -> (Verdict, Option<Entry>)
    requires numbered { IsNumbered number message.now }
    requires in_time { last_of host.now.history ≤ moment.seconds }
    ensures verdict { result.0 ≡ verdict_on host.now.history submitter.now number moment message.now }
    ensures entry { option_to_list result.1 ≡ added host.now.history submitter.now moment (number, message.now) }
    ensures follows { IfSome result.1 (λ entry. Follows host.now.history entry) }
    ensures message { IfSome result.1 (λ entry. (entry.message ≡ message.now) × (entry.moment ≡ moment)) }
{
    let _ = submitter.bytes();
    let verdict = host.decide(submitter, number, moment, message);
    match verdict {
        Verdict::Accepted { .. } => {
            let entry = Entry {
                submitter: *submitter,
                number,
                moment,
                message: *message,
            };
            (verdict, Some(entry))
        }
        Verdict::Repeat { .. } | Verdict::Refused(_) => (verdict, None),
    }
}

// Decides a message and applies the entry that it adds, which is put behind the group.
fn judge_one(
    host: &mut Host,
    group: &mut Vec<Entry>,
    submitter: &Ident,
    moment: Moment,
    number: u64,
    message: &Message,
) -> Verdict
    requires numbered { IsNumbered number message.now }
    requires legal { IsLegal host.old.history }
    requires in_time { last_of host.old.history ≤ moment.seconds }
    requires fits { Fits host.old.room (message.now ∷ []) }
    requires room { vec_len group.old < vec_capacity group.old }
    ensures verdict { result ≡ verdict_on host.old.history submitter.now number moment message.now }
    ensures group { group.new.items
        ≡ group.old.items ++ added host.old.history submitter.now moment (number, message.now) }
    ensures history { host.new.history
        ≡ host.old.history ++ added host.old.history submitter.now moment (number, message.now) }
    ensures legal { IsLegal host.new.history }
    ensures in_time { last_of host.new.history ≤ moment.seconds }
    ensures fits { (others : List Message) → Fits host.old.room (message.now ∷ others) → Fits host.new.room others }
    ensures length { vec_len group.new ≤ vec_len group.old + 1 }
    ensures room { vec_capacity group.old ≤ vec_capacity group.new }
{
    room_lasts();
    let (verdict, entry) = decide(host, submitter, number, moment, message);
    if let Some(entry) = entry {
        apply(host, &entry);
        group.push_reserved(entry);
    }
    verdict
}

/// Decides each message on the history and the entries that those before it added, and applies what they add.
pub fn judge(
    host: &mut Host,
    group: &mut Vec<Entry>,
    submitter: &Ident,
    moment: Moment,
    messages: &[(u64, Message)],
    verdicts: &mut [Option<Verdict>; 64],
)
    requires empty { group.old.items ≡ [] }
    requires few { length messages.now ≤ 64 }
    requires room { 64 ≤ vec_capacity group.old }
    requires numbered { AreNumbered messages.now }
    requires legal { IsLegal host.old.history }
    requires in_time { last_of host.old.history ≤ moment.seconds }
    requires fits { Fits host.old.room (asked_of messages.now) }
    ensures group { group.new.items ≡ group_on host.old.history submitter.now moment messages.now }
    ensures history { host.new.history ≡ host.old.history ++ group.new.items }
    ensures legal { IsLegal host.new.history }
    ensures verdicts { verdicts.new ≡ map Some (verdicts_on host.old.history submitter.now moment messages.now)
        ++ replicate (64 - length messages.now) None }
    ensures few { length group.new.items ≤ length messages.now }
    ensures room { vec_capacity group.old ≤ vec_capacity group.new }
{
    room_lasts();
    let none = [None; 64];
    *verdicts = none;
    for (place, (number, message)) in messages.iter().enumerate() {
        verdicts[place] = Some(judge_one(host, group, submitter, moment, *number, message));
    }
}
