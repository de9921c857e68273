//! What a line of a script is answered, and what it does to the history.
ghost use Rattle.std.specs.Prelude.{◌≡◌, Some, IfOk, OnErr};
ghost use Rattle.tb_core.specs.Rooms.{Fits, behind};
ghost use Rattle.tb_desk.specs.Desks.{replies_of};
ghost use Rattle.tb_message.specs.Spelling.{IsNumbered};
ghost use Rattle.tb_history.specs.Answer.{caller_of, query_refusal};
ghost use Rattle.tb_history.specs.Roster.{registrations};
ghost use Rattle.tb_commands.specs.Answers.{reply_text};
ghost use Rattle.tb_commands.specs.Replies.{IsAnswered, IsTold, asked_by};
ghost use Rattle.tb_commands.specs.Standings.{standing};
ghost use Rattle.tb_commands.specs.Turns.{MakesTurn};

use crate::reply::Reply;
use std::alloc::Global;
use tb_core::QueryRefused;
use tb_desk::Desk;
use tb_disk::Disk;
use tb_message::{Key, Message, Query, ReadFault, Request, RequestReader};
use tb_terms::Refusal;
use tb_units::{Ident, Moment, OutOfMemory};

/// Answers what the caller of a key asks at a moment, by a text that is to be JSON: a message makes a turn of the desk.
/// Where memory runs out the history is as it was. The operator's key is `op:` and this name.
pub fn answer<D: Disk>(
    alloc: Global,
    requests: &mut RequestReader,
    desk: &mut Desk<D>,
    operator: &Ident,
    moment: Moment,
    key: &Key,
    json: &[u8],
) -> Result<Reply, OutOfMemory>
    ensures answered { IfOk result (λ reply. IsAnswered (standing (D.disk desk.old.disk) desk.old)
        (caller_of (registrations desk.old.host.history) operator.now key.now) moment json.now (reply_text reply)
        (standing (D.disk desk.new.disk) desk.new)) }
    ensures stays { OnErr result (standing (D.disk desk.new.disk) desk.new ≡ standing (D.disk desk.old.disk) desk.old) }
    ensures kept { (desk.new.opened ≡ desk.old.opened) × (desk.new.recovered ≡ desk.old.recovered) }
{
    match caller(desk, operator, key) {
        None => Ok(Reply::refused(Refusal::UnknownKey)),
        Some(caller) => answer_caller(alloc, requests, desk, &caller, moment, json),
    }
}

/// The submitter whose key it is, or the operator.
pub fn caller<D: Disk>(desk: &Desk<D>, operator: &Ident, key: &Key) -> Option<Ident>
    ensures { result ≡ caller_of (registrations desk.now.host.history) operator.now key.now }
{
    match key {
        Key::Submitter(word) => desk.caller(word),
        Key::Operator(name) if name == operator => Ident::of_bytes(b"operator"),
        Key::Operator(_) => None,
    }
}

fn answer_caller<D: Disk>(
    alloc: Global,
    requests: &mut RequestReader,
    desk: &mut Desk<D>,
    caller: &Ident,
    moment: Moment,
    json: &[u8],
) -> Result<Reply, OutOfMemory>
    ensures answered { IfOk result (λ reply. IsAnswered (standing (D.disk desk.old.disk) desk.old) (Some caller.now)
        moment json.now (reply_text reply) (standing (D.disk desk.new.disk) desk.new)) }
    ensures stays { OnErr result (standing (D.disk desk.new.disk) desk.new ≡ standing (D.disk desk.old.disk) desk.old) }
    ensures kept { (desk.new.opened ≡ desk.old.opened) × (desk.new.recovered ≡ desk.old.recovered) }
{
    match requests.read(json) {
        Ok(Request::Message { number, message }) => {
            let turned = submit(desk, caller, number, moment, &message)?;
            Ok(Reply::of_turn(turned))
        }
        Ok(Request::Query(query)) => tell(alloc, desk, caller, &query),
        Err(ReadFault::BadJson) => Ok(Reply::refused(Refusal::BadJson)),
        Err(ReadFault::BadShape(member)) => Ok(Reply::refused(Refusal::BadShape(member))),
        Err(ReadFault::OutOfMemory) => Err(OutOfMemory),
    }
}

// One turn of the desk, with room for what it may keep. Memory is wanting only where there is no such room.
fn submit<D: Disk>(
    desk: &mut Desk<D>,
    caller: &Ident,
    number: u64,
    moment: Moment,
    message: &Message,
) -> Result<tb_desk::Reply, OutOfMemory>
    requires { IsNumbered number message.now }
    ensures turn { IfOk result (λ answer. MakesTurn (asked_by caller.now moment number message.now)
        (standing (D.disk desk.old.disk) desk.old) (standing (D.disk desk.new.disk) desk.new) (replies_of answer)) }
    ensures stays { OnErr result (standing (D.disk desk.new.disk) desk.new ≡ standing (D.disk desk.old.disk) desk.old) }
    ensures lacks { OnErr result (¬ Fits desk.new.host.room (behind desk.new.doubt message.now)) }
    ensures kept { (desk.new.opened ≡ desk.old.opened) × (desk.new.recovered ≡ desk.old.recovered) }
{
    desk.make_room(message)?;
    Ok(desk.submit(caller, number, moment, message))
}

// The reading that a query asks for, or its refusal.
fn tell<D: Disk>(
    alloc: Global,
    desk: &Desk<D>,
    caller: &Ident,
    query: &Query,
) -> Result<Reply, OutOfMemory>
    ensures { IfOk result (λ reply. IsTold desk.now.host.history caller.now query.now
        (query_refusal desk.now.host.history caller.now query.now) (reply_text reply)) }
{
    // The history is legal, which the desk tells with the number of its entries.
    let _ = desk.entries();
    match desk.read(alloc, caller, query) {
        Ok(reading) => Reply::of_reading(alloc, &reading),
        Err(QueryRefused::Refused(refusal)) => Ok(Reply::refused(refusal)),
        Err(QueryRefused::OutOfMemory) => Err(OutOfMemory),
    }
}
