//! One link, from its first request to its end.
ghost use Rattle.std.specs.Prelude.{◌≡◌, ◌≢◌, ◌+◌, ◌<◌, ◌≤◌, [], IfErr, IfOk, All, length};
ghost use Rattle.tb_gates.specs.Links.{link_of};
ghost use Rattle.tb_wire.specs.declared.cutting.Cutting.TheVariants.{Whole};
ghost use Rattle.tb_wire.specs.Front.{IsFront};
ghost use Rattle.tb_lock.specs.Passes.{IsPassOf, IsIdle, view};
ghost use Rattle.tb_session.specs.Gains.{IsPlain};
ghost use Rattle.tb_session.specs.Groups as groups;
ghost use Rattle.tb_session.specs.Groups.{answers_at};
ghost use Rattle.tb_session.specs.Rows.{RepliesTo, WaitInRow};
ghost use Rattle.tb_session.specs.Session.{ServesLink, most_turns, closes_at};
ghost use Rattle.tb_session.specs.Serving.{Answers, ServesOn};
ghost use Rattle.tb_session.specs.Turned.{CanBeTold};

use crate::answer::{Answer, GroupAnswer};
use crate::asking::{find_key, read_ask};
use crate::end::End;
use crate::hear::hear_request;
use crate::inbox::Inbox;
use crate::perform::{perform_group, perform_in_turn};
use crate::room::Room;
use crate::row::{Row, find_row};
use crate::write::{Unsent, refuse_for_memory, send};
use std::alloc::Global;
use std::sync::Wait;
use tb_disk::Disk;
use tb_gates::{Clock, Link};
use tb_lock::{Pass, TurnLock};
use tb_message::Verdict;
use tb_wire::{HttpRequest, Routes, Target, uses};

/// Requests of a link, at most.
pub const MOST_TURNS: u64 = 1_000_000;

// Answers the request at the front of the bytes that wait. Whatever calls by a key is one turn of the lock.
fn answer_request<D: Disk, C: Clock, R: Wait>(
    rt: &R,
    alloc: Global,
    shared: &TurnLock<Room<D, C>>,
    pass: &mut Pass<Room<D, C>>,
    request: &HttpRequest,
    waiting: &[u8],
) -> Answer
    requires own { IsPassOf shared.now pass.old }
    requires idle { IsIdle pass.old }
    requires front { IsFront waiting.now (Whole request.now) }
    ensures own { IsPassOf shared.now pass.new }
    ensures idle { IsIdle pass.new }
    ensures answers { Answers (view pass.old) (view pass.new) request.now waiting.now result }
    ensures printable { CanBeTold result }
{
    match find_key(request) {
        Err(refusal) => Answer::refused(refusal),
        Ok(key) => match read_ask(alloc, request, waiting) {
            Some(asked) => perform_in_turn(rt, alloc, shared, pass, &key, &asked),
            None => Answer::OutOfMemory,
        },
    }
}

// Whether the reply to a request closes the link.
fn closes(request: &HttpRequest, turns: u64) -> bool
    requires few { turns < most_turns }
    ensures { result ≡ closes_at turns request.now }
{
    request.close || turns + 1 == MOST_TURNS
}

// Serves the request that waits, alone, and says how many were served.
fn serve_one<D: Disk, C: Clock, K: Link, R: Wait>(
    rt: &R,
    alloc: Global,
    shared: &TurnLock<Room<D, C>>,
    pass: &mut Pass<Room<D, C>>,
    link: &mut K,
    inbox: &mut Inbox,
    request: &HttpRequest,
    turns: u64,
) -> Result<u64, End>
    requires own { IsPassOf shared.now pass.old }
    requires idle { IsIdle pass.old }
    requires front { IsFront inbox.old (Whole request.now) }
    requires few { turns < most_turns }
    ensures own { IsPassOf shared.now pass.new }
    ensures idle { IsIdle pass.new }
    ensures some { IfOk result (λ count. 1 ≤ count) }
    ensures on { IfOk result (λ count. ServesOn turns count inbox.old (view pass.old) (view pass.new)
        (link_of K.source K.sink link.old) (link_of K.source K.sink link.new) inbox.new) }
    ensures ended { IfErr result (λ ended. ServesLink turns inbox.old (view pass.old) (view pass.new)
        (link_of K.source K.sink link.old) (link_of K.source K.sink link.new) ended) }
{
    let answer = answer_request(rt, alloc, shared, pass, request, inbox.waiting());
    // A request uses no more bytes than are there.
    uses();
    inbox.used(request.used);
    let close = closes(request, turns);
    match send(alloc, link, &answer, request.target, close) {
        Ok(()) if request.close => Err(End::Asked),
        Ok(()) if close => Err(End::Turns),
        Ok(()) => Ok(1),
        Err(Unsent::WriteFault) => Err(End::WriteFault),
        Err(Unsent::OutOfMemory) => {
            refuse_for_memory(link);
            Err(End::OutOfMemory)
        }
    }
}

// The answer to the bid of a place.
fn answer_at(said: GroupAnswer, place: Option<Verdict>) -> Answer
    ensures { result ≡ groups.answer_at said place }
{
    match (said, place) {
        (GroupAnswer::Verdicts, Some(verdict)) => Answer::Verdict(verdict),
        (GroupAnswer::DiskFault, _) => Answer::DiskFault,
        (GroupAnswer::Verdicts, None) | (GroupAnswer::OutOfMemory, _) => Answer::OutOfMemory,
    }
}

// Writes the replies to so many bids, in order. At a fault says at which.
fn reply_row<K: Link>(
    alloc: Global,
    link: &mut K,
    said: GroupAnswer,
    verdicts: &[Option<Verdict>; 64],
    count: u64,
) -> Result<(), u64>
    requires few { count ≤ 64 }
    requires counted { length (answers_at said verdicts.now count) ≡ count }
    requires plain { All IsPlain (answers_at said verdicts.now count) }
    ensures { RepliesTo (link_of K.source K.sink link.old) (link_of K.source K.sink link.new)
        (answers_at said verdicts.now count) result }
{
    for place in 0..count {
        let answer = answer_at(said, verdicts[place as usize]);
        match send(alloc, link, &answer, Target::Messages, false) {
            Ok(()) => {}
            Err(_) => return Err(place),
        }
    }
    Ok(())
}

// Serves the bids that wait in a row, in one turn; where there is no memory for them, the request that waits alone.
fn serve_row<D: Disk, C: Clock, K: Link, R: Wait>(
    rt: &R,
    alloc: Global,
    shared: &TurnLock<Room<D, C>>,
    pass: &mut Pass<Room<D, C>>,
    link: &mut K,
    inbox: &mut Inbox,
    request: &HttpRequest,
    row: Row,
    turns: u64,
) -> Result<u64, End>
    requires own { IsPassOf shared.now pass.old }
    requires idle { IsIdle pass.old }
    requires front { IsFront inbox.old (Whole request.now) }
    requires row { WaitInRow row inbox.old }
    requires some { (1 ≤ length row.bids.items) × (length row.bids.items ≤ 64) }
    requires few { turns + length row.bids.items < most_turns }
    ensures own { IsPassOf shared.now pass.new }
    ensures idle { IsIdle pass.new }
    ensures some { IfOk result (λ count. 1 ≤ count) }
    ensures on { IfOk result (λ count. ServesOn turns count inbox.old (view pass.old) (view pass.new)
        (link_of K.source K.sink link.old) (link_of K.source K.sink link.new) inbox.new) }
    ensures ended { IfErr result (λ ended. ServesLink turns inbox.old (view pass.old) (view pass.new)
        (link_of K.source K.sink link.old) (link_of K.source K.sink link.new) ended) }
{
    let count = row.count();
    let Row { key, bids, used } = row;
    let mut verdicts = [None; 64];
    match perform_group(rt, shared, pass, &key, &bids, &mut verdicts) {
        GroupAnswer::OutOfMemory => {
            serve_one(rt, alloc, shared, pass, link, inbox, request, turns)
        }
        said => {
            inbox.used(used);
            match reply_row(alloc, link, said, &verdicts, count) {
                Ok(()) => Ok(count),
                Err(_) => Err(End::WriteFault),
            }
        }
    }
}

// Serves the request that waits, and bids behind it that may share its turn.
fn serve_next<D: Disk, C: Clock, K: Link, R: Wait>(
    rt: &R,
    alloc: Global,
    routes: &Routes,
    shared: &TurnLock<Room<D, C>>,
    pass: &mut Pass<Room<D, C>>,
    link: &mut K,
    inbox: &mut Inbox,
    request: &HttpRequest,
    turns: u64,
) -> Result<u64, End>
    requires own { IsPassOf shared.now pass.old }
    requires idle { IsIdle pass.old }
    requires front { IsFront inbox.old (Whole request.now) }
    requires few { turns < most_turns }
    ensures own { IsPassOf shared.now pass.new }
    ensures idle { IsIdle pass.new }
    ensures some { IfOk result (λ count. 1 ≤ count) }
    ensures on { IfOk result (λ count. ServesOn turns count inbox.old (view pass.old) (view pass.new)
        (link_of K.source K.sink link.old) (link_of K.source K.sink link.new) inbox.new) }
    ensures ended { IfErr result (λ ended. ServesLink turns inbox.old (view pass.old) (view pass.new)
        (link_of K.source K.sink link.old) (link_of K.source K.sink link.new) ended) }
{
    match find_row(
        alloc,
        routes,
        request,
        inbox.waiting(),
        MOST_TURNS - 1 - turns,
    ) {
        Some(row) => serve_row(rt, alloc, shared, pass, link, inbox, request, row, turns),
        None => serve_one(rt, alloc, shared, pass, link, inbox, request, turns),
    }
}

// Serves requests until the link ends.
fn serve_requests<D: Disk, C: Clock, K: Link, R: Wait>(
    rt: &R,
    alloc: Global,
    routes: &Routes,
    shared: &TurnLock<Room<D, C>>,
    pass: &mut Pass<Room<D, C>>,
    link: &mut K,
) -> End
    requires own { IsPassOf shared.now pass.old }
    requires idle { IsIdle pass.old }
    ensures own { IsPassOf shared.now pass.new }
    ensures idle { IsIdle pass.new }
    ensures served { ServesLink 0 [] (view pass.old) (view pass.new)
        (link_of K.source K.sink link.old) (link_of K.source K.sink link.new) result }
{
    let mut inbox = Inbox::new(alloc);
    let mut turns = 0;
    for _round in 0..MOST_TURNS {
        let request = match hear_request(alloc, routes, link, &mut inbox) {
            Ok(request) => request,
            Err(ended) => return ended,
        };
        match serve_next(
            rt, alloc, routes, shared, pass, link, &mut inbox, &request, turns,
        ) {
            Ok(count) => turns += count,
            Err(ended) => return ended,
        }
    }
    unreachable!()
}

/// Serves one link: each message, each query and each request that can't be read takes one turn of the lock, where its
/// request has a route, the method of that route and a key; up to 64 bids of one key that wait whole and in a row share
/// one. No turn is held while the link is read or written.
pub fn serve_link<D: Disk, C: Clock, K: Link, R: Wait>(
    rt: &R,
    alloc: Global,
    shared: &TurnLock<Room<D, C>>,
    pass: &mut Pass<Room<D, C>>,
    link: &mut K,
) -> End
    requires own { IsPassOf shared.now pass.old }
    requires idle { IsIdle pass.old }
    ensures own { IsPassOf shared.now pass.new }
    ensures idle { IsIdle pass.new }
    ensures served { ServesLink 0 [] (view pass.old) (view pass.new)
        (link_of K.source K.sink link.old) (link_of K.source K.sink link.new) result }
{
    match Routes::new(alloc) {
        Ok(routes) => serve_requests(rt, alloc, &routes, shared, pass, link),
        Err(_) => {
            refuse_for_memory(link);
            End::OutOfMemory
        }
    }
}
