//! Bids that share a gate.
ghost use Rattle.tb_message.specs.Spelling.{IsNumbered};
ghost use Rattle.tb_core.specs.House.{IsBid};

use crate::tests::{
    FAULT_REPLY, Given, Memory, ends, joined, opened, opening_calls, post, replied, whole,
};
use std::alloc::Global;
use std::process::Abort;
use std::sync::Wait;
use std::thread::Threads;
use tb_disk::MemoryDisk;
use tb_message::{Key, Message, Request, Verdict, read_request};
use tb_session::*;
use tb_terms::Refusal;

/// The two bids of a dealer.
const BIDS: [&str; 2] = [
    "{\"number\":7,\"kind\":\"bid\",\"auction\":\"bill13\",\"bidder\":\"fund1\",\"rate\":\"4.300\",\"amount\":100}",
    "{\"number\":8,\"kind\":\"bid\",\"auction\":\"bill13\",\"bidder\":\"fund1\",\"rate\":\"4.305\",\"amount\":100}",
];

/// A bid of another dealer.
const OTHER_BID: &str =
    "{\"number\":7,\"kind\":\"bid\",\"auction\":\"bill13\",\"bidder\":\"fund2\",\"rate\":\"4.310\",\"amount\":100}";

/// The replies to the two bids where they are accepted.
const FIRST_REPLY: &str = replied!("200 OK", 22, "accepted 7 1730700000\n");

const SECOND_REPLY: &str = replied!("200 OK", 22, "accepted 8 1730700000\n");

/// The moment at which the room's clock stands.
const MORNING: u64 = 1_730_700_000;

/// A bid, and its number.
fn bid(rt: &impl Abort, alloc: Global, text: &str) -> (u64, Message)
    ensures { IsNumbered result.0 result.1 × IsBid result.1 }
{
    match read_request(alloc, text.as_bytes()) {
        Ok(Request::Message { number, message }) => match message {
            Message::Bid { .. } => (number, message),
            _ => panic!(rt; "no bid"),
        },
        _ => panic!(rt; "no message"),
    }
}

/// What a place tells of a bid: its number, where it was accepted at the moment of the clock, now or before.
#[derive(Clone, Copy, Debug, PartialEq, Eq)]
enum Told {
    Nothing,
    Accepted(u64),
    Repeated(u64),
    Unknown,
    Other,
}

fn told_by(verdict: Option<Verdict>) -> Told {
    match verdict {
        None => Told::Nothing,
        Some(Verdict::Accepted { number, moment }) if moment.seconds == MORNING => {
            Told::Accepted(number)
        }
        Some(Verdict::Repeat { number, moment }) if moment.seconds == MORNING => {
            Told::Repeated(number)
        }
        Some(Verdict::Refused(Refusal::UnknownKey)) => Told::Unknown,
        Some(_) => Told::Other,
    }
}

/// The answer to the two bids with a key, and what the places tell of them.
fn submit_pair(
    rt: &impl Abort,
    alloc: Global,
    room: &mut Memory,
    key: &str,
) -> (GroupAnswer, Told, Told) {
    let key = Key::read(key).expect(rt, "a key");
    let bids = [bid(rt, alloc, BIDS[0]), bid(rt, alloc, BIDS[1])];
    let mut verdicts = [None; 64];
    let answer = room.submit_group(&key, &bids, &mut verdicts);
    assert!(rt; verdicts[2].is_none() && verdicts[63].is_none());
    (answer, told_by(verdicts[0]), told_by(verdicts[1]))
}

/// Whether the two bids are answered so.
fn pair_told(
    rt: &impl Abort,
    alloc: Global,
    room: &mut Memory,
    key: &str,
    wanted: (GroupAnswer, Told, Told),
) -> bool {
    submit_pair(rt, alloc, room, key) == wanted
}

/// The answers to the two bids: the key is nobody's, they are accepted now or were before, or the disk failed.
const UNKNOWN: (GroupAnswer, Told, Told) = (GroupAnswer::Verdicts, Told::Unknown, Told::Unknown);

const ACCEPTED: (GroupAnswer, Told, Told) = (
    GroupAnswer::Verdicts,
    Told::Accepted(7),
    Told::Accepted(8),
);

const REPEATED: (GroupAnswer, Told, Told) = (
    GroupAnswer::Verdicts,
    Told::Repeated(7),
    Told::Repeated(8),
);

const FAULT: (GroupAnswer, Told, Told) = (GroupAnswer::DiskFault, Told::Nothing, Told::Nothing);

// The journal has a gate byte, a length of four bytes, eight of an ordinal and two records of 50 bytes more.
fn grew_by_a_pair(before: &MemoryDisk, after: &MemoryDisk) -> bool {
    let size = before.contents().len();
    if size == 0 || after.contents().len() != size + 113 {
        return false;
    }
    let front = &after.contents()[size - 1..size + 4];
    front == b"\x01\0\0\0\x64".as_slice() && after.calls() == before.calls().saturating_add(4)
}

#[test]
fn two_bids_of_a_key_stand_under_one_gate(rt: HostRuntime) {
    let alloc = rt.alloc();
    let before = opened(&rt, alloc, &[]).desk.into_disk();
    let mut room = opened(&rt, alloc, &[]);
    assert!(rt; pair_told(&rt, alloc, &mut room, "k9", UNKNOWN));
    assert!(rt; pair_told(&rt, alloc, &mut room, "k1", ACCEPTED));
    assert!(rt; pair_told(&rt, alloc, &mut room, "k1", REPEATED));
    assert!(rt; room.desk.entries() == 7);
    assert!(rt; grew_by_a_pair(&before, &room.desk.into_disk()));
}

/// Whether the two bids meet a fault where this call of the disk fails, and are answered so when they come again.
fn meet_a_fault<R: Threads + Wait + Sync + Abort>(
    rt: &R,
    alloc: Global,
    fails: u64,
    again: (GroupAnswer, Told, Told),
) -> bool {
    let mut room = opened(rt, alloc, &[fails]);
    pair_told(rt, alloc, &mut room, "k1", FAULT) && pair_told(rt, alloc, &mut room, "k1", again)
}

// Where the last of the four calls of the disk at new messages fails, they stand at the next turn; where the first
// fails, nothing is there.
#[test]
fn two_bids_meet_a_fault_together(rt: HostRuntime) {
    let calls = opening_calls(&rt, rt.alloc());
    assert!(rt; meet_a_fault(&rt, rt.alloc(), calls.saturating_add(3), REPEATED));
    assert!(rt; meet_a_fault(&rt, rt.alloc(), calls, ACCEPTED));
}

/// The two bids as they are posted, one behind the other.
fn pair(rt: &impl Abort, alloc: Global) -> String {
    let first = post(rt, alloc, "k1", BIDS[0]);
    let second = post(rt, alloc, "k1", BIDS[1]);
    joined(rt, alloc, &[first.as_str(), second.as_str()])
}

/// Serves a link that gives this text in pieces of so many bytes, in a room of which these calls of the disk fail. How
/// many calls of the disk that made, if the link ends with its input and is replied this.
fn calls_for<R: Threads + Wait + Sync + Abort>(
    rt: &R,
    alloc: Global,
    fails: &[u64],
    text: &str,
    piece: usize,
    expected: &str,
) -> Option<u64> {
    let before = opening_calls(rt, alloc);
    let mut room = Some(opened(rt, alloc, fails));
    let given = Given {
        piece,
        ..whole(text)
    };
    if !ends(rt, alloc, &mut room, &given, End::EndOfInput, expected) {
        return None;
    }
    let room = room.expect(rt, "a room");
    Some(room.desk.into_disk().calls().saturating_sub(before))
}

#[test]
fn bids_that_are_read_at_once_share_a_gate(rt: HostRuntime) {
    let alloc = rt.alloc();
    let text = pair(&rt, alloc);
    let replies = joined(&rt, alloc, &[FIRST_REPLY, SECOND_REPLY]);
    let at_once = calls_for(&rt, alloc, &[], &text, text.len(), &replies);
    assert!(rt; at_once == Some(4));
    // Where they come one after the other each has a gate of its own.
    let in_turn = calls_for(&rt, alloc, &[], &text, 50, &replies);
    assert!(rt; in_turn == Some(8));
}

/// The two bids, a query, the first bid again, and another dealer's.
fn row_with_a_query(rt: &impl Abort, alloc: Global) -> String {
    let pair = pair(rt, alloc);
    let first = post(rt, alloc, "k1", BIDS[0]);
    let other = post(rt, alloc, "k2", OTHER_BID);
    joined(
        rt,
        alloc,
        &[pair.as_str(), QUERY, first.as_str(), other.as_str()],
    )
}

const QUERY: &str = "GET /bids/bill13 HTTP/1.1\r\nAuction-Key: k1\r\n\r\n";

const QUERY_REPLY: &str = replied!(
    "200 OK",
    46,
    "7 fund1 4.300 100 live\n8 fund1 4.305 100 live\n"
);

#[test]
fn a_query_and_another_key_end_a_row(rt: HostRuntime) {
    let alloc = rt.alloc();
    let text = row_with_a_query(&rt, alloc);
    let replies = [
        FIRST_REPLY,
        SECOND_REPLY,
        QUERY_REPLY,
        FIRST_REPLY,
        FIRST_REPLY,
    ];
    let expected = joined(&rt, alloc, &replies);
    let calls = calls_for(&rt, alloc, &[], &text, text.len(), &expected);
    assert!(rt; calls == Some(8));
}

#[test]
fn bids_that_share_a_gate_are_told_a_fault_together(rt: HostRuntime) {
    let alloc = rt.alloc();
    let pair = pair(&rt, alloc);
    let text = joined(&rt, alloc, &[pair.as_str(), pair.as_str()]);
    let replies = joined(
        &rt,
        alloc,
        &[FAULT_REPLY, FAULT_REPLY, FIRST_REPLY, SECOND_REPLY],
    );
    let calls = opening_calls(&rt, alloc);
    let fails = [calls.saturating_add(3)];
    assert!(rt; calls_for(&rt, alloc, &fails, &text, pair.len(), &replies).is_some());
}

#[test]
fn bids_whose_reply_is_not_written_stand(rt: HostRuntime) {
    let alloc = rt.alloc();
    let text = pair(&rt, alloc);
    let mut room = Some(opened(&rt, alloc, &[]));
    let given = Given {
        piece: text.len(),
        failing_writes: &[1],
        ..whole(&text)
    };
    assert!(rt; ends(&rt, alloc, &mut room, &given, End::WriteFault, FIRST_REPLY));
    assert!(rt; room.expect(&rt, "a room").desk.entries() == 7);
}

/// Bids of the first dealer with these numbers, as they are posted.
fn bids_between(rt: &impl Abort, alloc: Global, first: u64, last: u64) -> String {
    let mut text = String::new(alloc);
    for number in first..=last {
        let bid = format!(in alloc;
            "{{\"number\":{number},\"kind\":\"bid\",\"auction\":\"bill13\",\"bidder\":\"fund1\",\"rate\":\"4.300\",\
            \"amount\":100}}"
        )
        .expect(rt, "memory");
        text.push_str(&post(rt, alloc, "k1", &bid))
            .expect(rt, "memory");
    }
    text
}

/// The replies to them where they are accepted.
fn acceptances(rt: &impl Abort, alloc: Global, first: u64, last: u64) -> String {
    let mut text = String::new(alloc);
    for number in first..=last {
        let reply = format!(in alloc;
            "HTTP/1.1 200 OK\r\nContent-Type: text/plain\r\nContent-Length: 23\r\n\r\naccepted {number} 1730700000\n"
        ).expect(rt, "memory");
        text.push_str(&reply).expect(rt, "memory");
    }
    text
}

/// As many replies of a fault.
fn faults(rt: &impl Abort, alloc: Global, count: u64) -> String {
    let mut text = String::new(alloc);
    for _ in 0..count {
        text.push_str(FAULT_REPLY).expect(rt, "memory");
    }
    text
}

// 24 bids are read at once, and the last of the four calls of the disk at their turn fails. The turn behind it takes
// room for 24 more.
#[test]
fn a_turn_behind_a_fault_finds_room(rt: HostRuntime) {
    let alloc = rt.alloc();
    let doubted = bids_between(&rt, alloc, 10, 33);
    let next = bids_between(&rt, alloc, 34, 57);
    let text = joined(&rt, alloc, &[doubted.as_str(), next.as_str()]);
    let told_first = faults(&rt, alloc, 24);
    let told_then = acceptances(&rt, alloc, 34, 57);
    let replies = joined(&rt, alloc, &[told_first.as_str(), told_then.as_str()]);
    let fails = [opening_calls(&rt, alloc).saturating_add(3)];
    let calls = calls_for(&rt, alloc, &fails, &text, doubted.len(), &replies);
    // Four calls for each turn, and two to find that the bids in doubt stand.
    assert!(rt; calls == Some(10));
}
