//! What is long and within the limits: heads of 8,000 bytes and bodies of 4,096 over a link that stays open, and a reading
//! of 4,000 bids.
ghost use Rattle.tb_message.specs.Spelling.{IsNumbered};

use crate::tests::{FIRST_REPLY, Memory, opened, post, replied, text_ends};
use crate::waiting_tests::three_are_answered;
use std::alloc::Global;
use std::process::Abort;
use std::sync::Wait;
use std::thread::Threads;
use tb_message::{Key, Message, Request, Verdict, read_request};
use tb_session::*;

const NO_ROUTE_REPLY: &str = replied!("404 Not Found", 18, "refused 7 NoRoute\n");

/// This text, so many times the filler, and the other text.
fn filled(
    rt: &impl Abort,
    alloc: Global,
    before: &str,
    filler: &str,
    count: u64,
    behind: &str,
) -> String {
    let mut text = String::new(alloc);
    text.push_str(before).expect(rt, "memory");
    for _ in 0..count {
        text.push_str(filler).expect(rt, "memory");
    }
    text.push_str(behind).expect(rt, "memory");
    text
}

// A head may have 8,192 bytes. The link stays open, and three of them come over it.
#[test]
fn a_long_head_comes_in_pieces(rt: HostRuntime) {
    let alloc = rt.alloc();
    let mut room = Some(opened(&rt, alloc, &[]));
    let front = "GET /elsewhere HTTP/1.1\r\nPadding: ";
    let head = filled(&rt, alloc, front, "a", 7_962, "\r\n\r\n");
    assert!(rt; head.len() == 8_000);
    assert!(rt; three_are_answered(&rt, alloc, &mut room, &head, 100, NO_ROUTE_REPLY));
    assert!(rt; three_are_answered(&rt, alloc, &mut room, &head, 4_096, NO_ROUTE_REPLY));
    assert!(rt; three_are_answered(&rt, alloc, &mut room, &head, 16_000, NO_ROUTE_REPLY));
}

// A body may have 4,096 bytes.
#[test]
fn a_long_body_comes_in_pieces(rt: HostRuntime) {
    let alloc = rt.alloc();
    let mut room = Some(opened(&rt, alloc, &[]));
    let bid =
        "\"number\":1,\"kind\":\"bid\",\"auction\":\"bill13\",\"bidder\":\"fund1\",\"rate\":\"4.300\",\"amount\":100}";
    let body = filled(&rt, alloc, "{", " ", 4_007, bid);
    assert!(rt; body.len() == 4_096);
    let posted = post(&rt, alloc, "k1", &body);
    assert!(rt; three_are_answered(&rt, alloc, &mut room, &posted, 100, FIRST_REPLY));
    assert!(rt; three_are_answered(&rt, alloc, &mut room, &posted, 4_096, FIRST_REPLY));
    assert!(rt; three_are_answered(&rt, alloc, &mut room, &posted, 16_000, FIRST_REPLY));
}

/// A message, and its number.
fn asked(rt: &impl Abort, alloc: Global, text: &str) -> (u64, Message)
    ensures { IsNumbered result.0 result.1 }
{
    match read_request(alloc, text.as_bytes()) {
        Ok(Request::Message { number, message }) => (number, message),
        _ => panic!(rt; "no message"),
    }
}

/// Whether a message with this key word is accepted.
fn is_accepted(rt: &impl Abort, alloc: Global, room: &mut Memory, key: &str, text: &str) -> bool {
    let key = Key::read(key).expect(rt, "a key");
    let (number, message) = asked(rt, alloc, text);
    let answer = room.submit(&key, number, &message);
    matches!(answer, Answer::Verdict(Verdict::Accepted { .. }))
}

/// A room in which the second dealer has three bidders more.
fn with_bidders<R: Threads + Wait + Sync + Abort>(rt: &R, alloc: Global) -> Memory {
    let mut room = opened(rt, alloc, &[]);
    for bidder in 3..=5u64 {
        let text = format!(in alloc;
            "{{\"number\":1{bidder},\"kind\":\"enrol\",\"bidder\":\"fund{bidder}\",\"submitter\":\"dealer2\"}}"
        ).expect(rt, "memory");
        assert!(rt; is_accepted(rt, alloc, &mut room, "op:root", &text));
    }
    room
}

/// Bids of a bidder of the second dealer with these numbers, and the lines that tell them.
fn bid_for(
    rt: &impl Abort,
    alloc: Global,
    room: &mut Memory,
    bidder: &str,
    first: u64,
    last: u64,
    lines: &mut String,
) {
    for number in first..=last {
        let text = format!(in alloc;
            "{{\"number\":{number},\"kind\":\"bid\",\"auction\":\"bill13\",\"bidder\":\"{bidder}\",\"rate\":\"4.300\",\
            \"amount\":100}}"
        )
        .expect(rt, "memory");
        assert!(rt; is_accepted(rt, alloc, room, "k2", &text));
        let line = format!(in alloc; "{number} {bidder} 4.300 100 live\n").expect(rt, "memory");
        lines.push_str(&line).expect(rt, "memory");
    }
}

const QUERY: &str = "GET /bids/bill13 HTTP/1.1\r\nAuction-Key: k2\r\n\r\n";

// Each bidder may have 1,000 accepted bids, and a dealer any number of bidders.
#[test]
fn a_reading_of_four_thousand_bids_is_told_whole(rt: HostRuntime) {
    let alloc = rt.alloc();
    let mut room = with_bidders(&rt, alloc);
    let mut lines = String::new(alloc);
    bid_for(&rt, alloc, &mut room, "fund2", 1, 1_000, &mut lines);
    bid_for(&rt, alloc, &mut room, "fund3", 1_001, 2_000, &mut lines);
    bid_for(&rt, alloc, &mut room, "fund4", 2_001, 3_000, &mut lines);
    bid_for(&rt, alloc, &mut room, "fund5", 3_001, 4_000, &mut lines);
    assert!(rt; lines.len() > 100_000);
    let reply = format!(in alloc;
        "HTTP/1.1 200 OK\r\nContent-Type: text/plain\r\nContent-Length: {}\r\n\r\n{lines}",
        lines.len()
    )
    .expect(&rt, "memory");
    assert!(rt; text_ends(&rt, alloc, &mut Some(room), QUERY, End::EndOfInput, &reply));
}
