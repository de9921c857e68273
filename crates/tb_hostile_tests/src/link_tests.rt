//! Links of `serve` that fail, beside others. The replies are worked out by hand from the formats.
use crate::auction::{ANNOUNCE, ENROL, REGISTER, journal, keeps};
use crate::trying::{
    Given, Host, Outcome, disk_of, gate, is_ended, joined, one_gate, serve, takes, whole,
};
use std::process::Abort;
use std::sync::Wait;
use std::thread::Threads;

/// The words of `serve` with one worker, and with two.
pub const SERVE: [&str; 9] = [
    "serve",
    "--op",
    "root",
    "--port",
    "8080",
    "--workers",
    "1",
    "--links",
    "3",
];

const SERVE_BY_TWO: [&str; 9] = [
    "serve",
    "--op",
    "root",
    "--port",
    "8080",
    "--workers",
    "2",
    "--links",
    "3",
];

/// Bids of the dealer, as they are posted: 153 bytes each.
pub const FIRST: &str = "POST /messages HTTP/1.1\r\nAuction-Key: k1\r\nContent-Length: 89\r\n\r\n\
    {\"number\":1,\"kind\":\"bid\",\"auction\":\"bill13\",\"bidder\":\"fund1\",\"rate\":\"4.300\",\"amount\":100}";

pub const SECOND: &str = "POST /messages HTTP/1.1\r\nAuction-Key: k1\r\nContent-Length: 89\r\n\r\n\
    {\"number\":2,\"kind\":\"bid\",\"auction\":\"bill13\",\"bidder\":\"fund1\",\"rate\":\"4.300\",\"amount\":100}";

const THIRD: &str = "POST /messages HTTP/1.1\r\nAuction-Key: k1\r\nContent-Length: 89\r\n\r\n\
    {\"number\":3,\"kind\":\"bid\",\"auction\":\"bill13\",\"bidder\":\"fund1\",\"rate\":\"4.300\",\"amount\":100}";

pub const FIRST_REPLY: &str =
    "HTTP/1.1 200 OK\r\nContent-Type: text/plain\r\nContent-Length: 22\r\n\r\naccepted 1 1730700000\n";

pub const SECOND_REPLY: &str =
    "HTTP/1.1 200 OK\r\nContent-Type: text/plain\r\nContent-Length: 22\r\n\r\naccepted 2 1730700000\n";

const THIRD_REPLY: &str =
    "HTTP/1.1 200 OK\r\nContent-Type: text/plain\r\nContent-Length: 22\r\n\r\naccepted 3 1730700000\n";

/// A message without its members: 65 bytes.
const SHAPELESS: &str = "POST /messages HTTP/1.1\r\nAuction-Key: k1\r\nContent-Length: 2\r\n\r\n{}";

const SHAPELESS_REPLY: &str =
    "HTTP/1.1 400 Bad Request\r\nContent-Type: text/plain\r\nContent-Length: 26\r\n\r\n\
    refused 6 BadShape number\n";

// The records of the three bids.
const FIRST_BID: &[u8] =
    b"\x07dealer1\0\0\0\0\0\0\0\x01\0\0\0\0\x67\x28\x62\xe0\x05\x06bill13\x05fund1\
    \0\0\x03\x5c\0\0\0\0\0\0\0\x64";

const SECOND_BID: &[u8] =
    b"\x07dealer1\0\0\0\0\0\0\0\x02\0\0\0\0\x67\x28\x62\xe0\x05\x06bill13\x05fund1\
    \0\0\x03\x5c\0\0\0\0\0\0\0\x64";

const THIRD_BID: &[u8] =
    b"\x07dealer1\0\0\0\0\0\0\0\x03\0\0\0\0\x67\x28\x62\xe0\x05\x06bill13\x05fund1\
    \0\0\x03\x5c\0\0\0\0\0\0\0\x64";

/// The history where the third bid stands between the others, and where it doesn't.
const ALL_STAND: [&[u8]; 6] = [REGISTER, ENROL, ANNOUNCE, FIRST_BID, THIRD_BID, SECOND_BID];

const TWO_STAND: [&[u8]; 5] = [REGISTER, ENROL, ANNOUNCE, FIRST_BID, SECOND_BID];

const ALL_ACCEPTED: &str = "served 3\naccepted 3\n";

const TWO_ACCEPTED: &str = "served 3\naccepted 2\n";

/// Serves these links at one gate, from the disk on which the auction was announced.
pub fn served<R: Abort + Threads + Wait + Sync>(
    host: &Host<'_, R>,
    links: &[Given<'_>],
) -> Outcome {
    let announced = journal(host, &[REGISTER, ENROL, ANNOUNCE]);
    let gates = one_gate(host, links);
    serve(host, &SERVE, "", disk_of(host, &announced), gates)
}

// The third bid and a message without its members, one behind the other in 22 pieces of ten bytes. These calls fail.
fn failing<'a>(text: &'a str, reads: &'a [u64], writes: &'a [u64]) -> Given<'a> {
    Given {
        text,
        piece: 10,
        failing_reads: reads,
        failing_writes: writes,
    }
}

// The link on which these calls fail takes this reply, those before and behind it take theirs whole, and this is told
// in the end, of these entries.
fn fails_between<R: Abort + Threads + Wait + Sync>(
    host: &Host<'_, R>,
    reads: &[u64],
    writes: &[u64],
    reply: &str,
    told: &str,
    records: &[&[u8]],
) -> bool {
    let text = joined(host, &[THIRD, SHAPELESS]);
    let run = served(
        host,
        &[whole(FIRST), failing(&text, reads, writes), whole(SECOND)],
    );
    is_ended(&run, 0, told.as_bytes(), "")
        && takes(&run, 0, &[FIRST_REPLY, reply, SECOND_REPLY])
        && keeps(host, run.disk.contents(), records)
}

// The bid is whole with the sixteenth read, the other message with the twenty-second, and the next finds the end.
// Each of the reads from one on, up to another, fails so.
fn each_read_fails<R: Abort + Threads + Wait + Sync>(
    host: &Host<'_, R>,
    from: u64,
    until: u64,
    reply: &str,
    told: &str,
    records: &[&[u8]],
) -> bool {
    for read in from..until {
        if !fails_between(host, &[read], &[], reply, told, records) {
            return false;
        }
    }
    true
}

#[test]
fn one_link_has_a_read_that_fails_and_the_others_are_answered(rt: HostRuntime) {
    let host = Host {
        rt: &rt,
        alloc: rt.alloc(),
    };
    let both = joined(&host, &[THIRD_REPLY, SHAPELESS_REPLY]);
    assert!(rt; each_read_fails(&host, 0, 16, "", TWO_ACCEPTED, &TWO_STAND));
    assert!(rt; each_read_fails(&host, 16, 22, THIRD_REPLY, ALL_ACCEPTED, &ALL_STAND));
    // The read that finds the end, and one that isn't made.
    assert!(rt; each_read_fails(&host, 22, 24, &both, ALL_ACCEPTED, &ALL_STAND));
}

// A bid whose reply isn't taken stands.
#[test]
fn one_link_has_a_write_that_fails_and_the_others_are_answered(rt: HostRuntime) {
    let host = Host {
        rt: &rt,
        alloc: rt.alloc(),
    };
    let both = joined(&host, &[THIRD_REPLY, SHAPELESS_REPLY]);
    assert!(rt; fails_between(&host, &[], &[0], "", ALL_ACCEPTED, &ALL_STAND));
    assert!(rt; fails_between(&host, &[], &[1], THIRD_REPLY, ALL_ACCEPTED, &ALL_STAND));
    assert!(rt; fails_between(&host, &[], &[2], &both, ALL_ACCEPTED, &ALL_STAND));
}

// A bid whose reply was not taken is told again on another link, and stands once.
#[test]
fn a_bid_whose_reply_was_not_taken_is_told_on_the_next_link(rt: HostRuntime) {
    let host = Host {
        rt: &rt,
        alloc: rt.alloc(),
    };
    let run = served(
        &host,
        &[failing(FIRST, &[], &[0]), whole(FIRST), whole(SECOND)],
    );
    assert!(rt; is_ended(&run, 0, TWO_ACCEPTED.as_bytes(), ""));
    assert!(rt; takes(&run, 0, &["", FIRST_REPLY, SECOND_REPLY]));
    assert!(rt; keeps(&host, run.disk.contents(), &TWO_STAND));
}

// The same with two workers: the link that fails is one's, and the others the other's.
fn fails_beside<R: Abort + Threads + Wait + Sync>(
    host: &Host<'_, R>,
    reads: &[u64],
    writes: &[u64],
    reply: &str,
    told: &str,
) -> bool {
    let text = joined(host, &[THIRD, SHAPELESS]);
    let announced = journal(host, &[REGISTER, ENROL, ANNOUNCE]);
    let one = gate(host, &[failing(&text, reads, writes)]);
    let other = gate(host, &[whole(FIRST), whole(SECOND)]);
    let gates = Vec::from_array(host.alloc, [one, other]).expect(host.rt, "memory");
    let run = serve(host, &SERVE_BY_TWO, "", disk_of(host, &announced), gates);
    is_ended(&run, 0, told.as_bytes(), "")
        && takes(&run, 0, &[reply])
        && takes(&run, 1, &[FIRST_REPLY, SECOND_REPLY])
}

#[test]
fn one_link_fails_beside_those_of_another_worker(rt: HostRuntime) {
    let host = Host {
        rt: &rt,
        alloc: rt.alloc(),
    };
    assert!(rt; fails_beside(&host, &[0], &[], "", TWO_ACCEPTED));
    assert!(rt; fails_beside(&host, &[15], &[], "", TWO_ACCEPTED));
    assert!(rt; fails_beside(&host, &[16], &[], THIRD_REPLY, ALL_ACCEPTED));
    assert!(rt; fails_beside(&host, &[], &[0], "", ALL_ACCEPTED));
    assert!(rt; fails_beside(&host, &[], &[1], THIRD_REPLY, ALL_ACCEPTED));
}
