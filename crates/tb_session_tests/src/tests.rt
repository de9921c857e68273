//! Links served in memory. What is expected was written by hand from the profile.
ghost use Rattle.std.specs.Prelude.{◌≤◌};

use std::alloc::Global;
use std::process::Abort;
use std::sync::Wait;
use std::thread::Threads;
use tb_desk::Desk;
use tb_disk::MemoryDisk;
use tb_gates::{Link, ListClock, ListGate, PairLink};
use tb_link::{TextSink, TextSource};
use tb_lock::TurnLock;
use tb_message::{Key, Query};
use tb_session::*;
use tb_units::{Ident, Moment};

/// A message as it is posted with a key word: its body has so many bytes.
macro_rules! posted {
    ($key:literal, $size:literal, $body:literal) => {
        concat!(
            "POST /messages HTTP/1.1\r\nAuction-Key: ",
            $key,
            "\r\nContent-Length: ",
            $size,
            "\r\n\r\n",
            $body
        )
    };
}

/// A reply whose body has so many bytes.
macro_rules! replied {
    ($line:literal, $size:literal, $body:literal) => {
        $crate::tests::replied!($line, $size, "", $body)
    };
    ($line:literal, $size:literal, $header:literal, $body:literal) => {
        concat!(
            "HTTP/1.1 ",
            $line,
            "\r\nContent-Type: text/plain\r\nContent-Length: ",
            $size,
            "\r\n",
            $header,
            "\r\n",
            $body
        )
    };
}

/// A reply after which the link closes.
macro_rules! replied_last {
    ($line:literal, $size:literal, $body:literal) => {
        $crate::tests::replied!($line, $size, "Connection: close\r\n", $body)
    };
}

pub(crate) use posted;
pub(crate) use replied;

/// What the operator sends first: two dealers, a fund under each, and an auction.
const OPENING: [&str; 5] = [
    "{\"number\":1,\"kind\":\"register\",\"submitter\":\"dealer1\",\"key\":\"k1\"}",
    "{\"number\":2,\"kind\":\"register\",\"submitter\":\"dealer2\",\"key\":\"k2\"}",
    "{\"number\":3,\"kind\":\"enrol\",\"bidder\":\"fund1\",\"submitter\":\"dealer1\"}",
    "{\"number\":4,\"kind\":\"enrol\",\"bidder\":\"fund2\",\"submitter\":\"dealer2\"}",
    "{\"number\":5,\"kind\":\"announce\",\"auction\":\"bill13\",\"cusip\":\"912797AA5\",\"offering\":76000000000,\
    \"minimum\":100,\"ceiling\":10000000,\"floor\":1000000000,\"threshold\":26600000000,\"date\":\"2024-11-04\",\
    \"nc_close\":\"11:00\",\"c_close\":\"11:30\",\"issue\":\"2024-11-07\",\"maturity\":\"2025-02-06\"}",
];

/// A bid of the first dealer, as it is posted, and the reply where it is accepted, now or before.
pub const FIRST: &str = posted!(
    "k1",
    89,
    "{\"number\":1,\"kind\":\"bid\",\"auction\":\"bill13\",\"bidder\":\"fund1\",\"rate\":\"4.300\",\"amount\":100}"
);

pub const FIRST_REPLY: &str = replied!("200 OK", 22, "accepted 1 1730700000\n");

/// A bid of the second dealer.
const SECOND: &str = posted!(
    "k2",
    89,
    "{\"number\":7,\"kind\":\"bid\",\"auction\":\"bill13\",\"bidder\":\"fund2\",\"rate\":\"4.310\",\"amount\":100}"
);

const SECOND_REPLY: &str = replied!("200 OK", 22, "accepted 7 1730700000\n");

/// Bids with the numbers 2 and 1 of the first dealer.
const THIRD: &str = posted!(
    "k1",
    89,
    "{\"number\":2,\"kind\":\"bid\",\"auction\":\"bill13\",\"bidder\":\"fund1\",\"rate\":\"4.300\",\"amount\":100}"
);

const CHANGED: &str = posted!(
    "k1",
    89,
    "{\"number\":1,\"kind\":\"bid\",\"auction\":\"bill13\",\"bidder\":\"fund1\",\"rate\":\"4.300\",\"amount\":200}"
);

/// The reply to a new bid at the closing.
const LATE_REPLY: &str = replied!(
    "422 Unprocessable Entity",
    38,
    "refused 17 Late 1730737800 1730737800\n"
);

/// A message without its members, and the reply to it.
pub const SHAPELESS: &str = posted!("k1", 2, "{}");

pub const SHAPELESS_REPLY: &str = replied!("400 Bad Request", 26, "refused 6 BadShape number\n");

/// The same of the second dealer.
const OTHER_SHAPELESS: &str = posted!("k2", 2, "{}");

/// A moment on the day of the auction, before its closings.
const MORNING: u64 = 1_730_700_000;

/// The moment of its competitive closing.
const CLOSING: u64 = 1_730_737_800;

pub type Memory = Room<MemoryDisk, ListClock>;

/// A room on this disk, whose clock stands at one moment.
pub fn room_on(rt: &impl Abort, alloc: Global, disk: MemoryDisk, seconds: u64) -> Memory {
    assert!(rt; (946_702_800..=4_102_444_799).contains(&seconds));
    let moments = vec![in alloc; Moment { seconds }; 1].expect(rt, "memory");
    let Ok(desk) = Desk::open(alloc, disk) else {
        panic!(rt; "not opened")
    };
    Room {
        desk,
        clock: ListClock::new(moments),
        operator: Ident::read("root").expect(rt, "a name"),
    }
}

/// A room on an empty disk of which these calls fail.
fn empty_room(rt: &impl Abort, alloc: Global, fails: &[u64]) -> Memory {
    let fails = fails.to_vec(alloc).expect(rt, "memory");
    let disk = MemoryDisk::new(alloc, &[], 1_000_000, 4_000_000, fails, 0);
    room_on(rt, alloc, disk.expect(rt, "memory"), MORNING)
}

/// A message as it is posted with a key word.
pub fn post(rt: &impl Abort, alloc: Global, key: &str, body: &str) -> String {
    format!(in alloc;
        "POST /messages HTTP/1.1\r\nAuction-Key: {key}\r\nContent-Length: {}\r\n\r\n{body}",
        body.len()
    )
    .expect(rt, "memory")
}

/// What a link gives, in pieces of at most so many bytes, and which of its reads and writes fail.
#[derive(Clone, Copy)]
pub struct Given<'a> {
    pub text: &'a str,
    pub piece: usize,
    pub failing_reads: &'a [u64],
    pub failing_writes: &'a [u64],
}

/// A link that gives this text, and no call of it fails.
pub fn whole(text: &str) -> Given<'_> {
    Given {
        text,
        piece: 50,
        failing_reads: &[],
        failing_writes: &[],
    }
}

fn link_of(rt: &impl Abort, alloc: Global, given: &Given<'_>) -> PairLink {
    assert!(rt; 1 <= given.piece);
    let text = given.text.as_bytes().to_vec(alloc).expect(rt, "memory");
    let failing_reads = given.failing_reads.to_vec(alloc).expect(rt, "memory");
    let failing_writes = given.failing_writes.to_vec(alloc).expect(rt, "memory");
    PairLink {
        source: TextSource::new(text, given.piece, failing_reads),
        sink: TextSink::new(alloc, 200_000, failing_writes).expect(rt, "memory"),
    }
}

/// A gate with these links, of which these calls fail.
fn gate_of(rt: &impl Abort, alloc: Global, links: &[Given<'_>], fails: &[u64]) -> ListGate {
    let mut made = Vec::new(alloc);
    for given in links {
        made.push(link_of(rt, alloc, given)).expect(rt, "memory");
    }
    assert!(rt; made.len() <= 1_000_000);
    ListGate::new(alloc, made, fails.to_vec(alloc).expect(rt, "memory")).expect(rt, "memory")
}

/// What became of a run: how many links were served, how much longer the history is, whether a gate failed, and the
/// bytes that each link took.
#[derive(Drop)]
pub struct Told {
    pub served: u64,
    pub accepted: u64,
    pub failed: bool,
    pub replies: Vec<String>,
}

/// The bytes that the links took which these gates had back.
fn replies_of(rt: &impl Abort, alloc: Global, gates: &[ListGate]) -> Vec<String> {
    let mut replies = Vec::new(alloc);
    for gate in gates {
        for link in gate.finished() {
            let bytes = link.sink.bytes().to_vec(alloc).expect(rt, "memory");
            let reply = String::from_utf8(bytes).expect(rt, "a text");
            replies.push(reply).expect(rt, "memory");
        }
    }
    replies
}

/// Serves these gates: the room afterwards, and what became of the run.
fn serve<R: Threads + Wait + Sync + Abort>(
    rt: &R,
    alloc: Global,
    room: Memory,
    mut gates: Vec<ListGate>,
) -> (Memory, Told) {
    if gates.len() > 64 {
        panic!(rt; "too many gates")
    }
    if room.desk.unsure() {
        panic!(rt; "a group is in doubt")
    }
    let Ok(
        Ended {
            room,
            served,
            accepted,
            failed,
        },
    ) = serve_gates(rt, alloc, room, &mut gates)
    else {
        panic!(rt; "no memory")
    };
    let replies = replies_of(rt, alloc, &gates);
    (
        room,
        Told {
            served,
            accepted,
            failed,
            replies,
        },
    )
}

/// Serves each text on a link of its own, each link at a gate of its own.
pub fn serve_texts<R: Threads + Wait + Sync + Abort>(
    rt: &R,
    alloc: Global,
    room: Memory,
    texts: &[&str],
) -> (Memory, Told) {
    let mut gates = Vec::new(alloc);
    for text in texts {
        gates
            .push(gate_of(rt, alloc, &[whole(text)], &[]))
            .expect(rt, "memory");
    }
    serve(rt, alloc, room, gates)
}

/// So many links were served and messages accepted, a gate failed or none, and these are the replies.
pub fn tells(told: &Told, wanted: (u64, u64, bool), replies: &[&str]) -> bool {
    (told.served, told.accepted, told.failed) == wanted && are_told(&told.replies, replies)
}

fn are_told(told: &[String], replies: &[&str]) -> bool {
    for (reply, expected) in told.iter().zip(replies) {
        if reply.as_str() != *expected {
            return false;
        }
    }
    told.len() == replies.len()
}

/// A room in which the operator has opened the auction. These calls of its disk fail.
pub fn opened<R: Threads + Wait + Sync + Abort>(rt: &R, alloc: Global, fails: &[u64]) -> Memory {
    let mut text = String::new(alloc);
    for message in &OPENING {
        text.push_str(&post(rt, alloc, "op:root", message))
            .expect(rt, "memory");
    }
    let (room, told) = serve_texts(rt, alloc, empty_room(rt, alloc, fails), &[text.as_str()]);
    assert!(rt; told.served == 1 && told.accepted == 5);
    room
}

/// Serves each text on a link of its own in a new room. So many messages are accepted, no gate fails, and these are the
/// replies.
fn serves<R: Threads + Wait + Sync + Abort>(
    rt: &R,
    alloc: Global,
    texts: &[&str],
    accepted: u64,
    replies: &[&str],
) -> bool {
    let room = opened(rt, alloc, &[]);
    let (_, told) = serve_texts(rt, alloc, room, texts);
    tells(&told, (texts.len() as u64, accepted, false), replies)
}

/// How many calls of the disk open the auction.
pub fn opening_calls<R: Threads + Wait + Sync + Abort>(rt: &R, alloc: Global) -> u64 {
    opened(rt, alloc, &[]).desk.into_disk().calls()
}

#[test]
fn two_workers_take_a_bid_each(rt: HostRuntime) {
    let room = opened(&rt, rt.alloc(), &[]);
    let (room, told) = serve_texts(&rt, rt.alloc(), room, &[FIRST, SECOND]);
    assert!(rt; tells(&told, (2, 2, false), &[FIRST_REPLY, SECOND_REPLY]));
    // The disk has both, each once, and so they stand after it is opened again. Past the closing a new bid is late.
    let room = room_on(&rt, rt.alloc(), room.desk.into_disk(), CLOSING);
    assert!(rt; room.desk.entries() == 7);
    let (_, told) = serve_texts(&rt, rt.alloc(), room, &[THIRD, FIRST]);
    assert!(rt; tells(&told, (2, 0, false), &[LATE_REPLY, FIRST_REPLY]));
}

#[test]
fn one_message_on_two_links_stands_once(rt: HostRuntime) {
    assert!(rt;
        serves(
            &rt,
            rt.alloc(),
            &[FIRST, FIRST],
            1,
            &[FIRST_REPLY, FIRST_REPLY]
        )
    );
}

/// An add-on of the auction for the second dealer, as the operator posts it, and another one.
const ADD_ON: &str = posted!(
    "op:root",
    85,
    "{\"number\":6,\"kind\":\"addon\",\"auction\":\"bill13\",\"holder\":\"dealer2\",\"amount\":5000000000}"
);

const OTHER_ADD_ON: &str = posted!(
    "op:root",
    78,
    "{\"number\":7,\"kind\":\"addon\",\"auction\":\"bill13\",\"holder\":\"dealer1\",\"amount\":100}"
);

const ADD_ON_REPLY: &str = replied!("200 OK", 22, "accepted 6 1730700000\n");

const OTHER_ADD_ON_REPLY: &str = replied!(
    "422 Unprocessable Entity",
    23,
    "refused 46 AddOnExists\n"
);

/// The publication of the auction, and the question for the second dealer's awards.
const PUBLICATION: &str = posted!(
    "op:root",
    48,
    "{\"number\":7,\"kind\":\"publish\",\"auction\":\"bill13\"}"
);

const PUBLICATION_REPLY: &str = replied!("200 OK", 22, "accepted 7 1730737800\n");

const AWARDS: &str = "GET /awards/bill13 HTTP/1.1\r\nAuction-Key: k2\r\n\r\n";

/// At 4.300 percent for 91 days the price is 98.913056.
const AWARDS_REPLY: &str = replied!("200 OK", 27, "+ 5000000000 4945652800.00\n");

#[test]
fn an_auction_has_one_add_on(rt: HostRuntime) {
    let alloc = rt.alloc();
    let sent = joined(&rt, alloc, &[FIRST, ADD_ON, ADD_ON, OTHER_ADD_ON]);
    let replies = [FIRST_REPLY, ADD_ON_REPLY, ADD_ON_REPLY, OTHER_ADD_ON_REPLY];
    let told_first = joined(&rt, alloc, &replies);
    let room = opened(&rt, alloc, &[]);
    let (room, told) = serve_texts(&rt, alloc, room, &[sent.as_str()]);
    assert!(rt; tells(&told, (1, 2, false), &[told_first.as_str()]));
    let room = room_on(&rt, alloc, room.desk.into_disk(), CLOSING);
    let asked = joined(&rt, alloc, &[PUBLICATION, AWARDS]);
    let told_then = joined(&rt, alloc, &[PUBLICATION_REPLY, AWARDS_REPLY]);
    let (_, told) = serve_texts(&rt, alloc, room, &[asked.as_str()]);
    assert!(rt; tells(&told, (1, 1, false), &[told_then.as_str()]));
}

/// Requests of one link.
const REQUESTS: [&str; 8] = [
    FIRST,
    "GET /bids/bill13 HTTP/1.1\r\nAuction-Key: k1\r\n\r\n",
    SHAPELESS,
    posted!("k9", 2, "{}"),
    "GET /elsewhere HTTP/1.1\r\n\r\n",
    "GET /messages HTTP/1.1\r\n\r\n",
    "GET /holdings HTTP/1.1\r\n\r\n",
    "GET /results/bill13 HTTP/1.1\r\nAuction-Key: k1\r\nConnection: close\r\n\r\nGET",
];

/// The reply to each.
const REPLIES: [&str; 8] = [
    FIRST_REPLY,
    replied!("200 OK", 23, "1 fund1 4.300 100 live\n"),
    SHAPELESS_REPLY,
    replied!("401 Unauthorized", 21, "refused 1 UnknownKey\n"),
    replied!("404 Not Found", 18, "refused 7 NoRoute\n"),
    replied!(
        "405 Method Not Allowed",
        20,
        "Allow: POST\r\n",
        "refused 8 BadMethod\n"
    ),
    replied!("401 Unauthorized", 21, "refused 1 UnknownKey\n"),
    replied_last!("404 Not Found", 24, "refused 62 NotPublished\n"),
];

/// Texts one behind the other.
pub fn joined(rt: &impl Abort, alloc: Global, texts: &[&str]) -> String {
    let mut all = String::new(alloc);
    for text in texts {
        all.push_str(text).expect(rt, "memory");
    }
    all
}

/// Whether the first so many requests have the first so many replies, on one link.
fn first_are_answered<R: Threads + Wait + Sync + Abort>(
    rt: &R,
    alloc: Global,
    count: usize,
) -> bool {
    assert!(rt; count <= 8);
    let text = joined(rt, alloc, &REQUESTS[..count]);
    let replies = joined(rt, alloc, &REPLIES[..count]);
    serves(rt, alloc, &[text.as_str()], 1, &[replies.as_str()])
}

#[test]
fn a_link_is_answered_request_by_request(rt: HostRuntime) {
    assert!(rt; first_are_answered(&rt, rt.alloc(), 1));
    assert!(rt; first_are_answered(&rt, rt.alloc(), 2));
    assert!(rt; first_are_answered(&rt, rt.alloc(), 3));
    assert!(rt; first_are_answered(&rt, rt.alloc(), 4));
    assert!(rt; first_are_answered(&rt, rt.alloc(), 5));
    assert!(rt; first_are_answered(&rt, rt.alloc(), 6));
    assert!(rt; first_are_answered(&rt, rt.alloc(), 7));
    assert!(rt; first_are_answered(&rt, rt.alloc(), 8));
}

// Serves a link in a room: how it ended, and the room afterwards.
fn served<R: Wait + Abort, L: Link>(
    rt: &R,
    alloc: Global,
    room: Memory,
    link: &mut L,
) -> (End, Memory) {
    assert!(rt; !room.desk.unsure());
    let Ok((lock, mut pass)) = TurnLock::new(alloc, room) else {
        panic!(rt; "no memory")
    };
    let end = serve_link(rt, alloc, &lock, &mut pass, link);
    let Ok(after) = lock.close(pass) else {
        panic!(rt; "a turn is out")
    };
    (end, after)
}

/// Serves a link in the room, which serves the next one afterwards, and says how it ended.
pub fn serve_one<R: Wait + Abort, L: Link>(
    rt: &R,
    alloc: Global,
    room: &mut Option<Memory>,
    link: &mut L,
) -> End {
    let found = room.take().expect(rt, "a room");
    let (end, after) = served(rt, alloc, found, link);
    *room = Some(after);
    end
}

/// The same of a link that is given so: whether it ends so, and is replied this.
pub fn ends<R: Wait + Abort>(
    rt: &R,
    alloc: Global,
    room: &mut Option<Memory>,
    given: &Given<'_>,
    ended: End,
    reply: &str,
) -> bool {
    let mut link = link_of(rt, alloc, given);
    let end = serve_one(rt, alloc, room, &mut link);
    end == ended && link.sink.bytes() == reply.as_bytes()
}

/// The same of a link that gives this text.
pub fn text_ends<R: Wait + Abort>(
    rt: &R,
    alloc: Global,
    room: &mut Option<Memory>,
    text: &str,
    ended: End,
    reply: &str,
) -> bool {
    ends(rt, alloc, room, &whole(text), ended, reply)
}

/// Texts of a link that end it, and the replies to them.
const CUT: &str = "POST /messages HTTP/1.1\r\n";

/// A message whose body lacks its last byte.
const CUT_IN_BODY: &str = posted!("k1", 2, "{");

const TOO_LONG: &str = "POST /messages HTTP/1.1\r\nContent-Length: 4097\r\n\r\n";

const TOO_LONG_REPLY: &str = replied_last!("413 Payload Too Large", 12, "bad request\n");

const CHUNKED: &str = "POST /messages HTTP/1.1\r\nTransfer-Encoding: chunked\r\n\r\n";

const CHUNKED_REPLY: &str = replied_last!("501 Not Implemented", 12, "bad request\n");

const WITHOUT_LENGTH: &str = "POST /messages HTTP/1.1\r\n\r\n{}";

const WITHOUT_LENGTH_REPLY: &str = replied_last!("411 Length Required", 12, "bad request\n");

const LAST: &str =
    "POST /messages HTTP/1.1\r\nAuction-Key: k1\r\nConnection: close\r\nContent-Length: 2\r\n\r\n{}";

const LAST_REPLY: &str = replied_last!("400 Bad Request", 26, "refused 6 BadShape number\n");

#[test]
fn a_link_ends_as_its_bytes_do(rt: HostRuntime) {
    let alloc = rt.alloc();
    let mut room = Some(opened(&rt, alloc, &[]));
    assert!(rt; text_ends(&rt, alloc, &mut room, "", End::EndOfInput, ""));
    assert!(rt;
        text_ends(
            &rt,
            alloc,
            &mut room,
            SHAPELESS,
            End::EndOfInput,
            SHAPELESS_REPLY
        )
    );
    assert!(rt; text_ends(&rt, alloc, &mut room, CUT, End::CutShort, ""));
    assert!(rt; text_ends(&rt, alloc, &mut room, CUT_IN_BODY, End::CutShort, ""));
    assert!(rt;
        text_ends(
            &rt,
            alloc,
            &mut room,
            TOO_LONG,
            End::BadRequest(413),
            TOO_LONG_REPLY
        )
    );
    assert!(rt;
        text_ends(
            &rt,
            alloc,
            &mut room,
            CHUNKED,
            End::BadRequest(501),
            CHUNKED_REPLY
        )
    );
    assert!(rt;
        text_ends(
            &rt,
            alloc,
            &mut room,
            WITHOUT_LENGTH,
            End::BadRequest(411),
            WITHOUT_LENGTH_REPLY
        )
    );
    assert!(rt; text_ends(&rt, alloc, &mut room, LAST, End::Asked, LAST_REPLY));
}

/// A link with this text, of which these calls fail.
fn failing<'a>(text: &'a str, reads: &'a [u64], writes: &'a [u64]) -> Given<'a> {
    Given {
        failing_reads: reads,
        failing_writes: writes,
        ..whole(text)
    }
}

/// A link with a message on which these calls fail ends so, and is replied nothing.
fn fails<R: Wait + Abort>(
    rt: &R,
    alloc: Global,
    room: &mut Option<Memory>,
    failing_reads: &[u64],
    failing_writes: &[u64],
    ended: End,
) -> bool {
    let given = failing(SHAPELESS, failing_reads, failing_writes);
    ends(rt, alloc, room, &given, ended, "")
}

#[test]
fn a_link_ends_at_a_failing_call(rt: HostRuntime) {
    let mut room = Some(opened(&rt, rt.alloc(), &[]));
    assert!(rt; fails(&rt, rt.alloc(), &mut room, &[0], &[], End::ReadFault));
    assert!(rt; fails(&rt, rt.alloc(), &mut room, &[], &[0], End::WriteFault));
}

/// Whether a message that comes in pieces of so many bytes has its reply.
fn comes_in_pieces<R: Wait + Abort>(
    rt: &R,
    alloc: Global,
    room: &mut Option<Memory>,
    piece: usize,
) -> bool {
    let given = Given {
        piece,
        ..whole(SHAPELESS)
    };
    ends(rt, alloc, room, &given, End::EndOfInput, SHAPELESS_REPLY)
}

// However the bytes are cut, the reply is the same.
#[test]
fn a_request_comes_in_pieces(rt: HostRuntime) {
    let mut room = Some(opened(&rt, rt.alloc(), &[]));
    for piece in 1..SHAPELESS.len() {
        assert!(rt; comes_in_pieces(&rt, rt.alloc(), &mut room, piece));
    }
}

/// Serves two requests on a link that fails, by three reads, beside a link with a bid: the failing one is replied this,
/// and the other one as ever. So many entries are new.
fn fails_beside<R: Threads + Wait + Sync + Abort>(
    rt: &R,
    alloc: Global,
    room: &mut Option<Memory>,
    failing: Given<'_>,
    expected: &str,
    new: u64,
) -> bool {
    let mut gates = Vec::new(alloc);
    gates
        .push(gate_of(rt, alloc, &[failing], &[]))
        .expect(rt, "memory");
    gates
        .push(gate_of(rt, alloc, &[whole(FIRST)], &[]))
        .expect(rt, "memory");
    let found = room.take().expect(rt, "a room");
    let (after, told) = serve(rt, alloc, found, gates);
    *room = Some(after);
    tells(&told, (2, new, false), &[expected, FIRST_REPLY])
}

#[test]
fn a_failing_link_leaves_the_others_whole(rt: HostRuntime) {
    let alloc = rt.alloc();
    let mut room = Some(opened(&rt, alloc, &[]));
    let text = joined(&rt, alloc, &[OTHER_SHAPELESS, OTHER_SHAPELESS]);
    let both = joined(&rt, alloc, &[SHAPELESS_REPLY, SHAPELESS_REPLY]);
    assert!(rt; fails_beside(&rt, alloc, &mut room, failing(&text, &[0], &[]), "", 1));
    assert!(rt; fails_beside(&rt, alloc, &mut room, failing(&text, &[1], &[]), "", 0));
    assert!(rt;
        fails_beside(
            &rt,
            alloc,
            &mut room,
            failing(&text, &[2], &[]),
            SHAPELESS_REPLY,
            0
        )
    );
    assert!(rt; fails_beside(&rt, alloc, &mut room, failing(&text, &[3], &[]), &both, 0));
    assert!(rt; fails_beside(&rt, alloc, &mut room, failing(&text, &[], &[0]), "", 0));
    assert!(rt;
        fails_beside(
            &rt,
            alloc,
            &mut room,
            failing(&text, &[], &[1]),
            SHAPELESS_REPLY,
            0
        )
    );
}

/// Serves two links at one gate, of which these calls fail.
fn serve_at_one<R: Threads + Wait + Sync + Abort>(
    rt: &R,
    alloc: Global,
    room: Memory,
    fails: &[u64],
) -> (Memory, Told) {
    let mut gates = Vec::new(alloc);
    gates
        .push(gate_of(rt, alloc, &[whole(FIRST), whole(SECOND)], fails))
        .expect(rt, "memory");
    serve(rt, alloc, room, gates)
}

#[test]
fn a_gate_is_served_until_it_fails(rt: HostRuntime) {
    let room = opened(&rt, rt.alloc(), &[]);
    let (room, told) = serve_at_one(&rt, rt.alloc(), room, &[1]);
    assert!(rt; tells(&told, (1, 1, true), &[FIRST_REPLY]));
    // A gate that doesn't fail gives all links.
    let (_, told) = serve_at_one(&rt, rt.alloc(), room, &[]);
    assert!(rt; tells(&told, (2, 1, false), &[FIRST_REPLY, SECOND_REPLY]));
}

pub const FAULT_REPLY: &str = replied!("503 Service Unavailable", 22, "unavailable DiskFault\n");

#[test]
fn a_disk_fault_is_told_and_the_link_goes_on(rt: HostRuntime) {
    let text = joined(&rt, rt.alloc(), &[FIRST, FIRST]);
    let replies = joined(&rt, rt.alloc(), &[FAULT_REPLY, FIRST_REPLY]);
    // The last of the four calls of the disk at a new message fails, so its entry stands at the next turn.
    let calls = opening_calls(&rt, rt.alloc());
    let room = opened(&rt, rt.alloc(), &[calls.saturating_add(3)]);
    let (_, told) = serve_texts(&rt, rt.alloc(), room, &[text.as_str()]);
    assert!(rt; tells(&told, (1, 1, false), &[replies.as_str()]));
}

/// The bids of the second dealer, so many.
fn other_bids(rt: &impl Abort, alloc: Global, count: u64) -> String {
    let mut text = String::new(alloc);
    for number in 1..=count {
        let bid = format!(in alloc;
            "{{\"number\":{number},\"kind\":\"bid\",\"auction\":\"bill13\",\"bidder\":\"fund2\",\"rate\":\"4.310\",\
            \"amount\":100}}"
        )
        .expect(rt, "memory");
        text.push_str(&post(rt, alloc, "k2", &bid))
            .expect(rt, "memory");
    }
    text
}

/// What a dealer sends, and asks.
const OWN: [&str; 7] = [
    FIRST,
    FIRST,
    CHANGED,
    "GET /bids/bill13 HTTP/1.1\r\nAuction-Key: k1\r\n\r\n",
    "GET /awards/bill13 HTTP/1.1\r\nAuction-Key: k1\r\n\r\n",
    "GET /results/bill13 HTTP/1.1\r\nAuction-Key: k1\r\n\r\n",
    "GET /terms/bill13 HTTP/1.1\r\nAuction-Key: k1\r\n\r\n",
];

/// The reply to the first of these texts, each on a link of its own in a room of their own. So many messages are
/// accepted.
fn first_reply<R: Threads + Wait + Sync + Abort>(
    rt: &R,
    alloc: Global,
    texts: &[&str],
    accepted: u64,
) -> String {
    let room = opened(rt, alloc, &[]);
    let (_, told) = serve_texts(rt, alloc, room, texts);
    assert!(rt; told.accepted == accepted && told.replies.len() == texts.len());
    let reply = told.replies.first().expect(rt, "a reply");
    reply.clone().expect(rt, "memory")
}

#[test]
fn a_dealer_learns_nothing_of_the_others(rt: HostRuntime) {
    let own = joined(&rt, rt.alloc(), &OWN);
    let bids = other_bids(&rt, rt.alloc(), 1000);
    let alone = first_reply(&rt, rt.alloc(), &[own.as_str()], 1);
    let beside = first_reply(&rt, rt.alloc(), &[own.as_str(), bids.as_str()], 1001);
    assert!(rt; alone.as_str() == beside.as_str());
}

#[test]
fn a_room_is_called_by_a_key(rt: HostRuntime) {
    let dealer = Key::read("k1").expect(&rt, "a key");
    let nobody = Key::read("k9").expect(&rt, "a key");
    let mut room = opened(&rt, rt.alloc(), &[]);
    assert!(rt; room.knows(&dealer) && !room.knows(&nobody));
    let answer = room.read(rt.alloc(), &dealer, &Query::Holdings);
    assert!(rt; matches!(answer, Answer::Reading(_)));
}
