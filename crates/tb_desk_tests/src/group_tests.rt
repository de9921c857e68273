//! Several bids under one gate.
ghost use Rattle.tb_message.specs.Spelling.{IsNumbered};
ghost use Rattle.tb_core.specs.House.{IsBid};

use crate::tests::{SCRIPT, asked, desk_of, disk_of, entries_in, moment, name, submit};
use std::alloc::Global;
use std::process::Abort;
use tb_desk::{Desk, GroupReply, Reply};
use tb_disk::MemoryDisk;
use tb_message::{Message, Verdict};

const FIRST_BID: &str =
    "{\"number\":7,\"kind\":\"bid\",\"auction\":\"bill13\",\"bidder\":\"fund1\",\"rate\":\"4.300\",\"amount\":100}";

const SECOND_BID: &str =
    "{\"number\":8,\"kind\":\"bid\",\"auction\":\"bill13\",\"bidder\":\"fund1\",\"rate\":\"4.305\",\"amount\":100}";

const MOMENT: u64 = 1_730_737_799;

// What a place tells of a bid: its number, where it was accepted at the moment of the tests, now or before.
#[derive(Clone, Copy, Debug, PartialEq, Eq)]
enum Told {
    Nothing,
    Accepted(u64),
    Repeated(u64),
    Other,
}

type Answer = (GroupReply, Told, Told);

// Both bids are accepted, or were before.
const ACCEPTED: Answer = (GroupReply::Verdicts, Told::Accepted(7), Told::Accepted(8));

const REPEATED: Answer = (GroupReply::Verdicts, Told::Repeated(7), Told::Repeated(8));

const FAULT: Answer = (GroupReply::DiskFault, Told::Nothing, Told::Nothing);

fn told_by(verdict: Option<Verdict>) -> Told {
    match verdict {
        None => Told::Nothing,
        Some(Verdict::Accepted { number, moment }) if moment.seconds == MOMENT => {
            Told::Accepted(number)
        }
        Some(Verdict::Repeat { number, moment }) if moment.seconds == MOMENT => {
            Told::Repeated(number)
        }
        Some(_) => Told::Other,
    }
}

// A bid, and its number.
fn bid(rt: &impl Abort, alloc: Global, text: &str) -> (u64, Message)
    ensures { IsNumbered result.0 result.1 × IsBid result.1 }
{
    let (number, message) = asked(rt, alloc, text);
    match message {
        Message::Bid { .. } => (number, message),
        _ => panic!(rt; "no bid"),
    }
}

// A desk on which the auction is announced: the opening made the device calls 0 to 3, and each of the three messages
// four.
fn announced(rt: &impl Abort, alloc: Global, fails: &[u64], torn: u8) -> Desk<MemoryDisk> {
    let mut desk = desk_of(rt, alloc, disk_of(rt, alloc, b"", fails, torn));
    assert!(rt; submit(rt, alloc, &mut desk, SCRIPT[0]) != Reply::DiskFault);
    assert!(rt; submit(rt, alloc, &mut desk, SCRIPT[1]) != Reply::DiskFault);
    assert!(rt; submit(rt, alloc, &mut desk, SCRIPT[2]) != Reply::DiskFault);
    desk
}

// The reply to two bids of the dealer under one gate, and what the places tell of them.
fn submit_pair(
    rt: &impl Abort,
    alloc: Global,
    desk: &mut Desk<MemoryDisk>,
    first: &str,
    second: &str,
) -> Answer {
    let bids = [bid(rt, alloc, first), bid(rt, alloc, second)];
    desk.make_room_group(&bids).expect(rt, "memory");
    assert!(rt; desk.has_room_group(&bids));
    let mut verdicts = [None; 64];
    let reply = desk.submit_group(
        &name(rt, "dealer1"),
        moment(rt, MOMENT),
        &bids,
        &mut verdicts,
    );
    assert!(rt; verdicts[2].is_none() && verdicts[63].is_none());
    (reply, told_by(verdicts[0]), told_by(verdicts[1]))
}

// The journal before the two bids, or behind them.
fn journal(rt: &impl Abort, alloc: Global, with_bids: bool) -> Vec<u8> {
    let mut desk = announced(rt, alloc, &[], 0);
    if with_bids {
        let answer = submit_pair(rt, alloc, &mut desk, FIRST_BID, SECOND_BID);
        assert!(rt; answer == ACCEPTED);
    }
    desk.into_disk()
        .contents()
        .to_vec(alloc)
        .expect(rt, "memory")
}

#[test]
fn two_bids_stand_under_one_gate(rt: HostRuntime) {
    let alloc = rt.alloc();
    let before = journal(&rt, alloc, false);
    let after = journal(&rt, alloc, true);
    let size = before.len();
    // The gate byte of the frame stands where the last byte of the file was, and its length and ordinal behind it.
    assert!(rt; size > 0 && after.len() == size + 113);
    assert!(rt; &after[..size - 1] == &before[..size - 1]);
    assert!(rt; &after[size - 1..size + 12] == b"\x01\0\0\0\x64\0\0\0\0\0\0\0\x03".as_slice());
}

// How many entries the journal with the two bids stands for, less so many of its bytes, where this gate is before them.
fn entries_behind(rt: &impl Abort, alloc: Global, file: &mut [u8], gate: u8, less: usize) -> u64 {
    let size = file.len();
    assert!(rt; size > 114 && less <= 114);
    file[size - 114] = gate;
    entries_in(rt, alloc, &file[..size - less])
}

// The first call writes the frame behind the closed gate, and the third call the gate. Before the fourth any byte may
// stand there, and so both bids count or neither.
#[test]
fn a_crash_leaves_both_bids_or_neither(rt: HostRuntime) {
    let alloc = rt.alloc();
    let mut file = journal(&rt, alloc, true);
    assert!(rt; entries_behind(&rt, alloc, &mut file, 0, 0) == 3);
    assert!(rt; entries_behind(&rt, alloc, &mut file, 2, 0) == 3);
    assert!(rt; entries_behind(&rt, alloc, &mut file, 7, 0) == 3);
    assert!(rt; entries_behind(&rt, alloc, &mut file, 255, 0) == 3);
    assert!(rt; entries_behind(&rt, alloc, &mut file, 1, 0) == 5);
}

#[test]
fn a_crash_at_the_frame_leaves_neither_bid(rt: HostRuntime) {
    let alloc = rt.alloc();
    let mut file = journal(&rt, alloc, true);
    assert!(rt; entries_behind(&rt, alloc, &mut file, 0, 1) == 3);
    assert!(rt; entries_behind(&rt, alloc, &mut file, 0, 41) == 3);
    assert!(rt; entries_behind(&rt, alloc, &mut file, 0, 51) == 3);
    assert!(rt; entries_behind(&rt, alloc, &mut file, 0, 101) == 3);
    assert!(rt; entries_behind(&rt, alloc, &mut file, 0, 113) == 3);
}

// Whether the two bids are answered so, and leave the desk in doubt or not, with so many entries.
fn pair_told(
    rt: &impl Abort,
    alloc: Global,
    desk: &mut Desk<MemoryDisk>,
    wanted: Answer,
    unsure: bool,
    entries: u64,
) -> bool {
    let told = submit_pair(rt, alloc, desk, FIRST_BID, SECOND_BID) == wanted;
    told && desk.unsure() == unsure && desk.entries() == entries
}

// Whether two bids are in doubt where this device call fails, and are answered so when they come again.
fn is_in_doubt(rt: &impl Abort, alloc: Global, call: u64, torn: u8, again: Answer) -> bool {
    let mut desk = announced(rt, alloc, &[call], torn);
    let first = pair_told(rt, alloc, &mut desk, FAULT, true, 3) && desk.faults() == 1;
    first && pair_told(rt, alloc, &mut desk, again, false, 5)
}

// The calls 16 to 19 add the two bids.
#[test]
fn two_bids_are_in_doubt_together(rt: HostRuntime) {
    let alloc = rt.alloc();
    assert!(rt; is_in_doubt(&rt, alloc, 19, 0, REPEATED));
    assert!(rt; is_in_doubt(&rt, alloc, 18, 1, REPEATED));
    assert!(rt; is_in_doubt(&rt, alloc, 18, 7, ACCEPTED));
    assert!(rt; is_in_doubt(&rt, alloc, 17, 0, ACCEPTED));
    assert!(rt; is_in_doubt(&rt, alloc, 16, 0, ACCEPTED));
}

#[test]
fn a_bid_is_judged_on_those_before_it(rt: HostRuntime) {
    let alloc = rt.alloc();
    let mut desk = announced(&rt, alloc, &[], 0);
    let answer = submit_pair(&rt, alloc, &mut desk, FIRST_BID, FIRST_BID);
    assert!(rt; answer == (GroupReply::Verdicts, Told::Accepted(7), Told::Repeated(7)));
    assert!(rt; desk.entries() == 4);
}
