//! Tests of the desk through its public calls: replies, repeats, and what an opening finds.
ghost use Rattle.tb_message.specs.Spelling.{IsNumbered};

use std::alloc::Global;
use std::process::Abort;
use tb_desk::{Desk, OpenFault, Reply};
use tb_disk::MemoryDisk;
use tb_message::{Message, Query, Request, Verdict, read_request};
use tb_units::{Ident, Moment};

const ROOM: u64 = 10_000;

const LOG_ROOM: u64 = 100_000;

// The messages of an ordinary auction, each with its sender and its moment.
pub const SCRIPT: [(u64, &str, &str); 5] = [
    (
        1_730_700_000,
        "operator",
        "{\"number\":1,\"kind\":\"register\",\"submitter\":\"dealer1\",\"key\":\"k1\"}",
    ),
    (
        1_730_700_000,
        "operator",
        "{\"number\":2,\"kind\":\"enrol\",\"bidder\":\"fund1\",\"submitter\":\"dealer1\"}",
    ),
    (
        1_730_700_000,
        "operator",
        "{\"number\":3,\"kind\":\"announce\",\"auction\":\"bill13\",\"cusip\":\"912797AA5\",\"offering\":76000000000,\"minimum\":100,\"ceiling\":10000000,\"floor\":1000000000,\"threshold\":26600000000,\"date\":\"2024-11-04\",\"nc_close\":\"11:00\",\"c_close\":\"11:30\",\"issue\":\"2024-11-07\",\"maturity\":\"2025-02-06\"}",
    ),
    (
        1_730_737_799,
        "dealer1",
        "{\"number\":1,\"kind\":\"bid\",\"auction\":\"bill13\",\"bidder\":\"fund1\",\"rate\":\"4.27\",\"amount\":20000000000}",
    ),
    (
        1_730_737_800,
        "operator",
        "{\"number\":4,\"kind\":\"publish\",\"auction\":\"bill13\"}",
    ),
];

// The journal after the first of them.
const FIRST: &[u8] = b"TBHOSTJOURNAL002\x01\
    \x01\0\0\0\x25\0\0\0\0\0\0\0\0\
    \x08operator\0\0\0\0\0\0\0\x01\0\0\0\0\x67\x28\x62\xe0\x01\x07dealer1\x02k1\
    \0";

pub fn name(rt: &impl Abort, text: &str) -> Ident {
    Ident::read(text).expect(rt, "no name")
}

pub fn moment(rt: &impl Abort, seconds: u64) -> Moment {
    assert!(rt; (946_702_800..=4_102_444_799).contains(&seconds));
    Moment { seconds }
}

pub fn asked(rt: &impl Abort, alloc: Global, text: &str) -> (u64, Message)
    ensures { IsNumbered result.0 result.1 }
{
    match read_request(alloc, text.as_bytes()) {
        Ok(Request::Message { number, message }) => (number, message),
        _ => panic!(rt; "no message"),
    }
}

pub fn disk_of(
    rt: &impl Abort,
    alloc: Global,
    contents: &[u8],
    fails: &[u64],
    torn: u8,
) -> MemoryDisk {
    assert!(rt; contents.len() < 10_000);
    let fails = fails.to_vec(alloc).expect(rt, "memory");
    MemoryDisk::new(alloc, contents, ROOM, LOG_ROOM, fails, torn).expect(rt, "memory")
}

pub fn desk_of(rt: &impl Abort, alloc: Global, disk: MemoryDisk) -> Desk<MemoryDisk> {
    match Desk::open(alloc, disk) {
        Ok(desk) => desk,
        Err(_) => panic!(rt; "not opened"),
    }
}

// The desk of a file, of which no call fails.
pub fn desk_on(rt: &impl Abort, alloc: Global, file: &[u8]) -> Desk<MemoryDisk> {
    desk_of(rt, alloc, disk_of(rt, alloc, file, &[], 0))
}

pub fn submit(
    rt: &impl Abort,
    alloc: Global,
    desk: &mut Desk<MemoryDisk>,
    line: (u64, &str, &str),
) -> Reply {
    let (seconds, sender, text) = line;
    let (number, message) = asked(rt, alloc, text);
    desk.make_room(&message).expect(rt, "memory");
    assert!(rt; desk.has_room(&message));
    desk.submit(&name(rt, sender), number, moment(rt, seconds), &message)
}

fn accepted(rt: &impl Abort, number: u64, seconds: u64) -> Reply {
    Reply::Verdict(Verdict::Accepted {
        number,
        moment: moment(rt, seconds),
    })
}

fn repeated(rt: &impl Abort, number: u64, seconds: u64) -> Reply {
    Reply::Verdict(Verdict::Repeat {
        number,
        moment: moment(rt, seconds),
    })
}

// How many entries a file stands for.
pub fn entries_in(rt: &impl Abort, alloc: Global, file: &[u8]) -> u64 {
    desk_on(rt, alloc, file).entries()
}

// Whether the first message of a sender is accepted at its own moment.
fn is_accepted(
    rt: &impl Abort,
    alloc: Global,
    desk: &mut Desk<MemoryDisk>,
    line: (u64, &str, &str),
) -> bool {
    submit(rt, alloc, desk, line) == accepted(rt, 1, line.0)
}

#[test]
fn an_entry_has_the_bytes_of_its_format(rt: HostRuntime) {
    let alloc = rt.alloc();
    let mut desk = desk_on(&rt, alloc, b"");
    assert!(rt; is_accepted(&rt, alloc, &mut desk, SCRIPT[0]));
    assert!(rt; desk.into_disk().contents() == FIRST);
}

// Whether the file is opened as an empty journal, which then stands on the disk.
fn is_begun(rt: &impl Abort, alloc: Global, file: &[u8]) -> bool {
    let desk = desk_on(rt, alloc, file);
    desk.entries() == 0 && desk.into_disk().contents() == b"TBHOSTJOURNAL002\x01\0".as_slice()
}

#[test]
fn files_without_entries_are_begun(rt: HostRuntime) {
    assert!(rt; is_begun(&rt, rt.alloc(), b""));
    assert!(rt; is_begun(&rt, rt.alloc(), b"eighteen bytes...."));
    assert!(rt; entries_in(&rt, rt.alloc(), FIRST) == 1);
}

// Whether the file is refused with this fault, and stays as it is.
fn is_refused(rt: &impl Abort, alloc: Global, file: &[u8], fault: OpenFault) -> bool {
    let disk = disk_of(rt, alloc, file, &[], 0);
    match Desk::open(alloc, disk) {
        Ok(_desk) => false,
        Err((disk, found)) => found == fault && disk.contents() == file,
    }
}

// The pieces of a file, one behind the other.
fn joined(rt: &impl Abort, alloc: Global, pieces: &[&[u8]]) -> Vec<u8> {
    let mut file = Vec::new(alloc);
    for piece in pieces {
        file.extend_from_slice(piece).expect(rt, "memory");
    }
    file
}

#[test]
fn files_that_are_no_journals_are_refused(rt: HostRuntime) {
    let alloc = rt.alloc();
    let unsealed = joined(&rt, alloc, &[&FIRST[..16], b"\0", &FIRST[17..]]);
    // The frame once more, of which none or one stands before it.
    let copied = joined(&rt, alloc, &[&FIRST[..67], &FIRST[17..]]);
    let second = b"\x01\0\0\0\x25\0\0\0\0\0\0\0\x01";
    let twice = joined(&rt, alloc, &[&FIRST[..67], second, &FIRST[30..]]);
    // One byte more in the payload, whose length is then 38.
    let longer = joined(&rt, alloc, &[&FIRST[..21], b"\x26", &FIRST[22..67], b"x\0"]);
    assert!(rt; is_refused(&rt, alloc, &[b'a'; 19], OpenFault::NotAJournal([b'a'; 16])));
    assert!(rt; is_refused(&rt, alloc, &unsealed, OpenFault::Unsealed(0)));
    assert!(rt; is_refused(&rt, alloc, &FIRST[..40], OpenFault::Damaged(17)));
    // A frame that was copied, a payload that is no record, one with a byte behind its record, and an entry that stands
    // twice.
    let no_record = b"TBHOSTJOURNAL002\x01\x01\0\0\0\x01\0\0\0\0\0\0\0\0x\0";
    assert!(rt; is_refused(&rt, alloc, &copied, OpenFault::Damaged(67)));
    assert!(rt; is_refused(&rt, alloc, no_record, OpenFault::Damaged(17)));
    assert!(rt; is_refused(&rt, alloc, &longer, OpenFault::Damaged(17)));
    assert!(rt; is_refused(&rt, alloc, &twice, OpenFault::Damaged(67)));
}

// Whether the first message meets a fault, which leaves it in doubt.
fn meets_a_fault(rt: &impl Abort, alloc: Global, desk: &mut Desk<MemoryDisk>) -> bool {
    submit(rt, alloc, desk, SCRIPT[0]) == Reply::DiskFault && desk.unsure()
}

// Whether the first message is answered as one that was accepted before.
fn is_repeated(rt: &impl Abort, alloc: Global, desk: &mut Desk<MemoryDisk>) -> bool {
    submit(rt, alloc, desk, SCRIPT[0]) == repeated(rt, 1, 1_730_700_000)
}

// Whether the first message meets a fault at this call, and is answered so when it comes again.
fn is_resolved(rt: &impl Abort, alloc: Global, call: u64, torn: u8, reply: &Reply) -> bool {
    let disk = disk_of(rt, alloc, b"", &[call], torn);
    let mut desk = desk_of(rt, alloc, disk);
    if !meets_a_fault(rt, alloc, &mut desk) || desk.faults() != 1 {
        return false;
    }
    let again = submit(rt, alloc, &mut desk, SCRIPT[0]);
    again == *reply && !desk.unsure() && desk.entries() == 1
}

// An opening of an empty disk makes the device calls 0 to 3, so those of the first submit are 4 to 7.
#[test]
fn a_message_in_doubt_is_resolved(rt: HostRuntime) {
    let alloc = rt.alloc();
    let accepted = accepted(&rt, 1, 1_730_700_000);
    let repeated = repeated(&rt, 1, 1_730_700_000);
    assert!(rt; is_resolved(&rt, alloc, 7, 0, &repeated));
    assert!(rt; is_resolved(&rt, alloc, 6, 1, &repeated));
    assert!(rt; is_resolved(&rt, alloc, 6, 7, &accepted));
    assert!(rt; is_resolved(&rt, alloc, 5, 0, &accepted));
    assert!(rt; is_resolved(&rt, alloc, 4, 0, &accepted));
}

#[test]
fn a_sync_that_fails_again_is_a_fault_again(rt: HostRuntime) {
    let alloc = rt.alloc();
    let disk = disk_of(&rt, alloc, b"", &[7, 8], 0);
    let mut desk = desk_of(&rt, alloc, disk);
    assert!(rt; meets_a_fault(&rt, alloc, &mut desk));
    assert!(rt; meets_a_fault(&rt, alloc, &mut desk));
    assert!(rt; is_repeated(&rt, alloc, &mut desk) && desk.faults() == 2);
}

// Whether a message is acknowledged, which is sent up to three times while the disk fails.
fn is_acknowledged(
    rt: &impl Abort,
    alloc: Global,
    desk: &mut Desk<MemoryDisk>,
    line: (u64, &str, &str),
) -> bool {
    for _ in 0..3 {
        if submit(rt, alloc, desk, line) != Reply::DiskFault {
            return true;
        }
    }
    false
}

// How many messages of the script are acknowledged.
fn acknowledged(rt: &impl Abort, alloc: Global, desk: &mut Desk<MemoryDisk>) -> u64 {
    let mut kept = 0u64;
    for line in SCRIPT {
        if is_acknowledged(rt, alloc, desk, line) {
            kept = kept.saturating_add(1);
        }
    }
    kept
}

// The script of an auction over a disk that fails. Whether what was acknowledged stands in the file, once.
fn keeps_the_script(rt: &impl Abort, alloc: Global, fails: &[u64]) -> bool {
    match Desk::open(alloc, disk_of(rt, alloc, b"", fails, 7)) {
        Ok(mut desk) => {
            let kept = acknowledged(rt, alloc, &mut desk);
            let unsure = desk.unsure();
            let entries = desk.entries();
            let found = entries_in(rt, alloc, desk.into_disk().contents());
            kept <= entries && (found == entries || (unsure && found == entries + 1))
        }
        Err((disk, fault)) => {
            fault == OpenFault::DiskFault && entries_in(rt, alloc, disk.contents()) == 0
        }
    }
}

// Four calls open the desk, and four add each of the five entries.
#[test]
fn one_call_may_fail(rt: HostRuntime) {
    let alloc = rt.alloc();
    for call in 0..24 {
        assert!(rt; keeps_the_script(&rt, alloc, &[call]));
    }
}

// The numbers of the calls from one on.
fn calls_from(rt: &impl Abort, alloc: Global, call: u64) -> Vec<u64> {
    let mut rest = Vec::new(alloc);
    for later in call..60 {
        rest.push(later).expect(rt, "memory");
    }
    rest
}

#[test]
fn all_calls_may_fail_from_one_on(rt: HostRuntime) {
    let alloc = rt.alloc();
    for call in 0..24 {
        assert!(rt; keeps_the_script(&rt, alloc, &calls_from(&rt, alloc, call)));
    }
}

// Whether so many bytes of the first frame behind a closed gate, of which the last is this one, are no entry.
fn is_cut_off(rt: &impl Abort, alloc: Global, size: usize, byte: u8) -> bool {
    assert!(rt; 19 <= size && size <= 68);
    let mut file = FIRST[..size].to_vec(alloc).expect(rt, "memory");
    file[17] = 0;
    file[size - 1] = byte;
    entries_in(rt, alloc, &file) == 0
}

// How many entries the first frame stands for behind this gate.
fn behind_gate(rt: &impl Abort, alloc: Global, gate: u8) -> u64 {
    let mut file = FIRST.to_vec(alloc).expect(rt, "memory");
    file[17] = gate;
    entries_in(rt, alloc, &file)
}

// The first call writes the frame behind the closed gate: any bytes may stand there.
#[test]
fn a_crash_at_the_frame_leaves_no_entry(rt: HostRuntime) {
    let alloc = rt.alloc();
    assert!(rt; is_cut_off(&rt, alloc, 19, 1) && is_cut_off(&rt, alloc, 19, 7));
    assert!(rt; is_cut_off(&rt, alloc, 22, 1) && is_cut_off(&rt, alloc, 22, 7));
    assert!(rt; is_cut_off(&rt, alloc, 30, 1) && is_cut_off(&rt, alloc, 30, 7));
    assert!(rt; is_cut_off(&rt, alloc, 50, 1) && is_cut_off(&rt, alloc, 50, 7));
    assert!(rt; is_cut_off(&rt, alloc, 68, 1) && is_cut_off(&rt, alloc, 68, 7));
}

// The third call writes the gate: any byte may stand there. After the fourth it is 1.
#[test]
fn a_crash_at_the_gate_leaves_the_entry_or_none(rt: HostRuntime) {
    let alloc = rt.alloc();
    assert!(rt; behind_gate(&rt, alloc, 0) == 0);
    assert!(rt; behind_gate(&rt, alloc, 1) == 1);
    assert!(rt; behind_gate(&rt, alloc, 2) == 0);
    assert!(rt; behind_gate(&rt, alloc, 7) == 0);
    assert!(rt; behind_gate(&rt, alloc, 255) == 0);
}

// Whether the dealer reads its bids.
fn reads_bids(rt: &impl Abort, alloc: Global, desk: &Desk<MemoryDisk>) -> bool {
    let query = Query::Bids(name(rt, "bill13"));
    desk.read(alloc, &name(rt, "dealer1"), &query).is_ok()
}

#[test]
fn queries_are_answered(rt: HostRuntime) {
    let alloc = rt.alloc();
    let mut desk = desk_on(&rt, alloc, b"");
    assert!(rt; acknowledged(&rt, alloc, &mut desk) == 5);
    assert!(rt; desk.caller(&name(&rt, "k1")) == Some(name(&rt, "dealer1")));
    assert!(rt; desk.last() == moment(&rt, 1_730_737_800));
    assert!(rt; reads_bids(&rt, alloc, &desk));
}
