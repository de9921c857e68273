//! `run` on a disk: what a journal holds, second runs, disks that fail, and files that are refused. The bytes and
//! replies are worked out by hand from the formats and the rules.
use crate::opening::{RESULTS, opened, registered};
use crate::run_tests::{ORDINARY, WORDS};
use crate::tests::{Host, Outcome, disk_of, is_ended, joined, run, run_on};
use std::alloc::Global;
use std::process::Abort;
use std::str;
use std::sync::Wait;
use std::thread::Threads;
use tb_disk::MemoryDisk;

/// The journal after the first message of the ordinary auction: the header, the seal, an open gate, the length of the
/// record, the number of frames before it, the record, and a closed gate.
pub const ONE_ENTRY: &[u8] = b"TBHOSTJOURNAL002\x01\
    \x01\0\0\0\x25\0\0\0\0\0\0\0\0\
    \x08operator\0\0\0\0\0\0\0\x01\0\0\0\0\x67\x28\x62\xe0\x01\x07dealer1\x02k1\
    \0";

const EMPTY: &[u8] = b"TBHOSTJOURNAL002\x01\0";

/// The first message alone.
const FIRST: &str = registered!("\nend\n");

/// What the second run is told before the results, and between them and the results once more: everything was accepted
/// before, and the results are published.
const SECOND_REPLIES: &str = "accepted 1 1730700000
accepted 2 1730700000
accepted 3 1730700000
accepted 1 1730737799
refused 17 Late 1730737800 1730737800
accepted 1 1730737799
refused 3 NumberReused
lines 17
";

const SECOND_AWARDS: &str = "accepted 4 1730737800
lines 1
fund1 20000000000 19784127800.00
lines 17
";

/// The messages of the ordinary auction that are accepted.
const MESSAGES: &str = opened!(
    r#"
1730737799 k1 {"number":1,"kind":"bid","auction":"bill13","bidder":"fund1","rate":"4.27","amount":20000000000}
1730737800 op:root {"number":4,"kind":"publish","auction":"bill13"}
end
"#
);

/// The replies where the first message is in doubt.
const DOUBTED_REPLIES: &str = "unavailable DiskFault
accepted 2 1730700000
accepted 3 1730700000
accepted 1 1730737799
accepted 4 1730737800
";

fn run_script<R: Abort + Threads + Wait + Sync>(
    rt: &R,
    alloc: Global,
    text: &str,
    disk: MemoryDisk,
) -> Outcome {
    run_on(rt, alloc, &WORDS, text, 4096, &[], &[], disk)
}

// The script on a disk with these contents, of which no call fails: it ends with this status, has written this, and
// leaves these contents. The reads of these numbers would fail.
fn goes_on<R: Abort + Threads + Wait + Sync>(
    host: &Host<'_, R>,
    contents: &[u8],
    text: &str,
    failing_reads: &[u64],
    status: u8,
    out: &str,
    err: &str,
    left: &[u8],
) -> bool {
    let (rt, alloc) = (host.rt, host.alloc);
    let disk = disk_of(rt, alloc, contents, &[], 0);
    let run = run_on(rt, alloc, &WORDS, text, 4096, failing_reads, &[], disk);
    is_ended(&run, status, out, err) && run.disk.contents() == left
}

#[test]
fn a_journal_has_the_bytes_of_its_format(rt: HostRuntime) {
    let host = Host {
        rt: &rt,
        alloc: rt.alloc(),
    };
    let accepted = "accepted 1 1730700000\n";
    assert!(rt; goes_on(&host, b"", FIRST, &[], 0, accepted, "", ONE_ENTRY));
    assert!(rt; goes_on(&host, b"", "end\n", &[], 0, "", "", EMPTY));
    assert!(rt; goes_on(&host, b"eighteen bytes....", "end\n", &[], 0, "", "", EMPTY));
}

#[test]
fn a_second_run_goes_on_with_the_history_of_the_first(rt: HostRuntime) {
    let host = Host {
        rt: &rt,
        alloc: rt.alloc(),
    };
    let alloc = rt.alloc();
    let first = run(&rt, alloc, &WORDS, ORDINARY, 4096, &[], &[]);
    let journal = first.disk.contents();
    let told = joined(
        &rt,
        alloc,
        &[SECOND_REPLIES, RESULTS, SECOND_AWARDS, RESULTS],
    );
    assert!(rt; goes_on(&host, journal, ORDINARY, &[], 0, &told, "", journal));
}

// The pieces of a file, one behind the other.
fn joined_bytes(rt: &impl Abort, alloc: Global, pieces: &[&[u8]]) -> Vec<u8> {
    let mut file = Vec::new(alloc);
    for piece in pieces {
        file.extend_from_slice(piece).expect(rt, "memory");
    }
    file
}

// These contents are refused so, and stay. The first read would fail: nothing is read.
fn is_refused<R: Abort + Threads + Wait + Sync>(
    host: &Host<'_, R>,
    contents: &[u8],
    status: u8,
    told: &str,
) -> bool {
    goes_on(host, contents, FIRST, &[0], status, "", told, contents)
}

#[test]
fn a_file_that_is_no_journal_is_refused_and_stays(rt: HostRuntime) {
    let host = Host {
        rt: &rt,
        alloc: rt.alloc(),
    };
    let alloc = rt.alloc();
    let letters = "not a journal 61616161616161616161616161616161\n";
    let bytes = "not a journal 00017f80fffe5442484f53544a4f5552\n";
    let first_version = "not a journal 5442484f53544a4f55524e414c303031\n";
    let unsealed = joined_bytes(&rt, alloc, &[&ONE_ENTRY[..16], b"\0", &ONE_ENTRY[17..]]);
    // The frame once more, of which none stands before it.
    let copied = joined_bytes(&rt, alloc, &[&ONE_ENTRY[..67], &ONE_ENTRY[17..]]);
    // One byte more in the payload, whose length is then 38.
    let longer = joined_bytes(
        &rt,
        alloc,
        &[&ONE_ENTRY[..21], b"\x26", &ONE_ENTRY[22..67], b"x\0"],
    );
    assert!(rt; is_refused(&host, b"aaaaaaaaaaaaaaaa\n..", 7, letters));
    assert!(rt; is_refused(&host, b"\0\x01\x7f\x80\xff\xfeTBHOSTJOURNAL", 7, bytes));
    assert!(rt; is_refused(&host, b"TBHOSTJOURNAL001\0..", 7, first_version));
    assert!(rt; is_refused(&host, &ONE_ENTRY[..40], 8, "damaged at 17\n"));
    assert!(rt; is_refused(&host, &ONE_ENTRY[..67], 8, "damaged at 67\n"));
    assert!(rt; is_refused(&host, &copied, 8, "damaged at 67\n"));
    assert!(rt; is_refused(&host, &longer, 8, "damaged at 17\n"));
    assert!(rt; is_refused(&host, &unsealed, 11, "unsealed 00\n"));
    assert!(rt; is_refused(&host, b"TBHOSTJOURNAL002\xa7\0.", 11, "unsealed a7\n"));
}

#[test]
fn a_message_that_meets_a_fault_is_told_so_and_the_run_goes_on(rt: HostRuntime) {
    let alloc = rt.alloc();
    // The header, the seal and the gate fit, the first entry doesn't.
    let disk = MemoryDisk::new(alloc, b"", 40, 10_000, Vec::new(alloc), 0).expect(&rt, "memory");
    let full = run_script(&rt, alloc, FIRST, disk);
    assert!(rt; is_ended(&full, 0, "unavailable DiskFault\n", ""));
    let disk = disk_of(&rt, alloc, full.disk.contents(), &[], 0);
    let again = run_script(&rt, alloc, "1730700000 k1 {}\nend\n", disk);
    assert!(rt; is_ended(&again, 0, "refused 1 UnknownKey\n", ""));
}

// What a run was told that was accepted a later one is told again, with its moment.
fn is_told_again(rt: &impl Abort, first: &Outcome, second: &Outcome) -> bool {
    let mut again = text_of(rt, second.out.bytes()).lines();
    for reply in text_of(rt, first.out.bytes()).lines() {
        let later = again.next().unwrap_or("");
        if reply.starts_with("accepted") && reply != later {
            return false;
        }
    }
    true
}

fn text_of<'a>(rt: &impl Abort, bytes: &'a [u8]) -> &'a str {
    str::from_utf8(bytes).expect(rt, "no text")
}

// The script where these device calls fail, and once more on what it left: what was accepted stands, with its moment,
// and everything is accepted in the end.
fn keeps_what_it_accepted<R: Abort + Threads + Wait + Sync>(
    rt: &R,
    alloc: Global,
    fails: &[u64],
) -> bool {
    let disk = disk_of(rt, alloc, b"", fails, 7);
    let first = run_script(rt, alloc, MESSAGES, disk);
    let disk = disk_of(rt, alloc, first.disk.contents(), &[], 0);
    let second = run_script(rt, alloc, MESSAGES, disk);
    (first.status == 0 || is_ended(&first, 6, "", "disk fault\n"))
        && second.status == 0
        && is_told_again(rt, &first, &second)
}

// Four calls open an empty disk, and four keep each of the five entries.
#[test]
fn what_was_accepted_stays_where_one_call_fails(rt: HostRuntime) {
    for call in 0..24 {
        assert!(rt; keeps_what_it_accepted(&rt, rt.alloc(), &[call]));
    }
}

// The numbers of the calls from one on.
fn calls_from(rt: &impl Abort, alloc: Global, call: u64) -> Vec<u64> {
    let mut fails = Vec::new(alloc);
    for later in call..80 {
        fails.push(later).expect(rt, "memory");
    }
    fails
}

#[test]
fn what_was_accepted_stays_where_all_calls_fail_from_one_on(rt: HostRuntime) {
    let alloc = rt.alloc();
    for call in 0..24 {
        assert!(rt; keeps_what_it_accepted(&rt, alloc, &calls_from(&rt, alloc, call)));
    }
}

// With the fourth call of an entry failing the entry stands, and the next message finds it.
#[test]
fn the_next_message_resolves_what_is_in_doubt(rt: HostRuntime) {
    let alloc = rt.alloc();
    let once = disk_of(&rt, alloc, b"", &[7], 0);
    let doubted = run_script(&rt, alloc, MESSAGES, once);
    assert!(rt; is_ended(&doubted, 0, DOUBTED_REPLIES, ""));
}

// These words leave the disk without a call.
fn leaves_the_disk<R: Abort + Threads + Wait + Sync>(
    host: &Host<'_, R>,
    words: &[&str],
    status: u8,
) -> bool {
    let (rt, alloc) = (host.rt, host.alloc);
    let disk = disk_of(rt, alloc, b"kept", &[0], 0);
    let run = run_on(rt, alloc, words, "end\n", 64, &[], &[], disk);
    run.status == status && run.disk.calls() == 0 && run.disk.contents() == b"kept".as_slice()
}

#[test]
fn award_leaves_the_disk(rt: HostRuntime) {
    let host = Host {
        rt: &rt,
        alloc: rt.alloc(),
    };
    assert!(rt; leaves_the_disk(&host, &["award"], 3));
    assert!(rt; leaves_the_disk(&host, &["award", "all"], 2));
}
