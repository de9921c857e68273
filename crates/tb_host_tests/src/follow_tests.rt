//! `follow send` and `follow take`. The bytes of parcels were spelled by hand from the formats.
use crate::disk_tests::ONE_ENTRY;
use crate::opening::opened;
use crate::tests::{Host, Outcome, disk_of, run_on, serve_from};
use std::process::Abort;
use std::sync::Wait;
use std::thread::Threads;
use tb_link::TextSource;

// The first three entries of a history: the operator registers dealer1, enrols fund1 with it and announces bill13.
const REGISTER: &[u8] = b"\0\0\0\x25\0\0\0\0\0\0\0\0\
    \x08operator\0\0\0\0\0\0\0\x01\0\0\0\0\x67\x28\x62\xe0\x01\x07dealer1\x02k1";

const ENROL: &[u8] = b"\0\0\0\x28\0\0\0\0\0\0\0\x01\
    \x08operator\0\0\0\0\0\0\0\x02\0\0\0\0\x67\x28\x62\xe0\x02\x05fund1\x07dealer1";

const ANNOUNCE: &[u8] = b"\0\0\0\x62\0\0\0\0\0\0\0\x02\
    \x08operator\0\0\0\0\0\0\0\x03\0\0\0\0\x67\x28\x62\xe0\x04\x06bill13912797AA5\
    \0\0\0\x11\xb1\xf3\xf8\0\0\0\0\0\0\0\0\x64\0\0\0\0\0\x98\x96\x80\
    \0\0\0\0\x3b\x9a\xca\0\0\0\0\x06\x31\x7b\xca\0\
    \0\0\x4e\x3f\x02\x94\x02\xb2\0\0\x4e\x42\0\0\x4e\x9d";

// dealer2 is registered under the number of dealer1.
const OTHER: &[u8] = b"\0\0\0\x25\0\0\0\0\0\0\0\0\
    \x08operator\0\0\0\0\0\0\0\x01\0\0\0\0\x67\x28\x62\xe0\x01\x07dealer2\x02k2";

const RUN: [&str; 3] = ["run", "--op", "root"];

const TAKE: [&str; 2] = ["follow", "take"];

const SEND: [&str; 3] = ["follow", "send", "0"];

/// The three entries, as a script.
const OPENING: &str = opened!("\nend\n");

const BIDS: &str = "number,auction,bidder,rate,amount\n\
    1,bill13,fund1,4.270,100000\n\
    2,bill13,fund1,4.275,200000\n";

// The parcels, one behind the other.
fn joined<R: Abort>(host: &Host<'_, R>, parcels: &[&[u8]]) -> Vec<u8> {
    let mut bytes = Vec::new(host.alloc);
    for parcel in parcels {
        bytes.extend_from_slice(parcel).expect(host.rt, "memory");
    }
    bytes
}

// What comes of the parcels, in pieces of this size, on a disk with these contents. The reads, the writes and the calls
// of the disk of these numbers fail.
fn taken<R: Abort + Threads + Wait + Sync>(
    host: &Host<'_, R>,
    contents: &[u8],
    parcels: &[&[u8]],
    piece: usize,
    failing_reads: &[u64],
    failing_writes: &[u64],
    failing_calls: &[u64],
) -> Outcome {
    let disk = disk_of(host.rt, host.alloc, contents, failing_calls, 7);
    let mut input = TextSource::new(
        joined(host, parcels),
        piece.max(1),
        failing_reads.to_vec(host.alloc).expect(host.rt, "memory"),
    );
    let none = Vec::new(host.alloc);
    let (outcome, _gates) = serve_from(
        host.rt,
        host.alloc,
        &TAKE,
        &mut input,
        failing_writes,
        disk,
        none,
    );
    outcome
}

// The run ended with this status, and has written these bytes and told this.
fn is_ended(run: &Outcome, status: u8, out: &[u8], told: &str) -> bool {
    run.status == status && run.out.bytes() == out && run.err.bytes() == told.as_bytes()
}

// The parcels are taken so on an empty disk, in pieces of a byte and in one.
fn takes<R: Abort + Threads + Wait + Sync>(
    host: &Host<'_, R>,
    parcels: &[&[u8]],
    status: u8,
    out: &str,
    told: &str,
) -> bool {
    let slow = taken(host, b"", parcels, 1, &[], &[], &[]);
    let fast = taken(host, b"", parcels, 4096, &[], &[], &[]);
    is_ended(&slow, status, out.as_bytes(), told)
        && is_ended(&fast, status, out.as_bytes(), told)
        && slow.disk.contents() == fast.disk.contents()
}

// What is sent from a place on of a disk with these contents.
fn sent<R: Abort + Threads + Wait + Sync>(
    host: &Host<'_, R>,
    contents: &[u8],
    from: &str,
) -> Outcome {
    let disk = disk_of(host.rt, host.alloc, contents, &[], 0);
    let words = ["follow", "send", from];
    run_on(host.rt, host.alloc, &words, "", 1, &[0], &[], disk)
}

// These parcels are sent from a place on, and the disk stays as it was.
fn sends<R: Abort + Threads + Wait + Sync>(
    host: &Host<'_, R>,
    contents: &[u8],
    from: &str,
    parcels: &[&[u8]],
) -> bool {
    let run = sent(host, contents, from);
    let bytes = joined(host, parcels);
    is_ended(&run, 0, &bytes, "") && run.disk.contents() == contents
}

// The journal that the script leaves.
fn journal<R: Abort + Threads + Wait + Sync>(host: &Host<'_, R>) -> Outcome {
    let disk = disk_of(host.rt, host.alloc, b"", &[], 0);
    run_on(host.rt, host.alloc, &RUN, OPENING, 4096, &[], &[], disk)
}

#[test]
fn entries_are_sent_from_a_place_on(rt: HostRuntime) {
    let host = Host {
        rt: &rt,
        alloc: rt.alloc(),
    };
    let left = journal(&host);
    let file = left.disk.contents();
    assert!(rt; sends(&host, ONE_ENTRY, "0", &[REGISTER]));
    assert!(rt; sends(&host, ONE_ENTRY, "1", &[]));
    assert!(rt; sends(&host, ONE_ENTRY, "18446744073709551615", &[]));
    assert!(rt; sends(&host, file, "0", &[REGISTER, ENROL, ANNOUNCE]));
    assert!(rt; sends(&host, file, "1", &[ENROL, ANNOUNCE]));
    assert!(rt; sends(&host, file, "2", &[ANNOUNCE]));
    assert!(rt; sends(&host, file, "3", &[]));
}

#[test]
fn parcels_are_taken_however_they_come(rt: HostRuntime) {
    let host = Host {
        rt: &rt,
        alloc: rt.alloc(),
    };
    assert!(rt; takes(&host, &[], 0, "next 0\n", ""));
    assert!(rt; takes(&host, &[REGISTER], 0, "next 1\n", ""));
    assert!(rt; takes(&host, &[REGISTER, REGISTER], 0, "next 1\n", ""));
    assert!(rt; takes(&host, &[ANNOUNCE, REGISTER, ENROL], 0, "next 3\n", ""));
    assert!(rt; takes(&host, &[ANNOUNCE, REGISTER], 0, "next 1\n", ""));
    assert!(rt; takes(&host, &[REGISTER, REGISTER, ENROL], 0, "next 2\n", ""));
}

#[test]
fn a_copy_has_the_journal_of_its_original(rt: HostRuntime) {
    let host = Host {
        rt: &rt,
        alloc: rt.alloc(),
    };
    let original = journal(&host);
    let copy = taken(&host, b"", &[ANNOUNCE, ENROL, REGISTER], 7, &[], &[], &[]);
    assert!(rt; copy.disk.contents() == original.disk.contents());
}

#[test]
fn both_entries_of_a_group_are_sent(rt: HostRuntime) {
    let host = Host {
        rt: &rt,
        alloc: rt.alloc(),
    };
    let opening = journal(&host);
    let disk = disk_of(&rt, host.alloc, opening.disk.contents(), &[], 0);
    let import = ["import", "--op=root", "--key=k1"];
    let imported = run_on(&rt, host.alloc, &import, BIDS, 4096, &[], &[], disk);
    let all = sent(&host, imported.disk.contents(), "0");
    let copy = taken(&host, b"", &[all.out.bytes()], 4096, &[], &[], &[]);
    assert!(rt; is_ended(&copy, 0, b"next 5\n", ""));
    let again = sent(&host, copy.disk.contents(), "0");
    assert!(rt; again.out.bytes() == all.out.bytes());
    let last = sent(&host, imported.disk.contents(), "4");
    assert!(rt; all.out.bytes().ends_with(last.out.bytes()));
    let both = sent(&host, imported.disk.contents(), "3");
    assert!(rt; both.out.bytes().len() > last.out.bytes().len());
    assert!(rt; both.out.bytes().ends_with(last.out.bytes()));
}

#[test]
fn what_is_no_parcel_ends_it(rt: HostRuntime) {
    let host = Host {
        rt: &rt,
        alloc: rt.alloc(),
    };
    let line_1 = "bad input at line 1\n";
    let line_2 = "bad input at line 2\n";
    assert!(rt; takes(&host, &[&REGISTER[..48]], 3, "", line_1));
    assert!(rt; takes(&host, &[b"\0"], 3, "", line_1));
    assert!(rt; takes(&host, &[b"\0\0\0\0", REGISTER], 3, "", line_1));
    assert!(rt; takes(&host, &[b"\0\0\x02\x01"], 3, "", line_1));
    assert!(rt;
        takes(
            &host,
            &[REGISTER, b"\xff\xff\xff\xff", ENROL],
            3,
            "",
            line_2
        )
    );
    assert!(rt; takes(&host, &[REGISTER, &ENROL[..51]], 3, "", line_2));
    let stopped = taken(
        &host,
        b"",
        &[REGISTER, b"\0\0\0\0", ENROL],
        4096,
        &[],
        &[],
        &[],
    );
    assert!(rt; stopped.disk.contents() == ONE_ENTRY);
}

#[test]
fn another_history_is_told_as_a_fork(rt: HostRuntime) {
    let host = Host {
        rt: &rt,
        alloc: rt.alloc(),
    };
    assert!(rt; takes(&host, &[OTHER, REGISTER], 14, "", "forked at 0\n"));
    assert!(rt; takes(&host, &[REGISTER, OTHER, ENROL], 14, "", "forked at 0\n"));
    let stopped = taken(&host, b"", &[REGISTER, OTHER, ENROL], 4096, &[], &[], &[]);
    assert!(rt; stopped.disk.contents() == ONE_ENTRY);
}

#[test]
fn parcels_before_a_fault_are_taken(rt: HostRuntime) {
    let host = Host {
        rt: &rt,
        alloc: rt.alloc(),
    };
    // The first parcel has 49 bytes, so that the read behind it fails.
    let unread = taken(&host, b"", &[REGISTER, ENROL], 49, &[1], &[], &[]);
    assert!(rt; is_ended(&unread, 4, b"", "read fault\n"));
    assert!(rt; unread.disk.contents() == ONE_ENTRY);
    let untold = taken(&host, b"", &[REGISTER], 49, &[], &[0], &[]);
    assert!(rt; is_ended(&untold, 5, b"", "write fault\n"));
    assert!(rt; untold.disk.contents() == ONE_ENTRY);
    let refused = taken(
        &host,
        b"aaaaaaaaaaaaaaaaaaa",
        &[REGISTER],
        49,
        &[0],
        &[],
        &[],
    );
    assert!(rt; refused.status == 7);
}

// The parcels where a call of the disk fails: it is told, and later all of them are taken.
fn goes_on_later<R: Abort + Threads + Wait + Sync>(host: &Host<'_, R>, call: u64) -> bool {
    let parcels = [REGISTER, ENROL, ANNOUNCE];
    let first = taken(host, b"", &parcels, 4096, &[], &[], &[call]);
    let second = taken(host, first.disk.contents(), &parcels, 4096, &[], &[], &[]);
    is_ended(&first, 6, b"", "disk fault\n") && is_ended(&second, 0, b"next 3\n", "")
}

// Four calls open an empty disk, and four keep each of the three entries.
#[test]
fn a_disk_that_fails_ends_it(rt: HostRuntime) {
    let host = Host {
        rt: &rt,
        alloc: rt.alloc(),
    };
    for call in 0..16 {
        assert!(rt; goes_on_later(&host, call));
    }
}

#[test]
fn a_write_that_fails_ends_a_sending(rt: HostRuntime) {
    let host = Host {
        rt: &rt,
        alloc: rt.alloc(),
    };
    let left = journal(&host);
    let disk = disk_of(&rt, host.alloc, left.disk.contents(), &[], 0);
    let run = run_on(&rt, host.alloc, &SEND, "", 1, &[], &[1], disk);
    assert!(rt; is_ended(&run, 5, REGISTER, "write fault\n"));
}
