//! `import` over what a script left. The texts and bytes are worked out by hand from the formats and the rules.
use crate::opening;
use crate::run_tests::WORDS;
use crate::tests::{Outcome, disk_of, is_ended, leaves, run, run_on};
use std::alloc::Global;
use std::process::Abort;
use std::sync::Wait;
use std::thread::Threads;

pub const IMPORT: [&str; 5] = ["import", "--key", "k1", "--op", "root"];

/// An auction that is open, from before the moment of the clock.
const OPEN: &str = opening::opened!(at "1730690000", "\nend\n");

pub const TWO: &str =
    "number,auction,bidder,rate,amount\n7,bill13,fund1,4.300,100\n8,bill13,fund1,4.305,100\n";

/// The journal of the open auction.
fn opened<R: Abort + Threads + Wait + Sync>(rt: &R, alloc: Global) -> Outcome {
    run(rt, alloc, &WORDS, OPEN, 4096, &[], &[])
}

/// Imports a table over the open auction. The reads, writes and calls of the disk of these numbers fail.
fn import<R: Abort + Threads + Wait + Sync>(
    rt: &R,
    alloc: Global,
    words: &[&str],
    table: &str,
    failing_reads: &[u64],
    failing_writes: &[u64],
    failing_calls: &[u64],
) -> Outcome {
    let left = opened(rt, alloc);
    let disk = disk_of(rt, alloc, left.disk.contents(), failing_calls, 0);
    run_on(
        rt,
        alloc,
        words,
        table,
        64,
        failing_reads,
        failing_writes,
        disk,
    )
}

#[test]
fn rows_are_sent_once_each_at_the_moment_of_the_clock(rt: HostRuntime) {
    let table = "number,auction,bidder,rate,amount\n\
        7,bill13,fund1,4.300,100\n\
        7,bill13,fund1,4.300,100\n\
        8,bill13,fund1,,100\n";
    let sent = import(&rt, rt.alloc(), &IMPORT, table, &[], &[], &[]);
    let mixed = "7 accepted 7 1730700000\n8 refused 19 MixedBids\n";
    assert!(rt; is_ended(&sent, 0, mixed, ""));
    let nobody = ["import", "--key=k2", "--op=root"];
    let unknown = import(&rt, rt.alloc(), &nobody, TWO, &[], &[], &[]);
    let refused = "7 refused 1 UnknownKey\n8 refused 1 UnknownKey\n";
    assert!(rt; is_ended(&unknown, 0, refused, ""));
}

/// The replies to the two rows, where both are accepted.
const BOTH: &str = "7 accepted 7 1730700000\n8 accepted 8 1730700000\n";

/// And where a call of the disk fails.
const NEITHER: &str = "7 unavailable DiskFault\n8 unavailable DiskFault\n";

// What the journal begins with behind those contents: in place of the closed gate come an open one and the length of
// the two records.
fn grown(rt: &impl Abort, alloc: Global, before: &[u8]) -> Vec<u8> {
    let (_, front) = before.split_last().expect(rt, "no bytes");
    let mut grown = front.to_vec(alloc).expect(rt, "memory");
    grown
        .extend_from_slice(b"\x01\0\0\0\x64")
        .expect(rt, "memory");
    grown
}

#[test]
fn rows_of_one_turn_stand_under_one_gate(rt: HostRuntime) {
    let opened = opened(&rt, rt.alloc());
    let before = opened.disk.contents();
    let sent = import(&rt, rt.alloc(), &IMPORT, TWO, &[], &[], &[]);
    assert!(rt; is_ended(&sent, 0, BOTH, ""));
    let journal = sent.disk.contents();
    assert!(rt; journal.len() == before.len() + 113);
    assert!(rt; journal.starts_with(&grown(&rt, rt.alloc(), before)));
}

/// The two rows are told that this call of the disk failed, and are accepted when they are sent again: then the disk is
/// as after this run.
fn stand_together<R: Abort + Threads + Wait + Sync>(
    rt: &R,
    alloc: Global,
    call: u64,
    sent: &Outcome,
) -> bool {
    let failed = import(rt, alloc, &IMPORT, TWO, &[], &[], &[call]);
    let disk = disk_of(rt, alloc, failed.disk.contents(), &[], 0);
    let again = run_on(rt, alloc, &IMPORT, TWO, 64, &[], &[], disk);
    is_ended(&failed, 0, NEITHER, "") && leaves(&again, 0, BOTH, "", sent.disk.contents())
}

// Of the four calls that add the two bids the third opens their gate, and the fourth syncs it. The two stand together
// or not at all, so they are told the same when they are sent again.
#[test]
fn rows_of_one_turn_meet_a_fault_together(rt: HostRuntime) {
    let sent = import(&rt, rt.alloc(), &IMPORT, TWO, &[], &[], &[]);
    let calls = sent.disk.calls();
    assert!(rt; stand_together(&rt, rt.alloc(), calls.saturating_sub(2), &sent));
    assert!(rt; stand_together(&rt, rt.alloc(), calls.saturating_sub(1), &sent));
}

#[test]
fn nothing_is_sent_of_a_table_that_is_not_whole_and_good(rt: HostRuntime) {
    let before = opened(&rt, rt.alloc());
    let bad = "number,auction,bidder,rate,amount\n7,bill13,fund1,4.300,100\n8,bill13,fund1,100\n";
    let refused = import(&rt, rt.alloc(), &IMPORT, bad, &[], &[], &[]);
    assert!(rt;
        leaves(
            &refused,
            3,
            "",
            "bad input at line 3\n",
            before.disk.contents()
        )
    );
    let cut = import(&rt, rt.alloc(), &IMPORT, TWO, &[1], &[], &[]);
    assert!(rt; leaves(&cut, 4, "", "read fault\n", before.disk.contents()));
}

// A table of 65 bids.
fn long_table(rt: &impl Abort, alloc: Global) -> String {
    let header = "number,auction,bidder,rate,amount\n";
    let mut table = header.to_string(alloc).expect(rt, "memory");
    for number in 101..166u64 {
        let row = format!(in alloc; "{number},bill13,fund1,4.300,100\n").expect(rt, "memory");
        table.push_str(&row).expect(rt, "memory");
    }
    table
}

#[test]
fn what_64_rows_are_answered_is_written_before_the_next_are_sent(rt: HostRuntime) {
    let table = long_table(&rt, rt.alloc());
    let sent = import(&rt, rt.alloc(), &IMPORT, &table, &[], &[1], &[]);
    assert!(rt; sent.status == 5);
    assert!(rt; sent.out.bytes().len() == 64 * "101 accepted 101 1730700000\n".len());
}
