//! `report` on what a script left. The texts are worked out by hand from the rules.
use crate::opening::{RESULTS, registered};
use crate::run_tests::{ORDINARY, WORDS};
use crate::tests::{Outcome, disk_of, is_ended, run, run_on};
use std::alloc::Global;
use std::process::Abort;
use std::sync::Wait;
use std::thread::Threads;

/// A bill of 1,000, of which 800 went to another, and of the rest all is pledged.
const HELD: &str = registered!(
    r#"
1730700000 op:root {"number":2,"kind":"register","submitter":"dealer2","key":"k2"}
1730700000 op:root {"number":3,"kind":"enrol","bidder":"fund1","submitter":"dealer1"}
1730700000 op:root {"number":4,"kind":"announce","auction":"sat1","cusip":"912797AB3","offering":1000000,"minimum":100,"ceiling":1000000,"floor":1000000,"threshold":1000000,"date":"2024-11-04","nc_close":"11:00","c_close":"11:30","issue":"2024-11-07","maturity":"2025-02-15"}
1730700000 k1 {"number":1,"kind":"bid","auction":"sat1","bidder":"fund1","rate":"4.000","amount":1000}
1730737800 op:root {"number":5,"kind":"publish","auction":"sat1"}
1730955600 op:root {"number":6,"kind":"settle","auction":"sat1"}
1730955600 k1 {"number":2,"kind":"transfer","cusip":"912797AB3","to":"dealer2","amount":800}
1730955600 k1 {"number":12,"kind":"pledge","cusip":"912797AB3","to":"dealer2","amount":200}
end
"#
);

/// What the script leaves is asked, and stays as it is. The writes of these numbers fail.
fn ask<R: Abort + Threads + Wait + Sync>(
    rt: &R,
    alloc: Global,
    left: &str,
    words: &[&str],
    failing_writes: &[u64],
) -> Outcome {
    let ran = run(rt, alloc, &WORDS, left, 4096, &[], &[]);
    let disk = disk_of(rt, alloc, ran.disk.contents(), &[], 0);
    let report = run_on(rt, alloc, words, "", 1, &[0], failing_writes, disk);
    assert!(rt; report.disk.contents() == ran.disk.contents());
    report
}

/// The question to what the script left ends so, with this text.
fn is_told<R: Abort + Threads + Wait + Sync>(
    rt: &R,
    alloc: Global,
    left: &str,
    words: &[&str],
    status: u8,
    text: &str,
) -> bool {
    let report = ask(rt, alloc, left, words, &[]);
    report.status == status && report.out.bytes() == text.as_bytes()
}

#[test]
fn results_and_awards_are_told_from_the_disk(rt: HostRuntime) {
    let results = ["report", "results", "bill13", "--op=root", "--key=k1"];
    assert!(rt; is_told(&rt, rt.alloc(), ORDINARY, &results, 0, RESULTS));
    let awards = [
        "report", "--csv", "awards", "bill13", "--op", "root", "--key", "k1",
    ];
    let table = "bidder,amount,payment\nfund1,20000000000,19784127800.00\n";
    assert!(rt; is_told(&rt, rt.alloc(), ORDINARY, &awards, 0, table));
}

#[test]
fn holdings_are_told_to_their_holder(rt: HostRuntime) {
    let table = ["report", "holdings", "--key", "k1", "--op", "root", "--csv"];
    let pledged = "cusip,held,pledged,free\n912797AB3,200,200,0\n";
    assert!(rt; is_told(&rt, rt.alloc(), HELD, &table, 0, pledged));
    let lines = ["report", "holdings", "--key", "k2", "--op", "root"];
    assert!(rt; is_told(&rt, rt.alloc(), HELD, &lines, 0, "912797AB3 800 0 800\n"));
}

#[test]
fn refusals_are_told_as_lines(rt: HostRuntime) {
    let unknown = [
        "report", "awards", "sat2", "--key", "k1", "--op", "root", "--csv",
    ];
    let refused = "refused 10 UnknownAuction\n";
    assert!(rt; is_told(&rt, rt.alloc(), HELD, &unknown, 0, refused));
    let nobody = ["report", "holdings", "--key", "k3", "--op", "root"];
    assert!(rt; is_told(&rt, rt.alloc(), HELD, &nobody, 0, "refused 1 UnknownKey\n"));
}

#[test]
fn results_are_no_table(rt: HostRuntime) {
    let words = [
        "report",
        "results",
        "bill13",
        "--op=root",
        "--key=k1",
        "--csv",
    ];
    assert!(rt; is_told(&rt, rt.alloc(), ORDINARY, &words, 2, ""));
}

#[test]
fn a_write_that_fails_ends_a_report(rt: HostRuntime) {
    let words = ["report", "results", "bill13", "--op=root", "--key=k1"];
    let failed = ask(&rt, rt.alloc(), ORDINARY, &words, &[0]);
    assert!(rt; is_ended(&failed, 5, "", "write fault\n"));
}
