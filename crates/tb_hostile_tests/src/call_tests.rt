//! The script of the auction, whole, on a disk that fails. An empty disk is opened with four calls, and each of the
//! five entries is added with four: its frame is written behind the closed gate and synced, then its gate is, and
//! synced. So the calls 0 to 3 open it, and the entries have the calls from 4, 8, 12, 16 and 20 on. An entry stands
//! where the byte of its gate does: not where one of the first two calls fails, always where the fourth does, and where
//! the third does if the failed write leaves a 1.
use crate::auction::{
    AGAIN, ALL, ANNOUNCE, ANNOUNCED, AWARDS, BETWEEN, BID, BIDDEN, EMPTY, ENROL, ENROLLED,
    ORDINARY, PUBLISH, PUBLISHED, REGISTER, REGISTERED, RESULTS, RUN, SCRIPT, journal, keeps,
};
use crate::trying::{Host, Outcome, disk_of, disk_with, is_ended, joined, run};
use std::process::Abort;
use std::sync::Wait;
use std::thread::Threads;

const FAULT: &str = "unavailable DiskFault\n";

/// What a failed write leaves: a byte that closes a gate, and one that opens it.
const CLOSED: u8 = 7;

const OPEN: u8 = 1;

/// Where the registration is lost, nobody is enrolled, and the dealer's key is nobody's.
const UNREGISTERED: &str = "unavailable DiskFault
refused 71 UnknownParticipant
accepted 3 1730700000
refused 1 UnknownKey
refused 1 UnknownKey
refused 1 UnknownKey
refused 1 UnknownKey
refused 1 UnknownKey
accepted 4 1730737800
refused 1 UnknownKey
refused 1 UnknownKey
";

/// Where the enrolment is lost, the dealer has no bidder, so nobody bids.
const UNENROLLED: &str = "accepted 1 1730700000
unavailable DiskFault
accepted 3 1730700000
refused 11 UnknownBidder
refused 11 UnknownBidder
refused 11 UnknownBidder
refused 11 UnknownBidder
refused 62 NotPublished
accepted 4 1730737800
lines 0
lines 8
auction bill13
cusip 912797AA5
issue 2024-11-07
maturity 2025-02-06
days 91
offering 76000000000
noncompetitive 0
no awards
";

/// Where the announcement is lost, there is no auction.
const UNANNOUNCED: &str = "accepted 1 1730700000
accepted 2 1730700000
unavailable DiskFault
refused 10 UnknownAuction
refused 10 UnknownAuction
refused 10 UnknownAuction
refused 10 UnknownAuction
refused 10 UnknownAuction
refused 10 UnknownAuction
refused 10 UnknownAuction
refused 10 UnknownAuction
";

/// Where the bid is lost, it comes again too late, whatever its amount.
const UNBIDDEN: &str = "accepted 1 1730700000
accepted 2 1730700000
accepted 3 1730700000
unavailable DiskFault
refused 17 Late 1730737800 1730737800
refused 17 Late 1730737800 1730737800
refused 17 Late 1730737800 1730737800
refused 62 NotPublished
accepted 4 1730737800
lines 0
lines 8
auction bill13
cusip 912797AA5
issue 2024-11-07
maturity 2025-02-06
days 91
offering 76000000000
noncompetitive 0
no awards
";

/// Behind the publication stand queries alone, which are answered on the history without what is in doubt.
const UNPUBLISHED: [&str; 6] = [
    REGISTERED,
    ENROLLED,
    ANNOUNCED,
    BIDDEN,
    BETWEEN,
    "unavailable DiskFault\nrefused 62 NotPublished\nrefused 62 NotPublished\n",
];

// The script on an empty disk of which these calls fail.
fn tried<R: Abort + Threads + Wait + Sync>(host: &Host<'_, R>, fails: &[u64], torn: u8) -> Outcome {
    run(
        host,
        &RUN,
        SCRIPT,
        disk_with(host, b"", 10_000, fails, torn),
    )
}

// The script where this call fails is told these texts, and these entries stand.
fn meets<R: Abort + Threads + Wait + Sync>(
    host: &Host<'_, R>,
    call: u64,
    torn: u8,
    told: &[&str],
    records: &[&[u8]],
) -> bool {
    let first = tried(host, &[call], torn);
    let told = joined(host, told);
    is_ended(&first, 0, told.as_bytes(), "") && keeps(host, first.disk.contents(), records)
}

// The script ended with 6 and told nothing, and what it left opens as an empty history.
fn did_not_open<R: Abort + Threads + Wait + Sync>(host: &Host<'_, R>, first: &Outcome) -> bool {
    is_ended(first, 6, b"", "disk fault\n") && keeps(host, first.disk.contents(), &[])
}

#[test]
fn a_call_that_fails_while_an_empty_disk_is_opened_ends_the_run(rt: HostRuntime) {
    let host = Host {
        rt: &rt,
        alloc: rt.alloc(),
    };
    assert!(rt; did_not_open(&host, &tried(&host, &[0], CLOSED)));
    assert!(rt; did_not_open(&host, &tried(&host, &[1], CLOSED)));
    assert!(rt; did_not_open(&host, &tried(&host, &[2], CLOSED)));
    assert!(rt; did_not_open(&host, &tried(&host, &[3], CLOSED)));
    assert!(rt; did_not_open(&host, &tried(&host, &[2], OPEN)));
}

#[test]
fn one_call_fails_at_the_registration(rt: HostRuntime) {
    let host = Host {
        rt: &rt,
        alloc: rt.alloc(),
    };
    let lost = [UNREGISTERED];
    let left = [ANNOUNCE, PUBLISH];
    let stood = [
        FAULT, ENROLLED, ANNOUNCED, BIDDEN, BETWEEN, PUBLISHED, AWARDS, RESULTS,
    ];
    assert!(rt; meets(&host, 4, CLOSED, &lost, &left));
    assert!(rt; meets(&host, 4, OPEN, &lost, &left));
    assert!(rt; meets(&host, 5, CLOSED, &lost, &left));
    assert!(rt; meets(&host, 6, CLOSED, &lost, &left));
    assert!(rt; meets(&host, 6, OPEN, &stood, &ALL));
    assert!(rt; meets(&host, 7, CLOSED, &stood, &ALL));
}

#[test]
fn one_call_fails_at_the_enrolment(rt: HostRuntime) {
    let host = Host {
        rt: &rt,
        alloc: rt.alloc(),
    };
    let lost = [UNENROLLED];
    let left = [REGISTER, ANNOUNCE, PUBLISH];
    let stood = [
        REGISTERED, FAULT, ANNOUNCED, BIDDEN, BETWEEN, PUBLISHED, AWARDS, RESULTS,
    ];
    assert!(rt; meets(&host, 8, CLOSED, &lost, &left));
    assert!(rt; meets(&host, 8, OPEN, &lost, &left));
    assert!(rt; meets(&host, 9, CLOSED, &lost, &left));
    assert!(rt; meets(&host, 10, CLOSED, &lost, &left));
    assert!(rt; meets(&host, 10, OPEN, &stood, &ALL));
    assert!(rt; meets(&host, 11, CLOSED, &stood, &ALL));
}

#[test]
fn one_call_fails_at_the_announcement(rt: HostRuntime) {
    let host = Host {
        rt: &rt,
        alloc: rt.alloc(),
    };
    let lost = [UNANNOUNCED];
    let left = [REGISTER, ENROL];
    let stood = [
        REGISTERED, ENROLLED, FAULT, BIDDEN, BETWEEN, PUBLISHED, AWARDS, RESULTS,
    ];
    assert!(rt; meets(&host, 12, CLOSED, &lost, &left));
    assert!(rt; meets(&host, 12, OPEN, &lost, &left));
    assert!(rt; meets(&host, 13, CLOSED, &lost, &left));
    assert!(rt; meets(&host, 14, CLOSED, &lost, &left));
    assert!(rt; meets(&host, 14, OPEN, &stood, &ALL));
    assert!(rt; meets(&host, 15, CLOSED, &stood, &ALL));
}

#[test]
fn one_call_fails_at_the_bid(rt: HostRuntime) {
    let host = Host {
        rt: &rt,
        alloc: rt.alloc(),
    };
    let lost = [UNBIDDEN];
    let left = [REGISTER, ENROL, ANNOUNCE, PUBLISH];
    let stood = [
        REGISTERED, ENROLLED, ANNOUNCED, FAULT, BETWEEN, PUBLISHED, AWARDS, RESULTS,
    ];
    assert!(rt; meets(&host, 16, CLOSED, &lost, &left));
    assert!(rt; meets(&host, 16, OPEN, &lost, &left));
    assert!(rt; meets(&host, 17, CLOSED, &lost, &left));
    assert!(rt; meets(&host, 18, CLOSED, &lost, &left));
    assert!(rt; meets(&host, 18, OPEN, &stood, &ALL));
    assert!(rt; meets(&host, 19, CLOSED, &stood, &ALL));
}

#[test]
fn one_call_fails_at_the_publication(rt: HostRuntime) {
    let host = Host {
        rt: &rt,
        alloc: rt.alloc(),
    };
    let left = [REGISTER, ENROL, ANNOUNCE, BID];
    assert!(rt; meets(&host, 20, CLOSED, &UNPUBLISHED, &left));
    assert!(rt; meets(&host, 20, OPEN, &UNPUBLISHED, &left));
    assert!(rt; meets(&host, 21, CLOSED, &UNPUBLISHED, &left));
    assert!(rt; meets(&host, 22, CLOSED, &UNPUBLISHED, &left));
    assert!(rt; meets(&host, 22, OPEN, &UNPUBLISHED, &ALL));
    assert!(rt; meets(&host, 23, CLOSED, &UNPUBLISHED, &ALL));
}

// There are 24 calls, so that none fails where the next one would.
#[test]
fn no_call_is_left_that_fails(rt: HostRuntime) {
    let host = Host {
        rt: &rt,
        alloc: rt.alloc(),
    };
    assert!(rt; meets(&host, 24, CLOSED, &ORDINARY, &ALL));
    assert!(rt; tried(&host, &[24], CLOSED).disk.calls() == 24);
}

// The script on the journal of all entries, where this call fails.
fn tried_again<R: Abort + Threads + Wait + Sync>(host: &Host<'_, R>, call: u64) -> Outcome {
    let whole = journal(host, &ALL);
    run(
        host,
        &RUN,
        SCRIPT,
        disk_with(host, &whole, 10_000, &[call], CLOSED),
    )
}

// That run ended so, and the journal stays.
fn leaves_all<R: Abort>(
    host: &Host<'_, R>,
    again: &Outcome,
    status: u8,
    told: &[&str],
    err: &str,
) -> bool {
    let told = joined(host, told);
    let whole = journal(host, &ALL);
    is_ended(again, status, told.as_bytes(), err) && again.disk.contents() == whole.as_slice()
}

// Each run on the journal ends where a call fails, up to the first one that makes fewer calls.
fn each_call_ends_it<R: Abort + Threads + Wait + Sync>(host: &Host<'_, R>) -> bool {
    for call in 0..1_000 {
        let again = tried_again(host, call);
        if again.disk.calls() <= call {
            return leaves_all(host, &again, 0, &AGAIN, "");
        }
        if !leaves_all(host, &again, 6, &[], "disk fault\n") {
            return false;
        }
    }
    false
}

// A second run adds nothing, so that all of its calls open the journal.
#[test]
fn a_call_that_fails_while_a_whole_journal_is_opened_ends_the_run(rt: HostRuntime) {
    let host = Host {
        rt: &rt,
        alloc: rt.alloc(),
    };
    assert!(rt; each_call_ends_it(&host));
}

/// Where every call fails from one of the registration's on, its key stays nobody's.
const ALL_UNAVAILABLE: &str = "unavailable DiskFault
unavailable DiskFault
unavailable DiskFault
refused 1 UnknownKey
refused 1 UnknownKey
refused 1 UnknownKey
refused 1 UnknownKey
refused 1 UnknownKey
unavailable DiskFault
refused 1 UnknownKey
refused 1 UnknownKey
";

/// From the enrolment or the announcement on, there is no auction for a query.
const FROM_ENROLMENT: &str = "unavailable DiskFault
unavailable DiskFault
unavailable DiskFault
unavailable DiskFault
unavailable DiskFault
unavailable DiskFault
refused 10 UnknownAuction
unavailable DiskFault
refused 10 UnknownAuction
refused 10 UnknownAuction
";

const FROM_ANNOUNCEMENT: &str = "unavailable DiskFault
unavailable DiskFault
unavailable DiskFault
unavailable DiskFault
unavailable DiskFault
refused 10 UnknownAuction
unavailable DiskFault
refused 10 UnknownAuction
refused 10 UnknownAuction
";

/// From the bid on, the results are never published.
const FROM_BID: &str = "unavailable DiskFault
unavailable DiskFault
unavailable DiskFault
unavailable DiskFault
refused 62 NotPublished
unavailable DiskFault
refused 62 NotPublished
refused 62 NotPublished
";

// The numbers of the calls from one on: more than the script makes.
fn calls_from<R: Abort>(host: &Host<'_, R>, call: u64) -> Vec<u64> {
    let mut fails = Vec::new(host.alloc);
    for later in call..200 {
        fails.push(later).expect(host.rt, "memory");
    }
    fails
}

// The script on what was left, on a new disk: it is told these texts, and then all entries stand.
fn goes_on<R: Abort + Threads + Wait + Sync>(
    host: &Host<'_, R>,
    contents: &[u8],
    told: &[&str],
) -> bool {
    let again = run(host, &RUN, SCRIPT, disk_of(host, contents));
    let told = joined(host, told);
    is_ended(&again, 0, told.as_bytes(), "") && keeps(host, again.disk.contents(), &ALL)
}

// The script where every call fails from this one on is told these texts, and these entries stand on a new disk, on
// which the script is then told the others.
fn meets_all<R: Abort + Threads + Wait + Sync>(
    host: &Host<'_, R>,
    call: u64,
    torn: u8,
    told: &[&str],
    records: &[&[u8]],
    again: &[&str],
) -> bool {
    let first = tried(host, &calls_from(host, call), torn);
    let told = joined(host, told);
    is_ended(&first, 0, told.as_bytes(), "")
        && keeps(host, first.disk.contents(), records)
        && goes_on(host, first.disk.contents(), again)
}

// The script where every call fails from one of the opening on ends, and a new disk is opened as an empty one.
fn opens_later<R: Abort + Threads + Wait + Sync>(host: &Host<'_, R>, call: u64) -> bool {
    let first = tried(host, &calls_from(host, call), OPEN);
    did_not_open(host, &first) && goes_on(host, first.disk.contents(), &ORDINARY)
}

#[test]
fn every_call_fails_from_the_opening_on(rt: HostRuntime) {
    let host = Host {
        rt: &rt,
        alloc: rt.alloc(),
    };
    assert!(rt; opens_later(&host, 0));
    assert!(rt; opens_later(&host, 1));
    assert!(rt; opens_later(&host, 2));
    assert!(rt; opens_later(&host, 3));
}

#[test]
fn every_call_fails_from_the_registration_on(rt: HostRuntime) {
    let host = Host {
        rt: &rt,
        alloc: rt.alloc(),
    };
    let told = [ALL_UNAVAILABLE];
    assert!(rt; meets_all(&host, 4, CLOSED, &told, &[], &ORDINARY));
    assert!(rt; meets_all(&host, 5, CLOSED, &told, &[], &ORDINARY));
    assert!(rt; meets_all(&host, 6, CLOSED, &told, &[], &ORDINARY));
    assert!(rt; meets_all(&host, 6, OPEN, &told, &ALL[..1], &ORDINARY));
    assert!(rt; meets_all(&host, 7, CLOSED, &told, &ALL[..1], &ORDINARY));
}

#[test]
fn every_call_fails_from_the_enrolment_on(rt: HostRuntime) {
    let host = Host {
        rt: &rt,
        alloc: rt.alloc(),
    };
    let told = [REGISTERED, FROM_ENROLMENT];
    assert!(rt; meets_all(&host, 8, CLOSED, &told, &ALL[..1], &ORDINARY));
    assert!(rt; meets_all(&host, 9, CLOSED, &told, &ALL[..1], &ORDINARY));
    assert!(rt; meets_all(&host, 10, CLOSED, &told, &ALL[..1], &ORDINARY));
    assert!(rt; meets_all(&host, 10, OPEN, &told, &ALL[..2], &ORDINARY));
    assert!(rt; meets_all(&host, 11, CLOSED, &told, &ALL[..2], &ORDINARY));
}

#[test]
fn every_call_fails_from_the_announcement_on(rt: HostRuntime) {
    let host = Host {
        rt: &rt,
        alloc: rt.alloc(),
    };
    let told = [REGISTERED, ENROLLED, FROM_ANNOUNCEMENT];
    assert!(rt; meets_all(&host, 12, CLOSED, &told, &ALL[..2], &ORDINARY));
    assert!(rt; meets_all(&host, 13, CLOSED, &told, &ALL[..2], &ORDINARY));
    assert!(rt; meets_all(&host, 14, CLOSED, &told, &ALL[..2], &ORDINARY));
    assert!(rt; meets_all(&host, 14, OPEN, &told, &ALL[..3], &ORDINARY));
    assert!(rt; meets_all(&host, 15, CLOSED, &told, &ALL[..3], &ORDINARY));
}

#[test]
fn every_call_fails_from_the_bid_on(rt: HostRuntime) {
    let host = Host {
        rt: &rt,
        alloc: rt.alloc(),
    };
    let told = [REGISTERED, ENROLLED, ANNOUNCED, FROM_BID];
    assert!(rt; meets_all(&host, 16, CLOSED, &told, &ALL[..3], &ORDINARY));
    assert!(rt; meets_all(&host, 17, CLOSED, &told, &ALL[..3], &ORDINARY));
    assert!(rt; meets_all(&host, 18, CLOSED, &told, &ALL[..3], &ORDINARY));
    assert!(rt; meets_all(&host, 18, OPEN, &told, &ALL[..4], &ORDINARY));
    assert!(rt; meets_all(&host, 19, CLOSED, &told, &ALL[..4], &ORDINARY));
}

// Behind the publication stand queries alone, so that the script is told the same as where one call fails. Where it
// stands, no moment of the next run is before it.
#[test]
fn every_call_fails_from_the_publication_on(rt: HostRuntime) {
    let host = Host {
        rt: &rt,
        alloc: rt.alloc(),
    };
    assert!(rt; meets_all(&host, 20, CLOSED, &UNPUBLISHED, &ALL[..4], &ORDINARY));
    assert!(rt; meets_all(&host, 21, CLOSED, &UNPUBLISHED, &ALL[..4], &ORDINARY));
    assert!(rt; meets_all(&host, 22, CLOSED, &UNPUBLISHED, &ALL[..4], &ORDINARY));
    assert!(rt; meets_all(&host, 22, OPEN, &UNPUBLISHED, &ALL, &AGAIN));
    assert!(rt; meets_all(&host, 23, CLOSED, &UNPUBLISHED, &ALL, &AGAIN));
    assert!(rt; meets_all(&host, 24, CLOSED, &ORDINARY, &ALL, &AGAIN));
}

// What a journal of the first entries is: the bytes of its format.
#[test]
fn an_undisturbed_run_leaves_the_journal_of_its_entries(rt: HostRuntime) {
    let host = Host {
        rt: &rt,
        alloc: rt.alloc(),
    };
    let whole = tried(&host, &[], CLOSED);
    assert!(rt; whole.disk.contents() == journal(&host, &ALL).as_slice());
    assert!(rt; EMPTY == journal(&host, &[]).as_slice());
}
