//! A purchase and what a crash leaves of it: both its legs or neither. The figures were worked out by hand.
use crate::tests::{SCRIPT, desk_of, desk_on, disk_of, name, submit};
use std::alloc::Global;
use std::process::Abort;
use tb_desk::{Desk, Reply};
use tb_disk::MemoryDisk;
use tb_history::Reading;
use tb_message::{Query, Verdict};

// When the auction's bills are issued.
const ISSUE: u64 = 1_730_955_600;

// What follows the auction. dealer1 holds 20,000,000,000 of the bill and offers dealer2 10,000 of it for 9,891.81, and
// dealer2 has 12,000.00.
const SALE: [(u64, &str, &str); 4] = [
    (
        ISSUE,
        "operator",
        "{\"number\":5,\"kind\":\"register\",\"submitter\":\"dealer2\",\"key\":\"k2\"}",
    ),
    (
        ISSUE,
        "operator",
        "{\"number\":6,\"kind\":\"settle\",\"auction\":\"bill13\"}",
    ),
    (
        ISSUE,
        "operator",
        "{\"number\":7,\"kind\":\"deposit\",\"participant\":\"dealer2\",\"cents\":1200000}",
    ),
    (
        ISSUE,
        "dealer1",
        "{\"number\":2,\"kind\":\"sell\",\"cusip\":\"912797AA5\",\"to\":\"dealer2\",\"amount\":10000,\"cents\":989181}",
    ),
];

const BUY: (u64, &str, &str) = (
    ISSUE,
    "dealer2",
    "{\"number\":1,\"kind\":\"buy\",\"seller\":\"dealer1\",\"offer\":2}",
);

// What each dealer holds of the bill, in dollars, and has, in cents.
#[derive(Clone, Copy, Debug, PartialEq, Eq)]
struct Account {
    held: u128,
    cents: u128,
}

// The accounts of dealer1 and dealer2 before the purchase, and after it.
const BEFORE: [Account; 2] = [
    Account {
        held: 20_000_000_000,
        cents: 0,
    },
    Account {
        held: 0,
        cents: 1_200_000,
    },
];

const AFTER: [Account; 2] = [
    Account {
        held: 19_999_990_000,
        cents: 989_181,
    },
    Account {
        held: 10_000,
        cents: 210_819,
    },
];

// What the dealer holds of the only bill, or nothing where it has no line.
fn held(rt: &impl Abort, alloc: Global, desk: &Desk<MemoryDisk>, dealer: &str) -> Option<u128> {
    let reading = desk.read(alloc, &name(rt, dealer), &Query::Holdings).ok()?;
    match &reading {
        Reading::Holdings(lines) => {
            if lines.count() != 1 {
                return Some(0);
            }
            Some(lines.line(0).held.value)
        }
        _ => None,
    }
}

fn account_of(
    rt: &impl Abort,
    alloc: Global,
    desk: &Desk<MemoryDisk>,
    dealer: &str,
) -> Option<Account> {
    let held = held(rt, alloc, desk, dealer)?;
    let reading = desk.read(alloc, &name(rt, dealer), &Query::Funds).ok()?;
    match &reading {
        Reading::Funds(balance) => Some(Account {
            held,
            cents: balance.value,
        }),
        _ => None,
    }
}

fn have(rt: &impl Abort, alloc: Global, desk: &Desk<MemoryDisk>, accounts: [Account; 2]) -> bool {
    account_of(rt, alloc, desk, "dealer1") == Some(accounts[0])
        && account_of(rt, alloc, desk, "dealer2") == Some(accounts[1])
}

// Whether these accounts stand in a file.
fn stand(rt: &impl Abort, alloc: Global, file: &[u8], accounts: [Account; 2]) -> bool {
    have(rt, alloc, &desk_on(rt, alloc, file), accounts)
}

// A desk at which the offer stands: the opening made the device calls 0 to 3, and each of the nine messages four.
fn with_offer(rt: &impl Abort, alloc: Global, fails: &[u64], torn: u8) -> Desk<MemoryDisk> {
    let mut desk = desk_of(rt, alloc, disk_of(rt, alloc, b"", fails, torn));
    for line in SCRIPT {
        assert!(rt; submit(rt, alloc, &mut desk, line) != Reply::DiskFault);
    }
    for line in SALE {
        assert!(rt; submit(rt, alloc, &mut desk, line) != Reply::DiskFault);
    }
    assert!(rt; desk.entries() == 9 && have(rt, alloc, &desk, BEFORE));
    desk
}

// Whether the purchase is answered as an accepted one, now or before.
fn is_bought(rt: &impl Abort, alloc: Global, desk: &mut Desk<MemoryDisk>) -> bool {
    match submit(rt, alloc, desk, BUY) {
        Reply::Verdict(Verdict::Accepted { number, .. }) => number == 1,
        Reply::Verdict(Verdict::Repeat { number, .. }) => number == 1,
        _ => false,
    }
}

// The journal behind the purchase.
fn journal(rt: &impl Abort, alloc: Global) -> Vec<u8> {
    let mut desk = with_offer(rt, alloc, &[], 0);
    assert!(rt; is_bought(rt, alloc, &mut desk) && have(rt, alloc, &desk, AFTER));
    desk.into_disk()
        .contents()
        .to_vec(alloc)
        .expect(rt, "memory")
}

// Whether these accounts stand in the journal less so many of its bytes, where this gate is before the purchase: a
// length of four bytes, an ordinal of eight, a record of 41, and the next gate.
fn are_left(
    rt: &impl Abort,
    alloc: Global,
    file: &mut [u8],
    gate: u8,
    less: usize,
    accounts: [Account; 2],
) -> bool {
    let size = file.len();
    assert!(rt; size > 55 && less <= 54);
    file[size - 55] = gate;
    stand(rt, alloc, &file[..size - less], accounts)
}

// The third call writes the gate: any byte may stand there.
#[test]
fn a_crash_at_the_gate_leaves_both_legs_or_neither(rt: HostRuntime) {
    let alloc = rt.alloc();
    let mut file = journal(&rt, alloc);
    assert!(rt; are_left(&rt, alloc, &mut file, 1, 0, AFTER));
    assert!(rt; are_left(&rt, alloc, &mut file, 0, 0, BEFORE));
    assert!(rt; are_left(&rt, alloc, &mut file, 2, 0, BEFORE));
    assert!(rt; are_left(&rt, alloc, &mut file, 255, 0, BEFORE));
}

// The first call writes the frame behind the closed gate: any part of it may be missing. From its end that is the next
// gate, and bytes of the offer, the seller, the kind, the head of the record, the ordinal and the length.
#[test]
fn a_crash_at_the_frame_leaves_neither_leg(rt: HostRuntime) {
    let alloc = rt.alloc();
    let mut file = journal(&rt, alloc);
    assert!(rt; are_left(&rt, alloc, &mut file, 0, 1, BEFORE));
    assert!(rt; are_left(&rt, alloc, &mut file, 0, 2, BEFORE));
    assert!(rt; are_left(&rt, alloc, &mut file, 0, 10, BEFORE));
    assert!(rt; are_left(&rt, alloc, &mut file, 0, 18, BEFORE));
    assert!(rt; are_left(&rt, alloc, &mut file, 0, 19, BEFORE));
    assert!(rt; are_left(&rt, alloc, &mut file, 0, 41, BEFORE));
    assert!(rt; are_left(&rt, alloc, &mut file, 0, 42, BEFORE));
    assert!(rt; are_left(&rt, alloc, &mut file, 0, 43, BEFORE));
    assert!(rt; are_left(&rt, alloc, &mut file, 0, 50, BEFORE));
    assert!(rt; are_left(&rt, alloc, &mut file, 0, 54, BEFORE));
}

// Whether these accounts are in the file where this device call of the purchase fails and no other follows.
fn are_left_at(rt: &impl Abort, alloc: Global, call: u64, torn: u8, left: [Account; 2]) -> bool {
    let mut desk = with_offer(rt, alloc, &[call], torn);
    let fault = submit(rt, alloc, &mut desk, BUY) == Reply::DiskFault;
    fault && stand(rt, alloc, desk.into_disk().contents(), left)
}

// The calls 40 to 43 make the purchase.
#[test]
fn a_crash_at_a_call_leaves_both_legs_or_neither(rt: HostRuntime) {
    let alloc = rt.alloc();
    assert!(rt; are_left_at(&rt, alloc, 40, 0, BEFORE));
    assert!(rt; are_left_at(&rt, alloc, 41, 0, BEFORE));
    assert!(rt; are_left_at(&rt, alloc, 42, 7, BEFORE));
    assert!(rt; are_left_at(&rt, alloc, 42, 1, AFTER));
    assert!(rt; are_left_at(&rt, alloc, 43, 0, AFTER));
}

// Whether the purchase meets a fault where this device call fails, and is made once when it comes again, and again.
fn is_made_once(rt: &impl Abort, alloc: Global, call: u64, torn: u8) -> bool {
    let mut desk = with_offer(rt, alloc, &[call], torn);
    let fault = submit(rt, alloc, &mut desk, BUY) == Reply::DiskFault;
    let again = is_bought(rt, alloc, &mut desk) && is_bought(rt, alloc, &mut desk);
    fault && again && desk.entries() == 10 && have(rt, alloc, &desk, AFTER)
}

#[test]
fn a_purchase_in_doubt_is_made_once(rt: HostRuntime) {
    let alloc = rt.alloc();
    assert!(rt; is_made_once(&rt, alloc, 40, 0));
    assert!(rt; is_made_once(&rt, alloc, 41, 0));
    assert!(rt; is_made_once(&rt, alloc, 42, 7));
    assert!(rt; is_made_once(&rt, alloc, 42, 1));
    assert!(rt; is_made_once(&rt, alloc, 43, 0));
}
