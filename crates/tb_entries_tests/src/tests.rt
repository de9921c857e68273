//! Tests of the public calls: entries of each kind and bids are told as they were added.
use std::alloc::Global;
use std::process::Abort;
use tb_entries::{Bids, Entries};
use tb_history::Bid;
use tb_message::{Entry, Request, read_request};
use tb_units::{Dollars, Ident, Moment, Rate};

/// A message of each kind, behind its submitter.
const MESSAGES: &str = r#"operator {"number":1,"kind":"register","submitter":"dealer1","key":"k1"}
operator {"number":2,"kind":"enrol","bidder":"fund1","submitter":"dealer1"}
operator {"number":3,"kind":"holiday","day":"2025-02-17"}
operator {"number":4,"kind":"announce","auction":"bill13","cusip":"912797AA5","offering":76000000000,"minimum":100,"ceiling":10000000,"floor":1000000000,"threshold":26600000000,"date":"2024-11-04","nc_close":"11:00","c_close":"11:30","issue":"2024-11-07","maturity":"2025-02-06"}
dealer1 {"number":1,"kind":"bid","auction":"bill13","bidder":"fund1","rate":"4.27","amount":20000000000}
dealer1 {"number":2,"kind":"noncompetitive","auction":"bill13","bidder":"fund1","amount":10000000}
dealer1 {"number":3,"kind":"cancel","auction":"bill13","bid":1}
dealer1 {"number":4,"kind":"position","auction":"bill13","bidder":"fund1","position":-500}
operator {"number":5,"kind":"publish","auction":"bill13"}
operator {"number":6,"kind":"settle","auction":"bill13"}
dealer1 {"number":5,"kind":"transfer","cusip":"912797AA5","to":"dealer2","amount":400}
dealer1 {"number":12,"kind":"pledge","cusip":"912797AA5","to":"dealer2","amount":500}
dealer2 {"number":12,"kind":"release","holder":"dealer1","pledge":12,"amount":300}
operator {"number":7,"kind":"redeem","cusip":"912797AA5"}
operator {"number":8,"kind":"addon","auction":"bill13","holder":"dealer2","amount":5000000000}
operator {"number":9,"kind":"deposit","participant":"dealer1","cents":100000}
operator {"number":10,"kind":"withdraw","participant":"dealer2","cents":100000000000000}
dealer1 {"number":6,"kind":"sell","cusip":"912797AA5","to":"dealer2","amount":300,"cents":29700}
dealer1 {"number":30,"kind":"buy","seller":"dealer2","offer":20}
dealer1 {"number":23,"kind":"retract","offer":22}"#;

fn name(rt: &impl Abort, text: &str) -> Ident {
    Ident::read(text).expect(rt, "no name")
}

// The entry that a line of messages tells.
fn entry_of(rt: &impl Abort, alloc: Global, line: &str) -> Entry {
    let (submitter, text) = line.split_once(' ').expect(rt, "no space");
    let request = read_request(alloc, text.as_bytes());
    let Ok(Request::Message { number, message }) = &request else {
        panic!(rt; "no message");
    };
    Entry {
        submitter: name(rt, submitter),
        number: *number,
        moment: Moment {
            seconds: 1_730_700_000,
        },
        message: *message,
    }
}

// Adds the entry that a line of messages tells, for which it takes the memory.
fn add_entry(rt: &impl Abort, alloc: Global, entries: &mut Entries, line: &str) {
    assert!(rt; entries.reserve(1).is_ok());
    assert!(rt; 0 < entries.spare());
    entries.push(&entry_of(rt, alloc, line));
}

fn twenty_entries(rt: &impl Abort, alloc: Global) -> Entries {
    let mut entries = Entries::new(alloc);
    for line in MESSAGES.lines() {
        add_entry(rt, alloc, &mut entries, line);
    }
    entries
}

// The entry that the line tells stands in this place, and is found by its submitter and number.
fn is_told(rt: &impl Abort, alloc: Global, entries: &Entries, place: usize, line: &str) -> bool {
    let entry = entry_of(rt, alloc, line);
    entries.get(place) == Some(entry) && entries.find(&entry.submitter, entry.number) == Some(entry)
}

#[test]
fn each_entry_is_told_as_it_was_added(rt: HostRuntime) {
    let alloc = rt.alloc();
    let entries = twenty_entries(&rt, alloc);
    assert!(rt; entries.len() == 20);
    assert!(rt; entries.get(20).is_none());
    for (place, line) in MESSAGES.lines().enumerate() {
        assert!(rt; is_told(&rt, alloc, &entries, place, line));
    }
}

// The last entry, which is taken back, has this number.
fn ends_with(entries: &mut Entries, number: u64) -> bool {
    match &entries.pop() {
        Some(entry) => entry.number == number,
        None => false,
    }
}

// So many entries are of the submitter.
fn sent(rt: &impl Abort, entries: &Entries, submitter: &str, count: usize) -> bool {
    entries.count(&name(rt, submitter)) == count
}

// The submitter has no entry of this number.
fn lacks(rt: &impl Abort, entries: &Entries, submitter: &str, number: u64) -> bool {
    entries.find(&name(rt, submitter), number).is_none()
}

#[test]
fn entries_are_counted_by_submitter(rt: HostRuntime) {
    let mut entries = twenty_entries(&rt, rt.alloc());
    assert!(rt; sent(&rt, &entries, "operator", 10));
    assert!(rt; sent(&rt, &entries, "dealer1", 9));
    assert!(rt; sent(&rt, &entries, "dealer2", 1));
    // It bids and sends nothing.
    assert!(rt; sent(&rt, &entries, "fund1", 0));
    assert!(rt; sent(&rt, &entries, "dealer3", 0));
    assert!(rt; lacks(&rt, &entries, "dealer2", 1));
    assert!(rt; lacks(&rt, &entries, "dealer3", 1));
    assert!(rt; ends_with(&mut entries, 23));
    assert!(rt; sent(&rt, &entries, "dealer1", 8));
    assert!(rt; lacks(&rt, &entries, "dealer1", 23));
    assert!(rt; entries.len() == 19);
}

fn bid(rt: &impl Abort, submitter: &str, number: u64, auction: &str, bidder: &str) -> Bid {
    Bid {
        submitter: name(rt, submitter),
        number,
        auction: name(rt, auction),
        bidder: name(rt, bidder),
        rate: Rate::read("4.27").ok(),
        amount: Dollars { value: 1_000_000 },
    }
}

// Adds a bid, for which there is room.
fn add(rt: &impl Abort, bids: &mut Bids, added: &Bid) {
    assert!(rt; 0 < bids.spare());
    bids.push(added);
}

// So many bids of the bidder are in the auction.
fn counts(rt: &impl Abort, bids: &Bids, auction: &str, bidder: &str, count: usize) -> bool {
    bids.count(&name(rt, auction), &name(rt, bidder)) == count
}

// The only bids of `dealer1` in the auction of `bill13` are these two, in this order.
fn has_sent_two(rt: &impl Abort, alloc: Global, bids: &Bids, first: &Bid, second: &Bid) -> bool {
    match bids.from(alloc, &name(rt, "dealer1"), &name(rt, "bill13")) {
        Ok(own) => own.len() == 2 && own.first() == Some(first) && own.last() == Some(second),
        Err(_) => false,
    }
}

// The submitter has no bid in the auction of `bill13`.
fn has_sent_none(rt: &impl Abort, alloc: Global, bids: &Bids, submitter: &str) -> bool {
    match bids.from(alloc, &name(rt, submitter), &name(rt, "bill13")) {
        Ok(none) => none.is_empty(),
        Err(_) => false,
    }
}

// The last bid, which is taken back, has this number.
fn bids_end_with(bids: &mut Bids, number: u64) -> bool {
    match &bids.pop() {
        Some(last) => last.number == number,
        None => false,
    }
}

#[test]
fn bids_are_counted_and_gone_through(rt: HostRuntime) {
    let alloc = rt.alloc();
    let mut bids = Bids::new(alloc);
    assert!(rt; bids.reserve(4).is_ok());
    let first = bid(&rt, "dealer1", 1, "bill13", "fund1");
    let third = bid(&rt, "dealer1", 2, "bill13", "fund2");
    add(&rt, &mut bids, &first);
    add(&rt, &mut bids, &bid(&rt, "dealer2", 1, "bill13", "fund3"));
    add(&rt, &mut bids, &third);
    add(&rt, &mut bids, &bid(&rt, "dealer1", 3, "bill26", "fund1"));
    assert!(rt; bids.len() == 4);
    assert!(rt; counts(&rt, &bids, "bill13", "fund1", 1));
    assert!(rt; counts(&rt, &bids, "bill26", "fund1", 1));
    assert!(rt; counts(&rt, &bids, "bill26", "fund2", 0));
    assert!(rt; counts(&rt, &bids, "bill26", "fund4", 0));
    assert!(rt; has_sent_two(&rt, alloc, &bids, &first, &third));
    assert!(rt; has_sent_none(&rt, alloc, &bids, "dealer3"));
    assert!(rt; bids_end_with(&mut bids, 3));
    assert!(rt; counts(&rt, &bids, "bill26", "fund1", 0));
}
