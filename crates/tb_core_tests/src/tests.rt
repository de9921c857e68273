//! Tests of the host: an auction's bids come and go, in room that was taken before, with values that follow from the
//! rules by hand.
ghost use Rattle.std.specs.Prelude.{◌≡◌, ◌≤◌, ◌^◌, ◌++◌, ◌∷◌, [], true};
ghost use Rattle.tb_message.specs.declared.verdict.Verdict.TheVariants as outcome;
ghost use Rattle.tb_message.specs.Spelling.{IsInRange};
ghost use Rattle.tb_core.specs.House.{IsBid};

use std::alloc::Global;
use std::process::Abort;
use tb_core::Host;
use tb_history::Reading;
use tb_message::{Entry, Message, Query, Verdict};
use tb_terms::{Announcement, Cusip};
use tb_units::{Day, Dollars, Ident, Moment, OutOfMemory, Rate};

// 4 November 2024, before the closing.
pub(crate) const MOMENT: Moment = Moment {
    seconds: 1_730_700_000,
};

// The same day at half past eleven, Eastern time: the closing of competitive bids.
pub(crate) const CLOSING: Moment = Moment {
    seconds: 1_730_737_800,
};

// 7 November 2024, when the auction's bills are issued, at midnight, Eastern time.
pub(crate) const ISSUE: Moment = Moment {
    seconds: 1_730_955_600,
};

// 6 February 2025, when they mature.
pub(crate) const MATURITY: Moment = Moment {
    seconds: 1_738_818_000,
};

pub(crate) const BILL: Cusip = Cusip {
    bytes: *b"912797AA5",
};

// The name that is spelled so.
pub(crate) fn name(rt: &impl Abort, text: &str) -> Ident {
    Ident::read(text).expect(rt, "a name")
}

pub(crate) fn registered(rt: &impl Abort, number: u64, submitter: &str, key: &str) -> Entry
    requires { (1 ≤ number) × (number ≤ 10 ^ 9) }
    ensures range { IsInRange result }
{
    Entry {
        submitter: name(rt, "operator"),
        number,
        moment: MOMENT,
        message: Message::Register {
            submitter: name(rt, submitter),
            key: name(rt, key),
        },
    }
}

pub(crate) fn enrolled(rt: &impl Abort, number: u64, bidder: &str) -> Entry
    requires { (1 ≤ number) × (number ≤ 10 ^ 9) }
    ensures range { IsInRange result }
{
    Entry {
        submitter: name(rt, "operator"),
        number,
        moment: MOMENT,
        message: Message::Enrol {
            bidder: name(rt, bidder),
            submitter: name(rt, "dealer1"),
        },
    }
}

pub(crate) fn announced(rt: &impl Abort) -> Entry
    ensures range { IsInRange result }
{
    announced_as(rt, 3, "bill13")
}

// An auction of this name, of the same bill.
fn announced_as(rt: &impl Abort, number: u64, auction: &str) -> Entry
    requires { (1 ≤ number) × (number ≤ 10 ^ 9) }
    ensures range { IsInRange result }
{
    Entry {
        submitter: name(rt, "operator"),
        number,
        moment: MOMENT,
        message: Message::Announce {
            terms: Announcement {
                auction: name(rt, auction),
                cusip: BILL,
                offering: Dollars {
                    value: 1_000_000_000,
                },
                minimum: Dollars { value: 100 },
                nc_ceiling: Dollars { value: 10_000_000 },
                competitive_floor: Dollars { value: 1_000_000 },
                nlp_threshold: Dollars { value: 350_000_000 },
                auction_date: Day { number: 20_031 },
                nc_close: 660,
                c_close: 690,
                issue: Day { number: 20_034 },
                maturity: Day { number: 20_125 },
            },
        },
    }
}

// A noncompetitive bid of whole hundreds.
pub(crate) fn bid(rt: &impl Abort, number: u64, hundreds: u32) -> Entry
    requires some { (1 ≤ number) × (number ≤ 10 ^ 9) }
    requires few { hundreds ≤ 10 ^ 6 }
    ensures range { IsInRange result }
    ensures bid { IsBid result.message }
{
    Entry {
        submitter: name(rt, "dealer1"),
        number,
        moment: MOMENT,
        message: Message::Bid {
            auction: name(rt, "bill13"),
            bidder: name(rt, "fund1"),
            rate: None,
            amount: Dollars {
                value: 100 * hundreds as u128,
            },
        },
    }
}

// A competitive bid at 5.330 percent.
pub(crate) fn competitive(rt: &impl Abort, number: u64) -> Entry
    requires { (1 ≤ number) × (number ≤ 10 ^ 9) }
    ensures range { IsInRange result }
{
    Entry {
        submitter: name(rt, "dealer1"),
        number,
        moment: MOMENT,
        message: Message::Bid {
            auction: name(rt, "bill13"),
            bidder: name(rt, "fund2"),
            rate: Some(Rate { steps: 1066 }),
            amount: Dollars { value: 300_000_000 },
        },
    }
}

pub(crate) fn published(rt: &impl Abort) -> Entry
    ensures range { IsInRange result }
{
    Entry {
        submitter: name(rt, "operator"),
        number: 5,
        moment: CLOSING,
        message: Message::Publish {
            auction: name(rt, "bill13"),
        },
    }
}

pub(crate) fn settled(rt: &impl Abort) -> Entry
    ensures range { IsInRange result }
{
    Entry {
        submitter: name(rt, "operator"),
        number: 6,
        moment: ISSUE,
        message: Message::Settle {
            auction: name(rt, "bill13"),
        },
    }
}

pub(crate) fn redeemed(rt: &impl Abort) -> Entry
    ensures range { IsInRange result }
{
    Entry {
        submitter: name(rt, "operator"),
        number: 7,
        moment: MATURITY,
        message: Message::Redeem { cusip: BILL },
    }
}

fn cancelled(rt: &impl Abort, number: u64, bid: u64) -> Entry
    requires number { (1 ≤ number) × (number ≤ 10 ^ 9) }
    requires bid { (1 ≤ bid) × (bid ≤ 10 ^ 9) }
    ensures range { IsInRange result }
{
    cancelled_in(rt, "bill13", number, bid)
}

fn cancelled_in(rt: &impl Abort, auction: &str, number: u64, bid: u64) -> Entry
    requires number { (1 ≤ number) × (number ≤ 10 ^ 9) }
    requires bid { (1 ≤ bid) × (bid ≤ 10 ^ 9) }
    ensures range { IsInRange result }
{
    Entry {
        submitter: name(rt, "dealer1"),
        number,
        moment: MOMENT,
        message: Message::Cancel {
            auction: name(rt, auction),
            bid,
        },
    }
}

// Whether the verdict is that a message was accepted under this number at this moment.
fn is_accepted(verdict: &Verdict, number: u64, moment: Moment) -> bool
    ensures { result ≡ true → verdict.now ≡ outcome.Accepted number moment }
{
    match verdict {
        Verdict::Accepted {
            number: given,
            moment: noted,
        } => *given == number && noted.seconds == moment.seconds,
        _ => false,
    }
}

// Applies the entry, if it is accepted and there is room for it, and tells whether it was.
fn take(host: &mut Host, entry: Entry) -> bool
    requires range { IsInRange entry }
    ensures { result ≡ true → host.new.history ≡ host.old.history ++ entry ∷ [] }
{
    let none: [Entry; 0] = [];
    if !host.has_room(&none, &entry.message) {
        return false;
    }
    if entry.moment.seconds < host.last().seconds {
        return false;
    }
    let verdict = host.decide(&entry.submitter, entry.number, entry.moment, &entry.message);
    if !is_accepted(&verdict, entry.number, entry.moment) {
        return false;
    }
    host.apply(entry);
    true
}

// Takes room for the entry's message and applies it, if it is accepted, and tells whether it was.
pub(crate) fn submit(rt: &impl Abort, host: &mut Host, entry: Entry) -> bool
    requires range { IsInRange entry }
{
    let none: [Entry; 0] = [];
    host.make_room(&none, &entry.message).expect(rt, "memory");
    take(host, entry)
}

// A host with a bidder of a submitter.
pub(crate) fn with_bidder(rt: &impl Abort, alloc: Global) -> Host {
    let mut host = Host::new(alloc).expect(rt, "memory");
    assert!(rt; submit(rt, &mut host, registered(rt, 1, "dealer1", "key1")));
    assert!(rt; submit(rt, &mut host, enrolled(rt, 2, "fund1")));
    host
}

// Announces the auction and bids up to the ceiling of noncompetitive bids, which is 10,000,000.
fn bid_up(rt: &impl Abort, host: &mut Host) -> bool {
    submit(rt, host, announced(rt)) && submit(rt, host, bid(rt, 1, 100_000))
}

// A bid above the ceiling is refused until the other one is cancelled.
fn make_way(rt: &impl Abort, host: &mut Host) -> bool {
    let refused = submit(rt, host, bid(rt, 2, 1));
    !refused && submit(rt, host, cancelled(rt, 3, 1)) && submit(rt, host, bid(rt, 4, 1))
}

#[test]
fn a_cancelled_bid_leaves_its_book(rt: HostRuntime) {
    let mut host = with_bidder(&rt, rt.alloc());
    assert!(rt; bid_up(&rt, &mut host));
    assert!(rt; make_way(&rt, &mut host));
    assert_eq!(rt; host.entries(), 6);
}

// A bid in one of two auctions that are announced.
fn bid_in_one(rt: &impl Abort, host: &mut Host) -> bool {
    submit(rt, host, announced(rt))
        && submit(rt, host, announced_as(rt, 4, "bill26"))
        && submit(rt, host, bid(rt, 1, 1))
}

#[test]
fn a_cancel_finds_only_a_bid_of_its_auction(rt: HostRuntime) {
    let mut host = with_bidder(&rt, rt.alloc());
    assert!(rt; bid_in_one(&rt, &mut host));
    // The bid of this number is in the other auction.
    assert!(rt; !submit(&rt, &mut host, cancelled_in(&rt, "bill26", 2, 1)));
    // Nothing stands under the number.
    assert!(rt; !submit(&rt, &mut host, cancelled(&rt, 2, 2)));
    assert!(rt; submit(&rt, &mut host, cancelled(&rt, 2, 1)));
    // What stands under it now is a cancel.
    assert!(rt; !submit(&rt, &mut host, cancelled(&rt, 3, 2)));
    assert_eq!(rt; host.entries(), 6);
}

// Takes room for the announcement and the first bid, and applies both.
fn open(rt: &impl Abort, host: &mut Host) -> bool {
    let ahead = [announced(rt)];
    host.make_room(&ahead, &bid(rt, 1, 1).message)
        .expect(rt, "memory");
    take(host, announced(rt)) && take(host, bid(rt, 1, 1))
}

#[test]
fn a_bid_follows_an_announcement_in_room_taken_for_both(rt: HostRuntime) {
    let mut host = with_bidder(&rt, rt.alloc());
    let none: [Entry; 0] = [];
    let first = announced(&rt);
    assert!(rt; !host.has_room(&none, &first.message));
    assert!(rt; open(&rt, &mut host));
    assert!(rt; !host.has_room(&none, &first.message));
}

// Takes room for an announcement and two bids of a group behind it, and applies them.
fn open_for_group(rt: &impl Abort, host: &mut Host) -> bool {
    let ahead = [announced(rt)];
    let group = [(1, bid(rt, 1, 1).message), (2, bid(rt, 2, 1).message)];
    host.make_room_group(&ahead, &group).expect(rt, "memory");
    if !host.has_room_group(&ahead, &group) {
        return false;
    }
    take(host, announced(rt)) && take(host, bid(rt, 1, 1)) && take(host, bid(rt, 2, 1))
}

#[test]
fn a_group_follows_an_announcement_in_room_taken_for_all(rt: HostRuntime) {
    let mut host = with_bidder(&rt, rt.alloc());
    assert!(rt; open_for_group(&rt, &mut host));
    let none: [Entry; 0] = [];
    let next = bid(&rt, 3, 1);
    // Room was taken for eight, of which five are left.
    assert!(rt; !host.has_room_group(&none, &[(3, next.message); 6]));
}

// Applies a bid, if it is accepted, and takes it back.
fn take_and_back(host: &mut Host, entry: Entry) -> bool
    requires range { IsInRange entry }
    requires bid { IsBid entry.message }
{
    let before = host.last();
    if !take(host, entry) {
        return false;
    }
    host.take_back(before);
    true
}

// A bid up to the ceiling comes and is taken back; then one under the same number is accepted, and a bid above what
// that one leaves is refused.
fn bid_again(rt: &impl Abort, host: &mut Host) -> bool {
    let none: [Entry; 0] = [];
    assert!(rt; submit(rt, host, announced(rt)));
    let first = bid(rt, 1, 100_000);
    host.make_room(&none, &first.message).expect(rt, "memory");
    let back = take_and_back(host, first);
    back && submit(rt, host, bid(rt, 1, 1)) && !submit(rt, host, bid(rt, 2, 100_000))
}

#[test]
fn a_bid_that_is_taken_back_leaves_its_number_and_its_par(rt: HostRuntime) {
    let mut host = with_bidder(&rt, rt.alloc());
    assert!(rt; bid_again(&rt, &mut host));
    assert_eq!(rt; host.entries(), 4);
}

// A host with the settled auction of a noncompetitive bid and of a competitive one.
fn with_settled(rt: &impl Abort, alloc: Global) -> Host {
    let mut host = with_bidder(rt, alloc);
    assert!(rt; submit(rt, &mut host, enrolled(rt, 4, "fund2")));
    assert!(rt; submit(rt, &mut host, announced(rt)));
    assert!(rt; submit(rt, &mut host, bid(rt, 1, 100_000)));
    assert!(rt; submit(rt, &mut host, competitive(rt, 2)));
    assert!(rt; submit(rt, &mut host, published(rt)));
    assert!(rt; submit(rt, &mut host, settled(rt)));
    host
}

// What a caller reads.
pub(crate) fn read(host: &Host, alloc: Global, caller: &str, query: &Query) -> Option<Reading> {
    host.read(alloc, &Ident::read(caller)?, query).ok()
}

// When the auction's bills mature.
fn maturity(host: &Host, alloc: Global, auction: Ident) -> Option<u32> {
    let reading = read(host, alloc, "dealer1", &Query::Terms(auction))?;
    match &reading {
        Reading::Terms(terms) => Some(terms.maturity.number),
        _ => None,
    }
}

// The noncompetitive and the competitive awards, and the stop-out rate with its percentage, in steps of 0.005 and
// hundredths.
fn figures(host: &Host, alloc: Global, auction: Ident) -> Option<(u128, u128, u32, u32)> {
    let reading = read(host, alloc, "dealer1", &Query::Results(auction))?;
    match &reading {
        Reading::Results(results) => {
            let figures = results.figures?;
            Some((
                results.noncompetitive.value,
                figures.competitive.value,
                figures.cut.stop.steps,
                figures.cut.percent.hundredths,
            ))
        }
        _ => None,
    }
}

// The two awards with their payments, in dollars and in cents.
fn awards(host: &Host, alloc: Global, auction: Ident) -> Option<[(u128, u128); 2]> {
    let reading = read(host, alloc, "dealer1", &Query::Awards(auction))?;
    match &reading {
        Reading::Awards(awards) => {
            let lines = &awards.lines;
            if lines.count() != 2 {
                return None;
            }
            Some([
                (lines.line(0).amount.value, lines.line(0).payment.value),
                (lines.line(1).amount.value, lines.line(1).payment.value),
            ])
        }
        _ => None,
    }
}

// How many bids are read.
fn bid_count(host: &Host, alloc: Global, auction: Ident) -> Option<u64> {
    let reading = read(host, alloc, "dealer1", &Query::Bids(auction))?;
    match &reading {
        Reading::Bids(lines) => Some(lines.count()),
        _ => None,
    }
}

// What the caller holds of the only bill.
pub(crate) fn held(host: &Host, alloc: Global, caller: &str) -> Option<u128> {
    let reading = read(host, alloc, caller, &Query::Holdings)?;
    match &reading {
        Reading::Holdings(lines) => {
            if lines.count() != 1 {
                return None;
            }
            Some(lines.line(0).held.value)
        }
        _ => None,
    }
}

// What the only holder was paid.
pub(crate) fn paid(host: &Host, alloc: Global) -> Option<u128> {
    let reading = read(host, alloc, "operator", &Query::Redemption(BILL))?;
    match &reading {
        Reading::Redemption(lines) => {
            if lines.count() != 1 {
                return None;
            }
            Some(lines.line(0).paid.value)
        }
        _ => None,
    }
}

// Both bids fall short of the offering, so that each is awarded whole, at the price of 98.652694 for 91 days at 5.330
// percent.
#[test]
fn an_auction_is_read_from_its_terms_to_its_redemption(rt: HostRuntime) {
    let alloc = rt.alloc();
    let auction = name(&rt, "bill13");
    let mut host = with_settled(&rt, alloc);
    assert_eq!(rt; maturity(&host, alloc, auction), Some(20_125));
    assert_eq!(rt;
        figures(&host, alloc, auction),
        Some((10_000_000, 300_000_000, 1066, 10_000))
    );
    let awarded = [(10_000_000, 986_526_940), (300_000_000, 29_595_808_200)];
    assert_eq!(rt; awards(&host, alloc, auction), Some(awarded));
    assert_eq!(rt; bid_count(&host, alloc, auction), Some(2));
    assert_eq!(rt; held(&host, alloc, "dealer1"), Some(310_000_000));
    assert!(rt; submit(&rt, &mut host, redeemed(&rt)));
    assert_eq!(rt; paid(&host, alloc), Some(310_000_000));
}
