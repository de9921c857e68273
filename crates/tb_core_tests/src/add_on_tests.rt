//! Tests of add-ons: how they are read, credited and paid beside the bids of an auction, and how they are refused.
ghost use Rattle.std.specs.Prelude.{◌≤◌, ◌^◌};
ghost use Rattle.tb_message.specs.Spelling.{IsInRange};

use crate::tests::{
    BILL, CLOSING, MOMENT, announced, bid, held, name, paid, published, read, redeemed, registered,
    settled, submit, with_bidder,
};
use std::alloc::Global;
use std::process::Abort;
use tb_core::Host;
use tb_history::Reading;
use tb_message::{Entry, Message, Query, Verdict};
use tb_terms::{Announcement, Refusal};
use tb_units::{Day, Dollars, Ident, Moment, Rate};

// Of 76,000,000,000 a submitter may bid for 26,600,000,000.
fn offered(rt: &impl Abort) -> Entry
    ensures range { IsInRange result }
{
    Entry {
        submitter: name(rt, "operator"),
        number: 3,
        moment: MOMENT,
        message: Message::Announce {
            terms: Announcement {
                auction: name(rt, "bill13"),
                cusip: BILL,
                offering: Dollars {
                    value: 76_000_000_000,
                },
                minimum: Dollars { value: 100 },
                nc_ceiling: Dollars { value: 10_000_000 },
                competitive_floor: Dollars {
                    value: 1_000_000_000,
                },
                nlp_threshold: Dollars {
                    value: 26_600_000_000,
                },
                auction_date: Day { number: 20_031 },
                nc_close: 660,
                c_close: 690,
                issue: Day { number: 20_034 },
                maturity: Day { number: 20_125 },
            },
        },
    }
}

// The only bid, at 4.270 percent.
fn large_bid(rt: &impl Abort) -> Entry
    ensures range { IsInRange result }
{
    Entry {
        submitter: name(rt, "dealer1"),
        number: 1,
        moment: MOMENT,
        message: Message::Bid {
            auction: name(rt, "bill13"),
            bidder: name(rt, "fund1"),
            rate: Some(Rate { steps: 854 }),
            amount: Dollars {
                value: 20_000_000_000,
            },
        },
    }
}

fn added(rt: &impl Abort, holder: &str) -> Entry
    ensures range { IsInRange result }
{
    Entry {
        submitter: name(rt, "operator"),
        number: 4,
        moment: MOMENT,
        message: Message::AddOn {
            auction: name(rt, "bill13"),
            holder: name(rt, holder),
            amount: Dollars {
                value: 5_000_000_000,
            },
        },
    }
}

// A host with two submitters and an announced auction, in which the holder has an add-on of 5,000,000,000.
fn with_add_on(rt: &impl Abort, alloc: Global, holder: &str) -> Host {
    let mut host = with_bidder(rt, alloc);
    assert!(rt; submit(rt, &mut host, registered(rt, 8, "dealer2", "key2")));
    assert!(rt; submit(rt, &mut host, offered(rt)));
    assert!(rt; submit(rt, &mut host, added(rt, holder)));
    host
}

// Publishes the auction of this bid, and settles it.
fn sell(rt: &impl Abort, host: &mut Host, bid: Entry) -> bool
    requires range { IsInRange bid }
{
    submit(rt, host, bid) && submit(rt, host, published(rt)) && submit(rt, host, settled(rt))
}

// The par of noncompetitive bids, of competitive awards, if there are any, and of the add-on.
fn amounts(host: &Host, alloc: Global) -> Option<(u128, Option<u128>, u128)> {
    let query = Query::Results(Ident::read("bill13")?);
    let reading = read(host, alloc, "dealer1", &query)?;
    match &reading {
        Reading::Results(results) => {
            let awarded = results.figures.map(|figures| figures.competitive.value);
            Some((results.noncompetitive.value, awarded, results.addon.value))
        }
        _ => None,
    }
}

// How many bidders the caller is told of, and the par and the payment of its add-on, in dollars and in cents.
fn awards(host: &Host, alloc: Global, caller: &str) -> Option<(u64, Option<(u128, u128)>)> {
    let query = Query::Awards(Ident::read("bill13")?);
    let reading = read(host, alloc, caller, &query)?;
    match &reading {
        Reading::Awards(awards) => {
            let addon = awards
                .addon
                .map(|line| (line.amount.value, line.payment.value));
            Some((awards.lines.count(), addon))
        }
        _ => None,
    }
}

// What the second holder was paid.
fn paid_second(host: &Host, alloc: Global) -> Option<u128> {
    let reading = read(host, alloc, "operator", &Query::Redemption(BILL))?;
    match &reading {
        Reading::Redemption(lines) => {
            if lines.count() != 2 {
                return None;
            }
            Some(lines.line(1).paid.value)
        }
        _ => None,
    }
}

// At 4.270 percent the price for 91 days is 98.920639.
#[test]
fn an_add_on_is_issued_beside_the_offering(rt: HostRuntime) {
    let alloc = rt.alloc();
    let mut host = with_add_on(&rt, alloc, "dealer2");
    assert!(rt; sell(&rt, &mut host, large_bid(&rt)));
    let told = (0, Some(20_000_000_000), 5_000_000_000);
    assert_eq!(rt; amounts(&host, alloc), Some(told));
    assert_eq!(rt; awards(&host, alloc, "dealer1"), Some((1, None)));
    let whole = Some((5_000_000_000, 494_603_195_000));
    assert_eq!(rt; awards(&host, alloc, "dealer2"), Some((0, whole)));
    assert_eq!(rt; held(&host, alloc, "dealer1"), Some(20_000_000_000));
    assert_eq!(rt; held(&host, alloc, "dealer2"), Some(5_000_000_000));
    assert!(rt; submit(&rt, &mut host, redeemed(&rt)));
    assert_eq!(rt; paid_second(&host, alloc), Some(5_000_000_000));
}

#[test]
fn a_holder_that_bids_is_credited_both_once(rt: HostRuntime) {
    let alloc = rt.alloc();
    let mut host = with_add_on(&rt, alloc, "dealer1");
    assert!(rt; sell(&rt, &mut host, large_bid(&rt)));
    let whole = Some((5_000_000_000, 494_603_195_000));
    assert_eq!(rt; awards(&host, alloc, "dealer1"), Some((1, whole)));
    assert_eq!(rt; held(&host, alloc, "dealer1"), Some(25_000_000_000));
    assert!(rt; submit(&rt, &mut host, redeemed(&rt)));
    assert_eq!(rt; paid(&host, alloc), Some(25_000_000_000));
}

#[test]
fn where_nobody_is_awarded_anything_no_add_on_is(rt: HostRuntime) {
    let alloc = rt.alloc();
    let mut host = with_add_on(&rt, alloc, "dealer2");
    assert!(rt; sell(&rt, &mut host, bid(&rt, 1, 1)));
    assert_eq!(rt; amounts(&host, alloc), Some((100, None, 5_000_000_000)));
    assert_eq!(rt; awards(&host, alloc, "dealer2"), Some((0, Some((0, 0)))));
    assert_eq!(rt; held(&host, alloc, "dealer2"), None);
}

// Whether an add-on of so many dollars for the holder is refused at this moment, for this cause.
fn is_refused(
    rt: &impl Abort,
    host: &Host,
    moment: Moment,
    holder: &str,
    dollars: u64,
    cause: &Refusal,
) -> bool {
    let message = Message::AddOn {
        auction: name(rt, "bill13"),
        holder: name(rt, holder),
        amount: Dollars {
            value: u128::from(dollars),
        },
    };
    let operator = name(rt, "operator");
    host.decide(&operator, 9, moment, &message) == Verdict::Refused(*cause)
}

#[test]
fn add_ons_are_refused_in_order(rt: HostRuntime) {
    let mut host = with_bidder(&rt, rt.alloc());
    let unknown = Refusal::UnknownAuction;
    assert!(rt; is_refused(&rt, &host, MOMENT, "dealer2", 150, &unknown));
    assert!(rt; submit(&rt, &mut host, announced(&rt)));
    let nobody = Refusal::UnknownParticipant;
    assert!(rt; is_refused(&rt, &host, CLOSING, "dealer2", 150, &nobody));
    let uneven = Refusal::NotMultiple;
    assert!(rt; is_refused(&rt, &host, CLOSING, "dealer1", 150, &uneven));
    let late = Refusal::Late {
        moment: CLOSING,
        closing: CLOSING,
    };
    assert!(rt; is_refused(&rt, &host, CLOSING, "dealer1", 100, &late));
    assert!(rt; submit(&rt, &mut host, added(&rt, "dealer1")));
    let again = Refusal::AddOnExists;
    assert!(rt; is_refused(&rt, &host, MOMENT, "dealer1", 100, &again));
    assert!(rt; is_refused(&rt, &host, CLOSING, "dealer1", 100, &again));
}
