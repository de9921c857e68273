//! Tests of offers of par for money: purchases with figures worked out by hand, and refusals in their order.
ghost use Rattle.std.specs.Prelude.{◌≡◌, ◌≤◌, ◌^◌};
ghost use Rattle.tb_message.specs.Spelling.{IsInRange};

use crate::tests::{
    BILL, ISSUE, MATURITY, announced, competitive, enrolled, name, published, read, redeemed,
    registered, settled, submit, with_bidder,
};
use std::alloc::Global;
use std::process::Abort;
use tb_core::Host;
use tb_history::Reading;
use tb_message::{Entry, Message, Query, Verdict};
use tb_terms::Refusal;
use tb_units::{Cents, Dollars, Moment};

fn cents(value: u64) -> Cents
    ensures { result.value ≡ value }
{
    Cents {
        value: u128::from(value),
    }
}

fn dollars(value: u64) -> Dollars
    ensures { result.value ≡ value }
{
    Dollars {
        value: u128::from(value),
    }
}

fn transferred(rt: &impl Abort, number: u64, to: &str, par: u64) -> Entry
    requires number { (1 ≤ number) × (number ≤ 10 ^ 9) }
    requires par { par ≤ 10 ^ 12 }
    ensures range { IsInRange result }
{
    Entry {
        submitter: name(rt, "dealer1"),
        number,
        moment: ISSUE,
        message: Message::Transfer {
            cusip: BILL,
            to: name(rt, to),
            amount: dollars(par),
        },
    }
}

fn pledged(rt: &impl Abort, number: u64, par: u64) -> Entry
    requires number { (1 ≤ number) × (number ≤ 10 ^ 9) }
    requires par { par ≤ 10 ^ 12 }
    ensures range { IsInRange result }
{
    Entry {
        submitter: name(rt, "dealer1"),
        number,
        moment: ISSUE,
        message: Message::Pledge {
            cusip: BILL,
            to: name(rt, "dealer2"),
            amount: dollars(par),
        },
    }
}

fn deposited(rt: &impl Abort, number: u64, participant: &str, value: u64) -> Entry
    requires number { (1 ≤ number) × (number ≤ 10 ^ 9) }
    requires cents { (1 ≤ value) × (value ≤ 10 ^ 14) }
    ensures range { IsInRange result }
{
    Entry {
        submitter: name(rt, "operator"),
        number,
        moment: ISSUE,
        message: Message::Deposit {
            participant: name(rt, participant),
            cents: cents(value),
        },
    }
}

fn withdrawn(rt: &impl Abort, number: u64, participant: &str, value: u64) -> Entry
    requires number { (1 ≤ number) × (number ≤ 10 ^ 9) }
    requires cents { (1 ≤ value) × (value ≤ 10 ^ 14) }
    ensures range { IsInRange result }
{
    Entry {
        submitter: name(rt, "operator"),
        number,
        moment: ISSUE,
        message: Message::Withdraw {
            participant: name(rt, participant),
            cents: cents(value),
        },
    }
}

// An offer of dealer2 to dealer1.
fn offered(rt: &impl Abort, number: u64, par: u64, price: u64) -> Entry
    requires number { (1 ≤ number) × (number ≤ 10 ^ 9) }
    requires par { par ≤ 10 ^ 12 }
    requires price { (1 ≤ price) × (price ≤ 10 ^ 14) }
    ensures range { IsInRange result }
{
    Entry {
        submitter: name(rt, "dealer2"),
        number,
        moment: ISSUE,
        message: Message::Sell {
            cusip: BILL,
            to: name(rt, "dealer1"),
            amount: dollars(par),
            price: cents(price),
        },
    }
}

// A purchase of an offer of dealer2.
fn bought(rt: &impl Abort, buyer: &str, number: u64, offer: u64) -> Entry
    requires number { (1 ≤ number) × (number ≤ 10 ^ 9) }
    requires offer { (1 ≤ offer) × (offer ≤ 10 ^ 9) }
    ensures range { IsInRange result }
{
    Entry {
        submitter: name(rt, buyer),
        number,
        moment: ISSUE,
        message: Message::Buy {
            seller: name(rt, "dealer2"),
            offer,
        },
    }
}

fn retracted(rt: &impl Abort, number: u64, offer: u64) -> Entry
    requires number { (1 ≤ number) × (number ≤ 10 ^ 9) }
    requires offer { (1 ≤ offer) × (offer ≤ 10 ^ 9) }
    ensures range { IsInRange result }
{
    Entry {
        submitter: name(rt, "dealer2"),
        number,
        moment: ISSUE,
        message: Message::Retract { offer },
    }
}

// Of a bill dealer1 holds 200, all of it pledged, and dealer2 holds 800.
fn house(rt: &impl Abort, alloc: Global) -> Host {
    let mut host = with_bidder(rt, alloc);
    assert!(rt; submit(rt, &mut host, registered(rt, 8, "dealer2", "key2")));
    assert!(rt; submit(rt, &mut host, registered(rt, 9, "dealer3", "key3")));
    assert!(rt; submit(rt, &mut host, enrolled(rt, 4, "fund2")));
    assert!(rt; submit(rt, &mut host, announced(rt)));
    assert!(rt; submit(rt, &mut host, competitive(rt, 2)));
    assert!(rt; submit(rt, &mut host, published(rt)));
    assert!(rt; submit(rt, &mut host, settled(rt)));
    assert!(rt; submit(rt, &mut host, transferred(rt, 10, "dealer3", 299_999_000)));
    assert!(rt; submit(rt, &mut host, transferred(rt, 11, "dealer2", 800)));
    assert!(rt; submit(rt, &mut host, pledged(rt, 12, 200)));
    host
}

// What is held, pledged and free of the bill.
fn holds(host: &Host, alloc: Global, caller: &str) -> Option<(u128, u128, u128)> {
    let reading = read(host, alloc, caller, &Query::Holdings)?;
    match &reading {
        Reading::Holdings(lines) => {
            if lines.count() != 1 {
                return None;
            }
            let line = lines.line(0);
            Some((line.held.value, line.pledged.value, line.free.value))
        }
        _ => None,
    }
}

fn funds(host: &Host, alloc: Global, caller: &str) -> Option<u128> {
    let reading = read(host, alloc, caller, &Query::Funds)?;
    match &reading {
        Reading::Funds(balance) => Some(balance.value),
        _ => None,
    }
}

// The message is refused for this cause, at this moment.
fn refuses_at(host: &Host, moment: Moment, entry: Entry, cause: &Refusal) -> bool {
    host.decide(&entry.submitter, entry.number, moment, &entry.message) == Verdict::Refused(*cause)
}

fn refuses(host: &Host, entry: Entry, cause: &Refusal) -> bool {
    refuses_at(host, ISSUE, entry, cause)
}

// The message is told as it was when it was accepted.
fn repeats(host: &Host, entry: Entry) -> bool {
    let told = Verdict::Repeat {
        number: entry.number,
        moment: ISSUE,
    };
    host.decide(&entry.submitter, entry.number, entry.moment, &entry.message) == told
}

// 1,000.00 comes to dealer1, which buys 300 of dealer2 for 297.00.
fn purchase<R: AllocGlobal + Abort>(rt: &R) -> Host {
    let mut host = house(rt, rt.alloc());
    assert_eq!(rt; holds(&host, rt.alloc(), "dealer1"), Some((200, 200, 0)));
    assert_eq!(rt; holds(&host, rt.alloc(), "dealer2"), Some((800, 0, 800)));
    assert!(rt; submit(rt, &mut host, deposited(rt, 20, "dealer1", 100_000)));
    assert!(rt; submit(rt, &mut host, offered(rt, 20, 300, 29_700)));
    assert!(rt; submit(rt, &mut host, bought(rt, "dealer1", 30, 20)));
    host
}

#[test]
fn a_purchase_moves_par_and_money(rt: HostRuntime) {
    let host = purchase(&rt);
    assert_eq!(rt; holds(&host, rt.alloc(), "dealer1"), Some((500, 200, 300)));
    assert_eq!(rt; holds(&host, rt.alloc(), "dealer2"), Some((500, 0, 500)));
    assert_eq!(rt; funds(&host, rt.alloc(), "dealer1"), Some(70_300));
    assert_eq!(rt; funds(&host, rt.alloc(), "dealer2"), Some(29_700));
    assert_eq!(rt; funds(&host, rt.alloc(), "dealer3"), Some(0));
    assert_eq!(rt; funds(&host, rt.alloc(), "operator"), None);
    assert!(rt; repeats(&host, bought(&rt, "dealer1", 30, 20)));
    assert!(rt; refuses(&host, bought(&rt, "dealer1", 31, 20), &Refusal::OfferClosed));
    assert!(rt; refuses(&host, retracted(&rt, 31, 20), &Refusal::OfferClosed));
}

#[test]
fn what_is_not_covered_moves_nothing(rt: HostRuntime) {
    let mut host = purchase(&rt);
    assert!(rt; submit(&rt, &mut host, offered(&rt, 21, 600, 29_700)));
    assert!(rt;
        refuses(
            &host,
            bought(&rt, "dealer1", 31, 21),
            &Refusal::OfferUncovered
        )
    );
    assert!(rt; submit(&rt, &mut host, offered(&rt, 22, 100, 70_301)));
    let funded = Refusal::InsufficientFunds {
        balance: cents(70_300),
    };
    assert!(rt; refuses(&host, bought(&rt, "dealer1", 31, 22), &funded));
    let paid = Refusal::InsufficientFunds {
        balance: cents(29_700),
    };
    assert!(rt; refuses(&host, withdrawn(&rt, 21, "dealer2", 29_701), &paid));
    assert!(rt; submit(&rt, &mut host, retracted(&rt, 23, 22)));
    assert!(rt; refuses(&host, retracted(&rt, 24, 22), &Refusal::OfferClosed));
    assert!(rt; refuses(&host, bought(&rt, "dealer1", 31, 22), &Refusal::OfferClosed));
    assert!(rt; submit(&rt, &mut host, withdrawn(&rt, 21, "dealer2", 29_700)));
    assert_eq!(rt; holds(&host, rt.alloc(), "dealer2"), Some((500, 0, 500)));
    assert_eq!(rt; funds(&host, rt.alloc(), "dealer1"), Some(70_300));
    assert_eq!(rt; funds(&host, rt.alloc(), "dealer2"), Some(0));
}

#[test]
fn offers_and_purchases_are_refused_in_order(rt: HostRuntime) {
    let mut host = house(&rt, rt.alloc());
    let nobody = Refusal::UnknownParticipant;
    assert!(rt; refuses(&host, deposited(&rt, 20, "dealer4", 1), &nobody));
    assert!(rt; refuses(&host, withdrawn(&rt, 20, "dealer4", 1), &nobody));
    let none = Refusal::InsufficientFunds { balance: cents(0) };
    assert!(rt; refuses(&host, withdrawn(&rt, 20, "dealer1", 1), &none));
    assert!(rt; refuses(&host, offered(&rt, 20, 150, 1), &Refusal::NotMultiple));
    assert!(rt; refuses_at(&host, MATURITY, offered(&rt, 20, 100, 1), &Refusal::Matured));
    assert!(rt;
        refuses(
            &host,
            bought(&rt, "dealer1", 30, 20),
            &Refusal::UnknownOffer
        )
    );
    assert!(rt; refuses(&host, retracted(&rt, 30, 20), &Refusal::UnknownOffer));
    assert!(rt; submit(&rt, &mut host, offered(&rt, 20, 900, 1)));
    assert!(rt; refuses(&host, bought(&rt, "dealer3", 30, 20), &Refusal::NotBuyer));
    assert!(rt;
        refuses_at(
            &host,
            MATURITY,
            bought(&rt, "dealer1", 30, 20),
            &Refusal::Matured
        )
    );
    assert!(rt;
        refuses(
            &host,
            bought(&rt, "dealer1", 30, 20),
            &Refusal::OfferUncovered
        )
    );
    assert!(rt; submit(&rt, &mut host, redeemed(&rt)));
    assert!(rt;
        refuses_at(
            &host,
            MATURITY,
            bought(&rt, "dealer1", 30, 20),
            &Refusal::AlreadyRedeemed
        )
    );
    assert!(rt;
        refuses_at(
            &host,
            MATURITY,
            offered(&rt, 21, 100, 1),
            &Refusal::AlreadyRedeemed
        )
    );
}

#[test]
fn the_largest_price_is_paid(rt: HostRuntime) {
    let mut host = house(&rt, rt.alloc());
    // The most that a message can say: 10^14 cents.
    assert!(rt;
        submit(
            &rt,
            &mut host,
            deposited(&rt, 20, "dealer1", 100_000_000_000_000)
        )
    );
    assert!(rt; submit(&rt, &mut host, deposited(&rt, 21, "dealer1", 1)));
    assert!(rt; submit(&rt, &mut host, offered(&rt, 20, 300, 100_000_000_000_000)));
    assert!(rt; submit(&rt, &mut host, bought(&rt, "dealer1", 30, 20)));
    assert_eq!(rt; holds(&host, rt.alloc(), "dealer1"), Some((500, 200, 300)));
    assert_eq!(rt; holds(&host, rt.alloc(), "dealer2"), Some((500, 0, 500)));
    assert_eq!(rt; funds(&host, rt.alloc(), "dealer1"), Some(1));
    assert_eq!(rt;
        funds(&host, rt.alloc(), "dealer2"),
        Some(100_000_000_000_000)
    );
    assert!(rt;
        submit(
            &rt,
            &mut host,
            withdrawn(&rt, 22, "dealer2", 100_000_000_000_000)
        )
    );
    assert_eq!(rt; funds(&host, rt.alloc(), "dealer2"), Some(0));
}

// A thousand offers of dealer2 with the numbers from 100 on.
fn offers_a_thousand(rt: &impl Abort, host: &mut Host) -> bool {
    for number in 100..1100u64 {
        if !submit(rt, host, offered(rt, number, 100, 1)) {
            return false;
        }
    }
    true
}

#[test]
fn a_thousand_offers_are_open_and_no_more(rt: HostRuntime) {
    let mut host = house(&rt, rt.alloc());
    assert!(rt; submit(&rt, &mut host, deposited(&rt, 20, "dealer1", 100)));
    assert!(rt; offers_a_thousand(&rt, &mut host));
    assert!(rt; refuses(&host, offered(&rt, 1100, 100, 1), &Refusal::OfferQuota));
    // One that is taken back, and one that is bought, make place for one more each.
    assert!(rt; submit(&rt, &mut host, retracted(&rt, 1100, 600)));
    assert!(rt; submit(&rt, &mut host, offered(&rt, 1101, 100, 1)));
    assert!(rt; refuses(&host, offered(&rt, 1102, 100, 1), &Refusal::OfferQuota));
    assert!(rt; submit(&rt, &mut host, bought(&rt, "dealer1", 30, 100)));
    assert!(rt; submit(&rt, &mut host, offered(&rt, 1102, 100, 1)));
    assert!(rt; refuses(&host, offered(&rt, 1103, 100, 1), &Refusal::OfferQuota));
}
