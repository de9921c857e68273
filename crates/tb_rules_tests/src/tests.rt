//! Tests of the verdicts on one auction, whose values follow from the rules by hand.
use std::alloc::Global;
use std::process::Abort;
use tb_rules::*;
use tb_terms::{Announcement, Cusip, EasternDays, Refusal, Terms};
use tb_units::{Day, Dollars, Ident, Moment, Rate};

const NONCOMPETITIVE_CLOSING: Moment = Moment {
    seconds: 1_730_736_000,
};

const COMPETITIVE_CLOSING: Moment = Moment {
    seconds: 1_730_737_800,
};

const IN_TIME: Moment = Moment {
    seconds: 1_730_735_999,
};

// A second before the competitive closing.
const STILL_IN_TIME: Moment = Moment {
    seconds: 1_730_737_799,
};

const LATE: Refusal = Refusal::Late {
    moment: NONCOMPETITIVE_CLOSING,
    closing: NONCOMPETITIVE_CLOSING,
};

// 4.270 percent.
const RATE: Option<Rate> = Some(Rate { steps: 854 });

// A bidder without bids and without a report.
const NOTHING: Own = Own {
    competitive: Dollars { value: 0 },
    noncompetitive: Dollars { value: 0 },
    accepted: 0,
    reported: false,
};

fn announcement(rt: &impl Abort) -> Announcement {
    Announcement {
        auction: Ident::read("bill13").expect(rt, "no name"),
        cusip: Cusip {
            bytes: *b"912797AA5",
        },
        offering: Dollars {
            value: 1_000_000_000,
        },
        minimum: Dollars { value: 100 },
        nc_ceiling: Dollars { value: 10_000_000 },
        competitive_floor: Dollars { value: 1_000_000 },
        nlp_threshold: Dollars { value: 350_000_000 },
        auction_date: Day { number: 20_031 },
        nc_close: 660,
        c_close: 690,
        issue: Day { number: 20_034 },
        maturity: Day { number: 20_125 },
    }
}

fn dated(rt: &impl Abort, alloc: Global, announcement: &Announcement) -> Terms {
    let days = EasternDays::new(alloc).expect(rt, "no memory");
    Terms::check(announcement, &days).ok().expect(rt, "a fault")
}

fn announced(rt: &impl Abort, alloc: Global) -> Terms {
    dated(rt, alloc, &announcement(rt))
}

fn dollars(value: u32) -> Dollars {
    Dollars {
        value: u128::from(value),
    }
}

// A competitive bid of so much in time is told so.
fn competes(terms: &Terms, own: &Own, amount: u32, wanted: &Option<Refusal>) -> bool {
    bid_verdict(terms, own, RATE, dollars(amount), IN_TIME) == *wanted
}

// The same of a noncompetitive bid.
fn takes_part(terms: &Terms, own: &Own, amount: u32, wanted: &Option<Refusal>) -> bool {
    bid_verdict(terms, own, None, dollars(amount), IN_TIME) == *wanted
}

// Bids of either kind.
fn either_way(terms: &Terms, own: &Own, amount: u32, wanted: &Option<Refusal>) -> bool {
    competes(terms, own, amount, wanted) && takes_part(terms, own, amount, wanted)
}

#[test]
fn bids_are_multiples_of_a_hundred_from_the_minimum_on(rt: HostRuntime) {
    let terms = announced(&rt, rt.alloc());
    let below = Some(Refusal::BelowMinimum);
    let multiple = Some(Refusal::NotMultiple);
    assert!(rt; either_way(&terms, &NOTHING, 0, &below));
    assert!(rt; either_way(&terms, &NOTHING, 99, &below));
    assert!(rt; either_way(&terms, &NOTHING, 100, &None));
    assert!(rt; either_way(&terms, &NOTHING, 150, &multiple));
}

// The least bid at the rate is told so.
fn at_the_rate(terms: &Terms, text: &str, wanted: &Option<Refusal>) -> bool {
    let rate = Rate::read(text).ok();
    rate.is_some() && bid_verdict(terms, &NOTHING, rate, dollars(100), IN_TIME) == *wanted
}

#[test]
fn a_rate_has_a_price_above_zero(rt: HostRuntime) {
    let terms = announced(&rt, rt.alloc());
    assert!(rt; at_the_rate(&terms, "0.000", &None));
    assert!(rt; at_the_rate(&terms, "395.600", &None));
    assert!(rt; at_the_rate(&terms, "395.605", &Some(Refusal::RateTooHigh)));
}

// A bid is in time a second before the closing, and late at it.
fn closes_at(terms: &Terms, rate: Option<Rate>, before: Moment, closing: Moment) -> bool {
    let late = Refusal::Late {
        moment: closing,
        closing,
    };
    let amount = dollars(100);
    bid_verdict(terms, &NOTHING, rate, amount, before) == None
        && bid_verdict(terms, &NOTHING, rate, amount, closing) == Some(late)
}

#[test]
fn bids_are_in_time_before_the_closing_of_their_kind(rt: HostRuntime) {
    let terms = announced(&rt, rt.alloc());
    assert!(rt; closes_at(&terms, None, IN_TIME, NONCOMPETITIVE_CLOSING));
    assert!(rt; closes_at(&terms, RATE, STILL_IN_TIME, COMPETITIVE_CLOSING));
}

// What a bidder has of noncompetitive bids.
fn with_noncompetitive(live: u32) -> Own {
    let mut own = NOTHING;
    own.noncompetitive = Dollars {
        value: u128::from(live),
    };
    own
}

fn with_competitive(live: u32, reported: bool) -> Own {
    let mut own = NOTHING;
    own.competitive = Dollars {
        value: u128::from(live),
    };
    own.reported = reported;
    own
}

fn with_accepted(accepted: u32) -> Own {
    let mut own = NOTHING;
    own.accepted = accepted;
    own
}

// Where so much is bid noncompetitively, the least bid more is told so.
fn beside_noncompetitive(terms: &Terms, live: u32, wanted: &Option<Refusal>) -> bool {
    takes_part(terms, &with_noncompetitive(live), 100, wanted)
}

#[test]
fn noncompetitive_bids_stay_within_the_ceiling(rt: HostRuntime) {
    let terms = announced(&rt, rt.alloc());
    let ceiling = Some(Refusal::NoncompetitiveCeiling);
    assert!(rt; beside_noncompetitive(&terms, 0, &None));
    assert!(rt; beside_noncompetitive(&terms, 9_999_900, &None));
    assert!(rt; beside_noncompetitive(&terms, 10_000_000, &ceiling));
}

#[test]
fn a_bidder_does_not_bid_both_ways(rt: HostRuntime) {
    let terms = announced(&rt, rt.alloc());
    let noncompetitive = with_noncompetitive(10_000_000);
    let competitive = with_competitive(100, false);
    let mixed = Some(Refusal::MixedBids);
    assert!(rt; competes(&terms, &noncompetitive, 100, &mixed));
    assert!(rt; competes(&terms, &NOTHING, 100, &None));
    assert!(rt; takes_part(&terms, &competitive, 100, &mixed));
    assert!(rt; competes(&terms, &competitive, 100, &None));
}

// Where so much is bid competitively, and a position is reported or not, a bid of so much more is told so.
fn beside_competitive(
    terms: &Terms,
    live: u32,
    amount: u32,
    reported: bool,
    wanted: &Option<Refusal>,
) -> bool {
    competes(terms, &with_competitive(live, reported), amount, wanted)
}

#[test]
fn a_bidder_that_reaches_the_threshold_reports_its_position(rt: HostRuntime) {
    let terms = announced(&rt, rt.alloc());
    let required = Some(Refusal::PositionRequired);
    assert!(rt; beside_competitive(&terms, 0, 349_999_900, false, &None));
    assert!(rt; beside_competitive(&terms, 0, 350_000_000, false, &required));
    assert!(rt; beside_competitive(&terms, 0, 350_000_000, true, &None));
    assert!(rt; beside_competitive(&terms, 349_999_800, 100, false, &None));
    assert!(rt; beside_competitive(&terms, 349_999_900, 100, false, &required));
    assert!(rt; beside_competitive(&terms, 349_999_900, 100, true, &None));
}

#[test]
fn a_bidder_has_a_thousand_bids(rt: HostRuntime) {
    let terms = announced(&rt, rt.alloc());
    let quota = Some(Refusal::BidQuota);
    assert!(rt; either_way(&terms, &with_accepted(999), 100, &None));
    assert!(rt; either_way(&terms, &with_accepted(1000), 100, &quota));
    assert!(rt; either_way(&terms, &with_accepted(1001), 100, &quota));
}

#[test]
fn reports_are_in_time_before_the_competitive_closing(rt: HostRuntime) {
    let terms = announced(&rt, rt.alloc());
    let late = Refusal::Late {
        moment: COMPETITIVE_CLOSING,
        closing: COMPETITIVE_CLOSING,
    };
    assert!(rt; position_verdict(&terms, NONCOMPETITIVE_CLOSING) == None);
    assert!(rt; position_verdict(&terms, STILL_IN_TIME) == None);
    assert!(rt; position_verdict(&terms, COMPETITIVE_CLOSING) == Some(late));
}

// A bid is told this.
fn is_told(
    terms: &Terms,
    own: &Own,
    rate: Option<Rate>,
    amount: u32,
    moment: Moment,
    first: Refusal,
) -> bool {
    bid_verdict(terms, own, rate, dollars(amount), moment) == Some(first)
}

// Each amount breaks the second rule, or the bidder, the rate or the moment does.
#[test]
fn of_two_rules_that_are_broken_the_first_is_told(rt: HostRuntime) {
    let terms = announced(&rt, rt.alloc());
    let none = &NOTHING;
    let dear = Some(Rate { steps: 79_121 });
    assert!(rt; is_told(&terms, none, RATE, 50, IN_TIME, Refusal::BelowMinimum));
    assert!(rt; is_told(&terms, none, dear, 150, IN_TIME, Refusal::NotMultiple));
    assert!(rt;
        is_told(
            &terms,
            none,
            dear,
            100,
            COMPETITIVE_CLOSING,
            Refusal::RateTooHigh
        )
    );
    assert!(rt; is_told(&terms, none, None, 10_000_100, NONCOMPETITIVE_CLOSING, LATE));
    let competitive = with_competitive(100, false);
    let ceiling = Refusal::NoncompetitiveCeiling;
    assert!(rt; is_told(&terms, &competitive, None, 10_000_100, IN_TIME, ceiling));
    let noncompetitive = with_noncompetitive(100);
    assert!(rt;
        is_told(
            &terms,
            &noncompetitive,
            RATE,
            350_000_000,
            IN_TIME,
            Refusal::MixedBids
        )
    );
    let full = with_accepted(1000);
    assert!(rt;
        is_told(
            &terms,
            &full,
            RATE,
            350_000_000,
            IN_TIME,
            Refusal::PositionRequired
        )
    );
}

#[test]
fn a_noncompetitive_bid_needs_no_report_at_the_threshold(rt: HostRuntime) {
    let mut announcement = announcement(&rt);
    announcement.nc_ceiling = Dollars { value: 400_000_000 };
    let terms = dated(&rt, rt.alloc(), &announcement);
    assert!(rt; takes_part(&terms, &NOTHING, 350_000_000, &None));
}
