//! Tests of texts, as the formats spell them.
ghost use Rattle.std.specs.Prelude.{◌≡◌, ◌<◌};
ghost use Rattle.tb_report.specs.Readings.{IsPrintable};

use std::alloc::Global;
use std::process::Abort;
use tb_award::Cut;
use tb_history::{
    AddOnLine, AwardLine, Awards, BidLine, Bids, Figures, HoldingLine, Holdings, Listing, PaidLine,
    Reading, Redemption, Results,
};
use tb_price::Investment;
use tb_report::{line_count, text};
use tb_terms::{Announcement, Cusip};
use tb_units::{Cents, Day, Dollars, Ident, Percent, Price, Rate};

const TERMS: &str = "auction bill13
cusip 912797AA5
offering 76000000000
minimum 100
ceiling 10000000
floor 1000000000
threshold 26600000000
date 2024-11-04
nc_close 11:00
c_close 11:30
issue 2024-11-07
maturity 2025-02-06
";

const RESULTS: &str = "auction bill13
cusip 912797AA5
issue 2024-11-07
maturity 2025-02-06
days 91
offering 76000000000
noncompetitive 0
competitive 20000000000
addon 5000000000
total 25000000000
high 4.270
allotted 100.00
median 4.270
low 4.270
price 98.920639
investment 4.377
bids at lower rates were accepted in full
";

const NO_AWARDS: &str = "auction bill13
cusip 912797AA5
issue 2024-11-07
maturity 2025-02-06
days 91
offering 76000000000
noncompetitive 1200
no awards
";

fn name(rt: &impl Abort, text: &str) -> Ident {
    Ident::read(text).expect(rt, "no name")
}

fn announced(rt: &impl Abort) -> Announcement
    ensures nc_close { result.nc_close ≡ 660 }
    ensures c_close { result.c_close ≡ 690 }
    ensures dates { result.issue.number < result.maturity.number }
{
    Announcement {
        auction: name(rt, "bill13"),
        cusip: Cusip {
            bytes: *b"912797AA5",
        },
        offering: Dollars {
            value: 76_000_000_000,
        },
        minimum: Dollars { value: 100 },
        nc_ceiling: Dollars { value: 10_000_000 },
        competitive_floor: Dollars {
            value: 1_000_000_000,
        },
        nlp_threshold: Dollars {
            value: 26_600_000_000,
        },
        auction_date: Day { number: 20_031 },
        nc_close: 660,
        c_close: 690,
        issue: Day { number: 20_034 },
        maturity: Day { number: 20_125 },
    }
}

fn figures() -> Figures {
    let rate = Rate { steps: 854 };
    let bid = Dollars {
        value: 20_000_000_000,
    };
    Figures {
        cut: Cut {
            stop: rate,
            percent: Percent { hundredths: 10_000 },
            price: Price {
                millionths: 98_920_639,
            },
            below: Dollars { value: 0 },
            at_stop: bid,
            sought: Dollars {
                value: 76_000_000_000,
            },
        },
        competitive: bid,
        median: rate,
        low: rate,
        investment: Investment { thousandths: 4_377 },
    }
}

// The reading is told by this text, and has as many lines.
fn tells(rt: &impl Abort, alloc: Global, reading: &Reading, wanted: &str) -> bool
    requires { IsPrintable reading.now }
{
    text(alloc, reading).expect(rt, "memory").as_slice() == wanted.as_bytes()
        && line_count(reading) == wanted.lines().count() as u128
}

#[test]
fn terms_are_told_line_by_line(rt: HostRuntime) {
    assert!(rt; tells(&rt, rt.alloc(), &Reading::Terms(announced(&rt)), TERMS));
}

#[test]
fn results_have_seventeen_lines(rt: HostRuntime) {
    let results = Results {
        terms: announced(&rt),
        noncompetitive: Dollars { value: 0 },
        addon: Dollars {
            value: 5_000_000_000,
        },
        figures: Some(figures()),
    };
    assert!(rt; tells(&rt, rt.alloc(), &Reading::Results(results), RESULTS));
}

#[test]
fn results_without_awards_say_so(rt: HostRuntime) {
    let results = Results {
        terms: announced(&rt),
        noncompetitive: Dollars { value: 1200 },
        addon: Dollars { value: 100 },
        figures: None,
    };
    assert!(rt; tells(&rt, rt.alloc(), &Reading::Results(results), NO_AWARDS));
}

// Adds what a bidder is awarded, and what it pays.
fn add_award(
    rt: &impl Abort,
    lines: &mut Listing<AwardLine>,
    bidder: &str,
    amount: u64,
    payment: u64,
) {
    let line = AwardLine {
        bidder: name(rt, bidder),
        amount: Dollars {
            value: u128::from(amount),
        },
        payment: Cents {
            value: u128::from(payment),
        },
    };
    assert!(rt; lines.push(line).is_ok());
}

#[test]
fn awards_have_a_line_for_each_bidder(rt: HostRuntime) {
    let mut lines = Listing::new(rt.alloc());
    add_award(&rt, &mut lines, "fund1", 20_000_000_000, 1_978_412_780_000);
    add_award(&rt, &mut lines, "fund2", 0, 0);
    let awards = Reading::Awards(Awards { lines, addon: None });
    let wanted = "fund1 20000000000 19784127800.00\nfund2 0 0.00\n";
    assert!(rt; tells(&rt, rt.alloc(), &awards, wanted));
}

#[test]
fn an_add_on_has_a_plus_behind_the_bidders(rt: HostRuntime) {
    let mut lines = Listing::new(rt.alloc());
    add_award(&rt, &mut lines, "fund1", 100, 9892);
    let addon = Some(AddOnLine {
        amount: Dollars {
            value: 5_000_000_000,
        },
        payment: Cents {
            value: 494_603_195_000,
        },
    });
    let awards = Reading::Awards(Awards { lines, addon });
    let wanted = "fund1 100 98.92\n+ 5000000000 4946031950.00\n";
    assert!(rt; tells(&rt, rt.alloc(), &awards, wanted));
}

#[test]
fn bids_are_live_or_cancelled(rt: HostRuntime) {
    let mut bids: Bids = Listing::new(rt.alloc());
    let live = BidLine {
        number: 1,
        bidder: name(&rt, "fund1"),
        rate: Some(Rate { steps: 854 }),
        amount: Dollars {
            value: 20_000_000_000,
        },
        live: true,
    };
    assert!(rt; bids.push(live).is_ok());
    let cancelled = BidLine {
        number: 1_000_000_000_000_000,
        bidder: name(&rt, "fund2"),
        rate: None,
        amount: Dollars { value: 100 },
        live: false,
    };
    assert!(rt; bids.push(cancelled).is_ok());
    let wanted = "1 fund1 4.270 20000000000 live\n1000000000000000 fund2 n 100 cancelled\n";
    assert!(rt; tells(&rt, rt.alloc(), &Reading::Bids(bids), wanted));
}

#[test]
fn holdings_are_held_pledged_and_free(rt: HostRuntime) {
    let none = Reading::Holdings(Listing::new(rt.alloc()));
    assert!(rt; tells(&rt, rt.alloc(), &none, ""));
    let mut holdings: Holdings = Listing::new(rt.alloc());
    let line = HoldingLine {
        cusip: Cusip {
            bytes: *b"912797AB3",
        },
        held: Dollars { value: 600 },
        pledged: Dollars { value: 500 },
        free: Dollars { value: 100 },
    };
    assert!(rt; holdings.push(line).is_ok());
    let wanted = "912797AB3 600 500 100\n";
    assert!(rt; tells(&rt, rt.alloc(), &Reading::Holdings(holdings), wanted));
}

// What a holder is paid.
fn paid_to(rt: &impl Abort, holder: &str, dollars: u64) -> PaidLine
    ensures { result.paid.value ≡ dollars }
{
    PaidLine {
        holder: name(rt, holder),
        paid: Dollars {
            value: u128::from(dollars),
        },
    }
}

#[test]
fn payments_of_a_redemption_have_a_total(rt: HostRuntime) {
    let mut paid: Redemption = Listing::new(rt.alloc());
    assert!(rt; paid.push(paid_to(&rt, "dealer1", 200)).is_ok());
    assert!(rt; paid.push(paid_to(&rt, "dealer2", 800)).is_ok());
    let wanted = "dealer1 200\ndealer2 800\ntotal 1000\n";
    assert!(rt; tells(&rt, rt.alloc(), &Reading::Redemption(paid), wanted));
}

#[test]
fn funds_are_told_in_dollars_and_cents(rt: HostRuntime) {
    let funds = Reading::Funds(Cents { value: 70_300 });
    assert!(rt; tells(&rt, rt.alloc(), &funds, "funds 703.00\n"));
    let none = Reading::Funds(Cents { value: 0 });
    assert!(rt; tells(&rt, rt.alloc(), &none, "funds 0.00\n"));
}
