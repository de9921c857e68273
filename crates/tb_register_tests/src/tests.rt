//! Tests of the keeper in memory, and of the row of an auction.
ghost use Rattle.std.specs.Prelude.{◌≡◌, ◌+◌, ◌≤◌, ◌^◌};
ghost use Rattle.tb_register.specs.Making.{FitsRow};

use std::process::Abort;
use std::test::Fail;
use tb_award::Cut;
use tb_history::{Figures, Results};
use tb_price::Investment;
use tb_register::{Keeper, KeeperFault, MemoryKeeper, Row, RowFigures, row_of};
use tb_terms::{Announcement, Cusip};
use tb_units::{Day, Dollars, Ident, Percent, Price, Rate};

fn name(rt: &impl Abort, text: &str) -> Ident {
    Ident::read(text).expect(rt, "no name")
}

fn rate() -> Rate {
    Rate { steps: 854 }
}

fn whole() -> Percent {
    Percent { hundredths: 10_000 }
}

fn price() -> Price {
    Price {
        millionths: 98_920_639,
    }
}

// The row of a 13-week bill.
fn row_with(
    rt: &impl Abort,
    auction: &str,
    cusip: &[u8; 9],
    offering: u128,
    figures: Option<RowFigures>,
) -> Row
    requires { offering ≤ 10 ^ 17 }
{
    Row {
        auction: name(rt, auction),
        cusip: Cusip { bytes: *cusip },
        issue: Day { number: 20_034 },
        maturity: Day { number: 20_125 },
        offering: Dollars { value: offering },
        total: Dollars {
            value: if figures.is_some() { 25_000_000_000 } else { 0 },
        },
        figures,
    }
}

// The row of one of which 25,000,000,000 was awarded.
fn row(rt: &impl Abort, auction: &str, cusip: &[u8; 9], offering: u128) -> Row
    requires { offering ≤ 10 ^ 17 }
{
    let figures = RowFigures {
        high: rate(),
        percent: whole(),
        price: price(),
    };
    row_with(rt, auction, cusip, offering, Some(figures))
}

fn announced(rt: &impl Abort) -> Announcement
    ensures { result.offering.value ≡ 76000000000 }
{
    Announcement {
        auction: name(rt, "bill13"),
        cusip: Cusip {
            bytes: *b"912797AA5",
        },
        offering: Dollars {
            value: 76_000_000_000,
        },
        minimum: Dollars { value: 100 },
        nc_ceiling: Dollars { value: 10_000_000 },
        competitive_floor: Dollars {
            value: 1_000_000_000,
        },
        nlp_threshold: Dollars {
            value: 26_600_000_000,
        },
        auction_date: Day { number: 20_031 },
        nc_close: 660,
        c_close: 690,
        issue: Day { number: 20_034 },
        maturity: Day { number: 20_125 },
    }
}

fn figures() -> Figures
    ensures { result.competitive.value ≡ 20000000000 }
{
    let bid = Dollars {
        value: 20_000_000_000,
    };
    Figures {
        cut: Cut {
            stop: rate(),
            percent: whole(),
            price: price(),
            below: Dollars { value: 0 },
            at_stop: bid,
            sought: Dollars {
                value: 76_000_000_000,
            },
        },
        competitive: bid,
        median: rate(),
        low: rate(),
        investment: Investment { thousandths: 4_377 },
    }
}

// The results of that bill, where bidders got these awards and 20,000,000,000 competitive ones, or nobody got one.
fn results(rt: &impl Abort, noncompetitive: u128, addon: u128, is_awarded: bool) -> Results
    requires { noncompetitive + addon ≤ 10 ^ 16 }
    ensures { FitsRow result }
{
    let terms = announced(rt);
    let noncompetitive = Dollars {
        value: noncompetitive,
    };
    let addon = Dollars { value: addon };
    if !is_awarded {
        return Results {
            terms,
            noncompetitive,
            addon,
            figures: None,
        };
    }
    Results {
        terms,
        noncompetitive,
        addon,
        figures: Some(figures()),
    }
}

// Whether the row of these results is this.
fn has_row(results: &Results, row: &Row) -> bool
    requires { FitsRow results.now }
{
    row_of(results) == *row
}

// Whether a row is put that wasn't there.
fn adds(keeper: &mut impl Keeper, row: &Row) -> bool {
    keeper.put(row) == Ok(None)
}

// Whether this row is there already.
fn finds(keeper: &mut impl Keeper, row: &Row, there: &Row) -> bool {
    keeper.put(row) == Ok(Some(*there))
}

// Whether these are the rows of the bill.
fn has(keeper: &mut impl Keeper, cusip: &[u8; 9], rows: &[Row]) -> bool {
    match keeper.of_cusip(&Cusip { bytes: *cusip }) {
        Ok(found) => found.as_slice() == rows,
        Err(_) => false,
    }
}

#[test]
fn a_row_stays_as_it_was_put(rt: HostRuntime) {
    let mut keeper = MemoryKeeper::new(rt.alloc(), Vec::new(rt.alloc()));
    let bill = row(&rt, "bill13", b"912797AA5", 76_000_000_000);
    assert!(rt; adds(&mut keeper, &bill));
    assert!(rt; finds(&mut keeper, &bill, &bill));
    assert!(rt;
        finds(
            &mut keeper,
            &row(&rt, "bill13", b"912797AA5", 1_000_000),
            &bill
        )
    );
    assert!(rt; has(&mut keeper, b"912797AA5", &[bill]));
}

#[test]
fn a_bill_has_its_rows_in_order(rt: HostRuntime) {
    let mut keeper = MemoryKeeper::new(rt.alloc(), Vec::new(rt.alloc()));
    let bill = row(&rt, "bill13", b"912797AA5", 76_000_000_000);
    let again = row(&rt, "bill13-2", b"912797AA5", 100_000_000_000_000_000);
    let first = row(&rt, "a", b"912797AA5", 1_000_000);
    let other = row(&rt, "b", b"912797AB3", 1_000_000);
    assert!(rt; adds(&mut keeper, &bill));
    assert!(rt; adds(&mut keeper, &again));
    assert!(rt; adds(&mut keeper, &other));
    assert!(rt; adds(&mut keeper, &first));
    assert!(rt; has(&mut keeper, b"912797AA5", &[first, bill, again]));
    assert!(rt; has(&mut keeper, b"912797AB3", &[other]));
    assert!(rt; has(&mut keeper, b"912797AC1", &[]));
}

#[test]
fn stated_calls_fail(rt: HostRuntime) -> Result<(), Fail> {
    let mut keeper = MemoryKeeper::new(rt.alloc(), vec![in rt.alloc(); 0, 2]?);
    let bill = row(&rt, "bill13", b"912797AA5", 76_000_000_000);
    assert!(rt; keeper.put(&bill) == Err(KeeperFault::Failed));
    assert!(rt; adds(&mut keeper, &bill));
    assert!(rt; keeper.of_cusip(&bill.cusip).err() == Some(KeeperFault::Failed));
    assert!(rt; has(&mut keeper, b"912797AA5", &[bill]));
    Ok(())
}

#[test]
fn a_row_has_the_sum_of_all_awards(rt: HostRuntime) {
    let bill = row(&rt, "bill13", b"912797AA5", 76_000_000_000);
    let none = row_with(&rt, "bill13", b"912797AA5", 76_000_000_000, None);
    assert!(rt; has_row(&results(&rt, 5_000_000_000, 0, true), &bill));
    assert!(rt; has_row(&results(&rt, 3_500_000_000, 1_500_000_000, true), &bill));
    assert!(rt; has_row(&results(&rt, 1_200, 3_400, false), &none));
}
