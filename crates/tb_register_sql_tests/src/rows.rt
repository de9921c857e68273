//! Rows for the tests, and what a keeper answers to them.
ghost use Rattle.std.specs.Prelude.{◌≤◌, ◌^◌};

use std::process::Abort;
use tb_register::{Keeper, Row, RowFigures};
use tb_terms::Cusip;
use tb_units::{Day, Dollars, Ident, Percent, Price, Rate};

pub(crate) fn name(rt: &impl Abort, text: &str) -> Ident {
    Ident::read(text).expect(rt, "no name")
}

fn row_with(
    rt: &impl Abort,
    auction: &str,
    cusip: &[u8; 9],
    offering: u128,
    figures: Option<RowFigures>,
) -> Row
    requires { offering ≤ 10 ^ 17 }
{
    Row {
        auction: name(rt, auction),
        cusip: Cusip { bytes: *cusip },
        issue: Day { number: 20_034 },
        maturity: Day { number: 20_125 },
        offering: Dollars { value: offering },
        total: Dollars {
            value: if figures.is_some() { 25_000_000_000 } else { 0 },
        },
        figures,
    }
}

/// The row of a 13-week bill of which 25,000,000,000 was awarded.
pub(crate) fn row(rt: &impl Abort, auction: &str, cusip: &[u8; 9], offering: u128) -> Row
    requires { offering ≤ 10 ^ 17 }
{
    let figures = RowFigures {
        high: Rate { steps: 854 },
        percent: Percent { hundredths: 10_000 },
        price: Price {
            millionths: 98_920_639,
        },
    };
    row_with(rt, auction, cusip, offering, Some(figures))
}

/// The same of an auction in which nobody got an award.
pub(crate) fn without_awards(rt: &impl Abort, auction: &str, cusip: &[u8; 9], offering: u128) -> Row
    requires { offering ≤ 10 ^ 17 }
{
    row_with(rt, auction, cusip, offering, None)
}

// Whether a row is put that wasn't there.
pub(crate) fn adds(keeper: &mut impl Keeper, row: &Row) -> bool {
    keeper.put(row) == Ok(None)
}

// Whether this row is there already.
pub(crate) fn finds(keeper: &mut impl Keeper, row: &Row, there: &Row) -> bool {
    keeper.put(row) == Ok(Some(*there))
}

// Whether these are the rows of the bill.
pub(crate) fn has(keeper: &mut impl Keeper, cusip: &[u8; 9], rows: &[Row]) -> bool {
    match keeper.of_cusip(&Cusip { bytes: *cusip }) {
        Ok(found) => found.as_slice() == rows,
        Err(_) => false,
    }
}
