//! What the register has of an auction.
ghost use Rattle.std.specs.Prelude.{◌^◌, ◌≤◌};

use tb_terms::Cusip;
use tb_units::{Day, Dollars, Ident, Percent, Price, Rate};

/// The stop-out rate of an auction, what was awarded at it, and the price.
#[derive(Clone, Copy, Debug, PartialEq, Eq)]
pub struct RowFigures {
    pub high: Rate,
    pub percent: Percent,
    pub price: Price,
}

/// What the register has of a published auction. `total` is the sum of all awards, and like `offering` at most 10^17.
/// Without figures nobody got an award.
#[derive(Clone, Copy, Debug, PartialEq, Eq)]
pub struct Row {
    pub auction: Ident,
    pub cusip: Cusip,
    pub issue: Day,
    pub maturity: Day,
    pub offering: Dollars,
    pub total: Dollars,
    pub figures: Option<RowFigures>,
    ghost offering_fits: { offering.value ≤ 10 ^ 17 },
    ghost total_fits: { total.value ≤ 10 ^ 17 },
}
