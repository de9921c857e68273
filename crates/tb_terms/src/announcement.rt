//! Announcements of auctions (31 CFR 356.10), and what those must have that are in order.
ghost use Rattle.std.specs.Prelude.{◌≡◌};
ghost use Rattle.tb_terms.specs.Announcements.{has_dates, has_amounts, has_closings, is_within};
ghost use Rattle.tb_terms.specs.Announcements as limits;

use crate::cusip::Cusip;
use tb_units::{Day, Dollars, Ident};

/// 2079-12-31.
const LAST_MATURITY: u32 = 40_176;

/// Days from issue to maturity, at most.
const MOST_DAYS: u32 = 366;

/// Whole dollars of which an offering is a multiple.
const OFFERING_UNIT: u128 = 1_000_000;

/// Whole dollars that are offered at most.
const MOST_OFFERING: u128 = 1_000_000_000_000;

/// 8:00, as a minute of the day.
const FIRST_CLOSING: u16 = 480;

/// 18:00, as a minute of the day.
const LAST_CLOSING: u16 = 1080;

/// What the operator announces. Closings are minutes of the Eastern day of the auction.
#[derive(Clone, Copy, Debug, PartialEq, Eq)]
pub struct Announcement {
    pub auction: Ident,
    pub cusip: Cusip,
    pub offering: Dollars,
    pub minimum: Dollars,
    pub nc_ceiling: Dollars,
    pub competitive_floor: Dollars,
    pub nlp_threshold: Dollars,
    pub auction_date: Day,
    pub nc_close: u16,
    pub c_close: u16,
    pub issue: Day,
    pub maturity: Day,
}

impl Announcement {
    pub(crate) fn has_dates(&self) -> bool
        ensures { result ≡ has_dates self.now }
    {
        self.auction_date.number <= self.issue.number
            && self.issue.number < self.maturity.number
            && self.maturity.number <= LAST_MATURITY
            && self.maturity.number - self.issue.number <= MOST_DAYS
    }

    pub(crate) fn has_amounts(&self) -> bool
        ensures { result ≡ has_amounts self.now }
    {
        self.offering.is_multiple(OFFERING_UNIT, MOST_OFFERING)
            && self.is_within(self.minimum)
            && self.is_within(self.nc_ceiling)
            && self.is_within(self.competitive_floor)
            && self.is_within(self.nlp_threshold)
    }

    fn is_within(&self, amount: Dollars) -> bool
        ensures { result ≡ is_within self.now amount.value }
    {
        amount.is_multiple(100, self.offering.value)
    }

    pub(crate) fn has_closings(&self) -> bool
        ensures { result ≡ has_closings self.now }
    {
        is_closing(self.nc_close) && is_closing(self.c_close) && self.nc_close <= self.c_close
    }
}

fn is_closing(minute: u16) -> bool
    ensures { result ≡ limits.is_closing minute }
{
    FIRST_CLOSING <= minute && minute <= LAST_CLOSING
}
