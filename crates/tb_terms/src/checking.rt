//! Whether an announcement is in order, and its terms where it is.
ghost use Rattle.std.specs.Prelude.{◌≡◌, IfOk};
ghost use Rattle.std.specs.Result.{result_err};
ghost use Rattle.tb_terms.specs.Faults.{fault_of, refusal_of};

use crate::announcement::Announcement;
use crate::eastern::EasternDays;
use crate::refusal::Refusal;
use crate::terms::Terms;
use tb_units::Days;

/// Why an announcement isn't in order. The first of these that is so is answered.
#[derive(Clone, Copy, Debug, PartialEq, Eq)]
pub enum TermsFault {
    /// The CUSIP has another character than `0-9A-Z`, or another check digit.
    BadCusip,
    /// Not `auction_date <= issue < maturity <= 2079-12-31`, or more than 366 days from issue to maturity.
    BadDates,
    /// The offering isn't a multiple of 1,000,000 from 1,000,000 to 10^12, or another amount isn't a multiple of 100
    /// from 100 to the offering.
    BadAmounts,
    /// A closing isn't from 8:00 to 18:00, or the noncompetitive one is the later one.
    BadClosing,
}

impl Terms {
    /// Checks an announcement, and dates it in Eastern time.
    pub fn check(announcement: &Announcement, days: &EasternDays) -> Result<Terms, TermsFault>
        ensures fault { result_err result ≡ fault_of announcement.now }
        ensures terms { IfOk result (λ terms. terms.announcement ≡ announcement.now) }
    {
        if !announcement.cusip.has_check_digit() {
            return Err(TermsFault::BadCusip);
        }
        if !announcement.has_dates() {
            return Err(TermsFault::BadDates);
        }
        if !announcement.has_amounts() {
            return Err(TermsFault::BadAmounts);
        }
        if !announcement.has_closings() {
            return Err(TermsFault::BadClosing);
        }
        Ok(Terms {
            announcement: *announcement,
            days: Days {
                count: announcement.maturity.number - announcement.issue.number,
            },
            nc_moment: days.closing(announcement.auction_date, announcement.nc_close),
            c_moment: days.closing(announcement.auction_date, announcement.c_close),
            issue_moment: days.start_of(announcement.issue),
            maturity_moment: days.start_of(announcement.maturity),
        })
    }
}

impl TermsFault {
    /// The refusal by which the fault is told.
    pub fn refusal(self) -> Refusal
        ensures { result ≡ refusal_of self }
    {
        match self {
            TermsFault::BadCusip => Refusal::BadCusip,
            TermsFault::BadDates => Refusal::BadDates,
            TermsFault::BadAmounts => Refusal::BadAmounts,
            TermsFault::BadClosing => Refusal::BadClosing,
        }
    }
}
