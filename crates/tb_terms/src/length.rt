//! The length of the year after an issue (31 CFR Part 356, Appendix B).
ghost use Rattle.std.specs.Prelude.{◌≡◌, ◌^◌, ◌<◌, ◌↔◌};
ghost use Rattle.tb_terms.specs.Calendar.{is_leap};
ghost use Rattle.tb_terms.specs.Years.{HasLeapDay, february_year};

use crate::civil::{Civil, civil_date};
use tb_units::{Day, YearLength};

/// 366 days where a 29 February lies after the issue date and not after the same day of the next year, else 365.
pub fn year_length(issue: Day) -> YearLength
    ensures { (result ≡ YearLength.Y366) ↔ HasLeapDay issue.number }
{
    let date = civil_date(issue);
    if is_leap_year(february_after(date)) {
        return YearLength::Y366;
    }
    YearLength::Y365
}

// The year in which the next 29 February would be.
fn february_after(date: Civil) -> u32
    requires { date.year < 2 ^ 31 }
    ensures { result ≡ february_year date.year date.month date.day }
{
    if date.month > 2 || date.month == 2 && date.day == 29 {
        return date.year + 1;
    }
    date.year
}

fn is_leap_year(year: u32) -> bool
    ensures { result ≡ is_leap year }
{
    year % 4 == 0 && (year % 100 != 0 || year % 400 == 0)
}
