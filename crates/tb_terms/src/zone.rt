//! The Eastern time zone, of which jiff gives the offsets.
ghost use Rattle.std.specs.Prelude.{◌≡◌, pos, IfOk, IsOk};
ghost use Rattle.jiff.specs.Words.{epoch_day, plain_zone, IsBetween};
ghost use Rattle.tb_terms.specs.Eastern.{start_of};
ghost use Rattle.tb_terms.specs.Zone.{start_in_zone, IsEastern};

use crate::civil::date_of_number;
use jiff::Error;
use jiff::civil::{Date, Time};
use jiff::tz::TimeZone;
use tb_units::Day;

/// Eastern time, which is always there.
pub fn eastern() -> Result<TimeZone<'static>, Error>
    ensures there { IsOk result }
    ensures zone { IfOk result (λ tz. IsEastern (plain_zone tz)) }
{
    TimeZone::posix("EST5EDT,M3.2.0,M11.1.0")
}

/// The first second of a date.
pub fn start_of_date(zone: &TimeZone<'static>, date: Date) -> Result<i64, Error>
    requires eastern { IsEastern (plain_zone zone.now) }
    requires year { IsBetween (pos 2000) (pos 2099) date.year }
    ensures there { IsOk result }
    ensures start { IfOk result (λ second. second ≡ start_in_zone date.year (epoch_day date)) }
{
    let moment = zone.to_timestamp(date.to_datetime(Time::midnight()))?;
    Ok(moment.as_second())
}

/// The first second of a day.
pub fn start_of_day(zone: &TimeZone<'static>, day: Day) -> u64
    requires { IsEastern (plain_zone zone.now) }
    ensures { result ≡ start_of day.number }
{
    start_of_date(zone, Date::from_plain(date_of_number(day))).unwrap() as u64
}
