//! Civil dates of days, which jiff gives.
ghost use Rattle.std.specs.Prelude.{◌≡◌, ℕ, ◌≤◌, pos, IfSome, IfNone};
ghost use Rattle.jiff_core.specs.Date.{epoch_day};
ghost use Rattle.tb_terms.specs.Calendar.{year_of, month_of, day_of_month, IsDated};

use jiff_core::civil::Date;
use tb_units::Day;

/// A date of the calendar, in plain numbers.
#[derive(Clone, Copy)]
pub struct Civil {
    pub year: u32,
    pub month: u32,
    pub day: u32,
}

/// The date of a day, as jiff has it.
pub fn date_of_number(day: Day) -> Date
    ensures { epoch_day result ≡ pos day.number }
{
    Date::from_unix_epoch_day(day.number as i64).unwrap()
}

/// The date of a day.
pub fn civil_date(day: Day) -> Civil
    ensures year { result.year ≡ year_of day.number }
    ensures month { result.month ≡ month_of day.number }
    ensures day { result.day ≡ day_of_month day.number }
{
    let date = date_of_number(day);
    Civil {
        year: date.year as u32,
        month: date.month as u32,
        day: date.day as u32,
    }
}

/// The day of a date, where the calendar has the date and it is one from 2000 to 2099.
pub fn day_of_date(year: u32, month: u32, day: u32) -> Option<Day>
    ensures some { IfSome result (λ found. IsDated found.number year month day) }
    ensures none { IfNone result ((n : ℕ) → 10957 ≤ n → n ≤ 47481 → ¬ IsDated n year month day) }
{
    if year < 2000 || year > 2099 || month > 12 || day > 31 {
        return None;
    }
    let Ok(date) = Date::new(year as i16, month as i8, day as i8) else {
        return None;
    };
    Some(Day {
        number: date.to_unix_epoch_day() as u32,
    })
}
