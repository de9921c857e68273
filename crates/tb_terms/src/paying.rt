//! The day on which a bill that matures is paid (31 CFR 356.30).
ghost use Rattle.std.specs.Prelude.{◌≡◌, ◌≢◌, ◌+◌, ◌^◌, ◌≤◌, ◌<◌, length};
ghost use Rattle.std.specs.List.Sorted.{IsStrictlyIncreasing};
ghost use Rattle.tb_terms.specs.Payable.{numbers_of, IsPaymentDate, IsWeekdayFrom};

use tb_units::Day;

/// The first day from maturity on that is no Saturday, no Sunday and no holiday. Holidays come in order, and
/// maturity is 2079-12-31 at the latest, so that such a day is left.
pub fn payment_date(maturity: Day, holidays: &[Day]) -> Day
    requires order { IsStrictlyIncreasing (numbers_of holidays.now) }
    requires few { length holidays.now ≤ 4096 }
    requires early { maturity.number ≤ 40176 }
    ensures { IsPaymentDate (numbers_of holidays.now) maturity.number result.number }
{
    let mut number = weekday_from(maturity.number);
    for holiday in holidays {
        number = weekday_past(number, *holiday);
    }
    Day { number }
}

// The next weekday where the day is the holiday, else the day.
fn weekday_past(number: u32, holiday: Day) -> u32
    requires { number < 2 ^ 30 }
    ensures other { holiday.number ≢ number → result ≡ number }
    ensures same { holiday.number ≡ number → IsWeekdayFrom (number + 1) result }
{
    if holiday.number == number {
        return weekday_from(number + 1);
    }
    number
}

// The first day from `number` on that is no Saturday and no Sunday.
fn weekday_from(number: u32) -> u32
    requires { number < 2 ^ 31 }
    ensures { IsWeekdayFrom number result }
{
    // Counted from Monday, Saturday is 5 and Sunday 6.
    match (number + 3) % 7 {
        5 => number + 2,
        6 => number + 1,
        _ => number,
    }
}
