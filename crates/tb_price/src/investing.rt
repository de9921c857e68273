//! The investment rate of a bill from its price, its days and the length of the year (31 CFR Part 356, Appendix B).
ghost use Rattle.std.specs.Prelude.{◌≡◌, ◌+◌, ◌*◌, ◌^◌, ◌<◌, ◌≤◌, ◌↔◌, IsTrue};
ghost use Rattle.tb_units.specs.Years.{days_of_year};
ghost use Rattle.tb_price.specs.Investments.{grown, IsShortRate, IsLongRate};

use crate::yearly::Investment;
use tb_units::{Days, Price, YearLength};

/// In thousandths of a percent, above every rate of a bill of more than half a year, also at the lowest price.
const ABOVE: u64 = 1 << 36;

/// The rate, zero or positive, to the nearest thousandth of a percent, a half rounded up.
pub fn investment(price: Price, days: Days, year: YearLength) -> Investment
    ensures short { 2 * days.count ≤ days_of_year year
        → IsShortRate price.millionths days.count (days_of_year year) result.thousandths }
    ensures long { days_of_year year < 2 * days.count
        → IsLongRate price.millionths days.count (days_of_year year) result.thousandths }
{
    let year = year.days();
    if 2 * days.count <= year {
        short_rate(price, days, year)
    } else {
        long_rate(price, days, year)
    }
}

// The rate of a bill of at most half a year.
fn short_rate(price: Price, days: Days, year: u32) -> Investment
    requires { year ≤ 366 }
    ensures { IsShortRate price.millionths days.count year result.thousandths }
{
    let gain = 200_000 * (100_000_000 - price.millionths) * year as u64;
    let cost = price.millionths * days.count as u64;
    Investment {
        thousandths: ((gain + cost) / (2 * cost)) as u128,
    }
}

// The rate of a bill of more than half a year: the least one that half a thousandth more takes beyond 100.
fn long_rate(price: Price, days: Days, year: u32) -> Investment
    requires long { year < 2 * days.count }
    requires least { 365 ≤ year }
    requires most { year ≤ 366 }
    ensures { IsLongRate price.millionths days.count year result.thousandths }
{
    let mut low = 0;
    let mut high = ABOVE;
    while low < high {
        let middle = (low + high) / 2;
        if passes_100(price, days, year, 2 * middle + 1) {
            high = middle;
        } else {
            low = middle + 1;
        }
    }
    Investment {
        thousandths: low as u128,
    }
}

// Whether the price at a rate of `halves` of a thousandth grows beyond 100.
fn passes_100(price: Price, days: Days, year: u32, halves: u64) -> bool
    requires long { year < 2 * days.count }
    requires most { year ≤ 366 }
    requires small { halves ≤ 2 ^ 38 }
    ensures { IsTrue result ↔ (16 * 10 ^ 18 * year < grown price.millionths days.count year halves) }
{
    let at_the_end = 400_000 * year as u128 + (2 * days.count - year) as u128 * halves as u128;
    let by_half_a_year = 400_000 + halves as u128;
    let target = 16_000_000_000_000_000_000 * year as u128;
    target < price.millionths as u128 * at_the_end * by_half_a_year
}
