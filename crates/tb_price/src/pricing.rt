//! The price of a bill from its discount rate and its days (31 CFR Part 356, Appendix B).
ghost use Rattle.std.specs.Prelude.{◌≡◌, ◌*◌, ◌↔◌, IsTrue};
ghost use Rattle.tb_price.specs.Prices.{IsPrice, HasPrice, has_price};

use tb_units::{Days, Price, Rate};

/// Whether the price at this rate, rounded to millionths, is above zero.
pub fn above_zero(rate: Rate, days: Days) -> bool
    ensures price { IsTrue result ↔ HasPrice rate.steps days.count }
    ensures test { result ≡ has_price rate.steps days.count }
{
    // What is left is a multiple of 125 ninths of a millionth, so it doesn't round to zero.
    discount(rate, days) < 900_000_000
}

/// The price per 100 of par at this rate, rounded to the nearest millionth.
pub fn price(rate: Rate, days: Days) -> Price
    requires { HasPrice rate.steps days.count }
    ensures { IsPrice rate.steps days.count result.millionths }
{
    Price {
        millionths: (900_000_004 - discount(rate, days)) / 9,
    }
}

// What is taken off 100 of par, in ninths of a millionth.
fn discount(rate: Rate, days: Days) -> u64
    ensures { result ≡ 125 * rate.steps * days.count }
{
    125 * rate.steps as u64 * days.count as u64
}
