//! The payment for an award (31 CFR Part 356, Appendix B).
ghost use Rattle.std.specs.Prelude.{◌≤◌};
ghost use Rattle.tb_units.specs.Multiples.{most_par};
ghost use Rattle.tb_price.specs.Payments.{IsPayment};

use tb_units::{Cents, Dollars, Price};

/// Par times price over 100 in cents, a half rounded up, for par of at most 10^22.
pub fn payment(par: Dollars, price: Price) -> Cents
    requires { par.value ≤ most_par }
    ensures { IsPayment par.value price.millionths result.value }
{
    Cents {
        value: (2 * par.value * price.millionths as u128 + 1_000_000) / 2_000_000,
    }
}
