//! Amounts of money in cents.
ghost use Rattle.std.specs.Prelude.{◌≡◌, ◌≤◌, ◌^◌};
ghost use Rattle.tb_units.specs.Decimals.{cents_text};

use crate::short::Short;

/// Whole cents, at most 10^27.
#[derive(Clone, Copy, Debug, PartialEq, Eq)]
pub struct Cents {
    pub value: u128,
    ghost in_range: { value ≤ 10 ^ 27 },
}

impl Cents {
    /// Prints dollars with two decimals.
    pub fn print(self) -> Short
        ensures { result ≡ cents_text self.value }
    {
        Short::with_decimals(self.value, 2, 100)
    }
}
