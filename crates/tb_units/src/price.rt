//! Prices per 100 of par.
ghost use Rattle.std.specs.Prelude.{◌≡◌, ◌≤◌, ◌^◌};
ghost use Rattle.tb_units.specs.Decimals.{price_text};

use crate::short::Short;

/// A price per 100 of par in millionths, from 0.000001 to 100.000000.
#[derive(Clone, Copy, Debug, PartialEq, Eq)]
pub struct Price {
    pub millionths: u64,
    ghost above_zero: { 1 ≤ millionths },
    ghost in_range: { millionths ≤ 10 ^ 8 },
}

impl Price {
    /// Prints the price with six decimals.
    pub fn print(self) -> Short
        ensures { result ≡ price_text self.millionths }
    {
        Short::with_decimals(self.millionths as u128, 6, 1_000_000)
    }
}
