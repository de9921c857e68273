//! Investment rates and how they are printed.
ghost use Rattle.std.specs.Prelude.{◌≡◌, ◌≤◌, ◌^◌};
ghost use Rattle.tb_units.specs.Decimals.{with_decimals};

use tb_units::Short;

/// An investment rate in thousandths of a percent, at most 10^16.
#[derive(Clone, Copy, Debug, PartialEq, Eq)]
pub struct Investment {
    pub thousandths: u128,
    ghost in_range: { thousandths ≤ 10 ^ 16 },
}

impl Investment {
    /// Prints the rate in percent with three decimals.
    pub fn print(self) -> Short
        ensures { result ≡ with_decimals 3 self.thousandths }
    {
        Short::with_decimals(self.thousandths, 3, 1000)
    }
}
