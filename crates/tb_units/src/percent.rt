//! Percentages of a bid that are awarded.
ghost use Rattle.std.specs.Prelude.{◌≡◌, ◌≤◌};
ghost use Rattle.tb_units.specs.Decimals.{percent_text};

use crate::short::Short;

/// A percentage in hundredths of a percent, from 0.01 to 100.00.
#[derive(Clone, Copy, Debug, PartialEq, Eq)]
pub struct Percent {
    pub hundredths: u32,
    ghost above_zero: { 1 ≤ hundredths },
    ghost in_range: { hundredths ≤ 10000 },
}

impl Percent {
    /// Prints the percentage with two decimals.
    pub fn print(self) -> Short
        ensures { result ≡ percent_text self.hundredths }
    {
        Short::with_decimals(self.hundredths as u128, 2, 100)
    }
}
