//! Amounts of par in whole dollars.
ghost use Rattle.std.specs.Prelude.{◌≡◌, ◌≢◌, ℕ, ◌≤◌, ◌^◌, IfSome, IfNone};
ghost use Rattle.std.specs.Fmt.{decimal};
ghost use Rattle.tb_units.specs.Multiples.{is_multiple};

use crate::number::read_within;
use crate::short::Short;

/// Whole dollars of par, at most 10^27.
#[derive(Clone, Copy, Debug, PartialEq, Eq)]
pub struct Dollars {
    pub value: u128,
    ghost in_range: { value ≤ 10 ^ 27 },
}

impl Dollars {
    /// The largest amount in a message or a book.
    pub const MOST_READ: u64 = 1_000_000_000_000;

    /// Reads a decimal number without leading zeros, at most 10^12.
    pub fn read(text: &str) -> Option<Dollars>
        ensures read { IfSome result (λ amount. (amount.value ≤ 10 ^ 12) × (text.now ≡ decimal amount.value)) }
        ensures none { IfNone result ((n : ℕ) → n ≤ 10 ^ 12 → text.now ≢ decimal n) }
    {
        let number = read_within(text, 0, Dollars::MOST_READ)?;
        Some(Dollars {
            value: number as u128,
        })
    }

    /// Whether it is a multiple of a unit, which is at least 1, from the unit to the most.
    pub fn is_multiple(self, unit: u128, most: u128) -> bool
        requires { 1 ≤ unit }
        ensures { result ≡ is_multiple unit most self.value }
    {
        self.value % unit == 0 && unit <= self.value && self.value <= most
    }

    /// Prints the number in decimal.
    pub fn print(self) -> Short
        ensures { result ≡ decimal self.value }
    {
        Short::whole(self.value)
    }
}
