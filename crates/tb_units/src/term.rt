//! Terms of bills in days.
ghost use Rattle.std.specs.Prelude.{◌≡◌, ◌≢◌, ℕ, ◌≤◌, IfSome, IfNone};
ghost use Rattle.std.specs.Fmt.{decimal};

use crate::number::read_within;

/// The days of a bill from its issue to its maturity, 1 to 366.
#[derive(Clone, Copy, Debug, PartialEq, Eq)]
pub struct Days {
    pub count: u32,
    ghost above_zero: { 1 ≤ count },
    ghost in_range: { count ≤ 366 },
}

impl Days {
    /// The days of the longest term: those of a leap year.
    pub const MOST: u64 = 366;

    /// Reads a decimal number without leading zeros, from 1 to 366.
    pub fn read(text: &str) -> Option<Days>
        ensures read { IfSome result (λ days. text.now ≡ decimal days.count) }
        ensures none { IfNone result ((n : ℕ) → 1 ≤ n → n ≤ 366 → text.now ≢ decimal n) }
    {
        let number = read_within(text, 1, Days::MOST)?;
        Some(Days {
            count: number as u32,
        })
    }
}
