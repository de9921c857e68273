//! Moments, to the second.
ghost use Rattle.std.specs.Prelude.{◌≡◌, ◌≢◌, ℕ, ◌≤◌, max, IfSome, IfNone};
ghost use Rattle.std.specs.Fmt.{decimal};

use crate::number::read_within;

/// A moment in seconds after 1970-01-01 in UTC, from the first of 2000-01-01 in Eastern time to the last second of
/// 2099-12-31 in UTC.
#[derive(Clone, Copy, Debug, PartialEq, Eq)]
pub struct Moment {
    pub seconds: u64,
    ghost not_before: { 946702800 ≤ seconds },
    ghost not_after: { seconds ≤ 4102444799 },
}

impl Moment {
    /// The seconds of the first moment.
    pub const FIRST: u64 = 946_702_800;

    /// The seconds of the last moment.
    pub const LAST: u64 = 4_102_444_799;

    /// Reads a decimal number of seconds without leading zeros, from the first moment to the last.
    pub fn read(text: &str) -> Option<Moment>
        ensures read { IfSome result (λ moment. text.now ≡ decimal moment.seconds) }
        ensures none { IfNone result ((n : ℕ) → 946702800 ≤ n → n ≤ 4102444799 → text.now ≢ decimal n) }
    {
        let seconds = read_within(text, Moment::FIRST, Moment::LAST)?;
        Some(Moment { seconds })
    }

    /// The later of two moments.
    pub fn later(self, other: Moment) -> Moment
        ensures { result.seconds ≡ max self.seconds other.seconds }
    {
        if self.seconds < other.seconds {
            return other;
        }
        self
    }
}
