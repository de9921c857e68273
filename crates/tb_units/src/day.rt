//! Days, by their number.
ghost use Rattle.std.specs.Prelude.{◌≤◌};

/// A day from 2000-01-01 (10,957) to 2099-12-31 (47,481), as its number of days after 1970-01-01.
#[derive(Clone, Copy, Debug, PartialEq, Eq)]
pub struct Day {
    pub number: u32,
    ghost not_before: { 10957 ≤ number },
    ghost not_after: { number ≤ 47481 },
}
