//! What stands of a bidder in an auction.
ghost use Rattle.std.specs.Prelude.{◌≤◌};
ghost use Rattle.tb_units.specs.Multiples.{most_par};

use tb_units::Dollars;

/// What stands of a bidder in an auction: the sums of its live bids of each kind, each at most 10^22, how many of its
/// bids were accepted, cancelled ones counted, and whether a report of its position stands.
#[derive(Clone, Copy, Debug, PartialEq, Eq)]
pub struct Own {
    pub competitive: Dollars,
    pub noncompetitive: Dollars,
    pub accepted: u32,
    pub reported: bool,
    ghost competitive_fits: { competitive.value ≤ most_par },
    ghost noncompetitive_fits: { noncompetitive.value ≤ most_par },
}
