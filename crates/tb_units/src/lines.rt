//! Lines of a book in order of rate.
ghost use Rattle.std.specs.Prelude.{◌≡◌, ℕ, ◌+◌, ◌<◌, ◌≤◌, List, length, slice_index_or};
ghost use Rattle.tb_units.specs.LineOrder.{AreInOrder};

use crate::amount::Dollars;
use crate::rate::Rate;
use crate::steps::Steps;
use std::sync::ledger::Ledger;

/// What one bidder, known by its number, bids at one rate.
#[derive(Clone, Copy, Debug, PartialEq, Eq)]
pub struct RateLine {
    pub rate: Rate,
    pub bidder: u32,
    pub amount: Dollars,
}

/// Competitive bids as lines in rising rate, and at one rate in rising number of the bidder.
pub trait Lines {
    ghost use Rattle.tb_units.specs.declared.lines.RateLine.{RateLine};

    /// The lines in their order.
    ghost lines_of: { Self → List RateLine };

    /// The steps that one call of `line` takes at most.
    ghost cost: { Self → ℕ };

    /// How many lines there are.
    fn lines(&self) -> u64
        ensures count { result ≡ length (lines_of self.now) }
        ensures order { AreInOrder (lines_of self.now) };

    /// The line at a place, counted from 0. A step is one stored line looked at.
    fn line<L: Ledger>(&self, place: u64, steps: &mut Steps<L>) -> RateLine
        requires { place < length (lines_of self.now) }
        ensures line { slice_index_or (lines_of self.now) place result ≡ result }
        ensures steps { steps.new ≤ steps.old + cost self.now };
}
