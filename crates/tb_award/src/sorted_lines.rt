//! Bids as lines in order, for those who keep no book.
ghost use Rattle.std.specs.Prelude.{◌≡◌, ◌+◌, ◌<◌, length, slice_index_or};
ghost use Rattle.std.specs.List.Sorted.{IsPermutation};

use std::marker::Model;
use std::sync::ledger::Ledger;
use tb_units::{Lines, RateLine, Steps};

/// Lines in rising rate, and at one rate in rising number of the bidder.
#[derive(Drop)]
pub struct SortedLines {
    lines: Vec<RateLine>,
}

impl Model for SortedLines {
    ghost use Rattle.std.specs.Prelude.{List};
    ghost use Rattle.tb_units.specs.LineOrder.{AreInOrder};
    ghost use Rattle.tb_units.specs.declared.lines.RateLine.{RateLine};

    ghost Value = { List RateLine };

    ghost view = { λ sorted. sorted.lines.items };

    ghost invariant = { λ sorted. AreInOrder sorted.lines.items };
}

impl SortedLines {
    /// Puts lines in order, where they stand.
    pub fn new(lines: Vec<RateLine>) -> SortedLines
        ensures { IsPermutation lines.items result }
    {
        let mut lines = lines;
        lines.sort_unstable_by_key(|line| (line.rate.steps, line.bidder));
        SortedLines { lines }
    }
}

/// A line costs one step.
impl Lines for SortedLines {
    ghost lines_of = { λ sorted. sorted };

    ghost cost = { λ _. 1 };

    fn lines(&self) -> u64 {
        self.lines.len() as u64
    }

    fn line<L: Ledger>(&self, place: u64, steps: &mut Steps<L>) -> RateLine
        requires { place < length self.now }
        ensures line { slice_index_or self.now place result ≡ result }
        ensures steps { steps.new ≡ steps.old + 1 }
    {
        steps.tick();
        self.lines[place as usize]
    }
}
