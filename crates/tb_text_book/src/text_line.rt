//! The competitive bids of a text book, and those bids in order.
ghost use Rattle.std.specs.Prelude.{◌≡◌, ◌+◌, ◌<◌, ◌^◌, length, slice_index_or};
ghost use Rattle.std.specs.List.Sorted.{IsPermutation};
ghost use Rattle.tb_text_book.specs.TextLines.{compared};

use std::cmp::Ordering;
use std::marker::Model;
use std::sync::ledger::Ledger;
use tb_units::{Dollars, Lines, Rate, RateLine, Steps};

/// A line in half the bytes, as the amounts of a text book fit a word. Contracts see the line.
#[derive(Clone, Copy)]
pub struct TextLine {
    rate: Rate,
    bidder: u32,
    dollars: u64,
}

impl Model for TextLine {
    ghost use Rattle.std.specs.Prelude.{◌≤◌, ◌^◌};
    ghost use Rattle.tb_units.specs.declared.lines.RateLine.{RateLine};

    ghost Value = { RateLine };

    ghost use Rattle.tb_text_book.specs.TextLines.{amount_of_dollars, text-line-inverse};

    ghost view = { λ line. record {
      rate = line.rate;
      bidder = line.bidder;
      amount = amount_of_dollars line.dollars;
    } };

    ghost invariant = { λ line. line.dollars ≤ 10 ^ 27 };

    ghost inverse = { λ line. record {
      rate = line.rate;
      bidder = line.bidder;
      dollars = line.amount.value;
    } };

    ghost inverse_ok = { λ line holds. text-line-inverse line holds };
}

impl TextLine {
    pub fn of(line: RateLine) -> TextLine
        requires { line.amount.value < 2 ^ 64 }
        ensures { result ≡ line }
    {
        TextLine {
            rate: line.rate,
            bidder: line.bidder,
            dollars: line.amount.value as u64,
        }
    }

    pub fn line(&self) -> RateLine
        ensures { result ≡ self.now }
    {
        RateLine {
            rate: self.rate,
            bidder: self.bidder,
            amount: Dollars {
                value: self.dollars as u128,
            },
        }
    }

    // The order of rate, and at one rate of the bidder's number. Both numbers are compared always: a branch on the
    // first costs a sort more.
    fn order(&self, other: &TextLine) -> Ordering
        ensures { result ≡ compared self.now other.now }
    {
        let rates = self.rate.steps.cmp(&other.rate.steps);
        rates.then(self.bidder.cmp(&other.bidder))
    }
}

/// Lines in rising rate, and at one rate in rising number of the bidder.
#[derive(Drop)]
pub struct OrderedLines {
    lines: Vec<TextLine>,
}

impl Model for OrderedLines {
    ghost use Rattle.std.specs.Prelude.{List};
    ghost use Rattle.tb_units.specs.LineOrder.{AreInOrder};
    ghost use Rattle.tb_units.specs.declared.lines.RateLine.{RateLine};

    ghost Value = { List RateLine };

    ghost view = { λ ordered. ordered.lines.items };

    ghost invariant = { λ ordered. AreInOrder ordered.lines.items };
}

impl OrderedLines {
    /// Puts lines in order, where they stand.
    pub fn new(lines: Vec<TextLine>) -> OrderedLines
        ensures { IsPermutation lines.items result }
    {
        let mut lines = lines;
        lines.sort_unstable_by(|one, other| one.order(other));
        OrderedLines { lines }
    }
}

/// A line costs one step.
impl Lines for OrderedLines {
    ghost lines_of = { λ ordered. ordered };

    ghost cost = { λ _. 1 };

    fn lines(&self) -> u64 {
        self.lines.len() as u64
    }

    fn line<L: Ledger>(&self, place: u64, steps: &mut Steps<L>) -> RateLine
        requires { place < length self.now }
        ensures line { slice_index_or self.now place result ≡ result }
        ensures steps { steps.new ≡ steps.old + 1 }
    {
        steps.tick();
        self.lines[place as usize].line()
    }
}
