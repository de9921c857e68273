//! Lines as a book keeps them.
ghost use Rattle.std.specs.Prelude.{◌≡◌, ◌↔◌, true};
ghost use Rattle.tb_book.specs.Indexes.{rank_of};
ghost use Rattle.tb_book.specs.Stored.{rate_at};

use crate::book_line::BookLine;
use std::marker::Model;
use tb_blocks::Keyed;
use tb_units::{Dollars, Rate};

/// Where the lines without a rate stand: behind every rate.
pub const NO_RATE: u32 = 200_000;

/// A line in two thirds of the bytes: it has the rank of its rate in place of the rate. Contracts see the line.
#[derive(Clone, Copy)]
pub struct StoredLine {
    rank: u32,
    bidder: u32,
    number: u64,
    amount: Dollars,
}

impl Model for StoredLine {
    ghost use Rattle.std.specs.Prelude.{◌≤◌};
    ghost use Rattle.tb_book.specs.declared.book_line.BookLine.{BookLine};

    ghost Value = { BookLine };

    ghost use Rattle.tb_book.specs.Indexes.{rank_of};
    ghost use Rattle.tb_book.specs.Stored.{rate_at, stored-inverse};

    ghost view = { λ stored. record {
      bidder = stored.bidder;
      number = stored.number;
      rate = rate_at stored.rank;
      amount = stored.amount;
    } };

    ghost invariant = { λ stored. stored.rank ≤ 200000 };

    ghost inverse = { λ line. record {
      rank = rank_of line.rate;
      bidder = line.bidder;
      number = line.number;
      amount = line.amount;
    } };

    ghost inverse_ok = { λ stored holds. stored-inverse stored holds };
}

// In order of rate, bidder and number.
impl Keyed for StoredLine {
    type Key = (u32, (u32, u64));

    ghost key_of = { λ line. record { 0 = rank_of line.rate; 1 = record { 0 = line.bidder; 1 = line.number } } };

    fn key(&self) -> (u32, (u32, u64)) {
        (self.rank, (self.bidder, self.number))
    }
}

impl StoredLine {
    pub fn of(line: BookLine) -> StoredLine
        ensures { result ≡ line }
    {
        StoredLine {
            rank: rank(line.rate),
            bidder: line.bidder,
            number: line.number,
            amount: line.amount,
        }
    }

    pub fn line(&self) -> BookLine
        ensures { result ≡ self.now }
    {
        BookLine {
            bidder: self.bidder,
            number: self.number,
            rate: rate(self.rank),
            amount: self.amount,
        }
    }

    /// Where its rate stands among rates.
    pub fn rank(&self) -> u32
        ensures { result ≡ rank_of self.now.rate }
    {
        self.rank
    }

    /// Whether it is the bidder's line of this number.
    pub fn is_of(&self, bidder: u32, number: u64) -> bool
        ensures { (result ≡ true) ↔ ((self.now.bidder ≡ bidder) × (self.now.number ≡ number)) }
    {
        self.bidder == bidder && self.number == number
    }
}

/// Where the rate of a line stands among rates.
pub fn rank(rate: Option<Rate>) -> u32
    ensures { result ≡ rank_of rate }
{
    match rate {
        Some(rate) => rate.steps,
        None => NO_RATE,
    }
}

// The rate that stands there, or none.
fn rate(rank: u32) -> Option<Rate>
    ensures { result ≡ rate_at rank }
{
    if rank < NO_RATE {
        Some(Rate { steps: rank })
    } else {
        None
    }
}
