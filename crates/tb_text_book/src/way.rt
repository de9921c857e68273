//! The way in which a bidder bids.
ghost use Rattle.std.specs.Prelude.{◌≡◌, ℕ, List, [], ◌∷◌, ◌++◌, MatchOption};
ghost use Rattle.tb_text_book.specs.Books.{Numbered, IsOneWay};
ghost use Rattle.tb_text_book.specs.Tallies.{IsWayOf};
ghost use Rattle.tb_text_book.specs.declared.book_line.Entry.TheVariants as entry;

use crate::book_line::Bid;

/// How a bidder bids in a book: not yet, with rates, or without.
#[derive(Clone, Copy, Debug, PartialEq, Eq)]
pub enum Way {
    Open,
    Competitive,
    Noncompetitive,
}

impl Way {
    /// The way with a bid more. `None` where the bidder would bid both ways.
    pub fn with_bid(self, bid: &Bid) -> Option<Way>
        ensures { (entries : List Numbered) (bidder : ℕ) → IsWayOf entries bidder self → MatchOption result
            (¬ (IsOneWay entries bidder bid.now.rate))
            (λ way. IsOneWay entries bidder bid.now.rate
            × IsWayOf (entries ++ record { bidder = bidder; entry = entry.Bid bid.now } ∷ []) bidder way) }
    {
        match (self, bid.rate) {
            (Way::Open | Way::Competitive, Some(_)) => Some(Way::Competitive),
            (Way::Open | Way::Noncompetitive, None) => Some(Way::Noncompetitive),
            (Way::Competitive, None) | (Way::Noncompetitive, Some(_)) => None,
        }
    }
}
