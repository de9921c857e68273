//! The lines of a text book of bids.

use tb_units::{Days, Dollars, Ident, Rate};

/// The line `offering OFFERING FLOOR DAYS`.
#[derive(Clone, Copy, Debug, PartialEq, Eq)]
pub struct Offering {
    pub amount: Dollars,
    pub floor: Dollars,
    pub days: Days,
}

/// The line `n BIDDER AMOUNT` or `c BIDDER RATE AMOUNT`: without a rate the bid is noncompetitive.
#[derive(Clone, Copy, Debug, PartialEq, Eq)]
pub struct Bid {
    pub bidder: Ident,
    pub rate: Option<Rate>,
    pub amount: Dollars,
}

/// The line `p BIDDER POSITION`: a bidder's net long position in whole dollars.
#[derive(Clone, Copy, Debug, PartialEq, Eq)]
pub struct Report {
    pub bidder: Ident,
    pub position: i64,
}

/// A line of a bidder.
#[derive(Clone, Copy, Debug, PartialEq, Eq)]
pub enum Entry {
    Bid(Bid),
    Report(Report),
}

/// A line of a book.
#[derive(Clone, Copy, Debug, PartialEq, Eq)]
pub enum BookLine {
    Offering(Offering),
    Entry(Entry),
    End,
}
