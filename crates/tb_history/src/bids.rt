//! Bids, cancels of bids, and reports of positions.
use tb_units::{Dollars, Ident, Rate};

/// An accepted bid, known by its submitter and number. Without a rate it is noncompetitive.
#[derive(Clone, Copy, Debug, PartialEq, Eq)]
pub struct Bid {
    pub submitter: Ident,
    pub number: u64,
    pub auction: Ident,
    pub bidder: Ident,
    pub rate: Option<Rate>,
    pub amount: Dollars,
}

/// An accepted cancel of the submitter's bid of this number.
#[derive(Clone, Copy, Debug, PartialEq, Eq)]
pub struct Cancel {
    pub submitter: Ident,
    pub auction: Ident,
    pub bid: u64,
}

/// An accepted report of a bidder's net long position in whole dollars, which may be below zero.
#[derive(Clone, Copy, Debug, PartialEq, Eq)]
pub struct Report {
    pub submitter: Ident,
    pub auction: Ident,
    pub bidder: Ident,
    pub position: i64,
}
