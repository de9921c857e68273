//! Rows for entries and for bids, with numbers in place of names.
use crate::said::Said;
use tb_units::{Dollars, Moment, Rate};

/// An entry, its names told by their numbers.
#[derive(Clone, Copy, Drop)]
pub(crate) struct Row {
    pub(crate) submitter: u32,
    pub(crate) number: u64,
    pub(crate) moment: Moment,
    pub(crate) said: Said,
}

/// A bid, its names told by their numbers.
#[derive(Clone, Copy, Drop)]
pub(crate) struct BidRow {
    pub(crate) submitter: u32,
    pub(crate) auction: u32,
    pub(crate) bidder: u32,
    pub(crate) number: u64,
    pub(crate) rate: Option<Rate>,
    pub(crate) amount: Dollars,
}
