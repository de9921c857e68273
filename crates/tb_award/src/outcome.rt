//! Where an auction stops.
use tb_units::{Dollars, Percent, Price, Rate};

/// Where an auction stops: the stop-out rate, the percentage that is awarded of what is recognised at it, the price at
/// it, what is recognised below it and at it, and the amount that was sought.
#[derive(Clone, Copy, Debug, PartialEq, Eq)]
pub struct Cut {
    pub stop: Rate,
    pub percent: Percent,
    pub price: Price,
    pub below: Dollars,
    pub at_stop: Dollars,
    pub sought: Dollars,
}

/// What becomes of an auction.
#[derive(Clone, Copy, Debug, PartialEq, Eq)]
pub enum Outcome {
    Cut(Cut),
    /// Nothing is recognised at any rate, and nobody gets an award.
    NoAwards,
}
