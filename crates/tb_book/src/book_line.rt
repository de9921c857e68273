//! Lines of a book.
ghost use Rattle.std.specs.Prelude.{◌≡◌, if◌then◌else◌, is_some, is_none};

use tb_units::{Dollars, Rate};

/// A live bid: the number of its bidder, its own number, its rate where it is competitive, and its amount. One bidder
/// has at most one bid of a number.
#[derive(Clone, Copy, Debug, PartialEq, Eq)]
pub struct BookLine {
    pub bidder: u32,
    pub number: u64,
    pub rate: Option<Rate>,
    pub amount: Dollars,
}

impl BookLine {
    /// What the line counts among the competitive ones.
    pub(crate) fn competitive(&self) -> u128
        ensures { result ≡ if is_some self.now.rate then self.now.amount.value else 0 }
    {
        if self.rate.is_some() {
            self.amount.value
        } else {
            0
        }
    }

    /// What the line counts among the noncompetitive ones.
    pub(crate) fn noncompetitive(&self) -> u128
        ensures { result ≡ if is_none self.now.rate then self.now.amount.value else 0 }
    {
        if self.rate.is_none() {
            self.amount.value
        } else {
            0
        }
    }
}
