//! Transfers, pledges and releases of par, add-ons of auctions, offers of par for money, and money that comes and goes.
use tb_terms::Cusip;
use tb_units::{Cents, Dollars, Ident};

/// An accepted transfer of par of a bill.
#[derive(Clone, Copy, Debug, PartialEq, Eq)]
pub struct Transfer {
    pub from: Ident,
    pub to: Ident,
    pub cusip: Cusip,
    pub amount: Dollars,
}

/// An accepted pledge, known by its holder and number. Pledged par stays the holder's and isn't free.
#[derive(Clone, Copy, Debug, PartialEq, Eq)]
pub struct Mark {
    pub holder: Ident,
    pub number: u64,
    pub pledgee: Ident,
    pub cusip: Cusip,
    pub amount: Dollars,
}

/// An accepted release of par of the holder's pledge of this number.
#[derive(Clone, Copy, Debug, PartialEq, Eq)]
pub struct Release {
    pub holder: Ident,
    pub pledge: u64,
    pub amount: Dollars,
}

/// An accepted add-on: par that the holder is issued beside the offering of the auction.
#[derive(Clone, Copy, Debug, PartialEq, Eq)]
pub struct AddOn {
    pub auction: Ident,
    pub holder: Ident,
    pub amount: Dollars,
}

/// An accepted sell, known by its seller and number: par that the buyer may take for the price.
#[derive(Clone, Copy, Debug, PartialEq, Eq)]
pub struct Offer {
    pub seller: Ident,
    pub number: u64,
    pub buyer: Ident,
    pub cusip: Cusip,
    pub amount: Dollars,
    pub price: Cents,
}

/// An accepted buy of the seller's offer of this number.
#[derive(Clone, Copy, Debug, PartialEq, Eq)]
pub struct Purchase {
    pub buyer: Ident,
    pub seller: Ident,
    pub offer: u64,
}

/// An accepted retract of the seller's offer of this number.
#[derive(Clone, Copy, Debug, PartialEq, Eq)]
pub struct Retraction {
    pub seller: Ident,
    pub offer: u64,
}

/// An accepted deposit to a participant, or a withdrawal from it.
#[derive(Clone, Copy, Debug, PartialEq, Eq)]
pub struct Cash {
    pub participant: Ident,
    pub cents: Cents,
}
