//! Money of participants, and offers of par for money: balances by their holders, offers by their sellers and numbers.
#![tactic(auto)]

mod amount;
mod funds;
mod offer;

pub use funds::{Funds, InsufficientFunds, OfferQuota};
pub use offer::{Offer, State};
