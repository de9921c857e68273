//! The rules that a bid must meet when it comes (31 CFR 356.12), and when a report of a position is in time (356.13).
//! They look at the terms of the auction and at what stands of the bidder in it.
#![tactic(auto)]

mod own;
mod verdicts;

pub use own::Own;
pub use verdicts::{bid_verdict, position_verdict};
