//! The accepted entries of a history and its bids, in few bytes, found by what they are asked by, with adds that can't
//! fail.
#![tactic(auto)]

mod bids;
mod entries;
mod keys;
mod names;
mod row;
mod said;

pub use bids::Bids;
pub use entries::Entries;
