//! The auction of a trial: its bids follow from a seed, and its figures are those of the same rule as any other's.
#![tactic(auto)]

mod announcing;
mod running;
mod stating;

pub use running::trial;
