//! The book of accounts: who holds how much of which bill, what of it is pledged to whom, and what was paid at
//! maturity (31 CFR Part 357, Subpart B). It knows nothing of auctions, messages or history.
#![tactic(auto)]

mod account;
mod accounts;
mod mark;
mod marks;
mod refusals;
mod runs;

pub use accounts::Accounts;
pub use mark::Mark;
pub use refusals::{InsufficientFree, PledgeRefused, ReleaseRefused};
