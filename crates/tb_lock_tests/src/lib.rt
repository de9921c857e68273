//! A small value under the lock of tb_lock, and the tests of the lock on it. They are a crate of their own, so that
//! tb_lock isn't proved a second time with them.
#![tactic(auto)]

mod tally;
#[cfg(test)]
mod tests;
