//! Tests of tb_journal through its public calls. They are a crate of their own, so that tb_journal isn't proved a
//! second time with them.
#![tactic(auto)]

#[cfg(test)]
mod tests;
#[cfg(test)]
mod writer_tests;
