//! Tests of tb_funds through its public calls. They are a crate of their own, so that funds aren't proved a second time
//! with them.
#![tactic(auto)]

#[cfg(test)]
mod tests;
