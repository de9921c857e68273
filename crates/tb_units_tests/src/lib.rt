//! Tests of tb_units through its public calls. They are a crate of their own, so that tb_units isn't proved a second
//! time with them.
#![tactic(auto)]

#[cfg(test)]
mod tests;
