//! Tests of tb_gates through its public calls. They are a crate of their own, so that tb_gates isn't proved a second
//! time with them.
#![tactic(auto)]

#[cfg(test)]
mod tests;
