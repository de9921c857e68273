//! Tests of tb_replica through its public calls. They are a crate of their own, so that it isn't proved twice.
#![tactic(auto)]

#[cfg(test)]
mod tests;
