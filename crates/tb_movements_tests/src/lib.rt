//! Tests of tb_movements through its public calls. They are a crate of their own, so that tb_movements isn't proved a
//! second time with them.
#![tactic(auto)]

#[cfg(test)]
mod tests;
