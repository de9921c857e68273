//! Tests of tb_shelf through its public calls. They are a crate of their own, so that tb_shelf isn't proved a second
//! time with them.
#![tactic(auto)]

#[cfg(test)]
mod tests;
