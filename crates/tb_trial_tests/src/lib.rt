//! Tests of tb_trial through its public calls. They are a crate of their own, so that tb_trial isn't proved a second
//! time with them.
#![tactic(auto)]

#[cfg(test)]
mod tests;
