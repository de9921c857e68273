//! Tests of tb_results through its public calls. They are a crate of their own, so that tb_results isn't proved a
//! second time with them.
#![tactic(auto)]

#[cfg(test)]
mod tests;
