//! Tests of tb_index through its public calls. They are a crate of their own, so that the indexes aren't proved a
//! second time with them.
#![tactic(auto)]

#[cfg(test)]
mod tests;
