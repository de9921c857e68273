//! Tests of tb_lines through its public calls. They are a crate of their own, so that tb_lines isn't proved a second time
//! with them.
#![tactic(auto)]

#[cfg(test)]
mod tests;
