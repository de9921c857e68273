//! Tests of tb_core through its public calls. They are a crate of their own, so that the host machine isn't proved a
//! second time with them.
#![tactic(auto)]

#[cfg(test)]
mod add_on_tests;
#[cfg(test)]
mod offer_tests;
#[cfg(test)]
mod tests;
