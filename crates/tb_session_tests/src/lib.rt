//! Tests of tb_session through its public calls. They are a crate of their own, so that tb_session isn't proved a
//! second time with them.
#![tactic(auto)]

#[cfg(test)]
mod group_tests;
#[cfg(test)]
mod held_tests;
#[cfg(test)]
mod long_tests;
#[cfg(test)]
mod sale_tests;
#[cfg(test)]
mod tests;
#[cfg(test)]
mod waiting_tests;
