//! Tests of tb_desk through its public calls. They are a crate of their own, so that the desk isn't proved a second
//! time with them.
#![tactic(auto)]

#[cfg(test)]
mod group_tests;
#[cfg(test)]
mod migrate_tests;
#[cfg(test)]
mod sale_tests;
#[cfg(test)]
mod tests;
#[cfg(test)]
mod walk_tests;
