//! Tests of tb_wire through its public calls. They are a crate of their own, so that tb_wire isn't proved a second time
//! with them.
#![tactic(auto)]

#[cfg(test)]
mod recorded;
#[cfg(test)]
mod tests;
