//! Tests of tb_register_sql through its public calls. They are a crate of their own, so that tb_register_sql isn't
//! proved a second time with them.
#![tactic(auto)]

#[cfg(test)]
mod rows;
#[cfg(test)]
mod stops;
#[cfg(test)]
mod tests;
