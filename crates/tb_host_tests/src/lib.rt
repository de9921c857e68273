//! Tests of tb_host through its public calls. They are a crate of their own, so that tb_host isn't proved a second time
//! with them.
#![tactic(auto)]

#[cfg(test)]
mod account_tests;
#[cfg(test)]
mod check_tests;
#[cfg(test)]
mod disk_tests;
#[cfg(test)]
mod follow_tests;
#[cfg(test)]
mod import_tests;
#[cfg(test)]
mod opening;
#[cfg(test)]
mod read_tests;
#[cfg(test)]
mod register_tests;
#[cfg(test)]
mod report_tests;
#[cfg(test)]
mod run_tests;
#[cfg(test)]
mod serve_tests;
#[cfg(test)]
mod tests;
