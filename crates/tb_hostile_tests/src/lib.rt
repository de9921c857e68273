//! Hostile use of the whole program, over objects in memory: device calls that fail, links that fail, bytes that are
//! made to harm.
#![tactic(auto)]

#[cfg(test)]
mod auction;
#[cfg(test)]
mod bytes_tests;
#[cfg(test)]
mod call_tests;
#[cfg(test)]
mod front_tests;
#[cfg(test)]
mod lines_tests;
#[cfg(test)]
mod link_tests;
#[cfg(test)]
mod room_tests;
#[cfg(test)]
mod trying;
