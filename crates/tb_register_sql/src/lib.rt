//! The register of published auctions in a table of SQL.
#![tactic(auto)]

mod binding;
mod counting;
mod decoding;
mod memory_shelf;
mod memory_sql_keeper;
mod reading;
mod shelf;
mod sql_keeper;
mod statements;

pub use memory_sql_keeper::MemorySqlKeeper;
pub use sql_keeper::SqlKeeper;
