//! The register of published auctions: its rows, what a keeper of them promises, one in memory, and laws of tables.
#![tactic(auto)]

mod keeper;
mod making;
mod memory_keeper;
mod register;
mod row;

pub use keeper::{Keeper, KeeperFault};
pub use making::row_of;
pub use memory_keeper::MemoryKeeper;
pub use register::registers_are_one;
pub use row::{Row, RowFigures};
