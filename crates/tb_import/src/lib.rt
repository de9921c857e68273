//! Tables: bids in CSV that are read into messages, and awards and holdings that are written as CSV.
#![tactic(auto)]

mod export;
mod field;
mod laws;
mod reading;
mod records;
mod row;
mod table;

pub use export::{export_awards, export_holdings};
pub use laws::{exports_are_plain, one_table_or_bad_record};
pub use reading::{ImportFault, read_bids, read_table};
pub use table::BidTable;
