//! The sealed book of one auction: its live bids, in order of rate once it is open. It knows nothing of rules, moments
//! or messages.
#![tactic(auto)]

mod bidder;
mod book;
mod book_line;
mod line_list;
mod stored_line;
mod waiting;

pub use book::Book;
pub use book_line::BookLine;
