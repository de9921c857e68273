//! A text book of bids, and what is printed of its auction.
#![tactic(auto)]

mod auction_text;
mod book;
mod book_line;
mod fields;
mod numbers;
mod read_line;
mod text_book;
mod text_line;
mod way;
mod word;

pub use auction_text::{award_text, cut_lines, push_line};
pub use book::{BookFault, read_book};
pub use text_book::TextBook;
