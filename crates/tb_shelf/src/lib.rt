//! The sealed books of auctions, by name, and empty books that stand ready for the next auctions.
#![tactic(auto)]

mod finding;
mod named;
mod preparing;
mod shelf;

pub use named::NamedBook;
pub use shelf::Shelf;
