//! Rows in the order of adding, found and counted by their keys in the time of a search, with adds that can't fail.
#![tactic(auto)]

mod chained;
mod counted;
mod counts;
mod ends;
mod firsts;
mod keyed;
mod keys;
mod latest;
mod links;
mod named;
mod places;
mod twice_keyed;

pub use chained::Chained;
pub use counted::Counted;
pub use keyed::Keyed;
pub use keys::KeyOf;
pub use latest::Latest;
pub use named::Named;
pub use twice_keyed::TwiceKeyed;
