//! Numbers, names and short texts of bills: amounts, rates, prices, percentages, terms, days and moments, with the
//! printed form and the reader of those that are printed and read; and the lines of a book. Nothing here takes memory.
#![tactic(auto)]

mod amount;
mod cents;
mod day;
mod ident;
mod lines;
mod memory;
mod moment;
mod number;
mod padded;
mod percent;
mod price;
mod rate;
mod short;
mod steps;
mod term;
mod year;

pub use amount::Dollars;
pub use cents::Cents;
pub use day::Day;
pub use ident::Ident;
pub use lines::{Lines, RateLine};
pub use memory::OutOfMemory;
pub use moment::Moment;
pub use number::{read_number, read_within};
pub use percent::Percent;
pub use price::Price;
pub use rate::{Rate, RateFault};
pub use short::Short;
pub use steps::Steps;
pub use term::Days;
pub use year::YearLength;
