//! The published auctions of a desk are filed in the register, and the register is told as a text.
#![tactic(auto)]

mod filing;
mod results;
mod telling;
mod texts;

pub use filing::{FilingFault, Tally, file_published};
pub use telling::file_and_tell;
pub use texts::register_text;
