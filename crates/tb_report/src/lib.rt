//! Readings as texts: a line of words for each thing that is told.
#![tactic(auto)]

mod growing;
mod lists;
mod printable;
mod results;
mod terms;
mod writing;

pub use printable::readings_are_printable;
pub use writing::{line_count, text};
