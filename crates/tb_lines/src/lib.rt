//! Lines of a source, in whatever pieces it gives its bytes.
#![tactic(auto)]

mod input;
mod line_end;
mod pieces;

pub use input::LineReader;
pub use line_end::{LONGEST_LINE, MOST_LINES, NextLine};
pub use pieces::{InputFault, PieceReader};
