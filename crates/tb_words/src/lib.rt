//! The words of the command line: which commands there are, and the words of each. `read_words` alone takes memory.
#![tactic(auto)]

mod clap_reader;
mod command;
mod items;
mod laws;
mod plain;
mod shape;
mod words;

pub use clap_reader::taken_by_clap;
pub use command::{Command, WordsFault};
pub use laws::one_command;
pub use plain::plain_command;
pub use words::read_words;
