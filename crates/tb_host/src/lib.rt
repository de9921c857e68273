//! The command `serve`, the call that chooses among the commands, and the headline.
#![tactic(auto)]

mod host;
mod laws;
mod plan_words;
mod planned;
mod serve_command;

pub use host::{Ended, host_main};
pub use laws::{follow_headline, import_headline, run_headline};
pub use plan_words::plan;
pub use planned::Plan;
