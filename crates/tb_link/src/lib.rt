//! What the host reads from and writes to. A source has the bytes left and a sink the bytes taken, where it tells
//! them, and each has a count of its faults: a call fails only where the count rose in that call.
#![tactic(auto)]

mod faults;
mod memory_sink;
mod memory_source;
mod sink;
mod source;
mod std_streams;

pub use faults::Faults;
pub use memory_sink::TextSink;
pub use memory_source::TextSource;
pub use sink::Sink;
pub use source::{Failed, Source};
pub use std_streams::{StdSink, StdSource};
