//! A journal of payloads on a disk, in which every acknowledged payload stays through a crash at any moment.
#![tactic(auto)]

mod behind;
mod device;
mod fault;
mod first;
mod form;
mod frames;
mod journal;
mod laws;
mod opening;
mod rewriting;
mod walk;
mod window;
mod writer;
mod writer_steps;

pub use behind::{MOST_BEHIND, two_frames};
pub use fault::{DiskFault, JournalFault};
pub use first::FirstJournal;
pub use form::Form;
pub use journal::Journal;
pub use laws::appends_leave_little_behind;
pub use rewriting::{add_all, rewrite};
pub use window::Window;
pub use writer::Writer;
