//! The desk: the host machine on a disk, where what was acknowledged stays through a crash at any moment.
#![tactic(auto)]

mod desk;
mod fault;
mod frames;
mod groups;
mod judging;
mod laws;
mod migration;
mod remains;
mod replay;
mod reply;
mod steps;

pub use desk::Desk;
pub use fault::{MigrateFault, OpenFault};
pub use laws::one_history;
pub use migration::migrate;
pub use remains::Remains;
pub use reply::{GroupReply, Reply};
