//! A standby host: it keeps a copy of a journal from parcels that may be lost, repeated and reordered on their way.
#![tactic(auto)]

mod follower;
mod laws;
mod taken;
mod window;

pub use follower::Follower;
pub use laws::parcels_arrive;
pub use taken::{TakeFault, Taken};
