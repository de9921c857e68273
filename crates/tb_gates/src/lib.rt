//! Where links come from, and clocks: the traits, the objects in memory, and adapters over sockets and the system's
//! clock.
#![tactic(auto)]

mod clock;
mod gate;
mod link;
mod list_clock;
mod list_gate;
mod pair_link;
mod system;
mod tcp;

pub use clock::Clock;
pub use gate::Gate;
pub use link::Link;
pub use list_clock::ListClock;
pub use list_gate::ListGate;
pub use pair_link::PairLink;
pub use system::SystemClock;
pub use tcp::{TcpConn, TcpGate};
