//! A lock whose turns go by tickets, and whose passes know what they have seen and said.
#![tactic(auto)]

mod annals;
mod bells;
mod lock;
mod pass;
mod rule;
mod steps;
mod turn;
mod view;

pub use annals::{Annals, Told};
pub use lock::{TurnLock, Unserved};
pub use pass::Pass;
pub use view::{Call, Stage, View};
