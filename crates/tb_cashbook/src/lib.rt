//! The funds of a history: what each accepted message does to the money and the offers that they keep.
#![tactic(auto)]

mod cash;
mod entering;
mod laws;

pub use cash::CashMovement;
pub use entering::{enter_cash, no_funds};
pub use laws::other_entries_leave_funds;
