//! The sealed books of auctions as messages change them, and the room that messages need in them.
#![tactic(auto)]

mod ahead;
mod asked;
mod room;
mod shelving;
mod sums;

pub use ahead::{count_announced, has_settlement, have_places, reserve_places};
pub use room::room_lasts;
pub use shelving::enter_line;
pub use sums::sums_of;
