//! The host machine: a history of accepted messages, of which every verdict and every reading is a function.
#![tactic(auto)]

mod books;
mod holdings;
mod host;
mod reading;
mod refused;
mod standing;
mod tables;

pub use host::Host;
pub use refused::QueryRefused;
pub use tb_shelving::room_lasts;
