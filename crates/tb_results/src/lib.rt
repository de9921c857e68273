//! Results and awards of an auction by what a host keeps of its bidding: dated terms, a sealed book, positions.
#![tactic(auto)]

mod amounts;
mod awarding;
mod cutting;
mod laws;
mod publishing;

pub use amounts::award_all;
pub use awarding::awards;
pub use cutting::cut_book;
pub use laws::{legal_biddings_are_sound, sound_books_are_kept};
pub use publishing::results;
