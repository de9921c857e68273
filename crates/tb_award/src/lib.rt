//! Awards of an auction: what is recognised of each bidder's bids, where the auction stops, and what each bid gets
//! (31 CFR 356.12, 356.20 to 356.22). Lines of bids come from whoever keeps them in order.
#![tactic(auto)]

mod awarding;
mod cutting;
mod laws;
mod limits;
mod outcome;
mod rates;
mod recognised;
mod recognising;
mod sorted_lines;
mod uncounted;

pub use awarding::award;
pub use cutting::cut;
pub use laws::{
    awards_are_close, one_award, one_cut, one_rate_of_part, one_recognition, recognised_amounts,
};
pub use limits::{cap, limit, sought};
pub use outcome::{Cut, Outcome};
pub use rates::{awarded, low_rate, median_rate};
pub use recognised::Recognised;
pub use recognising::{recognise, recognise_into};
pub use sorted_lines::SortedLines;
pub use uncounted::{recognise_into_uncounted, recognise_uncounted};
