//! What a history of accepted messages says, the verdict on the next message, and laws of all legal histories. Its only
//! code are the plain structs that definitions read, the list of a reading's lines, and empty functions that carry the
//! laws.
#![tactic(auto)]

mod accounts;
mod bids;
mod conserved;
mod figures;
mod funds;
mod histories;
mod reading;
mod readings;
mod roster;
mod sealed;
mod sound;
mod stable;

pub use accounts::{AddOn, Cash, Mark, Offer, Purchase, Release, Retraction, Transfer};
pub use bids::{Bid, Cancel, Report};
pub use conserved::{movements_tell_holdings, par_is_conserved};
pub use figures::{awards_come_close, figures_are_the_circulars};
pub use funds::{money_is_conserved, purchases_move_both};
pub use histories::{histories_grow, payment_days_are_first, same_messages_are_equal};
pub use reading::{Awards, Bids, Holdings, Listing, Reading, Redemption};
pub use readings::{
    AddOnLine, AwardLine, BidLine, Figures, HoldingLine, PaidLine, Results, readings_are_one,
};
pub use roster::{Enrolment, Registration};
pub use sealed::replies_are_sealed;
pub use sound::sound_bids_are_accepted;
pub use stable::awards_are_final;
