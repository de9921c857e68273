//! The accounts of a history: what each message moves in them, and how an auction that settles is cut and credited.
#![tactic(auto)]

mod accounts;
mod crediting;
mod positions;
mod scratch;
mod settling;

pub use accounts::{
    account, bill_number, enter_transfer, find_pledge, free_par, holder_number, open_pledges,
    reserve_accounts,
};
pub use crediting::credit_awards;
pub use positions::positions_in;
pub use scratch::Scratch;
pub use settling::cut_auction;
