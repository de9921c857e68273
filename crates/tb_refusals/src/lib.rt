//! The first refusal of a message or a query whose cause holds, by what it looks at.
#![tactic(auto)]

mod money_refusals;
mod par_refusals;
mod permits;
mod query_refusals;
mod refusals;

pub use money_refusals::{
    buy_refusal, deposit_refusal, retract_refusal, sell_refusal, withdraw_refusal,
};
pub use par_refusals::{pledge_refusal, redeem_refusal, release_refusal, transfer_refusal};
pub use permits::{is_permitted, repeated};
pub use query_refusals::{auction_refusal, may_ask, redemption_refusal};
pub use refusals::{
    add_on_refusal, announce_refusal, bid_refusal, cancel_refusal, enrol_refusal, holiday_refusal,
    position_refusal, publish_refusal, register_refusal, settle_refusal,
};
