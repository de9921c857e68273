//! The tables of a history: what it says of each kind, in its order, found and counted by keys, with adds that can't
//! fail.
#![tactic(auto)]

mod auctions;
mod bidding;
mod calendar;
mod entering;
mod keys;
mod names;
mod roster;

pub use auctions::{
    AddOns, Auctions, bill_terms, find_add_on, has_auction, place_of_bill, terms_at, terms_of,
    unsettled_terms,
};
pub use bidding::{
    Cancels, Reports, few_bids, find_bid, has_cancel, has_report, is_live, position_of,
};
pub use calendar::Calendar;
pub use entering::{
    enter_add_on, enter_auction, enter_bid, enter_bidder, enter_calendar, enter_cancel,
    enter_holiday, enter_published, enter_redeemed, enter_report, enter_settled, enter_submitter,
};
pub use keys::{ByBidder, ByBill, ByDay, ByKey, ByName, ByNumber};
pub use names::{Names, has_name, is_operator, is_same};
pub use roster::{
    Bidders, Bills, Holidays, Submitters, find_enrolment, find_submitter, has_bill, has_holiday,
    has_name_or_key, has_submitter, is_enrolled, number_of, number_under, place_of_bidder,
};
