//! Announcements of auctions: their terms, checked and dated in Eastern time. Refusals of messages, as they are told.
#![tactic(auto)]

mod announcement;
mod checking;
mod civil;
mod cusip;
mod eastern;
mod laws;
mod length;
mod paying;
mod refusal;
mod terms;
mod texts;
mod zone;

pub use announcement::Announcement;
pub use checking::TermsFault;
pub use cusip::Cusip;
pub use eastern::EasternDays;
pub use laws::texts_are_one_to_one;
pub use length::year_length;
pub use paying::payment_date;
pub use refusal::{Field, Refusal};
pub use terms::Terms;
pub use texts::{print_day, print_minute, read_day, read_minute};
