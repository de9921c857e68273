//! Submitters, bidders, holidays and redeemed bills.
ghost use Rattle.std.specs.Prelude.{◌≡◌, ◌<◌, ◌^◌, ◌||◌, length};
ghost use Rattle.std.specs.List.{list_any, position};
ghost use Rattle.tb_history.specs.Entries.{is_same};
ghost use Rattle.tb_history.specs.Roster.{is_registered, enrolment_of, is_under, is_entered, is_redeemed};
ghost use Rattle.tb_history.specs.Readings.{place_of};
ghost use Rattle.tb_history.specs.Answer.{submitter_of};

use crate::keys::{ByBill, ByDay, ByKey, ByName};
use crate::names::is_same;
use tb_history::{Enrolment, Registration};
use tb_index::{Keyed, Named, TwiceKeyed};
use tb_terms::Cusip;
use tb_units::{Day, Ident};

/// Submitters with their keys, in the order of registration.
pub type Submitters = TwiceKeyed<Registration, ByName, ByKey>;

/// Bidders with their submitters, in the order of enrolment.
pub type Bidders = Named<Enrolment, ByName>;

/// Holidays, in the order in which they were entered.
pub type Holidays = Keyed<Day, ByDay>;

/// Redeemed bills.
pub type Bills = Named<Cusip, ByBill>;

/// Whether a submitter of this name is registered.
pub fn has_submitter(submitters: &Submitters, submitter: &Ident) -> bool
    ensures { result ≡ is_registered submitters.now.list submitter.now }
{
    submitters.named().has(submitter)
}

/// Whether the name or the key is in use.
pub fn has_name_or_key(submitters: &Submitters, submitter: &Ident, key: &Ident) -> bool
    ensures { result ≡ list_any (λ r. is_same r.submitter submitter.now || is_same r.key key.now) submitters.now.list }
{
    has_submitter(submitters, submitter) || submitters.has_other(key)
}

/// The submitter that is registered with the key.
pub fn find_submitter(submitters: &Submitters, key: &Ident) -> Option<Ident>
    ensures { result ≡ submitter_of submitters.now.list key.now }
{
    match submitters.get_other(key).copied() {
        Some(found) => Some(found.submitter),
        None => None,
    }
}

/// The place of the bidder in the order of enrolment.
pub fn place_of_bidder(bidders: &Bidders, bidder: &Ident) -> Option<usize>
    ensures { result ≡ position (λ e. is_same e.bidder bidder.now) bidders.now.list }
{
    bidders.find(bidder)
}

/// The bidder's number, which is its place in the order of enrolment, and how many bidders there are where it isn't
/// enrolled.
pub fn number_of(bidders: &Bidders, bidder: &Ident) -> u32
    requires { length bidders.now.list < 2 ^ 32 }
    ensures { result ≡ place_of bidders.now.list bidder.now }
{
    match place_of_bidder(bidders, bidder) {
        Some(place) => place as u32,
        None => bidders.rows().len() as u32,
    }
}

/// The bidder's enrolment.
pub fn find_enrolment(bidders: &Bidders, bidder: &Ident) -> Option<Enrolment>
    ensures { result ≡ enrolment_of bidders.now.list bidder.now }
{
    bidders.get(bidder).copied()
}

/// Whether the bidder bids through this submitter.
pub fn is_enrolled(bidders: &Bidders, bidder: &Ident, submitter: &Ident) -> bool
    ensures { result ≡ is_under submitter.now (enrolment_of bidders.now.list bidder.now) }
{
    match find_enrolment(bidders, bidder) {
        Some(found) => is_same(&found.submitter, submitter),
        None => false,
    }
}

/// The bidder's number, and whether it bids through this submitter, by one look-up.
pub fn number_under(bidders: &Bidders, bidder: &Ident, submitter: &Ident) -> (u32, bool)
    requires { length bidders.now.list < 2 ^ 32 }
    ensures number { result.0 ≡ place_of bidders.now.list bidder.now }
    ensures under { result.1 ≡ is_under submitter.now (enrolment_of bidders.now.list bidder.now) }
{
    match place_of_bidder(bidders, bidder) {
        Some(place) => {
            let found = bidders.rows()[place];
            (place as u32, is_same(&found.submitter, submitter))
        }
        None => (bidders.rows().len() as u32, false),
    }
}

/// Whether the day is entered as a holiday.
pub fn has_holiday(holidays: &Holidays, day: Day) -> bool
    ensures { result ≡ is_entered holidays.now.list day }
{
    holidays.has(&day.number)
}

/// Whether the bill is redeemed.
pub fn has_bill(bills: &Bills, cusip: &Cusip) -> bool
    ensures { result ≡ is_redeemed bills.now.list cusip.now }
{
    bills.has(&cusip.bytes)
}
