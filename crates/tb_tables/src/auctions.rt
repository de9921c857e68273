//! Announced auctions with their terms, and their add-ons.
ghost use Rattle.std.specs.Prelude.{◌≡◌, ◌&&◌, Some, cond, is_some, not, slice_get};
ghost use Rattle.std.specs.List.{find, position};
ghost use Rattle.tb_history.specs.Entries.{is_same};
ghost use Rattle.tb_history.specs.Roster.{add_on_of, announcement_of, bill_of, is_named, unsettled_of};
ghost use Rattle.tb_tables.specs.Auctions.{announced_in, announcement_in};

use crate::keys::{ByBill, ByName};
use crate::names::{Names, has_name};
use tb_history::AddOn;
use tb_index::{Named, TwiceKeyed};
use tb_terms::{Cusip, Terms};
use tb_units::Ident;

/// The terms of the auctions, in the order of announcement.
pub type Auctions = TwiceKeyed<Terms, ByName, ByBill>;

/// The add-ons, in their order.
pub type AddOns = Named<AddOn, ByName>;

/// The terms of the auction.
pub fn terms_of(auctions: &Auctions, auction: &Ident) -> Option<Terms>
    ensures { announcement_in result ≡ announcement_of (announced_in auctions.now.list) auction.now }
{
    auctions.named().get(auction).copied()
}

/// Whether an auction of this name is announced.
pub fn has_auction(auctions: &Auctions, auction: &Ident) -> bool
    ensures { result ≡ is_some (announcement_of (announced_in auctions.now.list) auction.now) }
{
    terms_of(auctions, auction).is_some()
}

/// The place of the bill's first auction.
pub fn place_of_bill(auctions: &Auctions, cusip: &Cusip) -> Option<usize>
    ensures { result ≡ position (λ t. is_same t.announcement.cusip.bytes cusip.now.bytes) auctions.now.list }
{
    auctions.find_other(&cusip.bytes)
}

/// The terms of the auction of the bill that was announced first.
pub fn bill_terms(auctions: &Auctions, cusip: &Cusip) -> Option<Terms>
    ensures { announcement_in result ≡ bill_of (announced_in auctions.now.list) cusip.now }
{
    auctions.get_other(&cusip.bytes).copied()
}

/// The terms at a place in the order of announcement.
pub fn terms_at(auctions: &Auctions, place: u32) -> Option<Terms>
    ensures { result ≡ slice_get auctions.now.list place }
{
    auctions.rows().get(place as usize).copied()
}

// The auction of these terms where it isn't settled, else the one that was found behind it.
fn first_of(terms: Terms, found: Option<Terms>, settled: &Names) -> Option<Terms>
    ensures { result ≡ cond (not (is_named settled.now.list terms.announcement.auction)) (Some terms) found }
{
    if has_name(settled, &terms.announcement.auction) {
        return found;
    }
    Some(terms)
}

// The bill's auctions are gone through from the last back to the first, past no others.
fn first_unsettled(auctions: &Auctions, settled: &Names, cusip: &Cusip) -> Option<Terms>
    ensures { result ≡ find (λ t. is_same t.announcement.cusip.bytes cusip.now.bytes
        && not (is_named settled.now.list t.announcement.auction)) auctions.now.list }
{
    let mut first = None;
    let mut end = auctions.end_other(&cusip.bytes);
    while end > 0 {
        first = first_of(auctions.rows()[end - 1], first, settled);
        end = auctions.end_before(end - 1);
    }
    first
}

/// The terms of the bill's first auction that isn't settled.
pub fn unsettled_terms(auctions: &Auctions, settled: &Names, cusip: &Cusip) -> Option<Terms>
    ensures { announcement_in result ≡ unsettled_of (announced_in auctions.now.list) settled.now.list cusip.now }
{
    first_unsettled(auctions, settled, cusip)
}

/// The auction's add-on.
pub fn find_add_on(add_ons: &AddOns, auction: &Ident) -> Option<AddOn>
    ensures { result ≡ add_on_of add_ons.now.list auction.now }
{
    add_ons.get(auction).copied()
}
