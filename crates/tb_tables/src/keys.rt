//! By what the rows of the host are found and counted.
use tb_history::{AddOn, Cancel, Enrolment, Registration, Report};
use tb_index::KeyOf;
use tb_terms::{Cusip, Terms};
use tb_units::{Day, Ident};

/// By the name that a row stands under: that of a submitter, of a bidder, of an auction.
pub struct ByName;

/// By a submitter's key.
pub struct ByKey;

/// By the number of a bid, its submitter and the auction. The number comes first, since few submitters have the same,
/// and a comparison ends there. Rows are found by its order, and not by its hash: senders choose the numbers, and the
/// seed of the hash is fixed, so that they could choose such as collide.
pub struct ByNumber;

/// By a bidder and the auction that it bids in.
pub struct ByBidder;

/// By the CUSIP.
pub struct ByBill;

/// By the day.
pub struct ByDay;

impl KeyOf<Ident> for ByName {
    type Key = Ident;

    ghost key_of = { λ name. name };

    fn key_of(name: &Ident) -> Ident {
        *name
    }
}

impl KeyOf<Registration> for ByName {
    type Key = Ident;

    ghost key_of = { λ registration. registration.submitter };

    fn key_of(registration: &Registration) -> Ident {
        registration.submitter
    }
}

impl KeyOf<Registration> for ByKey {
    type Key = Ident;

    ghost key_of = { λ registration. registration.key };

    fn key_of(registration: &Registration) -> Ident {
        registration.key
    }
}

impl KeyOf<Enrolment> for ByName {
    type Key = Ident;

    ghost key_of = { λ enrolment. enrolment.bidder };

    fn key_of(enrolment: &Enrolment) -> Ident {
        enrolment.bidder
    }
}

impl KeyOf<Terms> for ByName {
    type Key = Ident;

    ghost key_of = { λ terms. terms.announcement.auction };

    fn key_of(terms: &Terms) -> Ident {
        terms.announcement.auction
    }
}

impl KeyOf<Terms> for ByBill {
    type Key = [u8; 9];

    ghost key_of = { λ terms. terms.announcement.cusip.bytes };

    fn key_of(terms: &Terms) -> [u8; 9] {
        terms.announcement.cusip.bytes
    }
}

impl KeyOf<AddOn> for ByName {
    type Key = Ident;

    ghost key_of = { λ add_on. add_on.auction };

    fn key_of(add_on: &AddOn) -> Ident {
        add_on.auction
    }
}

impl KeyOf<Cusip> for ByBill {
    type Key = [u8; 9];

    ghost key_of = { λ cusip. cusip.bytes };

    fn key_of(cusip: &Cusip) -> [u8; 9] {
        cusip.bytes
    }
}

impl KeyOf<Day> for ByDay {
    type Key = u32;

    ghost key_of = { λ day. day.number };

    fn key_of(day: &Day) -> u32 {
        day.number
    }
}

impl KeyOf<Cancel> for ByNumber {
    type Key = (u64, Ident, Ident);

    ghost key_of = { λ cancel. (cancel.bid, cancel.submitter, cancel.auction) };

    fn key_of(cancel: &Cancel) -> (u64, Ident, Ident) {
        (cancel.bid, cancel.submitter, cancel.auction)
    }
}

impl KeyOf<Report> for ByBidder {
    type Key = (Ident, Ident);

    ghost key_of = { λ report. (report.bidder, report.auction) };

    fn key_of(report: &Report) -> (Ident, Ident) {
        (report.bidder, report.auction)
    }
}
