//! What a message adds to each table.
ghost use Rattle.std.specs.Prelude.{◌≡◌, ◌<◌, ◌≤◌, ◌+◌, ◌++◌};
ghost use Rattle.tb_history.specs.Entries.{registered_by, enrolled_by, entered_by, announced_by, published_by, settled_by, redeemed_by, added_by, bid_by, cancelled_by, reported_by};
ghost use Rattle.tb_tables.specs.Auctions.{IsInOrder, announced_in};
ghost use Rattle.tb_tables.specs.Calendar.{AddsDays};

use crate::auctions::{AddOns, Auctions};
use crate::bidding::{Cancels, Reports};
use crate::calendar::Calendar;
use crate::names::Names;
use crate::roster::{Bidders, Bills, Holidays, Submitters};
use tb_entries::Bids;
use tb_history::{AddOn, Bid, Cancel, Enrolment, Registration, Report};
use tb_message::Message;
use tb_terms::{EasternDays, Terms};
use tb_units::Ident;

/// A submitter and its key.
#[tactic(auto, using(crate::proofs::AddedLemmas::nothing_more))]
pub fn enter_submitter(submitters: &mut Submitters, message: &Message)
    requires { 0 < submitters.old.spare }
    ensures list { submitters.new.list ≡ submitters.old.list ++ registered_by message.now }
    ensures spare { submitters.old.spare ≤ submitters.new.spare + 1 }
{
    if let Message::Register { submitter, key } = message {
        submitters.push(Registration {
            submitter: *submitter,
            key: *key,
        });
    }
}

/// A bidder and its submitter.
#[tactic(auto, using(crate::proofs::AddedLemmas::nothing_more))]
pub fn enter_bidder(bidders: &mut Bidders, message: &Message)
    requires { 0 < bidders.old.spare }
    ensures list { bidders.new.list ≡ bidders.old.list ++ enrolled_by message.now }
    ensures spare { bidders.old.spare ≤ bidders.new.spare + 1 }
{
    if let Message::Enrol { bidder, submitter } = message {
        bidders.push(Enrolment {
            bidder: *bidder,
            submitter: *submitter,
        });
    }
}

/// A holiday.
#[tactic(auto, using(crate::proofs::AddedLemmas::nothing_more))]
pub fn enter_holiday(holidays: &mut Holidays, message: &Message)
    requires { 0 < holidays.old.spare }
    ensures list { holidays.new.list ≡ holidays.old.list ++ entered_by message.now }
    ensures spare { holidays.old.spare ≤ holidays.new.spare + 1 }
{
    if let Message::Holiday { day } = message {
        holidays.push(*day);
    }
}

/// A holiday, in the order of dates.
#[tactic(auto, using(crate::proofs::CalendarLemmas::adds_nothing))]
pub fn enter_calendar(calendar: &mut Calendar, message: &Message)
    requires { 0 < calendar.old.spare }
    ensures added { AddsDays (entered_by message.now) calendar.old.list calendar.new.list }
    ensures spare { calendar.old.spare ≤ calendar.new.spare + 1 }
{
    if let Message::Holiday { day } = message {
        calendar.enter(*day);
    }
}

/// The terms of an announcement that is in order.
#[tactic(auto, using(crate::proofs::AddedLemmas::nothing_more))]
pub fn enter_auction(auctions: &mut Auctions, days: &EasternDays, message: &Message)
    requires room { 0 < auctions.old.spare }
    requires order { IsInOrder message.now }
    ensures list { announced_in auctions.new.list ≡ announced_in auctions.old.list ++ announced_by message.now }
    ensures spare { auctions.old.spare ≤ auctions.new.spare + 1 }
{
    if let Message::Announce { terms } = message {
        if let Ok(terms) = Terms::check(terms, days) {
            auctions.push(terms);
        }
    }
}

/// A bid of the sender under its number.
#[tactic(auto, using(crate::proofs::AddedLemmas::nothing_more))]
pub fn enter_bid(bids: &mut Bids, sender: &Ident, number: u64, message: &Message)
    requires { 0 < bids.old.spare }
    ensures list { bids.new.list ≡ bids.old.list ++ bid_by sender.now number message.now }
    ensures spare { bids.old.spare ≤ bids.new.spare + 1 }
{
    if let Message::Bid {
        auction,
        bidder,
        rate,
        amount,
    } = message
    {
        bids.push(&Bid {
            submitter: *sender,
            number,
            auction: *auction,
            bidder: *bidder,
            rate: *rate,
            amount: *amount,
        });
    }
}

/// A cancel of the sender's bid.
#[tactic(auto, using(crate::proofs::AddedLemmas::nothing_more))]
pub fn enter_cancel(cancels: &mut Cancels, sender: &Ident, message: &Message)
    requires { 0 < cancels.old.spare }
    ensures list { cancels.new.list ≡ cancels.old.list ++ cancelled_by sender.now message.now }
    ensures spare { cancels.old.spare ≤ cancels.new.spare + 1 }
{
    if let Message::Cancel { auction, bid } = message {
        cancels.push(Cancel {
            submitter: *sender,
            auction: *auction,
            bid: *bid,
        });
    }
}

/// A report of a position.
#[tactic(auto, using(crate::proofs::AddedLemmas::nothing_more))]
pub fn enter_report(reports: &mut Reports, sender: &Ident, message: &Message)
    requires { 0 < reports.old.spare }
    ensures list { reports.new.list ≡ reports.old.list ++ reported_by sender.now message.now }
    ensures spare { reports.old.spare ≤ reports.new.spare + 1 }
{
    if let Message::Position {
        auction,
        bidder,
        position,
    } = message
    {
        reports.push(Report {
            submitter: *sender,
            auction: *auction,
            bidder: *bidder,
            position: *position,
        });
    }
}

/// An auction whose results are published.
#[tactic(auto, using(crate::proofs::AddedLemmas::nothing_more))]
pub fn enter_published(published: &mut Names, message: &Message)
    requires { 0 < published.old.spare }
    ensures list { published.new.list ≡ published.old.list ++ published_by message.now }
    ensures spare { published.old.spare ≤ published.new.spare + 1 }
{
    if let Message::Publish { auction } = message {
        published.push(*auction);
    }
}

/// An auction that is settled.
#[tactic(auto, using(crate::proofs::AddedLemmas::nothing_more))]
pub fn enter_settled(settled: &mut Names, message: &Message)
    requires { 0 < settled.old.spare }
    ensures list { settled.new.list ≡ settled.old.list ++ settled_by message.now }
    ensures spare { settled.old.spare ≤ settled.new.spare + 1 }
{
    if let Message::Settle { auction } = message {
        settled.push(*auction);
    }
}

/// A bill that is redeemed.
#[tactic(auto, using(crate::proofs::AddedLemmas::nothing_more))]
pub fn enter_redeemed(redeemed: &mut Bills, message: &Message)
    requires { 0 < redeemed.old.spare }
    ensures list { redeemed.new.list ≡ redeemed.old.list ++ redeemed_by message.now }
    ensures spare { redeemed.old.spare ≤ redeemed.new.spare + 1 }
{
    if let Message::Redeem { cusip } = message {
        redeemed.push(*cusip);
    }
}

/// An add-on of an auction.
#[tactic(auto, using(crate::proofs::AddedLemmas::nothing_more))]
pub fn enter_add_on(add_ons: &mut AddOns, message: &Message)
    requires { 0 < add_ons.old.spare }
    ensures list { add_ons.new.list ≡ add_ons.old.list ++ added_by message.now }
    ensures spare { add_ons.old.spare ≤ add_ons.new.spare + 1 }
{
    if let Message::AddOn {
        auction,
        holder,
        amount,
    } = message
    {
        add_ons.push(AddOn {
            auction: *auction,
            holder: *holder,
            amount: *amount,
        });
    }
}
