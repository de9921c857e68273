//! The first refusal of each kind of message whose cause holds, by what it looks at.
ghost use Rattle.std.specs.Prelude.{◌≡◌, ◌∷◌, [], nat_lt};
ghost use Rattle.tb_terms.specs.Rows.{refusal_in};
ghost use Rattle.tb_terms.specs.Faults.{fault_of, fault_rows};
ghost use Rattle.tb_terms.specs.Eastern.{start_of};
ghost use Rattle.tb_terms.specs.Closings.{c_closing};
ghost use Rattle.tb_rules.specs.BidRule.{standing_in, late};
ghost use Rattle.tb_rules.specs.BidRule as rules;
ghost use Rattle.tb_history.specs.Tables.{register_rows, enrol_rows, holiday_rows, maturity_rows, announce_rows, bid_rows, cancel_rows, position_rows, publish_rows, settle_rows, add_on_rows};
ghost use Rattle.tb_refusals.specs.Announced.{last_rows, later_rows};
ghost use Rattle.tb_tables.specs.Auctions.{announced_in, announcement_in};

use crate::par_refusals::is_no_par;
use tb_history::Bid;
use tb_rules::{Own, bid_verdict, position_verdict};
use tb_tables::{
    Auctions, Bidders, Holidays, Submitters, bill_terms, find_enrolment, has_auction, has_holiday,
    has_name_or_key, has_submitter, is_operator, is_same,
};
use tb_terms::{Announcement, EasternDays, Refusal, Terms};
use tb_units::{Day, Dollars, Ident, Moment, Rate};

const MOST_SUBMITTERS: usize = 4096;

const MOST_BIDDERS: usize = 16_384;

const MOST_HOLIDAYS: usize = 4096;

const MOST_AUCTIONS: usize = 65_536;

/// Of a registration.
pub fn register_refusal(submitters: &Submitters, submitter: &Ident, key: &Ident) -> Option<Refusal>
    ensures { result ≡ refusal_in (register_rows submitters.now.list submitter.now key.now) }
{
    if is_operator(submitter) || has_name_or_key(submitters, submitter, key) {
        return Some(Refusal::Exists);
    }
    if submitters.rows().len() >= MOST_SUBMITTERS {
        return Some(Refusal::RosterFull);
    }
    None
}

/// Of an enrolment.
pub fn enrol_refusal(
    bidders: &Bidders,
    submitters: &Submitters,
    bidder: &Ident,
    submitter: &Ident,
) -> Option<Refusal>
    ensures { result ≡ refusal_in (enrol_rows bidders.now.list submitters.now.list bidder.now submitter.now) }
{
    if let Some(found) = find_enrolment(bidders, bidder) {
        if is_same(&found.submitter, submitter) {
            return Some(Refusal::Exists);
        }
        return Some(Refusal::OtherSubmitter);
    }
    if !has_submitter(submitters, submitter) {
        return Some(Refusal::UnknownParticipant);
    }
    if bidders.rows().len() >= MOST_BIDDERS {
        return Some(Refusal::RosterFull);
    }
    None
}

/// Of a holiday.
pub fn holiday_refusal(holidays: &Holidays, day: Day) -> Option<Refusal>
    ensures { result ≡ refusal_in (holiday_rows holidays.now.list day) }
{
    if has_holiday(holidays, day) {
        return Some(Refusal::Exists);
    }
    if holidays.rows().len() >= MOST_HOLIDAYS {
        return Some(Refusal::RosterFull);
    }
    None
}

fn fault_refusal(days: &EasternDays, announcement: &Announcement) -> Option<Refusal>
    ensures { result ≡ refusal_in (fault_rows (fault_of announcement.now)) }
{
    match Terms::check(announcement, days) {
        Err(fault) => Some(fault.refusal()),
        Ok(_) => None,
    }
}

fn maturity_refusal(first: Option<Terms>, maturity: Day) -> Option<Refusal>
    ensures { result ≡ refusal_in (maturity_rows (announcement_in first) maturity) }
{
    let first = first?.announcement.maturity;
    if first.number != maturity.number {
        return Some(Refusal::MaturityDiffers { maturity: first });
    }
    None
}

fn roster_refusal(auctions: &Auctions, redeemed: bool) -> Option<Refusal>
    ensures { result ≡ refusal_in (last_rows (announced_in auctions.now.list) redeemed) }
{
    if redeemed {
        return Some(Refusal::AlreadyRedeemed);
    }
    if auctions.rows().len() >= MOST_AUCTIONS {
        return Some(Refusal::RosterFull);
    }
    None
}

// By the maturity of the bill, and by what is full.
fn later_refusal(
    auctions: &Auctions,
    redeemed: bool,
    announcement: &Announcement,
) -> Option<Refusal>
    ensures { result ≡ refusal_in (later_rows (announced_in auctions.now.list) redeemed announcement.now) }
{
    let first = bill_terms(auctions, &announcement.cusip);
    match maturity_refusal(first, announcement.maturity) {
        Some(refusal) => Some(refusal),
        None => roster_refusal(auctions, redeemed),
    }
}

/// Of an announcement, by whether its bill is redeemed.
pub fn announce_refusal(
    auctions: &Auctions,
    redeemed: bool,
    days: &EasternDays,
    announcement: &Announcement,
) -> Option<Refusal>
    ensures { result ≡ refusal_in (announce_rows (announced_in auctions.now.list) redeemed announcement.now) }
{
    if has_auction(auctions, &announcement.auction) {
        return Some(Refusal::AuctionExists);
    }
    match fault_refusal(days, announcement) {
        Some(refusal) => Some(refusal),
        None => later_refusal(auctions, redeemed, announcement),
    }
}

/// Of a bid, by the terms of its auction, whether the bidder is enrolled under the sender, and what stands of it.
pub fn bid_refusal(
    terms: Option<Terms>,
    enrolled: bool,
    own: &Own,
    moment: Moment,
    rate: Option<Rate>,
    amount: Dollars,
) -> Option<Refusal>
    ensures { result ≡ refusal_in
        (bid_rows (announcement_in terms) enrolled (standing_in own.now) moment rate amount.value) }
{
    let Some(terms) = terms else {
        return Some(Refusal::UnknownAuction);
    };
    if !enrolled {
        return Some(Refusal::UnknownBidder);
    }
    bid_verdict(&terms, own, rate, amount, moment)
}

fn closing_for(terms: &Terms, rate: Option<Rate>) -> Moment
    ensures { result ≡ rules.closing_for terms.now.announcement rate }
{
    match rate {
        Some(_) => terms.c_moment,
        None => terms.nc_moment,
    }
}

fn competitive_closing(terms: &Terms) -> Moment
    ensures { result ≡ c_closing terms.now.announcement }
{
    terms.c_moment
}

fn late_refusal(moment: Moment, closing: Moment) -> Option<Refusal>
    ensures { result ≡ refusal_in (late moment closing ∷ []) }
{
    if moment.seconds >= closing.seconds {
        return Some(Refusal::Late { moment, closing });
    }
    None
}

/// Of a cancel, by the terms of the auction, the sender's bid and whether it is cancelled.
pub fn cancel_refusal(
    terms: Option<Terms>,
    bid: Option<Bid>,
    cancelled: bool,
    moment: Moment,
) -> Option<Refusal>
    ensures { result ≡ refusal_in (cancel_rows (announcement_in terms) bid cancelled moment) }
{
    let Some(terms) = terms else {
        return Some(Refusal::UnknownAuction);
    };
    let Some(bid) = bid else {
        return Some(Refusal::UnknownBid);
    };
    if cancelled {
        return Some(Refusal::AlreadyCancelled);
    }
    late_refusal(moment, closing_for(&terms, bid.rate))
}

/// Of a report, by the terms of the auction and whether the bidder is enrolled under the sender.
pub fn position_refusal(terms: Option<Terms>, enrolled: bool, moment: Moment) -> Option<Refusal>
    ensures { result ≡ refusal_in (position_rows (announcement_in terms) enrolled moment) }
{
    let Some(terms) = terms else {
        return Some(Refusal::UnknownAuction);
    };
    if !enrolled {
        return Some(Refusal::UnknownBidder);
    }
    position_verdict(&terms, moment)
}

/// Of a publication, by the terms of the auction and whether it is published.
pub fn publish_refusal(terms: Option<Terms>, published: bool, moment: Moment) -> Option<Refusal>
    ensures { result ≡ refusal_in (publish_rows (announcement_in terms) published moment) }
{
    let Some(terms) = terms else {
        return Some(Refusal::UnknownAuction);
    };
    let closing = competitive_closing(&terms);
    if moment.seconds < closing.seconds {
        return Some(Refusal::NotClosed { moment, closing });
    }
    if published {
        return Some(Refusal::AlreadyPublished);
    }
    None
}

fn is_before_issue(terms: &Terms, moment: Moment) -> bool
    ensures { result ≡ nat_lt moment.seconds (start_of terms.now.announcement.issue.number) }
{
    moment.seconds < terms.issue_moment.seconds
}

/// Of a settlement, by the terms of the auction, whether it is published and whether it is settled.
pub fn settle_refusal(
    terms: Option<Terms>,
    published: bool,
    settled: bool,
    moment: Moment,
) -> Option<Refusal>
    ensures { result ≡ refusal_in (settle_rows (announcement_in terms) published settled moment) }
{
    let Some(terms) = terms else {
        return Some(Refusal::UnknownAuction);
    };
    if !published {
        return Some(Refusal::NotPublished);
    }
    if is_before_issue(&terms, moment) {
        return Some(Refusal::NotIssueDate {
            issue: terms.announcement.issue,
        });
    }
    if settled {
        return Some(Refusal::AlreadySettled);
    }
    None
}

/// Of an add-on, by the terms of the auction, whether the holder is registered, and whether an add-on of the auction
/// stands.
pub fn add_on_refusal(
    terms: Option<Terms>,
    known: bool,
    standing: bool,
    moment: Moment,
    amount: Dollars,
) -> Option<Refusal>
    ensures { result ≡ refusal_in (add_on_rows (announcement_in terms) known standing moment amount.value) }
{
    let Some(terms) = terms else {
        return Some(Refusal::UnknownAuction);
    };
    if !known {
        return Some(Refusal::UnknownParticipant);
    }
    if is_no_par(amount) {
        return Some(Refusal::NotMultiple);
    }
    if standing {
        return Some(Refusal::AddOnExists);
    }
    late_refusal(moment, competitive_closing(&terms))
}
