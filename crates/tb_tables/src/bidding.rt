//! Bids, cancels and reports.
ghost use Rattle.std.specs.Prelude.{◌≡◌, length, min};
ghost use Rattle.tb_history.specs.Entries.{bid_by};
ghost use Rattle.tb_history.specs.Legal.{IsLegal};
ghost use Rattle.tb_history.specs.LiveBids.{bid_of, bids_of};
ghost use Rattle.tb_history.specs.LiveBids as standing;

use crate::keys::{ByBidder, ByNumber};
use crate::names::is_same;
use tb_entries::{Bids, Entries};
use tb_history::{Bid, Cancel, Report};
use tb_index::{Keyed, Latest};
use tb_message::Message;
use tb_units::Ident;

/// Accepted cancels of bids.
pub type Cancels = Keyed<Cancel, ByNumber>;

/// Accepted reports of positions.
pub type Reports = Latest<Report, ByBidder>;

// Accepted bids of a bidder in an auction.
const MOST_BIDS: usize = 1000;

/// The submitter's accepted bid of this number in the auction: the accepted message of the number, where it is one. The
/// bids need no index by number, since a submitter's number stands once in a legal history.
pub fn find_bid(entries: &Entries, submitter: &Ident, auction: &Ident, number: u64) -> Option<Bid>
    requires { IsLegal entries.now.list }
    ensures { result ≡ bid_of (standing.bids entries.now.list) submitter.now auction.now number }
{
    let entry = entries.find(submitter, number)?;
    bid_in(auction, submitter, number, &entry.message)
}

// The bid in the auction that the submitter's message of this number is, if it is one.
fn bid_in(auction: &Ident, submitter: &Ident, number: u64, message: &Message) -> Option<Bid>
    ensures { result ≡ bid_of (bid_by submitter.now number message.now) submitter.now auction.now number }
{
    match message {
        Message::Bid {
            auction: own,
            bidder,
            rate,
            amount,
        } if is_same(own, auction) => Some(Bid {
            submitter: *submitter,
            number,
            auction: *own,
            bidder: *bidder,
            rate: *rate,
            amount: *amount,
        }),
        _ => None,
    }
}

/// Whether a cancel of the submitter's bid stands.
pub fn has_cancel(cancels: &Cancels, submitter: &Ident, auction: &Ident, number: u64) -> bool
    ensures { result ≡ standing.is_cancelled cancels.now.list submitter.now auction.now number }
{
    cancels.has(&(number, *submitter, *auction))
}

/// Whether no cancel of the bid stands.
pub fn is_live(cancels: &Cancels, bid: &Bid) -> bool
    ensures { result ≡ standing.is_live cancels.now.list bid.now }
{
    !has_cancel(cancels, &bid.submitter, &bid.auction, bid.number)
}

/// How many bids of the bidder are accepted in the auction, counted up to the most there can be.
pub fn few_bids(bids: &Bids, auction: &Ident, bidder: &Ident) -> u32
    ensures { result ≡ min 1000 (length (bids_of bids.now.list auction.now bidder.now)) }
{
    let count = bids.count(auction, bidder);
    if count < MOST_BIDS {
        return count as u32;
    }
    MOST_BIDS as u32
}

/// Whether a report of the bidder stands in the auction.
pub fn has_report(reports: &Reports, auction: &Ident, bidder: &Ident) -> bool
    ensures { result ≡ standing.has_report reports.now.list auction.now bidder.now }
{
    // Often nobody has reported, and then no names are hashed.
    !reports.rows().is_empty() && reports.has(&(*bidder, *auction))
}

/// The bidder's reported position in the auction, in whole dollars: that of its last report, and 0 where there is none.
pub fn position_of(reports: &Reports, auction: &Ident, bidder: &Ident) -> i64
    ensures { result ≡ standing.position_of reports.now.list auction.now bidder.now }
{
    match reports.last(&(*bidder, *auction)) {
        Some(report) => report.position,
        None => 0,
    }
}
