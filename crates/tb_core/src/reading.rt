//! What queries are told, by the tables.
ghost use Rattle.std.specs.Prelude.{◌≡◌, List, true, map, IfOk};
ghost use Rattle.tb_message.specs.declared.message.Entry.{Entry};
ghost use Rattle.tb_history.specs.Roster.{add_ons, add_on_of};
ghost use Rattle.tb_history.specs.Holdings.{bidding_in};
ghost use Rattle.tb_history.specs.Readings.{AreAwards, AreResults, bid_line, bid_lines};
ghost use Rattle.tb_core.specs.Bidden.{IsAuctionOf};

use crate::tables::Tables;
use std::alloc::Global;
use tb_book::Book;
use tb_entries::Bids;
use tb_history::{Awards, Bid, BidLine, Listing, Results};
use tb_ledger::positions_in;
use tb_results::{awards, results};
use tb_tables::{Cancels, find_add_on, is_live};
use tb_terms::Terms;
use tb_units::{Ident, OutOfMemory};

fn line_of(bid: &Bid, cancels: &Cancels) -> BidLine
    ensures { result ≡ bid_line cancels.now.list bid.now }
{
    BidLine {
        number: bid.number,
        bidder: bid.bidder,
        rate: bid.rate,
        amount: bid.amount,
        live: is_live(cancels, bid),
    }
}

// The lines of bids.
fn lines_of(alloc: Global, bids: &[Bid], cancels: &Cancels) -> Result<tb_history::Bids, OutOfMemory>
    ensures { IfOk result (λ lines. lines ≡ map (bid_line cancels.now.list) bids.now) }
{
    let mut lines = Listing::new(alloc);
    for bid in bids {
        lines.push(line_of(bid, cancels))?;
    }
    Ok(lines)
}

/// The submitter's bids in the auction, in the order of acceptance.
pub fn bid_lines(
    alloc: Global,
    bids: &Bids,
    cancels: &Cancels,
    submitter: &Ident,
    auction: &Ident,
) -> Result<tb_history::Bids, OutOfMemory>
    ensures { IfOk result (λ lines. lines ≡ bid_lines bids.now.list cancels.now.list submitter.now auction.now) }
{
    let own = bids.from(alloc, submitter, auction)?;
    lines_of(alloc, &own, cancels)
}

/// The results of the auction of these terms, by the book of its live bids, which is open.
pub fn results_reading(
    alloc: Global,
    tables: &Tables,
    terms: &Terms,
    book: &Book,
) -> Result<Results, OutOfMemory>
    requires auction { (history : List Entry) × IsAuctionOf history tables.now terms.now book.now.lines }
    requires opened { book.now.opened ≡ true }
    ensures { IfOk result (λ results. (history : List Entry) → IsAuctionOf history tables.now terms.now book.now.lines
        → AreResults (bidding_in history terms.now.announcement)
        (add_on_of (add_ons history) terms.now.announcement.auction) results) }
{
    let auction = terms.announcement.auction;
    let positions = positions_in(alloc, &tables.bidders, &tables.reports, &auction)?;
    let add_on = find_add_on(&tables.add_ons, &auction);
    results(alloc, terms, book, &positions, add_on)
}

/// The awards of the caller's bidders in the auction of these terms, by the book of its live bids, which is open, and
/// of the add-on that the caller holds.
pub fn awards_reading(
    alloc: Global,
    tables: &Tables,
    terms: &Terms,
    book: &Book,
    caller: &Ident,
) -> Result<Awards, OutOfMemory>
    requires auction { (history : List Entry) × IsAuctionOf history tables.now terms.now book.now.lines }
    requires opened { book.now.opened ≡ true }
    ensures { IfOk result (λ awards. (history : List Entry) → IsAuctionOf history tables.now terms.now book.now.lines
        → AreAwards history terms.now.announcement caller.now awards) }
{
    let auction = terms.announcement.auction;
    let positions = positions_in(alloc, &tables.bidders, &tables.reports, &auction)?;
    let add_on = find_add_on(&tables.add_ons, &auction);
    awards(
        alloc,
        terms,
        book,
        &positions,
        tables.bidders.rows(),
        add_on,
        caller,
    )
}
