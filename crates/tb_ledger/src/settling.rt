//! What becomes of an auction that settles.
ghost use Rattle.std.specs.Prelude.{◌≡◌, ◌≤◌, true, length, vec_capacity};
ghost use Rattle.tb_history.specs.Awarded.{Bidding};
ghost use Rattle.tb_results.specs.Biddings.{IsBookOf};
ghost use Rattle.tb_results.specs.Outcomes.{IsCutIn};
ghost use Rattle.tb_ledger.specs.Settling.{KeepsScratch, positions_by};

use crate::scratch::Scratch;
use tb_award::Outcome;
use tb_book::Book;
use tb_results::cut_book;
use tb_tables::{Bidders, Reports, position_of};
use tb_terms::Terms;
use tb_units::Ident;

/// Puts the last reported position of each bidder in the auction at the bidder's place, in whole dollars, and 0 where
/// none is reported. It takes no memory.
pub fn fill_positions(
    positions: &mut Vec<i64>,
    bidders: &Bidders,
    reports: &Reports,
    auction: &Ident,
)
    requires room { length bidders.now.list ≤ vec_capacity positions.old }
    ensures positions { positions.new.items ≡ positions_by reports.now.list auction.now bidders.now.list }
    ensures room { vec_capacity positions.new ≡ vec_capacity positions.old }
{
    positions.clear();
    for enrolment in bidders.rows() {
        positions.push_reserved(position_of(reports, auction, &enrolment.bidder));
    }
}

/// Recognises the bids of the auction of these terms and cuts them, by the book, which is open, and the reports, in the
/// room that was taken. What is recognised stands in the scratch list then. It takes no memory, and loses no room.
pub fn cut_auction(
    scratch: &mut Scratch,
    bidders: &Bidders,
    reports: &Reports,
    terms: &Terms,
    book: &Book,
) -> Outcome
    requires bidding { (bidding : Bidding) × IsBookOf bidding terms.now book.now.lines
        (positions_by reports.now.list terms.now.announcement.auction bidders.now.list) }
    requires opened { book.now.opened ≡ true }
    requires lines { length book.now.lines ≤ scratch.old.recognised.line_room }
    requires bidders { length bidders.now.list ≤ scratch.old.recognised.bidder_room }
    requires positions { length bidders.now.list ≤ vec_capacity scratch.old.positions }
    ensures cut { (bidding : Bidding) → IsBookOf bidding terms.now book.now.lines
        (positions_by reports.now.list terms.now.announcement.auction bidders.now.list)
        → IsCutIn bidding book.now.lines scratch.new.recognised.lines result }
    ensures room { KeepsScratch scratch.old scratch.new }
{
    fill_positions(
        &mut scratch.positions,
        bidders,
        reports,
        &terms.announcement.auction,
    );
    cut_book(&mut scratch.recognised, terms, book, &scratch.positions)
}
