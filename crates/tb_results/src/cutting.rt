//! Where an auction stops, by the book of its bids.
ghost use Rattle.std.specs.Prelude.{◌≡◌, ◌≤◌, true, length};
ghost use Rattle.tb_award.specs.Limits.{sought_of};
ghost use Rattle.tb_award.specs.Room.{KeepsRoom};
ghost use Rattle.tb_book.specs.Books.{IsKept, noncompetitive_in, rate_lines};
ghost use Rattle.tb_history.specs.Awarded.{Bidding};
ghost use Rattle.tb_results.specs.Biddings.{IsBookOf};
ghost use Rattle.tb_results.specs.Outcomes.{IsCutIn};

use tb_award::{Outcome, Recognised, cut, recognise_into_uncounted, sought};
use tb_book::Book;
use tb_terms::Terms;
use tb_units::Dollars;

/// Recognises the competitive bids of the book, which is open, into a list that has the room, and cuts them. Each
/// bidder's position stands at its number, in whole dollars. It takes no memory, and loses no room.
pub fn cut_book(into: &mut Recognised, terms: &Terms, book: &Book, positions: &[i64]) -> Outcome
    requires bidding { (bidding : Bidding) × IsBookOf bidding terms.now book.now.lines positions.now }
    requires opened { book.now.opened ≡ true }
    requires line_room { length (rate_lines book.now.lines) ≤ into.old.line_room }
    requires bidder_room { length positions.now ≤ into.old.bidder_room }
    ensures cut { (bidding : Bidding) → IsBookOf bidding terms.now book.now.lines positions.now
        → IsCutIn bidding book.now.lines into.new.lines result }
    ensures room { KeepsRoom into.old into.new }
{
    recognise_into_uncounted(into, book, positions, terms.announcement.offering);
    cut(into, sought_by(terms, book), terms.days)
}

// What noncompetitive bids leave of the offering, and at least the floor.
fn sought_by(terms: &Terms, book: &Book) -> Dollars
    ensures sought { result.value
        ≡ sought_of terms.now.announcement.offering.value (noncompetitive_in book.now.lines)
        terms.now.announcement.competitive_floor.value }
    ensures kept { IsKept book.now }
{
    sought(
        terms.announcement.offering,
        book.noncompetitive(),
        terms.announcement.competitive_floor,
    )
}
