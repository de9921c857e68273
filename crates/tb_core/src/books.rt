//! The books of announced auctions.
ghost use Rattle.std.specs.Prelude.{◌≡◌, List, true, is_some, Some, IfSome};
ghost use Rattle.tb_terms.specs.declared.announcement.Announcement.{Announcement};
ghost use Rattle.tb_message.specs.declared.message.Entry.{Entry};
ghost use Rattle.tb_history.specs.Roster.{announcement_of, announcements, is_published};
ghost use Rattle.tb_history.specs.Holdings.{bidding_in};
ghost use Rattle.tb_results.specs.Biddings.{AreBooked};
ghost use Rattle.tb_core.specs.House.{AreTied};

use crate::tables::Tables;
use tb_book::Book;
use tb_units::Ident;

/// The book of the auction, which has its live bids. There is one exactly where the auction is announced, and it is
/// open once that is published.
pub fn book_of<'a>(tables: &'a Tables, auction: &Ident) -> Option<&'a Book>
    ensures booked { IfSome result (λ book. (history : List Entry) (a : Announcement) → AreTied history tables.now
        → announcement_of (announcements history) auction.now ≡ Some a
        → AreBooked (bidding_in history a) book.now.lines) }
    ensures opened { IfSome result (λ book. (history : List Entry) → AreTied history tables.now
        → is_published history auction.now ≡ true → book.now.opened ≡ true) }
    ensures there { (history : List Entry) → AreTied history tables.now
        → is_some result ≡ is_some (announcement_of (announcements history) auction.now) }
{
    tables.shelf.book(auction)
}
