//! What the books have of a bidder.
ghost use Rattle.std.specs.Prelude.{◌≡◌, ◌+◌, ◌≤◌};
ghost use Rattle.tb_units.specs.Multiples.{most_par};
ghost use Rattle.tb_shelf.specs.Shelves.{book_in};
ghost use Rattle.tb_shelving.specs.Standings.{competitive_there, noncompetitive_there};

use tb_shelf::Shelf;
use tb_units::{Dollars, Ident};

/// The par of the competitive bids of the bidder of a number in the auction's book, and of the noncompetitive ones.
/// Both are zero where there is no book.
pub fn sums_of(shelf: &Shelf, auction: &Ident, number: u32) -> (Dollars, Dollars)
    ensures competitive { result.0.value ≡ competitive_there number (book_in shelf.now.books auction.now) }
    ensures noncompetitive { result.1.value ≡ noncompetitive_there number (book_in shelf.now.books auction.now) }
    ensures limited { result.0.value + result.1.value ≤ most_par }
{
    match shelf.book(auction) {
        Some(book) => book.totals(number),
        None => (Dollars { value: 0 }, Dollars { value: 0 }),
    }
}
