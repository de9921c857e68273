//! Books of auctions, found by name, and changed in place.
ghost use Rattle.std.specs.Prelude.{◌≡◌, ◌<◌, ◌≤◌, List, length, slice_index_or, Some, None, IfNone, IfSome, OnOk};
ghost use Rattle.std.specs.List.{position};
ghost use Rattle.tb_shelf.specs.declared.named.NamedBook.{NamedBook};
ghost use Rattle.tb_shelf.specs.Shelves.{IsAdded, IsChangedAt, IsKeptBook, IsLowered, IsOwnPlace, IsUnsealed, TakesLine, book_in, is_of, names_in};

use crate::named::{NamedBook, Names};
use tb_book::{Book, BookLine};
use tb_units::{Ident, OutOfMemory, Rate};

/// Where the book of the auction stands among books of these names. The place that was found last is looked at first.
pub fn place_of(names: &Names, auction: &Ident, last: Option<usize>) -> Option<usize>
    requires { IfSome last (IsOwnPlace names.now.list) }
    ensures book { (books : List NamedBook) → names.now.list ≡ names_in books
        → result ≡ position (is_of auction.now) books }
    ensures own { IfSome result (IsOwnPlace names.now.list) }
{
    if let Some(place) = last {
        if names.rows()[place] == *auction {
            return Some(place);
        }
    }
    names.find(auction)
}

/// The auction's book, of books of these names. The place that was found last is looked at first.
pub fn find<'a>(
    names: &Names,
    books: &'a [NamedBook],
    auction: &Ident,
    last: Option<usize>,
) -> Option<&'a Book>
    requires names { names.now.list ≡ names_in books.now }
    requires last { IfSome last (IsOwnPlace names.now.list) }
    ensures some { IfSome result (λ book. book_in books.now auction.now ≡ Some book.now) }
    ensures none { IfNone result (book_in books.now auction.now ≡ None) }
{
    match place_of(names, auction, last) {
        Some(place) => Some(&books[place].book),
        None => None,
    }
}

/// Adds a line to the book at the place.
pub fn add_at(books: &mut [NamedBook], place: usize, line: BookLine)
    requires within { place < length books.old }
    requires takes { (d : NamedBook) → TakesLine line (slice_index_or books.old place d).book }
    ensures { IsChangedAt place (IsAdded line) books.old books.new }
{
    books[place].book.add(line);
}

/// Takes the bidder's line of this rate and number out of the book at the place.
pub fn take_at(books: &mut [NamedBook], place: usize, rate: Option<Rate>, bidder: u32, number: u64)
    requires { place < length books.old }
    ensures { IsChangedAt place (IsLowered rate bidder number) books.old books.new }
{
    let _ = books[place].book.take_out_at(rate, bidder, number);
}

/// Opens the book at the place.
pub fn unseal_at(books: &mut [NamedBook], place: usize)
    requires { place < length books.old }
    ensures { IsChangedAt place IsUnsealed books.old books.new }
{
    books[place].book.unseal();
}

/// Makes so many adds sure in the book at the place.
pub fn reserve_at(books: &mut [NamedBook], place: usize, more: u64) -> Result<(), OutOfMemory>
    requires { place < length books.old }
    ensures kept { IsChangedAt place IsKeptBook books.old books.new }
    ensures places { (d : NamedBook) → OnOk result (more ≤ (slice_index_or books.new place d).book.spare) }
{
    books[place].book.reserve(more)
}
