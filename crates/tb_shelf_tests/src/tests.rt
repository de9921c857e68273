//! Tests of the public calls: what no clause says, with values that were worked out by hand.
ghost use Rattle.std.specs.Prelude.{◌≤◌};
ghost use Rattle.tb_book.specs.Books.{most_bid};

use std::alloc::Global;
use std::process::Abort;
use tb_book::BookLine;
use tb_shelf::*;
use tb_units::{Dollars, Ident, OutOfMemory};

fn name(text: &str, rt: &impl Abort) -> Ident {
    Ident::read(text).expect(rt, "a name")
}

// A shelf on which an auction's book has one line, and room for one more.
fn shelf_of(alloc: Global, auction: Ident, line: BookLine) -> Result<Shelf, OutOfMemory>
    requires { line.amount.value ≤ most_bid }
{
    let mut shelf = Shelf::new(alloc);
    shelf.prepare(1, 2)?;
    shelf.open(auction);
    shelf.add(&auction, line);
    Ok(shelf)
}

// The par of the bidder's noncompetitive lines in the auction's book.
fn par_of(shelf: &Shelf, auction: &Ident, bidder: u32, rt: &impl Abort) -> u128 {
    let book = shelf.book(auction).expect(rt, "a book");
    book.totals(bidder).1.value
}

#[test]
fn a_line_stands_in_its_auctions_book_until_it_is_taken_out(rt: HostRuntime) {
    let line = BookLine {
        bidder: 3,
        number: 7,
        rate: None,
        amount: Dollars { value: 500 },
    };
    let mut shelf = shelf_of(rt.alloc(), name("bill13", &rt), line)
        .ok()
        .expect(&rt, "memory");
    assert_eq!(rt; par_of(&shelf, &name("bill13", &rt), 3, &rt), 500);
    assert!(rt; shelf.book(&name("bill14", &rt)).is_none());
    shelf.take_out(&name("bill13", &rt), None, 3, 8);
    assert_eq!(rt; par_of(&shelf, &name("bill13", &rt), 3, &rt), 500);
    shelf.take_out(&name("bill13", &rt), None, 3, 7);
    assert_eq!(rt; par_of(&shelf, &name("bill13", &rt), 3, &rt), 0);
}

#[test]
fn room_is_counted_for_each_book(rt: HostRuntime) {
    let line = BookLine {
        bidder: 0,
        number: 1,
        rate: None,
        amount: Dollars { value: 100 },
    };
    let mut shelf = shelf_of(rt.alloc(), name("bill13", &rt), line)
        .ok()
        .expect(&rt, "memory");
    assert_eq!(rt; shelf.ready(), 0);
    assert!(rt; shelf.has_places(&name("bill13", &rt), 1));
    assert!(rt; !shelf.has_places(&name("bill13", &rt), 2));
    assert!(rt; shelf.has_places(&name("bill14", &rt), 2));
    shelf
        .reserve(&name("bill13", &rt), 2)
        .ok()
        .expect(&rt, "memory");
    assert!(rt; shelf.has_places(&name("bill13", &rt), 2));
    shelf.prepare(3, 1).ok().expect(&rt, "memory");
    assert_eq!(rt; shelf.ready(), 3);
}
