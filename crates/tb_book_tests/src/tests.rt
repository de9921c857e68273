//! Tests of the public calls: what no clause says, with values that were worked out by hand.
ghost use Rattle.std.specs.Prelude.{◌≡◌, ◌+◌, ◌<◌, ◌≤◌};
ghost use Rattle.tb_book.specs.Books.{par_in, most_bid};

use std::alloc::Global;
use std::marker::Brand;
use std::process::Abort;
use std::sync::ledger::{Blank, Ledger};
use tb_book::*;
use tb_units::{Dollars, Lines, OutOfMemory, Rate, RateLine, Steps};

fn competitive(bidder: u32, number: u64, steps: u32, dollars: u32) -> BookLine
    requires { steps ≤ 199999 }
    ensures { result.amount.value ≡ dollars }
{
    BookLine {
        bidder,
        number,
        rate: Some(Rate { steps }),
        amount: Dollars {
            value: dollars as u128,
        },
    }
}

fn noncompetitive(bidder: u32, number: u64, dollars: u32) -> BookLine
    ensures { result.amount.value ≡ dollars }
{
    BookLine {
        bidder,
        number,
        rate: None,
        amount: Dollars {
            value: dollars as u128,
        },
    }
}

fn rate_line(steps: u32, bidder: u32, dollars: u32) -> RateLine
    requires { steps ≤ 199999 }
{
    RateLine {
        rate: Rate { steps },
        bidder,
        amount: Dollars {
            value: dollars as u128,
        },
    }
}

// Adds the line, if the bidder has no bid of its number.
fn add_new(book: &mut Book, line: BookLine) -> Option<BookLine>
    requires room { 0 < book.old.spare }
    requires fits { par_in book.old.lines + line.amount.value ≤ most_bid }
    ensures par { par_in book.new.lines ≤ par_in book.old.lines + line.amount.value }
    ensures room { book.old.spare ≤ book.new.spare + 1 }
{
    let there = book.take_out(line.bidder, line.number);
    if there.is_none() {
        book.add(line);
    }
    there
}

// Takes the bid out, after which there is no more par than before.
fn take_out(book: &mut Book, bidder: u32, number: u64) -> Option<BookLine>
    ensures { par_in book.new.lines ≤ par_in book.old.lines }
{
    book.take_out(bidder, number)
}

// Adds the line, for which it takes the memory: the bidder has no bid of its number.
fn adds(book: &mut Book, line: BookLine) -> bool
    requires { par_in book.old.lines + line.amount.value ≤ most_bid }
{
    book.reserve(1).is_ok() && add_new(book, line).is_none()
}

// The bid of this number is the line, and is taken out.
fn takes_out(book: &mut Book, line: &BookLine) -> bool
    ensures { par_in book.new.lines ≤ par_in book.old.lines }
{
    take_out(book, line.bidder, line.number) == Some(*line)
}

// The bidder has no bid of this number.
fn lacks(book: &mut Book, bidder: u32, number: u64) -> bool
    ensures { par_in book.new.lines ≤ par_in book.old.lines }
{
    take_out(book, bidder, number).is_none()
}

// The bid of this rate and number is the line, and is taken out.
fn takes_out_at_its_rate(book: &mut Book, line: &BookLine) -> bool {
    book.take_out_at(line.rate, line.bidder, line.number) == Some(*line)
}

// The bidder has no bid of this rate and number.
fn lacks_at(book: &mut Book, rate: Option<Rate>, bidder: u32, number: u64) -> bool {
    book.take_out_at(rate, bidder, number).is_none()
}

// The book, which has no lines yet, with these.
fn with_lines(rt: &impl Abort, book: Book, lines: &[BookLine]) -> Book
    requires none { par_in book.lines ≡ 0 }
    requires fits { par_in lines.now ≤ most_bid }
    ensures { par_in result.lines ≤ par_in lines.now }
{
    let mut book = book;
    assert!(rt; book.reserve(lines.len() as u64).is_ok());
    for line in lines {
        add_new(&mut book, *line);
    }
    book
}

fn book_of(rt: &impl Abort, alloc: Global, lines: &[BookLine]) -> Book
    requires { par_in lines.now ≤ most_bid }
    ensures { par_in result.lines ≤ par_in lines.now }
{
    with_lines(rt, Book::new(alloc), lines)
}

fn sealed_of(rt: &impl Abort, alloc: Global, lines: &[BookLine]) -> Book
    requires { par_in lines.now ≤ most_bid }
    ensures { par_in result.lines ≤ par_in lines.now }
{
    with_lines(rt, Book::sealed(alloc), lines)
}

// The lines of a book are these, place by place.
fn has_lines<B: Lines, L: Ledger>(book: &B, blank: Blank, wanted: &[RateLine]) -> bool
    requires name { blank.name ≡ L.name }
    requires parts { blank.parts ≡ L.parts }
    requires some { 0 < L.parts }
{
    let mut steps = Steps::<L>::new(blank);
    for place in 0..book.lines() {
        let line = book.line(place, &mut steps);
        if wanted.get(place as usize).copied() != Some(line) {
            return false;
        }
    }
    book.lines() == wanted.len() as u64
}

fn shows(book: &Book, wanted: &[RateLine]) -> bool {
    has_lines::<Book, Brand>(book, Blank::new(1), wanted)
}

// The bidder's competitive and noncompetitive bids are of so many dollars.
fn has_totals(book: &Book, bidder: u32, competitive: u64, noncompetitive: u64) -> bool {
    let totals = book.totals(bidder);
    totals.0.value == u128::from(competitive) && totals.1.value == u128::from(noncompetitive)
}

// All noncompetitive bids are of so many dollars.
fn has_noncompetitive(book: &Book, dollars: u64) -> bool {
    book.noncompetitive().value == u128::from(dollars)
}

#[test]
fn a_bid_is_taken_out_once(rt: HostRuntime) {
    let bid = noncompetitive(1, 1, 10_000_000);
    let mut book = book_of(&rt, rt.alloc(), &[bid]);
    assert!(rt; has_totals(&book, 1, 0, 10_000_000));
    assert!(rt; has_noncompetitive(&book, 10_000_000));
    assert!(rt; lacks(&mut book, 1, 2));
    assert!(rt; lacks(&mut book, 2, 1));
    assert!(rt; takes_out(&mut book, &bid));
    assert!(rt; lacks(&mut book, 1, 1));
    assert!(rt; adds(&mut book, competitive(2, 1, 1065, 350_000_000)));
    assert!(rt; has_totals(&book, 1, 0, 0));
    assert!(rt; has_totals(&book, 2, 350_000_000, 0));
    assert!(rt; has_noncompetitive(&book, 0));
}

#[test]
fn a_line_is_taken_out_at_its_rate(rt: HostRuntime) {
    let bid = competitive(1, 1, 1065, 350_000_000);
    let mut book = book_of(&rt, rt.alloc(), &[bid, noncompetitive(1, 2, 500)]);
    assert!(rt; lacks_at(&mut book, None, 1, 1));
    assert!(rt; lacks_at(&mut book, Some(Rate { steps: 1064 }), 1, 1));
    assert!(rt; lacks_at(&mut book, bid.rate, 1, 2));
    assert!(rt; has_totals(&book, 1, 350_000_000, 500));
    assert!(rt; takes_out_at_its_rate(&mut book, &bid));
    assert!(rt; has_totals(&book, 1, 0, 500));
}

#[test]
fn totals_are_told_apart(rt: HostRuntime) {
    let bids = [
        noncompetitive(1, 1, 10_000_000),
        competitive(2, 1, 1065, 350_000_000),
        competitive(1, 2, 1066, 300_000_000),
        noncompetitive(3, 1, 5_000_000),
        competitive(2, 2, 1064, 150_000_000),
    ];
    let book = book_of(&rt, rt.alloc(), &bids);
    assert!(rt; has_totals(&book, 1, 300_000_000, 10_000_000));
    assert!(rt; has_totals(&book, 2, 500_000_000, 0));
    assert!(rt; has_totals(&book, 3, 0, 5_000_000));
    assert!(rt; has_totals(&book, 4, 0, 0));
    assert!(rt; has_noncompetitive(&book, 15_000_000));
}

// The lines of the bids of the tests below, in the order of the book.
fn shows_five(book: &Book) -> bool {
    let wanted = [
        rate_line(1064, 9, 100),
        rate_line(1065, 1, 200),
        rate_line(1065, 1, 300),
        rate_line(1065, 2, 400),
        rate_line(1066, 1, 500),
    ];
    book.lines() == 5 && shows(book, &wanted)
}

// The bids of the test below are added in the order given, and their lines come in the order of the book.
fn come_in_order(rt: &impl Abort, alloc: Global, bids: &[BookLine]) -> bool
    requires { par_in bids.now ≤ most_bid }
{
    shows_five(&book_of(rt, alloc, bids))
}

#[test]
fn lines_come_in_order_of_rate_bidder_and_number(rt: HostRuntime) {
    let low = competitive(9, 7, 1064, 100);
    let first = competitive(1, 2, 1065, 200);
    let second = competitive(1, 10, 1065, 300);
    let third = competitive(2, 1, 1065, 400);
    let high = competitive(1, 1, 1066, 500);
    let unpriced = noncompetitive(1, 3, 600);
    let alloc = rt.alloc();
    assert!(rt; come_in_order(&rt, alloc, &[low, first, second, third, high, unpriced]));
    assert!(rt; come_in_order(&rt, alloc, &[unpriced, high, third, second, first, low]));
    assert!(rt; come_in_order(&rt, alloc, &[second, unpriced, low, high, first, third]));
}

// The same of a book that is sealed while the bids are added, which shows no line before it is open.
fn come_in_order_once_open(
    rt: &impl Abort,
    alloc: Global,
    bids: &[BookLine],
    late: BookLine,
) -> bool
    requires { par_in bids.now + late.amount.value ≤ most_bid }
{
    let mut book = sealed_of(rt, alloc, bids);
    if book.lines() != 0 || !has_totals(&book, 1, 1_000, 600) {
        return false;
    }
    book.unseal();
    book.lines() == 4 && adds(&mut book, late) && shows_five(&book)
}

#[test]
fn lines_of_a_sealed_book_come_in_order_once_it_is_open(rt: HostRuntime) {
    let low = competitive(9, 7, 1064, 100);
    let first = competitive(1, 2, 1065, 200);
    let second = competitive(1, 10, 1065, 300);
    let third = competitive(2, 1, 1065, 400);
    let high = competitive(1, 1, 1066, 500);
    let unpriced = noncompetitive(1, 3, 600);
    let alloc = rt.alloc();
    assert!(rt; come_in_order_once_open(&rt, alloc, &[unpriced, high, second, first, low], third));
    assert!(rt; come_in_order_once_open(&rt, alloc, &[second, unpriced, low, high, first], third));
}

#[test]
fn a_bid_is_taken_out_of_a_sealed_book(rt: HostRuntime) {
    let low = competitive(9, 7, 1064, 100);
    let high = competitive(1, 1, 1066, 500);
    let unpriced = noncompetitive(1, 3, 600);
    let mut book = sealed_of(&rt, rt.alloc(), &[high, unpriced, low]);
    assert!(rt; lacks_at(&mut book, None, 1, 1));
    assert!(rt; takes_out_at_its_rate(&mut book, &high));
    assert!(rt; lacks_at(&mut book, high.rate, 1, 1));
    assert!(rt; takes_out(&mut book, &unpriced));
    assert!(rt; book.lines() == 0);
    book.unseal();
    assert!(rt; shows(&book, &[rate_line(1064, 9, 100)]));
    assert!(rt; has_totals(&book, 1, 0, 0));
    assert!(rt; has_noncompetitive(&book, 0));
}

#[test]
fn a_book_of_noncompetitive_bids_has_no_lines(rt: HostRuntime) {
    let bids = [noncompetitive(1, 1, 100), noncompetitive(2, 1, 200)];
    let book = book_of(&rt, rt.alloc(), &bids);
    assert!(rt; book.lines() == 0);
    assert!(rt; has_noncompetitive(&book, 300));
}

#[test]
fn want_of_memory_leaves_the_lines(rt: HostRuntime) {
    let bid = competitive(1, 1, 1064, 100);
    let mut book = book_of(&rt, rt.alloc(), &[bid]);
    assert!(rt; book.reserve(u64::MAX) == Err(OutOfMemory));
    assert!(rt; has_totals(&book, 1, 100, 0));
    // It succeeds, or fails where a later allocation is made to fail.
    let _ = book.reserve(1000);
    assert!(rt; has_totals(&book, 1, 100, 0));
    assert!(rt; takes_out(&mut book, &bid));
}
