//! Tests of the public calls, with results that were worked out by hand.
ghost use Rattle.std.specs.Prelude.{◌≡◌, ◌+◌, ◌%◌, ◌<◌, ◌≤◌, ◌^◌, true, length, All, IfSome};
ghost use Rattle.tb_units.specs.Multiples.{most_par};
ghost use Rattle.tb_book.specs.Books.{open_lines, par_in};
ghost use Rattle.tb_results.specs.Biddings.{is_priced, is_sound_line};

use std::alloc::Global;
use std::marker::Brand;
use std::process::Abort;
use std::sync::ledger::{Blank, Ledger};
use tb_award::{Cut, Recognised, recognise};
use tb_book::{Book, BookLine};
use tb_history::{AddOn, AddOnLine, Awards, Enrolment, Results};
use tb_price::above_zero;
use tb_results::*;
use tb_terms::{Announcement, Cusip, EasternDays, Terms, read_day};
use tb_units::{Cents, Day, Days, Dollars, Ident, Lines, Rate, Steps};

fn day(rt: &impl Abort, text: &str) -> Day {
    read_day(text).expect(rt, "no day")
}

fn name(rt: &impl Abort, text: &str) -> Ident {
    Ident::read(text).expect(rt, "no name")
}

// A bidder of the submitter `broker`.
fn fund(rt: &impl Abort) -> Enrolment {
    Enrolment {
        bidder: name(rt, "fund"),
        submitter: name(rt, "broker"),
    }
}

// An add-on of 5,000,000,000.
fn added(rt: &impl Abort, holder: &str) -> AddOn
    ensures { result.amount.value ≤ most_par }
{
    AddOn {
        auction: name(rt, "bill13"),
        holder: name(rt, holder),
        amount: Dollars {
            value: 5_000_000_000,
        },
    }
}

// A bill of 91 days: 2024-11-07 to 2025-02-06.
fn announced(rt: &impl Abort) -> Announcement {
    Announcement {
        auction: name(rt, "bill13"),
        cusip: Cusip {
            bytes: *b"912797AA5",
        },
        offering: Dollars {
            value: 1_000_000_000,
        },
        minimum: Dollars { value: 100 },
        nc_ceiling: Dollars { value: 100_000_000 },
        competitive_floor: Dollars { value: 1_000_000 },
        nlp_threshold: Dollars { value: 350_000_000 },
        auction_date: day(rt, "2024-11-04"),
        nc_close: 660,
        c_close: 690,
        issue: day(rt, "2024-11-07"),
        maturity: day(rt, "2025-02-06"),
    }
}

fn terms_of(rt: &impl Abort, alloc: Global) -> Terms
    ensures days { result.days.count ≡ 91 }
    ensures offering { result.announcement.offering.value % 100 ≡ 0 }
    ensures floor { 100 ≤ result.announcement.competitive_floor.value }
{
    let days = EasternDays::new(alloc).expect(rt, "memory");
    let terms = Terms::check(&announced(rt), &days).expect(rt, "not in order");
    assert!(rt; terms.days.count == 91);
    assert!(rt; terms.announcement.offering.value % 100 == 0);
    assert!(rt; 100 <= terms.announcement.competitive_floor.value);
    terms
}

fn is_priced(rate: Option<Rate>) -> bool
    ensures { result ≡ is_priced 91 rate }
{
    match rate {
        None => true,
        Some(rate) => above_zero(rate, Days { count: 91 }),
    }
}

fn is_sound(bidders: u32, line: &BookLine) -> bool
    ensures { result ≡ is_sound_line bidders 91 line.now }
{
    line.bidder < bidders
        && line.amount.value > 0
        && line.amount.value % 100 == 0
        && is_priced(line.rate)
}

// Adds a line, of which there is none yet.
fn add(rt: &impl Abort, book: &mut Book, bidders: u32, line: BookLine)
    requires sound { is_sound_line bidders 91 line ≡ true }
    requires all { All (λ l. is_sound_line bidders 91 l ≡ true) book.old.lines }
    requires fits { par_in book.old.lines + line.amount.value ≤ 10 ^ 22 }
    ensures all { All (λ l. is_sound_line bidders 91 l ≡ true) book.new.lines }
    ensures par { par_in book.new.lines ≤ par_in book.old.lines + line.amount.value }
    ensures opened { book.new.opened ≡ book.old.opened }
{
    book.reserve(1).expect(rt, "memory");
    let there = book.take_out(line.bidder, line.number);
    assert!(rt; there.is_none());
    book.add(line);
}

// A table of bids: bidder, number, steps of 0.005 percent of a competitive bid, and whole dollars.
fn book_of(
    rt: &impl Abort,
    alloc: Global,
    bidders: u32,
    table: &[(u32, u64, Option<u32>, u32)],
) -> Book
    requires { length table.now ≤ 1000 }
    ensures sound { All (λ l. is_sound_line bidders 91 l ≡ true) result.lines }
    ensures opened { result.opened ≡ true }
{
    let mut book = Book::new(alloc);
    for place in 0..table.len() {
        let (bidder, number, steps, dollars) = table[place];
        let line = line_of(rt, bidder, number, steps, dollars);
        assert!(rt; is_sound(bidders, &line));
        add(rt, &mut book, bidders, line);
    }
    book
}

fn rate_of(rt: &impl Abort, steps: Option<u32>) -> Option<Rate> {
    let steps = steps?;
    assert!(rt; steps < 200_000);
    Some(Rate { steps })
}

fn line_of(rt: &impl Abort, bidder: u32, number: u64, steps: Option<u32>, dollars: u32) -> BookLine
    ensures { result.amount.value ≤ 2 ^ 32 }
{
    BookLine {
        bidder,
        number,
        rate: rate_of(rt, steps),
        amount: Dollars {
            value: dollars as u128,
        },
    }
}

fn results_of(
    rt: &impl Abort,
    alloc: Global,
    terms: &Terms,
    book: &Book,
    add_on: Option<AddOn>,
) -> Results
    requires days { terms.now.days.count ≡ 91 }
    requires offering { terms.now.announcement.offering.value % 100 ≡ 0 }
    requires floor { 100 ≤ terms.now.announcement.competitive_floor.value }
    requires sound { All (λ l. is_sound_line 5 91 l ≡ true) book.now.lines }
    requires opened { book.now.opened ≡ true }
{
    results(alloc, terms, book, &[0; 5], add_on).expect(rt, "memory")
}

// What each of the five bidders is awarded.
fn awarded_of(rt: &impl Abort, alloc: Global, terms: &Terms, book: &Book) -> Vec<u128>
    requires days { terms.now.days.count ≡ 91 }
    requires offering { terms.now.announcement.offering.value % 100 ≡ 0 }
    requires floor { 100 ≤ terms.now.announcement.competitive_floor.value }
    requires sound { All (λ l. is_sound_line 5 91 l ≡ true) book.now.lines }
    requires opened { book.now.opened ≡ true }
{
    let mut recognised = Recognised::empty(alloc);
    recognised.reserve(book.lines(), 5).expect(rt, "memory");
    let outcome = cut_book(&mut recognised, terms, book, &[0; 5]);
    let mut amounts = Vec::new(alloc);
    amounts.reserve(5).expect(rt, "memory");
    award_all(&mut amounts, &outcome, &recognised, book, 5);
    amounts
}

// Each of the five bidders is awarded so much of the terms' offering.
fn are_awarded(rt: &impl Abort, alloc: Global, book: &Book, amounts: &[u128; 5]) -> bool
    requires sound { All (λ l. is_sound_line 5 91 l ≡ true) book.now.lines }
    requires opened { book.now.opened ≡ true }
{
    let terms = terms_of(rt, alloc);
    awarded_of(rt, alloc, &terms, book).as_slice() == amounts.as_slice()
}

// The awards that a caller reads of the bidders, where `fund` alone is enrolled.
fn awards_of(
    rt: &impl Abort,
    alloc: Global,
    terms: &Terms,
    book: &Book,
    add_on: Option<AddOn>,
    caller: &str,
) -> Awards
    requires days { terms.now.days.count ≡ 91 }
    requires offering { terms.now.announcement.offering.value % 100 ≡ 0 }
    requires floor { 100 ≤ terms.now.announcement.competitive_floor.value }
    requires sound { All (λ l. is_sound_line 1 91 l ≡ true) book.now.lines }
    requires opened { book.now.opened ≡ true }
    requires range { IfSome add_on (λ x. x.amount.value ≤ most_par) }
{
    let bidder = fund(rt);
    let caller = name(rt, caller);
    awards(alloc, terms, book, &[0], &[bidder], add_on, &caller).expect(rt, "memory")
}

// What a caller reads without an add-on, where `fund` alone is enrolled.
fn awards_alone(rt: &impl Abort, alloc: Global, book: &Book, caller: &str) -> Awards
    requires sound { All (λ l. is_sound_line 1 91 l ≡ true) book.now.lines }
    requires opened { book.now.opened ≡ true }
{
    let terms = terms_of(rt, alloc);
    awards_of(rt, alloc, &terms, book, None, caller)
}

// What a caller reads of the add-on, where `fund` alone is enrolled.
fn add_on_of(
    rt: &impl Abort,
    alloc: Global,
    book: &Book,
    holder: &str,
    caller: &str,
) -> Option<AddOnLine>
    requires sound { All (λ l. is_sound_line 1 91 l ≡ true) book.now.lines }
    requires opened { book.now.opened ≡ true }
{
    let terms = terms_of(rt, alloc);
    awards_of(rt, alloc, &terms, book, Some(added(rt, holder)), caller).addon
}

// The add-on's par in dollars, and its payment in cents.
fn line(amount: u64, payment: u64) -> Option<AddOnLine> {
    Some(AddOnLine {
        amount: Dollars {
            value: u128::from(amount),
        },
        payment: Cents {
            value: u128::from(payment),
        },
    })
}

// Four competitive lines are recognised in four steps at most.
fn recognised_in_four_steps<L: Ledger>(
    rt: &impl Abort,
    alloc: Global,
    book: &Book,
    steps: &mut Steps<L>,
) -> Recognised
    requires four { length (open_lines book.now) ≡ 4 }
    requires known { All (λ line. line.bidder < 5) (open_lines book.now) }
    ensures { steps.new ≤ steps.old + 4 }
{
    let offering = Dollars {
        value: 1_000_000_000,
    };
    recognise(alloc, book, &[0; 5], offering, steps).expect(rt, "memory")
}

fn recognised_by<L: Ledger>(rt: &impl Abort, alloc: Global, blank: Blank, book: &Book) -> Recognised
    requires name { blank.name ≡ L.name }
    requires parts { blank.parts ≡ L.parts }
    requires some { 0 < L.parts }
    requires four { length (open_lines book.now) ≡ 4 }
    requires known { All (λ line. line.bidder < 5) (open_lines book.now) }
{
    let mut steps = Steps::<L>::new(blank);
    recognised_in_four_steps(rt, alloc, book, &mut steps)
}

fn recognised_of(rt: &impl Abort, alloc: Global, book: &Book) -> Recognised
    requires sound { All (λ l. is_sound_line 5 91 l ≡ true) book.now.lines }
    requires opened { book.now.opened ≡ true }
{
    assert!(rt; book.lines() == 4);
    recognised_by::<Brand>(rt, alloc, Blank::new(1), book)
}

// What is recognised in this place is a line of the bidder, at so many steps and for so many dollars.
fn is_recognised(
    recognised: &Recognised,
    place: u64,
    bidder: u32,
    steps: u32,
    dollars: u32,
) -> bool {
    if recognised.count() <= place {
        return false;
    }
    let line = recognised.line(place);
    line.bidder == bidder && line.rate.steps == steps && line.amount.value == u128::from(dollars)
}

// Noncompetitive par of one bidder, and four competitive bids that stop at 5.330 percent.
fn sample_book(rt: &impl Abort, alloc: Global) -> Book
    ensures sound { All (λ l. is_sound_line 5 91 l ≡ true) result.lines }
    ensures opened { result.opened ≡ true }
{
    let table = [
        (0, 1, None, 100_000_000),
        (1, 1, Some(1064), 300_000_000),
        (2, 1, Some(1065), 350_000_000),
        (3, 1, Some(1066), 300_000_000),
        (4, 1, Some(1066), 150_000_000),
    ];
    book_of(rt, alloc, 5, &table)
}

#[test]
fn four_competitive_lines_are_recognised_in_four_steps(rt: HostRuntime) {
    let book = sample_book(&rt, rt.alloc());
    let recognised = recognised_of(&rt, rt.alloc(), &book);
    assert!(rt; recognised.count() == 4);
    assert!(rt; is_recognised(&recognised, 0, 1, 1064, 300_000_000));
    assert!(rt; is_recognised(&recognised, 1, 2, 1065, 350_000_000));
    assert!(rt; is_recognised(&recognised, 2, 3, 1066, 300_000_000));
    assert!(rt; is_recognised(&recognised, 3, 4, 1066, 150_000_000));
}

// The results of the sample.
fn sample_results(rt: &impl Abort, alloc: Global, add_on: Option<AddOn>) -> Results {
    let terms = terms_of(rt, alloc);
    let book = sample_book(rt, alloc);
    results_of(rt, alloc, &terms, &book, add_on)
}

// So many dollars are noncompetitive, and so many are added on.
fn amounts_are(results: &Results, noncompetitive: u64, addon: u64) -> bool {
    results.noncompetitive.value == u128::from(noncompetitive)
        && results.addon.value == u128::from(addon)
}

// The auction stops at 5.330 percent, where 55.56 percent are awarded.
fn stops(cut: &Cut) -> bool {
    cut.stop.steps == 1066
        && cut.percent.hundredths == 5556
        && cut.price.millionths == 98_652_694
        && cut.sought.value == 900_000_000
}

// The figures of the sample, which no add-on changes.
fn has_figures(results: &Results) -> bool {
    let Some(figures) = &results.figures else {
        return false;
    };
    stops(&figures.cut)
        && figures.competitive.value == 900_020_000
        && figures.median.steps == 1065
        && figures.low.steps == 1064
        && figures.investment.thousandths == 5478
}

#[test]
fn an_auction_stops_in_its_last_rate(rt: HostRuntime) {
    let results = sample_results(&rt, rt.alloc(), None);
    assert!(rt; results.terms == announced(&rt));
    assert!(rt; amounts_are(&results, 100_000_000, 0));
    assert!(rt; has_figures(&results));
}

#[test]
fn an_add_on_changes_no_other_figure(rt: HostRuntime) {
    let results = sample_results(&rt, rt.alloc(), Some(added(&rt, "broker")));
    assert!(rt; amounts_are(&results, 100_000_000, 5_000_000_000));
    assert!(rt; has_figures(&results));
}

#[test]
fn awards_at_the_stop_are_prorated(rt: HostRuntime) {
    let book = sample_book(&rt, rt.alloc());
    let amounts = [
        100_000_000,
        300_000_000,
        350_000_000,
        166_680_000,
        83_340_000,
    ];
    assert!(rt; are_awarded(&rt, rt.alloc(), &book, &amounts));
}

// The results of the book, beside which 5,000,000,000 are added on.
fn results_with_add_on(rt: &impl Abort, alloc: Global, book: &Book) -> Results
    requires sound { All (λ l. is_sound_line 5 91 l ≡ true) book.now.lines }
    requires opened { book.now.opened ≡ true }
{
    let terms = terms_of(rt, alloc);
    results_of(rt, alloc, &terms, book, Some(added(rt, "broker")))
}

#[test]
fn without_competitive_bids_nobody_is_awarded_anything(rt: HostRuntime) {
    let alloc = rt.alloc();
    let book = book_of(&rt, alloc, 5, &[(0, 1, None, 100_000_000)]);
    let results = results_with_add_on(&rt, alloc, &book);
    assert!(rt; amounts_are(&results, 100_000_000, 5_000_000_000));
    assert!(rt; results.figures.is_none());
    assert!(rt; are_awarded(&rt, alloc, &book, &[0; 5]));
}

// A noncompetitive bid of `fund`, and one at 5.320 percent.
fn book_of_fund(rt: &impl Abort, alloc: Global) -> Book
    ensures sound { All (λ l. is_sound_line 1 91 l ≡ true) result.lines }
    ensures opened { result.opened ≡ true }
{
    let bids = [(0, 1, None, 100_000_000), (0, 2, Some(1064), 300_000_000)];
    book_of(rt, alloc, 1, &bids)
}

// `fund` alone is awarded anything: the par of both its bids.
fn is_awarded_both(rt: &impl Abort, awards: &Awards) -> bool {
    if awards.lines.count() != 1 {
        return false;
    }
    let line = awards.lines.line(0);
    line.bidder == name(rt, "fund")
        && line.amount.value == 400_000_000
        && line.payment.value == 39_462_088_800
}

#[test]
fn a_submitter_reads_the_awards_of_its_bidders(rt: HostRuntime) {
    let book = book_of_fund(&rt, rt.alloc());
    let awards = awards_alone(&rt, rt.alloc(), &book, "broker");
    assert!(rt; is_awarded_both(&rt, &awards));
    assert!(rt; awards.addon.is_none());
    assert!(rt; awards_alone(&rt, rt.alloc(), &book, "other").lines.count() == 0);
}

// At 5.320 percent for 91 days the price is 98.655222.
#[test]
fn the_holder_alone_reads_the_add_on(rt: HostRuntime) {
    let alloc = rt.alloc();
    let book = book_of_fund(&rt, alloc);
    let whole = line(5_000_000_000, 493_276_110_000);
    assert!(rt; add_on_of(&rt, alloc, &book, "broker", "broker") == whole);
    assert!(rt; add_on_of(&rt, alloc, &book, "other", "other") == whole);
    assert!(rt; add_on_of(&rt, alloc, &book, "other", "broker").is_none());
}

#[test]
fn without_awards_nothing_of_the_add_on_is_awarded(rt: HostRuntime) {
    let book = book_of(&rt, rt.alloc(), 1, &[(0, 1, None, 100_000_000)]);
    assert!(rt; add_on_of(&rt, rt.alloc(), &book, "other", "other") == line(0, 0));
}
