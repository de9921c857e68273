//! What `award` prints for a book.
ghost use Rattle.std.specs.Prelude.{
  ◌≡◌,
  ℕ,
  ℤ,
  pos,
  ◌%◌,
  ◌<◌,
  ◌≤◌,
  ◌++◌,
  ◌^◌,
  ◌+◌,
  length,
  List,
  slice_index,
  slice_index_or,
  map,
  All,
  Bool,
  true,
  false,
  IfOk,
  OnOk,
};
ghost use Rattle.tb_units.specs.declared.lines.RateLine.{RateLine};
ghost use Rattle.tb_award.specs.Awards.{AreAwards, awarded_to};
ghost use Rattle.tb_award.specs.Cuts.{total_of};
ghost use Rattle.tb_award.specs.Recognition.{IsRecognitionOf};
ghost use Rattle.tb_text_book.specs.Books.{Book};
ghost use Rattle.tb_text_book.specs.BookRun.{
  AreAwardLines,
  IsAwardText,
  award_line,
  cut_text,
  labelled,
  no_awards_text,
  nothing_lines,
};
ghost use Rattle.tb_text_book.specs.Tallies.{IsKept};
ghost use Rattle.tb_text_book.specs.AwardTexts.{HasCutText, HasNothingText, HasAmounts};

use crate::text_book::TextBook;
use crate::text_line::{OrderedLines, TextLine};
use std::alloc::Global;
use tb_award::{Cut, Outcome, Recognised, award, cut, recognise_uncounted, sought};
use tb_price::payment;
use tb_units::{Cents, Dollars, Ident, OutOfMemory, Price};

/// The lines `high`, `allotted` and `price` of the book's auction, or `no awards`, and where it is asked for in full a
/// line for each bidder.
pub fn award_text(alloc: Global, book: TextBook, full: bool) -> Result<Vec<u8>, OutOfMemory>
    requires { (kept : Book) × IsKept kept book }
    ensures { IfOk result (λ text. (kept : Book) → IsKept kept book → IsAwardText full book.offering kept text.items) }
{
    if full {
        full_text(alloc, book)
    } else {
        short_text(alloc, book)
    }
}

// The text with a line for each bidder.
fn full_text(alloc: Global, book: TextBook) -> Result<Vec<u8>, OutOfMemory>
    requires { (kept : Book) × IsKept kept book }
    ensures { IfOk result (λ text. (kept : Book) → IsKept kept book → IsAwardText true book.offering kept text.items) }
{
    let TextBook {
        offering,
        bidders,
        positions,
        sums,
        lines,
        noncompetitive,
        ..
    } = book;
    let recognised = recognise_lines(alloc, lines, &positions, offering.amount)?;
    let sought = sought(offering.amount, noncompetitive, offering.floor);
    match cut(&recognised, sought, offering.days) {
        Outcome::NoAwards => nothing_text(alloc, bidders.as_slice()),
        Outcome::Cut(cut) => cut_text(alloc, &cut, &recognised, bidders.as_slice(), &sums),
    }
}

// The text without such lines.
fn short_text(alloc: Global, book: TextBook) -> Result<Vec<u8>, OutOfMemory>
    requires { (kept : Book) × IsKept kept book }
    ensures { IfOk result (λ text. (kept : Book) → IsKept kept book → IsAwardText false book.offering kept text.items) }
{
    let TextBook {
        offering,
        bidders,
        positions,
        ways,
        sums,
        lines,
        noncompetitive,
    } = book;
    // No bidder is named, so their memory is free for what is recognised.
    drop(bidders);
    drop(ways);
    drop(sums);
    let recognised = recognise_lines(alloc, lines, &positions, offering.amount)?;
    let sought = sought(offering.amount, noncompetitive, offering.floor);
    match cut(&recognised, sought, offering.days) {
        Outcome::NoAwards => nothing_line(alloc),
        Outcome::Cut(cut) => cut_lines(alloc, &cut),
    }
}

// What is recognised of the competitive bids.
fn recognise_lines(
    alloc: Global,
    lines: Vec<TextLine>,
    positions: &[i64],
    offering: Dollars,
) -> Result<Recognised, OutOfMemory>
    requires hundreds { offering.value % 100 ≡ 0 }
    requires known { All (λ line. line.bidder < length positions.now) lines.items }
    ensures recognised { IfOk result (λ recognised. IsRecognitionOf lines.items positions.now offering.value
        recognised.lines) }
    ensures within { IfOk result (λ recognised. total_of recognised.lines ≤ total_of lines.items) }
{
    let ordered = OrderedLines::new(lines);
    recognise_uncounted(alloc, &ordered, positions, offering)
}

// The full text of an auction with a cut.
fn cut_text(
    alloc: Global,
    cut: &Cut,
    recognised: &Recognised,
    bidders: &[Ident],
    sums: &[u64],
) -> Result<Vec<u8>, OutOfMemory>
    requires sizes { length bidders.now ≡ length sums.now }
    requires known { All (λ line. line.bidder < length sums.now) recognised.now.lines }
    requires fits { total_of recognised.now.lines ≤ 10 ^ 19 }
    requires sums { All (λ sum. sum ≤ 10 ^ 19) sums.now }
    ensures { IfOk result (λ text. HasCutText true cut.now recognised.now.lines bidders.now sums.now text.items) }
{
    let mut text = cut_lines(alloc, cut)?;
    let amounts = amounts(alloc, cut, recognised, sums)?;
    push_award_lines(&mut text, bidders, &amounts, cut.price)?;
    Ok(text)
}

// The full text of an auction in which nobody gets an award.
fn nothing_text(alloc: Global, bidders: &[Ident]) -> Result<Vec<u8>, OutOfMemory>
    ensures { IfOk result (λ text. HasNothingText true bidders.now text.items) }
{
    let mut text = nothing_line(alloc)?;
    push_nothing_lines(&mut text, bidders)?;
    Ok(text)
}

// The line `no awards`.
fn nothing_line(alloc: Global) -> Result<Vec<u8>, OutOfMemory>
    ensures { IfOk result (λ text. text.items ≡ no_awards_text) }
{
    let mut text = Vec::new(alloc);
    text.extend_from_slice(b"no awards\n")?;
    Ok(text)
}

/// The lines `high`, `allotted` and `price`.
pub fn cut_lines(alloc: Global, cut: &Cut) -> Result<Vec<u8>, OutOfMemory>
    ensures { IfOk result (λ text. text.items
        ≡ cut_text cut.now.stop.steps cut.now.percent.hundredths cut.now.price.millionths) }
{
    let mut text = Vec::new(alloc);
    push_line(&mut text, b"high", cut.stop.print().bytes())?;
    push_line(&mut text, b"allotted", cut.percent.print().bytes())?;
    push_line(&mut text, b"price", cut.price.print().bytes())?;
    Ok(text)
}

/// The line of a word and a value.
pub fn push_line(text: &mut Vec<u8>, word: &[u8], value: &[u8]) -> Result<(), OutOfMemory>
    ensures { OnOk result (text.new.items ≡ text.old.items ++ labelled word.now value.now) }
{
    text.extend_from_slice(word)?;
    text.push(b' ')?;
    text.extend_from_slice(value)?;
    text.push(b'\n')?;
    Ok(())
}

// What each bidder gets: its awards, and what it bids noncompetitively.
fn amounts(
    alloc: Global,
    cut: &Cut,
    recognised: &Recognised,
    sums: &[u64],
) -> Result<Vec<u128>, OutOfMemory>
    requires known { All (λ line. line.bidder < length sums.now) recognised.now.lines }
    requires fits { total_of recognised.now.lines ≤ 10 ^ 19 }
    requires sums { All (λ sum. sum ≤ 10 ^ 19) sums.now }
    ensures { IfOk result (λ amounts. HasAmounts cut.now recognised.now.lines sums.now amounts.items) }
{
    let mut amounts = noncompetitive_amounts(alloc, sums)?;
    for place in 0..recognised.count() {
        let line = recognised.line(place);
        amounts[line.bidder as usize] += award(cut, line.rate, line.amount).value;
    }
    Ok(amounts)
}

fn noncompetitive_amounts(alloc: Global, sums: &[u64]) -> Result<Vec<u128>, OutOfMemory>
    ensures { IfOk result (λ amounts. amounts.items ≡ sums.now) }
{
    let mut amounts = Vec::with_capacity(alloc, sums.len())?;
    for sum in sums {
        amounts.push(*sum as u128)?;
    }
    Ok(amounts)
}

fn push_award_lines(
    text: &mut Vec<u8>,
    bidders: &[Ident],
    amounts: &[u128],
    price: Price,
) -> Result<(), OutOfMemory>
    requires sizes { length bidders.now ≡ length amounts.now }
    requires fits { All (λ amount. amount ≤ 10 ^ 22) amounts.now }
    ensures { OnOk result ((lines : List ℕ) × (text.new.items ≡ text.old.items ++ lines)
        × AreAwardLines (slice_index amounts.now) price.millionths 0 bidders.now lines) }
{
    for (number, bidder) in bidders.iter().enumerate() {
        let amount = Dollars {
            value: amounts[number],
        };
        push_award_line(text, bidder, amount, payment(amount, price))?;
    }
    Ok(())
}

fn push_nothing_lines(text: &mut Vec<u8>, bidders: &[Ident]) -> Result<(), OutOfMemory>
    ensures { OnOk result (text.new.items ≡ text.old.items ++ nothing_lines bidders.now) }
{
    for bidder in bidders {
        push_award_line(text, bidder, Dollars { value: 0 }, Cents { value: 0 })?;
    }
    Ok(())
}

// The line `award BIDDER AMOUNT PAYMENT`.
fn push_award_line(
    text: &mut Vec<u8>,
    bidder: &Ident,
    amount: Dollars,
    payment: Cents,
) -> Result<(), OutOfMemory>
    ensures { OnOk result (text.new.items ≡ text.old.items ++ award_line bidder.now amount.value payment.value) }
{
    text.extend_from_slice(b"award ")?;
    text.extend_from_slice(bidder.bytes())?;
    text.push(b' ')?;
    text.extend_from_slice(amount.print().bytes())?;
    text.push(b' ')?;
    text.extend_from_slice(payment.print().bytes())?;
    text.push(b'\n')?;
    Ok(())
}
