//! Reading the lines of a text book of bids.
ghost use Rattle.std.specs.Prelude.{◌≡◌, ◌≢◌, ◌^◌, ◌<◌, ◌≤◌, ℕ, ℤ, List, [], ◌∷◌, IfSome, IfNone, MatchOption};
ghost use Rattle.std.specs.Fmt.{decimal, signed_decimal};
ghost use Rattle.std.specs.Option.{SomeIff};
ghost use Rattle.tb_units.specs.Bytes.{hyphen};
ghost use Rattle.tb_units.specs.Multiples as multiples;
ghost use Rattle.tb_text_book.specs.Fields.{fields, fields_of};
ghost use Rattle.tb_text_book.specs.BookLines.{
  IsMultiple,
  AreOfferingFields,
  IsBidLine,
  IsReportLine,
  IsPosition,
  Says,
  Spells,
};
ghost use Rattle.tb_text_book.specs.Words.{spelling_of};
ghost use Rattle.tb_text_book.specs.declared.book_line.BookLine.{BookLine};
ghost use Rattle.tb_text_book.specs.declared.book_line.Offering.{Offering};
ghost use Rattle.tb_text_book.specs.declared.book_line.Bid.{Bid};
ghost use Rattle.tb_text_book.specs.declared.book_line.Report.{Report};

use crate::book_line::{Bid, BookLine, Entry, Offering, Report};
use crate::fields::{first_field, three_fields, two_fields};
use crate::numbers::{read_decimal, read_rate};
use crate::word::{Word, word_of};
use tb_lines::LONGEST_LINE;
use tb_units::{Days, Dollars, Ident};

/// Bids and floors are multiples of this, in whole dollars.
const BID_UNIT: u64 = 100;

/// Offerings are multiples of this, in whole dollars.
const OFFERING_UNIT: u64 = 1_000_000;

/// The largest amount, in whole dollars.
const MOST: u64 = Dollars::MOST_READ;

/// Reads a line of a book. Every other text is `None`.
pub fn read_book_line(text: &[u8]) -> Option<BookLine>
    ensures read { IfSome result (Spells text.now) }
    ensures none { IfNone result ((line : BookLine) → ¬ (Spells text.now line)) }
{
    if text.len() > LONGEST_LINE {
        return None;
    }
    read_fields(text)
}

// The line by its fields.
fn read_fields(text: &[u8]) -> Option<BookLine>
    ensures read { IfSome result (Says (fields text.now)) }
    ensures none { IfNone result ((line : BookLine) → ¬ (Says (fields text.now) line)) }
{
    let (word, others) = first_field(text);
    match word_of(word)? {
        Word::Offering => Some(BookLine::Offering(read_offering(others)?)),
        Word::Noncompetitive => Some(BookLine::Entry(Entry::Bid(read_noncompetitive(others)?))),
        Word::Competitive => Some(BookLine::Entry(Entry::Bid(read_competitive(others)?))),
        Word::Position => Some(BookLine::Entry(Entry::Report(read_report(others)?))),
        Word::End => read_end(others),
    }
}

fn read_end(others: Option<&[u8]>) -> Option<BookLine>
    ensures { SomeIff result (fields_of others.entry ≡ []) BookLine.End }
{
    match others {
        None => Some(BookLine::End),
        Some(_) => None,
    }
}

fn read_offering(others: Option<&[u8]>) -> Option<Offering>
    ensures read { IfSome result (AreOfferingFields (fields_of others.entry)) }
    ensures none { IfNone result ((offering : Offering) → ¬ (AreOfferingFields (fields_of others.entry) offering)) }
{
    let (amount, floor, days) = three_fields(others)?;
    let amount = read_multiple(amount, OFFERING_UNIT, MOST)?;
    let floor = read_multiple(floor, BID_UNIT, amount.value as u64)?;
    let days = read_days(days)?;
    Some(Offering {
        amount,
        floor,
        days,
    })
}

fn read_noncompetitive(others: Option<&[u8]>) -> Option<Bid>
    ensures read { IfSome result (IsBidLine (spelling_of Word.Noncompetitive) (fields_of others.entry)) }
    ensures none { IfNone result ((bid : Bid)
        → ¬ (IsBidLine (spelling_of Word.Noncompetitive) (fields_of others.entry) bid)) }
{
    let (bidder, amount) = two_fields(others)?;
    let bidder = Ident::of_bytes(bidder)?;
    let amount = read_multiple(amount, BID_UNIT, MOST)?;
    Some(Bid {
        bidder,
        rate: None,
        amount,
    })
}

fn read_competitive(others: Option<&[u8]>) -> Option<Bid>
    ensures read { IfSome result (IsBidLine (spelling_of Word.Competitive) (fields_of others.entry)) }
    ensures none { IfNone result ((bid : Bid)
        → ¬ (IsBidLine (spelling_of Word.Competitive) (fields_of others.entry) bid)) }
{
    let (bidder, rate, amount) = three_fields(others)?;
    let bidder = Ident::of_bytes(bidder)?;
    let rate = read_rate(rate)?;
    let amount = read_multiple(amount, BID_UNIT, MOST)?;
    Some(Bid {
        bidder,
        rate: Some(rate),
        amount,
    })
}

fn read_report(others: Option<&[u8]>) -> Option<Report>
    ensures read { IfSome result (IsReportLine (spelling_of Word.Position) (fields_of others.entry)) }
    ensures none { IfNone result ((report : Report)
        → ¬ (IsReportLine (spelling_of Word.Position) (fields_of others.entry) report)) }
{
    let (bidder, position) = two_fields(others)?;
    let bidder = Ident::of_bytes(bidder)?;
    let position = read_position(position)?;
    Some(Report { bidder, position })
}

// A whole number of dollars, at most 10^12 on either side of zero, without leading zeros; zero has no sign.
fn read_position(text: &[u8]) -> Option<i64>
    ensures read { IfSome result (λ position. (text.now ≡ signed_decimal position) × IsPosition position) }
    ensures none { IfNone result ((position : ℤ) → IsPosition position → text.now ≢ signed_decimal position) }
{
    match behind_hyphen(text) {
        None => Some(read_decimal(text)? as i64),
        Some(digits) => read_below_zero(digits),
    }
}

// The bytes behind a hyphen in front.
fn behind_hyphen(text: &[u8]) -> Option<&[u8]>
    ensures { MatchOption result
        ((rest : List ℕ) → text.now ≢ hyphen ∷ rest)
        (λ rest. text.now ≡ hyphen ∷ rest.now) }
{
    if text.is_empty() || text[0] != b'-' {
        return None;
    }
    Some(&text[1..])
}

// The number below zero whose digits these are.
fn read_below_zero(digits: &[u8]) -> Option<i64>
    ensures read { IfSome result (λ position. (hyphen ∷ digits.now ≡ signed_decimal position) × IsPosition position) }
    ensures none { IfNone result ((position : ℤ) → IsPosition position
        → hyphen ∷ digits.now ≢ signed_decimal position) }
{
    let below = read_decimal(digits)?;
    if below == 0 {
        return None;
    }
    Some(-(below as i64))
}

// A multiple of the unit, from one unit to the most.
fn read_multiple(text: &[u8], unit: u64, most: u64) -> Option<Dollars>
    requires unit { 0 < unit }
    requires most { most ≤ 10 ^ 12 }
    ensures read { IfSome result (λ amount. (text.now ≡ decimal amount.value) × IsMultiple unit most amount.value) }
    ensures none { IfNone result ((n : ℕ) → IsMultiple unit most n → text.now ≢ decimal n) }
{
    let amount = read_decimal(text)?;
    if !is_multiple(amount, unit, most) {
        return None;
    }
    Some(Dollars {
        value: amount as u128,
    })
}

fn is_multiple(amount: u64, unit: u64, most: u64) -> bool
    requires { 0 < unit }
    ensures { result ≡ multiples.is_multiple unit most amount }
{
    amount % unit == 0 && unit <= amount && amount <= most
}

// The days of a bill.
fn read_days(text: &[u8]) -> Option<Days>
    ensures read { IfSome result (λ days. text.now ≡ decimal days.count) }
    ensures none { IfNone result ((n : ℕ) → 1 ≤ n → n ≤ 366 → text.now ≢ decimal n) }
{
    let count = read_decimal(text)?;
    if count < 1 || count > Days::MOST {
        return None;
    }
    Some(Days {
        count: count as u32,
    })
}
