//! What is kept of a text book of bids while it is read.
ghost use Rattle.std.specs.Prelude.{◌≡◌, ℕ, ◌^◌, ◌<◌, ◌≤◌, ◌++◌, ◌∷◌, [], ◌↔◌, length, IfOk, OnOk, IsErrOf, IsTrue};
ghost use Rattle.tb_units.specs.declared.lines.RateLine.{RateLine};
ghost use Rattle.tb_text_book.specs.Books.{Adds, Book, GetsNumber, IsOneWay, IsPriced, empty_book, with_entry};
ghost use Rattle.tb_lines.specs.LineEnds.{most_lines};
ghost use Rattle.tb_text_book.specs.SoundLines.{IsLine};
ghost use Rattle.tb_text_book.specs.Tallies.{IsTally};
ghost use Rattle.tb_text_book.specs.declared.book_line.BookLine.TheVariants as kind;
ghost use Rattle.tb_text_book.specs.declared.book_line.Entry.TheVariants as entry;
ghost use Rattle.tb_text_book.specs.declared.text_book.AddFault.TheVariants as fault;

use crate::book_line::{Bid, Entry, Offering, Report};
use crate::text_line::TextLine;
use crate::way::Way;
use indexmap::IndexSet;
use std::alloc::Global;
use tb_price::above_zero;
use tb_units::{Dollars, Ident, OutOfMemory, Rate, RateLine};

/// A book, as far as it was read. Bidders are numbered in the order in which they are first seen.
#[derive(Drop)]
pub struct TextBook {
    pub offering: Offering,
    pub bidders: IndexSet<Ident>,
    /// The reported position of each bidder, in whole dollars.
    pub positions: Vec<i64>,
    /// The way in which each bidder bids.
    pub ways: Vec<Way>,
    /// The sum of each bidder's noncompetitive bids, in whole dollars. It stands beside the ways, which are looked at
    /// for each bid, so that these stay small.
    pub sums: Vec<u64>,
    /// The competitive bids, in the order of the book.
    pub lines: Vec<TextLine>,
    /// The sum of all noncompetitive bids.
    pub noncompetitive: Dollars,
}

/// Why an entry was not added.
#[derive(Clone, Copy, Debug, PartialEq, Eq)]
pub enum AddFault {
    /// The entry may not stand behind those before it.
    BadLine,
    OutOfMemory,
}

impl From<OutOfMemory> for AddFault {
    ghost from_gives = { λ _ to. to ≡ fault.OutOfMemory };

    fn from(_error: OutOfMemory) -> AddFault {
        AddFault::OutOfMemory
    }
}

impl TextBook {
    /// A book without entries.
    pub fn new(alloc: Global, offering: Offering) -> TextBook
        ensures tally { IsTally empty_book result }
        ensures offering { result.offering ≡ offering }
    {
        TextBook {
            offering,
            bidders: IndexSet::new(alloc),
            positions: Vec::new(alloc),
            ways: Vec::new(alloc),
            sums: Vec::new(alloc),
            lines: Vec::new(alloc),
            noncompetitive: Dollars { value: 0 },
        }
    }

    /// Adds an entry, where it may stand behind those before it. After an error the book is of no further use.
    pub fn add(&mut self, entry: Entry) -> Result<(), AddFault>
        requires tally { (book : Book) × IsTally book self.old × (length book.names < most_lines)
            × (length book.entries < most_lines) }
        requires spelled { IsLine (kind.Entry entry) }
        ensures added { OnOk result ((book : Book) → IsTally book self.old
            → (new : Book) × Adds self.old.offering book entry new × IsTally new self.new) }
        ensures bad { IsErrOf result AddFault.BadLine → (book : Book) → IsTally book self.old
            → (new : Book) → ¬ (Adds self.old.offering book entry new) }
        ensures offering { self.new.offering ≡ self.old.offering }
    {
        match entry {
            Entry::Bid(bid) => {
                let number = self.number_of(bid.bidder)?;
                self.add_bid(number, &bid)
            }
            Entry::Report(report) => {
                let number = self.number_of(report.bidder)?;
                self.add_report(number, &report);
                Ok(())
            }
        }
    }

    // The number of the bidder, who gets one where it has none.
    fn number_of(&mut self, bidder: Ident) -> Result<usize, OutOfMemory>
        requires tally { (book : Book) × IsTally book self.old × (length book.names < most_lines) }
        ensures small { IfOk result (λ number. number < most_lines) }
        ensures numbered { IfOk result (λ number. (book : Book) → IsTally book self.old
            → GetsNumber bidder book.names number self.new.bidders.keys
            × IsTally (record { names = self.new.bidders.keys; entries = book.entries }) self.new) }
        ensures offering { self.new.offering ≡ self.old.offering }
    {
        let (number, is_new) = self.bidders.insert_full(bidder)?;
        if is_new {
            self.positions.push(0)?;
            self.ways.push(Way::Open)?;
            self.sums.push(0)?;
        }
        Ok(number)
    }

    fn add_report(&mut self, number: usize, report: &Report)
        requires tally { (book : Book) × IsTally book self.old × (number < length book.names) }
        ensures added { (book : Book) → IsTally book self.old
            → IsTally (with_entry book number (entry.Report report.now)) self.new }
        ensures offering { self.new.offering ≡ self.old.offering }
    {
        self.positions[number] = report.position;
    }

    fn add_bid(&mut self, number: usize, bid: &Bid) -> Result<(), AddFault>
        requires tally { (book : Book) × IsTally book self.old × (number < length book.names)
            × (length book.entries < most_lines) }
        requires small { number < most_lines }
        requires amount { bid.now.amount.value ≤ 10 ^ 12 }
        ensures added { OnOk result ((book : Book) → IsTally book self.old
            → IsOneWay book.entries number bid.now.rate × IsPriced self.old.offering bid.now.rate
            × IsTally (with_entry book number (entry.Bid bid.now)) self.new) }
        ensures bad { IsErrOf result AddFault.BadLine → (book : Book) → IsTally book self.old
            → ¬ (IsOneWay book.entries number bid.now.rate × IsPriced self.old.offering bid.now.rate) }
        ensures offering { self.new.offering ≡ self.old.offering }
    {
        let way = match self.ways[number].with_bid(bid) {
            Some(way) if has_price(bid.rate, &self.offering) => way,
            _ => return Err(AddFault::BadLine),
        };
        self.ways[number] = way;
        match bid.rate {
            Some(rate) => push_line(
                &mut self.lines,
                RateLine {
                    rate,
                    bidder: number as u32,
                    amount: bid.amount,
                },
            )?,
            None => {
                self.sums[number] += bid.amount.value as u64;
                self.noncompetitive.value += bid.amount.value;
            }
        }
        Ok(())
    }
}

// A bid without a rate needs no price of its own.
fn has_price(rate: Option<Rate>, offering: &Offering) -> bool
    ensures { IsTrue result ↔ IsPriced offering.now rate }
{
    match rate {
        None => true,
        Some(rate) => above_zero(rate, offering.days),
    }
}

fn push_line(lines: &mut Vec<TextLine>, line: RateLine) -> Result<(), OutOfMemory>
    requires { line.amount.value ≤ 10 ^ 12 }
    ensures { OnOk result (lines.new.items ≡ lines.old.items ++ line ∷ []) }
{
    lines.push(TextLine::of(line))?;
    Ok(())
}
