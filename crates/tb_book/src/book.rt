//! The book of live bids.
ghost use Rattle.std.specs.Prelude.{◌≡◌, ◌+◌, ◌<◌, ◌≤◌, ◌↔◌, [], ◌∷◌, true, false, length, slice_index_or, OnOk, IsOk, IfSome, IfNone, IsNone, IsPermutation};
ghost use Rattle.tb_book.specs.Books.{HasBid, HasBidAt, IsInserted, IsTakenOut, IsKept, competitive_of, noncompetitive_of, noncompetitive_in, open_lines, par_in, most_bid};

use crate::bidder::{Bidders, lower, raise, totals_of};
use crate::book_line::BookLine;
use crate::line_list::LineList;
use crate::stored_line::StoredLine;
use std::alloc::Global;
use std::collections::HashMap;
use std::marker::Model;
use std::sync::ledger::Ledger;
use tb_units::{Dollars, Lines, OutOfMemory, Rate, RateLine, Steps};

/// The live bids of one auction. Contracts see the list of lines, the room for more, and whether the book is open. The
/// lines of an open book are in order of rate, bidder and number with the noncompetitive lines last. Those of a sealed
/// one are in no order until it is opened, and aren't read before.
#[derive(Drop)]
pub struct Book {
    lines: LineList,
    // The sums of each bidder, and of all noncompetitive lines.
    bidders: Bidders,
    noncompetitive: u128,
    // So many more lines, and bidders, may be added.
    spare: usize,
}

impl Model for Book {
    ghost use Rattle.tb_book.specs.Books.{Bids};
    ghost use Rattle.tb_book.specs.Indexes.{IsIndexed, HasSpare};

    ghost Value = { Bids };

    ghost view = { λ book. record { lines = book.lines.lines; spare = book.spare; opened = book.lines.opened } };

    ghost invariant = { λ book.
        IsIndexed book.lines.opened book.lines.lines book.bidders book.noncompetitive
        × HasSpare book.spare book.lines.spare book.bidders };
}

impl Book {
    /// An empty book, which is open: each line that is added goes to its place.
    #[tactic(auto, unfolding(crate::specs::Indexes::total_of))]
    pub fn new(alloc: Global) -> Book
        ensures lines { result.lines ≡ [] }
        ensures opened { result.opened ≡ true }
    {
        Book {
            lines: LineList::new(alloc, true),
            bidders: HashMap::new(alloc),
            noncompetitive: 0,
            spare: 0,
        }
    }

    /// An empty book, which is sealed: lines that are added are put in order many at a time.
    #[tactic(auto, unfolding(crate::specs::Indexes::total_of))]
    pub fn sealed(alloc: Global) -> Book
        ensures lines { result.lines ≡ [] }
        ensures opened { result.opened ≡ false }
    {
        Book {
            lines: LineList::new(alloc, false),
            bidders: HashMap::new(alloc),
            noncompetitive: 0,
            spare: 0,
        }
    }

    /// Opens the book, which needs no room: its lines stand in order, and may be read.
    pub fn unseal(&mut self)
        ensures opened { self.new.opened ≡ true }
        ensures elements { IsPermutation self.old.lines self.new.lines }
        ensures kept { IsKept self.new }
        ensures room { self.new.spare ≡ self.old.spare }
    {
        self.lines.unseal();
    }

    /// Takes the memory for so many more lines. No other call takes memory.
    #[tactic(auto, unfolding(crate::specs::Indexes::total_of))]
    pub fn reserve(&mut self, more: u64) -> Result<(), OutOfMemory>
        ensures spare { OnOk result (more ≤ self.new.spare) }
        // Where the room is there already it succeeds.
        ensures there { more ≤ self.old.spare → IsOk result }
        // The lines stay, and no room is lost, whatever the result.
        ensures lines { self.new.lines ≡ self.old.lines }
        ensures room { self.old.spare ≤ self.new.spare }
        ensures opened { self.new.opened ≡ self.old.opened }
    {
        let wanted = more as usize;
        if wanted <= self.spare {
            return Ok(());
        }
        self.lines.reserve(wanted)?;
        self.bidders.reserve(wanted)?;
        self.spare = wanted;
        Ok(())
    }

    /// How many more lines there is room for.
    pub fn spare(&self) -> u64
        ensures { result ≡ self.now.spare }
    {
        self.spare as u64
    }

    /// Adds a line, which can't fail.
    pub fn add(&mut self, line: BookLine)
        requires room { 0 < self.old.spare }
        requires new { ¬ (HasBid line.bidder line.number self.old.lines) }
        requires fits { par_in self.old.lines + line.amount.value ≤ most_bid }
        // The lines of an open book are in order.
        ensures lines { self.old.opened ≡ true → IsInserted line self.old.lines self.new.lines }
        ensures elements { IsPermutation (line ∷ self.old.lines) self.new.lines }
        ensures kept { IsKept self.new }
        ensures room { self.old.spare ≤ self.new.spare + 1 }
        ensures opened { self.new.opened ≡ self.old.opened }
    {
        self.lines.insert(StoredLine::of(line));
        raise(
            &mut self.bidders,
            line.bidder,
            line.competitive(),
            line.noncompetitive(),
        );
        self.noncompetitive += line.noncompetitive();
        self.spare -= 1;
    }

    /// Takes out the bidder's line of this number. `None` where there is no such line. It goes over the lines: one who
    /// knows the rate calls `take_out_at`.
    pub fn take_out(&mut self, bidder: u32, number: u64) -> Option<BookLine>
        ensures none { IsNone result ↔ (¬ (HasBid bidder number self.old.lines)) }
        ensures own { IfSome result (λ line. (line.bidder ≡ bidder) × (line.number ≡ number)) }
        ensures taken { self.old.opened ≡ true → IfSome result (λ line. IsTakenOut line self.old.lines self.new.lines) }
        ensures elements { IfSome result (λ line. IsPermutation self.old.lines (line ∷ self.new.lines)) }
        ensures unchanged { IfNone result (self.new ≡ self.old) }
        ensures kept { IsKept self.new }
        ensures room { self.old.spare ≤ self.new.spare }
        ensures opened { self.new.opened ≡ self.old.opened }
    {
        let stored = self.lines.find(bidder, number)?;
        self.take_out_at(stored.line().rate, bidder, number)
    }

    /// Takes out the bidder's line of this rate, or of none, and of this number. `None` where there is no such line.
    pub fn take_out_at(&mut self, rate: Option<Rate>, bidder: u32, number: u64) -> Option<BookLine>
        ensures none { IsNone result ↔ (¬ (HasBidAt rate bidder number self.old.lines)) }
        ensures own { IfSome result (λ line. (line.rate ≡ rate) × (line.bidder ≡ bidder) × (line.number ≡ number)) }
        ensures taken { self.old.opened ≡ true → IfSome result (λ line. IsTakenOut line self.old.lines self.new.lines) }
        ensures elements { IfSome result (λ line. IsPermutation self.old.lines (line ∷ self.new.lines)) }
        ensures unchanged { IfNone result (self.new ≡ self.old) }
        ensures kept { IsKept self.new }
        ensures room { self.old.spare ≤ self.new.spare }
        ensures opened { self.new.opened ≡ self.old.opened }
    {
        let stored = self.lines.remove(rate, bidder, number)?;
        let line = stored.line();
        lower(
            &mut self.bidders,
            bidder,
            line.competitive(),
            line.noncompetitive(),
        );
        self.noncompetitive -= line.noncompetitive();
        Some(line)
    }

    /// The sums of the bidder's competitive and of its noncompetitive lines.
    pub fn totals(&self, bidder: u32) -> (Dollars, Dollars)
        ensures competitive { result.0.value ≡ competitive_of bidder self.now.lines }
        ensures noncompetitive { result.1.value ≡ noncompetitive_of bidder self.now.lines }
        ensures limited { result.0.value + result.1.value ≤ most_bid }
        ensures kept { IsKept self.now }
    {
        let (competitive, noncompetitive) = totals_of(&self.bidders, bidder);
        (
            Dollars { value: competitive },
            Dollars {
                value: noncompetitive,
            },
        )
    }

    /// The sum of all noncompetitive lines.
    pub fn noncompetitive(&self) -> Dollars
        ensures noncompetitive { result.value ≡ noncompetitive_in self.now.lines }
        ensures limited { result.value ≤ most_bid }
        ensures kept { IsKept self.now }
    {
        Dollars {
            value: self.noncompetitive,
        }
    }
}

/// The competitive lines of a book that is open. A line costs one step.
impl Lines for Book {
    ghost use Rattle.tb_book.specs.Books.{open_lines};

    ghost lines_of = { open_lines };

    ghost cost = { λ _. 1 };

    fn lines(&self) -> u64 {
        self.lines.count_rated() as u64
    }

    fn line<L: Ledger>(&self, place: u64, steps: &mut Steps<L>) -> RateLine
        requires { place < length (open_lines self.now) }
        ensures line { slice_index_or (open_lines self.now) place result ≡ result }
        ensures steps { steps.new ≡ steps.old + 1 }
    {
        steps.tick();
        let stored = self.lines.at(place as usize);
        let line = stored.line();
        RateLine {
            rate: line.rate.unwrap(),
            bidder: line.bidder,
            amount: line.amount,
        }
    }
}
