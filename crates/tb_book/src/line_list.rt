//! The lines of a book, of which those that were added last wait to be put in order while the book is sealed.
ghost use Rattle.std.specs.Prelude.{◌≡◌, ◌+◌, ◌<◌, ◌≤◌, ◌↔◌, ◌++◌, [], ◌∷◌, true, length, slice_index_or, IfNone};
ghost use Rattle.std.specs.Prelude.{IfSome, IsNone, IsPermutation, OnOk};
ghost use Rattle.std.specs.List.{AllPairs};
ghost use Rattle.tb_book.specs.Books.{AreApart, AreRanked, HasBid, HasBidAt, IsInserted, IsTakenOut, open_lines};

use crate::stored_line::{NO_RATE, StoredLine, rank};
use crate::waiting::{find_waiting, has_waiting, settle, wait};
use std::alloc::Global;
use std::marker::Model;
use tb_blocks::Ordered;
use tb_units::{OutOfMemory, Rate};

/// From so many lines on further ones wait: caches hold fewer.
const LONG: usize = 65_536;

/// So many lines wait before they are put in order, each beside the one before it then, in memory that was just looked
/// at. More of them would be put in order faster, and would need more room.
const MOST_WAITING: usize = 32_768;

/// The lines of a book. Once it is open they stand in order of rate, bidder and number.
#[derive(Drop)]
pub struct LineList {
    alloc: Global,
    sorted: Ordered<StoredLine>,
    // Added since the others were put in order: none of an open book.
    waiting: Vec<StoredLine>,
    opened: bool,
}

impl Model for LineList {
    ghost use Rattle.std.specs.Prelude.{◌-◌, ◌++◌, length};
    ghost use Rattle.tb_book.specs.Books.{Bids};
    ghost use Rattle.tb_book.specs.Indexes.{AreListed};

    ghost Value = { Bids };

    ghost view = { λ list. record {
      lines = list.sorted.elements ++ list.waiting.items;
      spare = list.sorted.spare - length list.waiting.items;
      opened = list.opened;
    } };

    ghost invariant = { λ list. AreListed list.opened list.sorted list.waiting.items };
}

impl LineList {
    /// No lines, of a book that is open or sealed.
    pub fn new(alloc: Global, opened: bool) -> LineList
        ensures lines { result.lines ≡ [] }
        ensures opened { result.opened ≡ opened }
    {
        LineList {
            alloc,
            sorted: Ordered::new(alloc),
            waiting: Vec::new(alloc),
            opened,
        }
    }

    /// Takes the memory for so many more lines. No other call takes memory.
    pub fn reserve(&mut self, more: usize) -> Result<(), OutOfMemory>
        ensures spare { OnOk result (more ≤ self.new.spare) }
        // The lines stay, and no room is lost, whatever the result.
        ensures lines { self.new.lines ≡ self.old.lines }
        ensures room { self.old.spare ≤ self.new.spare }
        ensures opened { self.new.opened ≡ self.old.opened }
    {
        let waiting = self.waiting.len();
        let all = waiting.checked_add(more).ok_or(OutOfMemory)?;
        if self.opened {
            self.sorted.reserve(all)?;
            return Ok(());
        }
        let most = self.most_waiting();
        if all > self.sorted.spare() {
            // For some more at once, since all blocks are looked at.
            self.sorted.reserve(all.saturating_add(most / 4))?;
        }
        self.waiting
            .reserve(more.min(most.saturating_sub(waiting)))?;
        Ok(())
    }

    // So many lines may wait: none of a book that isn't long, so that it stays small.
    fn most_waiting(&self) -> usize {
        if self.sorted.len() < LONG {
            0
        } else {
            MOST_WAITING
        }
    }

    /// Adds a line, which can't fail.
    pub fn insert(&mut self, line: StoredLine)
        requires room { 0 < self.old.spare }
        requires new { ¬ (HasBid line.bidder line.number self.old.lines) }
        ensures elements { IsPermutation (line ∷ self.old.lines) self.new.lines }
        ensures inserted { self.old.opened ≡ true → IsInserted line self.old.lines self.new.lines }
        ensures order { AreRanked self.new.opened self.new.lines }
        ensures apart { AllPairs AreApart self.new.lines }
        ensures opened { self.new.opened ≡ self.old.opened }
        ensures spare { self.new.spare + 1 ≡ self.old.spare }
    {
        if self.opened {
            self.sorted.insert(line);
        } else {
            wait(&mut self.sorted, &mut self.waiting, line);
        }
    }

    /// Takes out the bidder's line of this rate, or of none, and of this number. `None` where there is no such line.
    pub fn remove(&mut self, rate: Option<Rate>, bidder: u32, number: u64) -> Option<StoredLine>
        ensures none { IsNone result ↔ (¬ (HasBidAt rate bidder number self.old.lines)) }
        ensures own { IfSome result (λ line. (line.rate ≡ rate) × (line.bidder ≡ bidder) × (line.number ≡ number)) }
        ensures elements { IfSome result (λ line. IsPermutation self.old.lines (line ∷ self.new.lines)) }
        ensures taken { self.old.opened ≡ true → IfSome result (λ line. IsTakenOut line self.old.lines self.new.lines) }
        ensures unchanged { IfNone result (self.new ≡ self.old) }
        ensures order { AreRanked self.new.opened self.new.lines }
        ensures apart { AllPairs AreApart self.new.lines }
        ensures opened { self.new.opened ≡ self.old.opened }
        ensures spare { self.new.spare ≡ self.old.spare }
    {
        let key = (rank(rate), (bidder, number));
        if let Some(line) = self.sorted.remove(&key) {
            return Some(line);
        }
        if !has_waiting(&self.waiting, rate, bidder, number) {
            return None;
        }
        settle(&mut self.sorted, &mut self.waiting);
        self.sorted.remove(&key)
    }

    /// Puts all lines in order, after which they may be read.
    pub fn unseal(&mut self)
        ensures elements { IsPermutation self.old.lines self.new.lines }
        ensures order { AreRanked self.new.opened self.new.lines }
        ensures apart { AllPairs AreApart self.new.lines }
        ensures opened { self.new.opened ≡ true }
        ensures spare { self.new.spare ≡ self.old.spare }
    {
        settle(&mut self.sorted, &mut self.waiting);
        self.waiting = Vec::new(self.alloc);
        self.opened = true;
    }

    /// The bidder's line of this number. It goes over the lines.
    pub fn find(&self, bidder: u32, number: u64) -> Option<StoredLine>
        ensures found { IfSome result (λ line. HasBidAt line.rate bidder number self.now.lines) }
        ensures none { IfNone result (¬ (HasBid bidder number self.now.lines)) }
    {
        match find_line(&self.sorted, bidder, number) {
            Some(line) => Some(line),
            None => find_waiting(&self.waiting, bidder, number),
        }
    }

    /// How many lines of a rate may be read.
    pub fn count_rated(&self) -> usize
        ensures { result ≡ length (open_lines self.now) }
    {
        if !self.opened {
            return 0;
        }
        self.sorted.place_of(&(NO_RATE, (0, 0)))
    }

    /// The line at the place, of a book that is open.
    pub fn at(&self, place: usize) -> StoredLine
        requires opened { self.now.opened ≡ true }
        requires within { place < length self.now.lines }
        ensures { result ≡ slice_index_or self.now.lines place result }
    {
        *self.sorted.at(place)
    }
}

// The bidder's line of this number, of lines in order. It goes over the lines.
fn find_line(lines: &Ordered<StoredLine>, bidder: u32, number: u64) -> Option<StoredLine>
    ensures found { IfSome result (λ line. HasBidAt line.rate bidder number lines.now.elements) }
    ensures none { IfNone result (¬ (HasBid bidder number lines.now.elements)) }
{
    for place in 0..lines.len() {
        let line = *lines.at(place);
        if line.is_of(bidder, number) {
            return Some(line);
        }
    }
    None
}
