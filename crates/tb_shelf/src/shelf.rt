//! The books of auctions by name, and those that stand ready.
ghost use Rattle.std.specs.Prelude.{◌≡◌, ◌+◌, ◌<◌, ◌≤◌, true, [], Some, None, IfNone, IfSome, OnOk};
ghost use Rattle.tb_shelf.specs.Shelves.{IsAdded, IsChanged, IsKeptBook, IsLowered, IsOpened, IsUnsealed, TakesLine, book_in, has_places};

use crate::finding::{add_at, find, place_of, reserve_at, take_at, unseal_at};
use crate::named::{NamedBook, Names};
use crate::preparing::{fill, raise_all};
use std::alloc::Global;
use std::marker::Model;
use tb_book::{Book, BookLine};
use tb_index::Named;
use tb_units::{Ident, OutOfMemory, Rate};

/// The books of auctions. Contracts see them under their names, how many empty books stand ready, and for how many
/// lines each of those has room.
#[derive(Drop)]
pub struct Shelf {
    alloc: Global,
    // The names of the books, by which these are found.
    names: Names,
    books: Vec<NamedBook>,
    // The place of the book that a call found last, where the next call looks first.
    last: Option<usize>,
    ready: Vec<Book>,
    places: u64,
}

impl Model for Shelf {
    ghost use Rattle.std.specs.Prelude.{◌≡◌, ◌+◌, ◌≤◌, vec_len, vec_capacity, IfSome};
    ghost use Rattle.tb_shelf.specs.Shelves.{AreReady, IsOwnPlace, Shelved, names_in};

    ghost Value = { Shelved };

    ghost view = { λ shelf. record { books = shelf.books.items; ready = vec_len shelf.ready; places = shelf.places } };

    // There is room for each ready book among the others, and for its name.
    ghost invariant = { λ shelf. AreReady shelf.places shelf.ready.items
        × (vec_len shelf.books + vec_len shelf.ready ≤ vec_capacity shelf.books)
        × (shelf.names.list ≡ names_in shelf.books.items)
        × (vec_len shelf.ready ≤ shelf.names.spare)
        × IfSome shelf.last (IsOwnPlace shelf.names.list) };
}

impl Shelf {
    /// No books, which takes no memory.
    pub fn new(alloc: Global) -> Shelf
        ensures books { result.books ≡ [] }
        ensures none { (result.ready ≡ 0) × (result.places ≡ 0) }
    {
        Shelf {
            alloc,
            names: Named::new(alloc),
            books: Vec::new(alloc),
            last: None,
            ready: Vec::new(alloc),
            places: 0,
        }
    }

    /// Takes the memory for so many more auctions, each with room for so many lines.
    pub fn prepare(&mut self, ready: usize, places: u64) -> Result<(), OutOfMemory>
        ensures ready { OnOk result (ready ≤ self.new.ready) }
        ensures places { OnOk result (places ≤ self.new.places) }
        // The books stay, and no room is lost, whatever the result.
        ensures books { self.new.books ≡ self.old.books }
        ensures kept { (self.old.ready ≤ self.new.ready) × (self.old.places ≤ self.new.places) }
    {
        let missing = ready.saturating_sub(self.ready.len());
        self.books.reserve(self.ready.len() + missing)?;
        self.names.reserve(self.ready.len() + missing)?;
        if places > self.places {
            raise_all(&mut self.ready, places)?;
            self.places = places;
        }
        fill(&mut self.ready, missing, self.alloc, self.places)
    }

    /// Takes the memory for so many more lines in the auction's book, if there is one.
    pub fn reserve(&mut self, auction: &Ident, more: u64) -> Result<(), OutOfMemory>
        ensures places { OnOk result (has_places self.new.books more auction.now ≡ true) }
        // The lines stay, and no room is lost, whatever the result.
        ensures books { IsChanged auction.now IsKeptBook self.old.books self.new.books }
        ensures ready { (self.new.ready ≡ self.old.ready) × (self.new.places ≡ self.old.places) }
    {
        match place_of(&self.names, auction, self.last) {
            Some(place) => {
                self.last = Some(place);
                reserve_at(&mut self.books, place, more)
            }
            None => Ok(()),
        }
    }

    /// Whether the auction's book has room for so many more lines, if there is a book.
    pub fn has_places(&self, auction: &Ident, more: u64) -> bool
        ensures { result ≡ has_places self.now.books more auction.now }
    {
        match self.book(auction) {
            Some(book) => more <= book.spare(),
            None => true,
        }
    }

    /// How many empty books stand ready.
    pub fn ready(&self) -> usize
        ensures { result ≡ self.now.ready }
    {
        self.ready.len()
    }

    /// Puts an empty book that stood ready under the name of an auction.
    pub fn open(&mut self, auction: Ident)
        requires { 0 < self.old.ready }
        ensures { IsOpened auction self.old self.new }
    {
        if let Some(book) = self.ready.pop() {
            self.names.push(auction);
            self.books.push_reserved(NamedBook { auction, book });
        }
    }

    /// Adds a line to the auction's book, if there is one.
    pub fn add(&mut self, auction: &Ident, line: BookLine)
        requires { IfSome (book_in self.old.books auction.now) (TakesLine line) }
        ensures books { IsChanged auction.now (IsAdded line) self.old.books self.new.books }
        ensures ready { (self.new.ready ≡ self.old.ready) × (self.new.places ≡ self.old.places) }
    {
        if let Some(place) = place_of(&self.names, auction, self.last) {
            self.last = Some(place);
            add_at(&mut self.books, place, line);
        }
    }

    /// Takes the bidder's line of this rate, or of none, and of this number out of the auction's book, if there is one.
    pub fn take_out(&mut self, auction: &Ident, rate: Option<Rate>, bidder: u32, number: u64)
        ensures books { IsChanged auction.now (IsLowered rate bidder number) self.old.books self.new.books }
        ensures ready { (self.new.ready ≡ self.old.ready) × (self.new.places ≡ self.old.places) }
    {
        if let Some(place) = place_of(&self.names, auction, self.last) {
            self.last = Some(place);
            take_at(&mut self.books, place, rate, bidder, number);
        }
    }

    /// Opens the auction's book, if there is one: its lines stand in order from then on, and may be read.
    pub fn unseal(&mut self, auction: &Ident)
        ensures books { IsChanged auction.now IsUnsealed self.old.books self.new.books }
        ensures ready { (self.new.ready ≡ self.old.ready) × (self.new.places ≡ self.old.places) }
    {
        if let Some(place) = place_of(&self.names, auction, self.last) {
            self.last = Some(place);
            unseal_at(&mut self.books, place);
        }
    }

    /// The auction's book.
    pub fn book(&self, auction: &Ident) -> Option<&Book>
        ensures some { IfSome result (λ book. book_in self.now.books auction.now ≡ Some book.now) }
        ensures none { IfNone result (book_in self.now.books auction.now ≡ None) }
    {
        find(&self.names, &self.books, auction, self.last)
    }
}
