//! The accepted entries, in their order.
ghost use Rattle.std.specs.Prelude.{◌≡◌, ℕ, ◌+◌, ◌<◌, ◌≤◌, ◌↔◌, List, [], ◌∷◌, ◌++◌, length, slice_get, IsNone, IfSome, OnOk};
ghost use Rattle.std.specs.List.{All};
ghost use Rattle.tb_message.specs.declared.message.Message.{Message};
ghost use Rattle.tb_history.specs.Roster.{kept, sent_by};
ghost use Rattle.tb_entries.specs.Rows.{entry_of, IsRow, IsOwnNumber};

use crate::keys::{ByNumber, BySubmitter};
use crate::names::{self, Names, find_near, number_near, spare_of};
use crate::row::Row;
use crate::said::{auction_in, message_in, said_of};
use std::alloc::Global;
use std::marker::Model;
use tb_index::{Counted, Named};
use tb_message::{Entry, Message};
use tb_units::{Ident, OutOfMemory};

/// The accepted entries in their order, each found by its submitter and number. Contracts see the list of them, and how
/// many adds are sure.
#[derive(Drop)]
pub struct Entries {
    names: Names,
    // Messages that no row has.
    others: Vec<Message>,
    rows: Counted<Row, ByNumber, BySubmitter>,
}

impl Model for Entries {
    ghost use Rattle.std.specs.Prelude.{◌-◌, ◌^◌, ◌≤◌, min, map, length, vec_len, vec_capacity};
    ghost use Rattle.std.specs.List.{All};
    ghost use Rattle.tb_index.specs.Listed.{Listed};
    ghost use Rattle.tb_message.specs.declared.message.Entry.{Entry};
    ghost use Rattle.tb_entries.specs.Rows.{spare_in, entry_of, IsRow};

    ghost Value = { Listed Entry };

    ghost view = { λ entries. record {
      list = map (entry_of entries.names.list entries.others.items) entries.rows.list;
      spare = min (spare_in entries.names.list entries.names.spare)
          (min (vec_capacity entries.others - vec_len entries.others) entries.rows.spare);
    } };

    ghost invariant = { λ entries. All (IsRow entries.names.list entries.others.items) entries.rows.list
        × (length entries.names.list ≤ 2 ^ 32) };
}

impl Entries {
    /// No entries, which take no memory.
    pub fn new(alloc: Global) -> Entries
        ensures list { result.list ≡ [] }
        ensures spare { result.spare ≡ 0 }
    {
        Entries {
            names: Named::new(alloc),
            others: Vec::new(alloc),
            rows: Counted::new(alloc),
        }
    }

    /// Makes so many adds sure. No other call takes memory.
    pub fn reserve(&mut self, more: usize) -> Result<(), OutOfMemory>
        ensures spare { OnOk result (more ≤ self.new.spare) }
        // The entries stay, and no room is lost, whatever the result.
        ensures list { self.new.list ≡ self.old.list }
        ensures room { self.old.spare ≤ self.new.spare }
    {
        names::reserve(&mut self.names, more)?;
        self.others.reserve(more)?;
        self.rows.reserve(more)?;
        Ok(())
    }

    /// How many adds are sure.
    pub fn spare(&self) -> usize
        ensures { result ≡ self.now.spare }
    {
        let others = self.others.capacity() - self.others.len();
        spare_of(&self.names).min(others.min(self.rows.spare()))
    }

    /// How many entries there are.
    pub fn len(&self) -> usize
        ensures { result ≡ length self.now.list }
    {
        self.rows.rows().len()
    }

    /// The entry at the place in their order. `None` where there are not so many.
    pub fn get(&self, place: usize) -> Option<Entry>
        ensures { result ≡ slice_get self.now.list place }
    {
        if place < self.rows.rows().len() {
            return Some(entry_in(self.names.rows(), &self.others, &self.rows.rows()[place]));
        }
        None
    }

    /// The accepted message of this submitter and number.
    pub fn find(&self, submitter: &Ident, number: u64) -> Option<Entry>
        ensures { result ≡ kept self.now.list submitter.now number }
    {
        let near = last_submitter(self.rows.rows());
        let place = find_near(&self.names, submitter, near)?;
        let row = self.rows.keyed().get(&(number, place as u32))?;
        Some(entry_in(self.names.rows(), &self.others, row))
    }

    /// How many messages of the submitter are accepted.
    pub fn count(&self, submitter: &Ident) -> usize
        ensures { result ≡ sent_by self.now.list submitter.now }
    {
        let near = last_submitter(self.rows.rows());
        match find_near(&self.names, submitter, near) {
            Some(place) => self.rows.count(&(place as u32)),
            None => 0,
        }
    }

    /// Adds an entry at the end, which can't fail.
    pub fn push(&mut self, entry: &Entry)
        requires { 0 < self.old.spare }
        ensures list { self.new.list ≡ self.old.list ++ entry.now ∷ [] }
        ensures spare { self.old.spare ≤ self.new.spare + 1 }
    {
        let near_submitter = last_submitter(self.rows.rows());
        let near_auction = last_auction(self.rows.rows());
        let submitter = number_near(&mut self.names, &entry.submitter, near_submitter);
        let said = said_of(
            &mut self.names,
            &mut self.others,
            &entry.message,
            near_auction,
        );
        self.rows.push(Row {
            submitter,
            number: entry.number,
            moment: entry.moment,
            said,
        });
    }

    /// Takes the last entry back. `None` where there is none.
    pub fn pop(&mut self) -> Option<Entry>
        ensures none { IsNone result ↔ (self.old.list ≡ []) }
        ensures some { IfSome result (λ entry. self.old.list ≡ self.new.list ++ entry ∷ []) }
        ensures unchanged { IsNone result → self.new.list ≡ self.old.list }
        // No room is lost.
        ensures spare { self.old.spare ≤ self.new.spare }
    {
        let row = self.rows.pop()?;
        Some(entry_in(self.names.rows(), &self.others, &row))
    }
}

// The number of the last entry's submitter, who often sent the next one too.
fn last_submitter(rows: &[Row]) -> Option<u32>
    ensures { (names : List (List ℕ)) (others : List Message) → All (IsRow names others) rows.now
        → IfSome result (IsOwnNumber names) }
{
    if rows.is_empty() {
        return None;
    }
    Some(rows[rows.len() - 1].submitter)
}

// The number of the auction that the last entry tells, which the next one often tells too.
fn last_auction(rows: &[Row]) -> Option<u32>
    ensures { (names : List (List ℕ)) (others : List Message) → All (IsRow names others) rows.now
        → IfSome result (IsOwnNumber names) }
{
    if rows.is_empty() {
        return None;
    }
    auction_in(&rows[rows.len() - 1].said)
}

fn entry_in(names: &[Ident], others: &[Message], row: &Row) -> Entry
    requires { IsRow names.now others.now row.now }
    ensures { result ≡ entry_of names.now others.now row.now }
{
    Entry {
        submitter: names[row.submitter as usize],
        number: row.number,
        moment: row.moment,
        message: message_in(names, others, &row.said),
    }
}
