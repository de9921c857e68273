//! Rows that are counted by one key, and gone through by another.
ghost use Rattle.std.specs.Prelude.{◌≡◌, ◌+◌, ◌<◌, ◌≤◌, ◌↔◌, [], ◌∷◌, ◌++◌, IsNone, IfOk, IfSome, OnOk};
ghost use Rattle.std.specs.List.{count_by, filter};

use crate::counts::{Counts, add_count, count_of, take_count};
use crate::ends::{add_end, end_in, take_end};
use crate::keys::KeyOf;
use crate::links::rows_up_to;
use std::alloc::Global;
use std::collections::HashMap;
use std::marker::Model;
use tb_units::OutOfMemory;

/// Rows in the order of adding, counted by one key, and gone through by another. Contracts see the list of the rows,
/// and how many adds are sure.
#[derive(Drop)]
pub struct Chained<T, Of: KeyOf<T>, In: KeyOf<T>> {
    rows: Vec<T>,
    counts: Counts<Of::Key>,
    ends: Counts<In::Key>,
    // For each row, how many rows there are up to the one before it with its key.
    links: Vec<usize>,
}

impl<T, Of: KeyOf<T>, In: KeyOf<T>> Model for Chained<T, Of, In> {
    ghost use Rattle.std.specs.Prelude.{◌-◌, min, map, vec_len, vec_capacity};
    ghost use Rattle.std.specs.HashMap.{spare};
    ghost use Rattle.tb_index.specs.Listed.{Listed};
    ghost use Rattle.tb_index.specs.Indexes.{AreCounts, AreEnds, AreLinks};

    ghost Value = { Listed T };

    ghost view = { λ chained. record {
      list = chained.rows.items;
      spare = min (vec_capacity chained.rows - vec_len chained.rows)
          (min (vec_capacity chained.links - vec_len chained.links) (min (spare chained.counts) (spare chained.ends)));
    } };

    ghost invariant = { λ chained. AreCounts Of.Key.eq (map Of.key_of chained.rows.items) chained.counts
        × AreEnds In.Key.eq (map In.key_of chained.rows.items) chained.ends
        × AreLinks In.Key.eq (map In.key_of chained.rows.items) chained.links.items };
}

impl<T: Drop, Of: KeyOf<T>, In: KeyOf<T>> Chained<T, Of, In> {
    /// No rows, which take no memory.
    pub fn new(alloc: Global) -> Chained<T, Of, In>
        ensures list { result.list ≡ [] }
        ensures spare { result.spare ≡ 0 }
    {
        Chained {
            rows: Vec::new(alloc),
            counts: HashMap::new(alloc),
            ends: HashMap::new(alloc),
            links: Vec::new(alloc),
        }
    }

    /// Makes so many adds sure.
    pub fn reserve(&mut self, more: usize) -> Result<(), OutOfMemory>
        ensures spare { OnOk result (more ≤ self.new.spare) }
        // The rows stay, and no room is lost, whatever the result.
        ensures list { self.new.list ≡ self.old.list }
        ensures room { self.old.spare ≤ self.new.spare }
    {
        self.rows.reserve(more)?;
        self.counts.reserve(more)?;
        self.ends.reserve(more)?;
        self.links.reserve(more)?;
        Ok(())
    }

    /// How many adds are sure.
    pub fn spare(&self) -> usize
        ensures { result ≡ self.now.spare }
    {
        let rows = self.rows.capacity() - self.rows.len();
        let links = self.links.capacity() - self.links.len();
        let counts = self.counts.capacity() - self.counts.len();
        let ends = self.ends.capacity() - self.ends.len();
        rows.min(links.min(counts.min(ends)))
    }

    /// The rows, in the order of adding.
    pub fn rows(&self) -> &[T]
        ensures { result.now ≡ self.now.list }
    {
        &self.rows
    }

    /// How many rows have the one key.
    pub fn count(&self, key: &Of::Key) -> usize
        ensures { result ≡ count_by (λ row. Of.Key.eq (Of.key_of row) key.now) self.now.list }
    {
        count_of(&self.counts, key)
    }

    /// Adds a row at the end, which can't fail.
    pub fn push(&mut self, row: T)
        requires { 0 < self.old.spare }
        ensures list { self.new.list ≡ self.old.list ++ row ∷ [] }
        ensures spare { self.old.spare ≤ self.new.spare + 1 }
    {
        let key = In::key_of(&row);
        let link = add_end(&mut self.ends, key, self.rows.len() + 1);
        add_count(&mut self.counts, Of::key_of(&row));
        self.links.push_reserved(link);
        self.rows.push_reserved(row);
    }

    /// Takes the last row back. `None` where there is no row.
    pub fn pop(&mut self) -> Option<T>
        ensures none { IsNone result ↔ (self.old.list ≡ []) }
        ensures some { IfSome result (λ row. self.old.list ≡ self.new.list ++ row ∷ []) }
        ensures unchanged { IsNone result → self.new.list ≡ self.old.list }
        // No room is lost.
        ensures spare { self.old.spare ≤ self.new.spare }
    {
        let row = self.rows.pop()?;
        let link = self.links.pop().unwrap();
        take_count(&mut self.counts, &Of::key_of(&row));
        take_end(&mut self.ends, &In::key_of(&row), link);
        Some(row)
    }
}

impl<T: Copy + Drop, Of: KeyOf<T>, In: KeyOf<T>> Chained<T, Of, In> {
    /// The rows that have the other key, in the order of adding. No others are gone through.
    pub fn rows_in(&self, alloc: Global, key: &In::Key) -> Result<Vec<T>, OutOfMemory>
        ensures { IfOk result (λ rows. rows.items ≡ filter (λ row. In.Key.eq (In.key_of row) key.now) self.now.list) }
    {
        let end = end_in(&self.ends, key);
        rows_up_to::<T, In>(alloc, &self.rows, &self.links, key, end)
    }
}
