//! Rows that are found by one key and counted by another.
ghost use Rattle.std.specs.Prelude.{◌≡◌, ◌+◌, ◌<◌, ◌≤◌, ◌↔◌, [], ◌∷◌, ◌++◌, IsNone, IfSome, OnOk};
ghost use Rattle.std.specs.List.{count_by};

use crate::counts::{Counts, add_count, count_of, take_count};
use crate::keyed::Keyed;
use crate::keys::KeyOf;
use std::alloc::Global;
use std::collections::HashMap;
use std::marker::Model;
use tb_units::OutOfMemory;

/// Rows in the order of adding, found by one key and counted by another. Contracts see the list of the rows, and how
/// many adds are sure.
#[derive(Drop)]
pub struct Counted<T, By: KeyOf<T>, Of: KeyOf<T>> {
    keyed: Keyed<T, By>,
    counts: Counts<Of::Key>,
}

impl<T, By: KeyOf<T>, Of: KeyOf<T>> Model for Counted<T, By, Of> {
    ghost use Rattle.std.specs.Prelude.{min, map};
    ghost use Rattle.std.specs.HashMap.{spare};
    ghost use Rattle.tb_index.specs.Listed.{Listed};
    ghost use Rattle.tb_index.specs.Indexes.{AreCounts};

    ghost Value = { Listed T };

    ghost view = { λ counted. record {
      list = counted.keyed.list;
      spare = min counted.keyed.spare (spare counted.counts);
    } };

    ghost invariant = { λ counted. AreCounts Of.Key.eq (map Of.key_of counted.keyed.list) counted.counts };
}

impl<T: Drop, By: KeyOf<T>, Of: KeyOf<T>> Counted<T, By, Of> {
    /// No rows, which take no memory.
    pub fn new(alloc: Global) -> Counted<T, By, Of>
        ensures list { result.list ≡ [] }
        ensures spare { result.spare ≡ 0 }
    {
        Counted {
            keyed: Keyed::new(alloc),
            counts: HashMap::new(alloc),
        }
    }

    /// Makes so many adds sure. No other call takes memory.
    pub fn reserve(&mut self, more: usize) -> Result<(), OutOfMemory>
        ensures spare { OnOk result (more ≤ self.new.spare) }
        // The rows stay, and no room is lost, whatever the result.
        ensures list { self.new.list ≡ self.old.list }
        ensures room { self.old.spare ≤ self.new.spare }
    {
        self.keyed.reserve(more)?;
        self.counts.reserve(more)?;
        Ok(())
    }

    /// How many adds are sure.
    pub fn spare(&self) -> usize
        ensures { result ≡ self.now.spare }
    {
        let spare = self.counts.capacity() - self.counts.len();
        self.keyed.spare().min(spare)
    }

    /// The rows, in the order of adding.
    pub fn rows(&self) -> &[T]
        ensures { result.now ≡ self.now.list }
    {
        self.keyed.rows()
    }

    /// The rows, to be found by their key.
    pub fn keyed(&self) -> &Keyed<T, By>
        ensures { result.now.list ≡ self.now.list }
    {
        &self.keyed
    }

    /// How many rows have the other key.
    pub fn count(&self, key: &Of::Key) -> usize
        ensures { result ≡ count_by (λ row. Of.Key.eq (Of.key_of row) key.now) self.now.list }
    {
        count_of(&self.counts, key)
    }

    /// Adds a row at the end, which can't fail.
    pub fn push(&mut self, row: T)
        requires { 0 < self.old.spare }
        ensures list { self.new.list ≡ self.old.list ++ row ∷ [] }
        ensures spare { self.old.spare ≤ self.new.spare + 1 }
    {
        let key = Of::key_of(&row);
        self.keyed.push(row);
        add_count(&mut self.counts, key);
    }

    /// Takes the last row back. `None` where there is no row.
    pub fn pop(&mut self) -> Option<T>
        ensures none { IsNone result ↔ (self.old.list ≡ []) }
        ensures some { IfSome result (λ row. self.old.list ≡ self.new.list ++ row ∷ []) }
        ensures unchanged { IsNone result → self.new.list ≡ self.old.list }
        // No room is lost.
        ensures spare { self.old.spare ≤ self.new.spare }
    {
        let row = self.keyed.pop()?;
        take_count(&mut self.counts, &Of::key_of(&row));
        Some(row)
    }
}
