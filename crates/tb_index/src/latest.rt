//! Rows of which the last with a key is found.
ghost use Rattle.std.specs.Prelude.{◌≡◌, ◌+◌, ◌<◌, ◌≤◌, ◌↔◌, List, [], ◌∷◌, ◌++◌, IsNone, IfSome, OnOk};
ghost use Rattle.std.specs.List.{filter, list_any};

use crate::counts::Counts;
use crate::ends::{add_end, end_in};
use crate::keys::KeyOf;
use std::alloc::Global;
use std::collections::HashMap;
use std::marker::Model;
use tb_units::OutOfMemory;

/// Rows in the order of adding, found by a key. Several rows may have one key: the last of them is found. Contracts see
/// the list of the rows, and how many adds are sure.
#[derive(Drop)]
pub struct Latest<T, By: KeyOf<T>> {
    rows: Vec<T>,
    ends: Counts<By::Key>,
}

impl<T, By: KeyOf<T>> Model for Latest<T, By> {
    ghost use Rattle.std.specs.Prelude.{◌-◌, min, map, vec_len, vec_capacity};
    ghost use Rattle.std.specs.HashMap.{spare};
    ghost use Rattle.tb_index.specs.Listed.{Listed};
    ghost use Rattle.tb_index.specs.Indexes.{AreEnds};

    ghost Value = { Listed T };

    ghost view = { λ latest. record {
      list = latest.rows.items;
      spare = min (vec_capacity latest.rows - vec_len latest.rows) (spare latest.ends);
    } };

    ghost invariant = { λ latest. AreEnds By.Key.eq (map By.key_of latest.rows.items) latest.ends };
}

impl<T: Drop, By: KeyOf<T>> Latest<T, By> {
    /// No rows, which take no memory.
    pub fn new(alloc: Global) -> Latest<T, By>
        ensures list { result.list ≡ [] }
        ensures spare { result.spare ≡ 0 }
    {
        Latest {
            rows: Vec::new(alloc),
            ends: HashMap::new(alloc),
        }
    }

    /// Makes so many adds sure. No other call takes memory.
    pub fn reserve(&mut self, more: usize) -> Result<(), OutOfMemory>
        ensures spare { OnOk result (more ≤ self.new.spare) }
        // The rows stay, and no room is lost, whatever the result.
        ensures list { self.new.list ≡ self.old.list }
        ensures room { self.old.spare ≤ self.new.spare }
    {
        self.rows.reserve(more)?;
        self.ends.reserve(more)?;
        Ok(())
    }

    /// How many adds are sure.
    pub fn spare(&self) -> usize
        ensures { result ≡ self.now.spare }
    {
        let spare = self.rows.capacity() - self.rows.len();
        spare.min(self.ends.capacity() - self.ends.len())
    }

    /// The rows, in the order of adding.
    pub fn rows(&self) -> &[T]
        ensures { result.now ≡ self.now.list }
    {
        &self.rows
    }

    /// The last row that has the key.
    pub fn last(&self, key: &By::Key) -> Option<&T>
        ensures none { IsNone result ↔ (filter (λ row. By.Key.eq (By.key_of row) key.now) self.now.list ≡ []) }
        ensures some { IfSome result (λ row. (earlier : List T)
            × (filter (λ row. By.Key.eq (By.key_of row) key.now) self.now.list ≡ earlier ++ row.now ∷ [])) }
    {
        let end = end_in(&self.ends, key);
        if end == 0 {
            return None;
        }
        Some(&self.rows[end - 1])
    }

    /// Whether a row has the key.
    pub fn has(&self, key: &By::Key) -> bool
        ensures { result ≡ list_any (λ row. By.Key.eq (By.key_of row) key.now) self.now.list }
    {
        end_in(&self.ends, key) > 0
    }

    /// Adds a row at the end, which can't fail.
    pub fn push(&mut self, row: T)
        requires { 0 < self.old.spare }
        ensures list { self.new.list ≡ self.old.list ++ row ∷ [] }
        ensures spare { self.old.spare ≤ self.new.spare + 1 }
    {
        let end = self.rows.len() + 1;
        let _ = add_end(&mut self.ends, By::key_of(&row), end);
        self.rows.push_reserved(row);
    }
}
