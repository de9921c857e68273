//! Rows that are found by a name.
ghost use Rattle.std.specs.Prelude.{◌≡◌, ◌+◌, ◌^◌, ◌<◌, ◌≤◌, ◌↔◌, [], ◌∷◌, ◌++◌, length, option_copied, IsNone, IfSome, OnOk};
ghost use Rattle.std.specs.List.{find, list_any, position};

use crate::firsts::{Firsts, add_first, first_in, take_first};
use crate::keys::KeyOf;
use std::alloc::Global;
use std::collections::HashMap;
use std::marker::Model;
use tb_units::OutOfMemory;

/// Rows in the order of adding, found by a name. Several rows may have one name: the first of them is found. Contracts
/// see the list of the rows, and how many adds are sure.
#[derive(Drop)]
pub struct Named<T, By: KeyOf<T>> {
    rows: Vec<T>,
    firsts: Firsts<By::Key>,
}

impl<T, By: KeyOf<T>> Model for Named<T, By> {
    ghost use Rattle.std.specs.Prelude.{◌-◌, min, map, vec_len, vec_capacity};
    ghost use Rattle.std.specs.HashMap.{spare};
    ghost use Rattle.tb_index.specs.Listed.{Listed};
    ghost use Rattle.tb_index.specs.Indexes.{AreFirsts};

    ghost Value = { Listed T };

    ghost view = { λ named. record {
      list = named.rows.items;
      spare = min (vec_capacity named.rows - vec_len named.rows) (spare named.firsts);
    } };

    ghost invariant = { λ named. AreFirsts By.Key.eq (map By.key_of named.rows.items) named.firsts };
}

impl<T: Drop, By: KeyOf<T>> Named<T, By> {
    /// No rows, which take no memory.
    pub fn new(alloc: Global) -> Named<T, By>
        ensures list { result.list ≡ [] }
        ensures spare { result.spare ≡ 0 }
    {
        Named {
            rows: Vec::new(alloc),
            firsts: HashMap::new(alloc),
        }
    }

    /// Makes so many adds sure. No other call takes memory.
    pub fn reserve(&mut self, more: usize) -> Result<(), OutOfMemory>
        ensures spare { OnOk result (more ≤ self.new.spare) }
        // The rows stay, and no room is lost, whatever the result.
        ensures list { self.new.list ≡ self.old.list }
        ensures room { self.old.spare ≤ self.new.spare }
    {
        self.rows.reserve(more)?;
        self.firsts.reserve(more)?;
        Ok(())
    }

    /// How many adds are sure.
    pub fn spare(&self) -> usize
        ensures { result ≡ self.now.spare }
    {
        let spare = self.rows.capacity() - self.rows.len();
        spare.min(self.firsts.capacity() - self.firsts.len())
    }

    /// The rows, in the order of adding.
    pub fn rows(&self) -> &[T]
        ensures { result.now ≡ self.now.list }
    {
        &self.rows
    }

    /// How many elements there are.
    pub fn len(&self) -> usize
        ensures { result ≡ length self.now.list }
    {
        self.rows.len()
    }

    /// The place of the first row that has the key.
    pub fn find(&self, key: &By::Key) -> Option<usize>
        ensures { result ≡ position (λ row. By.Key.eq (By.key_of row) key.now) self.now.list }
    {
        first_in(&self.firsts, key)
    }

    /// The first row that has the key.
    pub fn get(&self, key: &By::Key) -> Option<&T>
        ensures { option_copied result ≡ find (λ row. By.Key.eq (By.key_of row) key.now) self.now.list }
    {
        let place = self.find(key)?;
        Some(&self.rows[place])
    }

    /// Whether a row has the key.
    pub fn has(&self, key: &By::Key) -> bool
        ensures { result ≡ list_any (λ row. By.Key.eq (By.key_of row) key.now) self.now.list }
    {
        self.find(key).is_some()
    }

    /// Adds a row at the end, which can't fail.
    pub fn push(&mut self, row: T)
        requires { 0 < self.old.spare }
        ensures list { self.new.list ≡ self.old.list ++ row ∷ [] }
        ensures spare { self.old.spare ≤ self.new.spare + 1 }
        ensures few { length self.new.list < 2 ^ 64 }
    {
        add_first(&mut self.firsts, By::key_of(&row), self.rows.len());
        self.rows.push_reserved(row);
    }

    /// Takes the last row back. `None` where there is no row.
    pub fn pop(&mut self) -> Option<T>
        ensures none { IsNone result ↔ (self.old.list ≡ []) }
        ensures some { IfSome result (λ row. self.old.list ≡ self.new.list ++ row ∷ []) }
        ensures unchanged { IsNone result → self.new.list ≡ self.old.list }
        // No room is lost.
        ensures spare { self.old.spare ≤ self.new.spare }
    {
        let row = self.rows.pop()?;
        take_first(&mut self.firsts, &By::key_of(&row), self.rows.len());
        Some(row)
    }
}
