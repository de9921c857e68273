//! Rows that are found by either of two keys.
ghost use Rattle.std.specs.Prelude.{◌≡◌, ◌+◌, ◌<◌, ◌≤◌, ◌↔◌, [], ◌∷◌, ◌++◌, length, take, option_copied, IsNone, IfSome, OnOk};
ghost use Rattle.std.specs.List.{HoldsAt, find, list_any, position};
ghost use Rattle.tb_index.specs.Indexes.{end_by};

use crate::counts::Counts;
use crate::ends::{add_end, end_in, take_end};
use crate::firsts::{Firsts, add_first, first_in, take_first};
use crate::keys::KeyOf;
use crate::named::Named;
use std::alloc::Global;
use std::collections::HashMap;
use std::marker::Model;
use tb_units::OutOfMemory;

/// Rows in the order of adding, found by either of two keys. Contracts see the list of the rows, and how many adds are
/// sure.
#[derive(Drop)]
pub struct TwiceKeyed<T, By: KeyOf<T>, Or: KeyOf<T>> {
    named: Named<T, By>,
    firsts: Firsts<Or::Key>,
    ends: Counts<Or::Key>,
    // For each row, how many rows there are up to the one before it with its other key.
    links: Vec<usize>,
}

impl<T, By: KeyOf<T>, Or: KeyOf<T>> Model for TwiceKeyed<T, By, Or> {
    ghost use Rattle.std.specs.Prelude.{◌-◌, min, map, vec_len, vec_capacity};
    ghost use Rattle.std.specs.HashMap.{spare};
    ghost use Rattle.tb_index.specs.Listed.{Listed};
    ghost use Rattle.tb_index.specs.Indexes.{AreEnds, AreFirsts, AreLinks};

    ghost Value = { Listed T };

    ghost view = { λ twice. record {
      list = twice.named.list;
      spare = min (min twice.named.spare (spare twice.firsts))
          (min (vec_capacity twice.links - vec_len twice.links) (spare twice.ends));
    } };

    ghost invariant = { λ twice. AreFirsts Or.Key.eq (map Or.key_of twice.named.list) twice.firsts
        × AreEnds Or.Key.eq (map Or.key_of twice.named.list) twice.ends
        × AreLinks Or.Key.eq (map Or.key_of twice.named.list) twice.links.items };
}

impl<T: Drop, By: KeyOf<T>, Or: KeyOf<T>> TwiceKeyed<T, By, Or> {
    /// No rows, which take no memory.
    pub fn new(alloc: Global) -> TwiceKeyed<T, By, Or>
        ensures list { result.list ≡ [] }
        ensures spare { result.spare ≡ 0 }
    {
        TwiceKeyed {
            named: Named::new(alloc),
            firsts: HashMap::new(alloc),
            ends: HashMap::new(alloc),
            links: Vec::new(alloc),
        }
    }

    /// Makes so many adds sure. No other call takes memory.
    pub fn reserve(&mut self, more: usize) -> Result<(), OutOfMemory>
        ensures spare { OnOk result (more ≤ self.new.spare) }
        // The rows stay, and no room is lost, whatever the result.
        ensures list { self.new.list ≡ self.old.list }
        ensures room { self.old.spare ≤ self.new.spare }
    {
        self.named.reserve(more)?;
        self.firsts.reserve(more)?;
        self.ends.reserve(more)?;
        self.links.reserve(more)?;
        Ok(())
    }

    /// How many adds are sure.
    pub fn spare(&self) -> usize
        ensures { result ≡ self.now.spare }
    {
        let spare = self.links.capacity() - self.links.len();
        let firsts = self.firsts.capacity() - self.firsts.len();
        let ends = self.ends.capacity() - self.ends.len();
        self.named.spare().min(firsts).min(spare.min(ends))
    }

    /// The rows, in the order of adding.
    pub fn rows(&self) -> &[T]
        ensures { result.now ≡ self.now.list }
    {
        self.named.rows()
    }

    /// The rows, to be found by the one key.
    pub fn named(&self) -> &Named<T, By>
        ensures { result.now.list ≡ self.now.list }
    {
        &self.named
    }

    /// The place of the first row that has the other key.
    pub fn find_other(&self, key: &Or::Key) -> Option<usize>
        ensures { result ≡ position (λ row. Or.Key.eq (Or.key_of row) key.now) self.now.list }
    {
        first_in(&self.firsts, key)
    }

    /// The first row that has the other key.
    pub fn get_other(&self, key: &Or::Key) -> Option<&T>
        ensures { option_copied result ≡ find (λ row. Or.Key.eq (Or.key_of row) key.now) self.now.list }
    {
        let place = self.find_other(key)?;
        Some(&self.rows()[place])
    }

    /// Whether a row has the other key.
    pub fn has_other(&self, key: &Or::Key) -> bool
        ensures { result ≡ list_any (λ row. Or.Key.eq (Or.key_of row) key.now) self.now.list }
    {
        self.find_other(key).is_some()
    }

    /// How many rows there are up to the last that has the other key. It is 0 where none has.
    pub fn end_other(&self, key: &Or::Key) -> usize
        ensures { result ≡ end_by (λ row. Or.Key.eq (Or.key_of row) key.now) self.now.list }
    {
        end_in(&self.ends, key)
    }

    /// How many rows there are up to the last before this place that has the other key of the row there.
    pub fn end_before(&self, place: usize) -> usize
        requires { place < length self.now.list }
        ensures { HoldsAt (λ row. result
            ≡ end_by (λ other. Or.Key.eq (Or.key_of other) (Or.key_of row)) (take place self.now.list))
            self.now.list place }
    {
        self.links[place]
    }

    /// Adds a row at the end, which can't fail.
    pub fn push(&mut self, row: T)
        requires { 0 < self.old.spare }
        ensures list { self.new.list ≡ self.old.list ++ row ∷ [] }
        ensures spare { self.old.spare ≤ self.new.spare + 1 }
    {
        let key = Or::key_of(&row);
        add_first(&mut self.firsts, key, self.named.len());
        let link = add_end(&mut self.ends, key, self.links.len() + 1);
        self.links.push_reserved(link);
        self.named.push(row);
    }

    /// Takes the last row back. `None` where there is no row.
    pub fn pop(&mut self) -> Option<T>
        ensures none { IsNone result ↔ (self.old.list ≡ []) }
        ensures some { IfSome result (λ row. self.old.list ≡ self.new.list ++ row ∷ []) }
        ensures unchanged { IsNone result → self.new.list ≡ self.old.list }
        // No room is lost.
        ensures spare { self.old.spare ≤ self.new.spare }
    {
        let row = self.named.pop()?;
        let link = self.links.pop().unwrap();
        let key = Or::key_of(&row);
        take_first(&mut self.firsts, &key, self.named.len());
        take_end(&mut self.ends, &key, link);
        Some(row)
    }
}
