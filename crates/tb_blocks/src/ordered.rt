//! A list in the order of its elements' keys.
ghost use Rattle.std.specs.Prelude.{◌≡◌, ℕ, ◌+◌, ◌<◌, ◌≤◌, ◌↔◌, true, false, [], length, set, OnOk, OnErr, IsOk, IfOk, IfErr, IfSome, IfNone, IsNone, slice_index_or};
ghost use Rattle.std.specs.List.{HoldsAt};
ghost use Rattle.std.specs.declared.cmp.Ordering.TheVariants.{Equal};
ghost use Rattle.tb_blocks.specs.Lists.{IsRun};
ghost use Rattle.tb_blocks.specs.Orders.{AreOrdered, HasKey, HasKeyAt, IsInserted, IsPlaceOf, IsRemoved, PartsAt};

use crate::blocks::Blocks;
use crate::search::{Keyed, Spot, has_key};
use std::alloc::{AllocError, Global};
use std::marker::Model;

/// A list in the order of its elements' keys, of which no two have the same. Contracts see its elements, and how many
/// adds are sure.
#[derive(Drop)]
pub struct Ordered<T: Keyed> {
    list: Blocks<T>,
}

impl<T: Keyed> Model for Ordered<T> {
    ghost use Rattle.tb_blocks.specs.Lists.{Listed};
    ghost use Rattle.tb_blocks.specs.Orders.{AreOrdered};

    ghost Value = { Listed T };

    ghost view = { λ ordered. ordered.list };

    ghost invariant = { λ ordered. AreOrdered T.Key.cmp T.key_of ordered.list.elements };
}

impl<T: Keyed + Copy + Drop> Ordered<T> {
    /// An empty list, which takes no memory.
    pub fn new(alloc: Global) -> Ordered<T>
        ensures elements { result.elements ≡ [] }
        ensures spare { result.spare ≡ 0 }
    {
        Ordered {
            list: Blocks::new(alloc),
        }
    }

    /// How many elements there are.
    pub fn len(&self) -> usize
        ensures len { result ≡ length self.now.elements }
        ensures ordered { AreOrdered T.Key.cmp T.key_of self.now.elements }
    {
        self.list.len()
    }

    /// How many adds are sure.
    pub fn spare(&self) -> usize
        ensures { result ≡ self.now.spare }
    {
        self.list.spare()
    }

    /// Makes so many adds sure. No other call takes memory.
    pub fn reserve(&mut self, more: usize) -> Result<(), AllocError>
        ensures spare { OnOk result (more ≤ self.new.spare) }
        // Where the room is there already it succeeds.
        ensures there { more ≤ self.old.spare → IsOk result }
        // The elements stay, and no room is lost, whatever the result.
        ensures elements { self.new.elements ≡ self.old.elements }
        ensures room { self.old.spare ≤ self.new.spare }
    {
        self.list.reserve(more)
    }

    /// The element at the place.
    pub fn at(&self, place: usize) -> &T
        requires { place < length self.now.elements }
        ensures { result.now ≡ slice_index_or self.now.elements place result.now }
    {
        self.list.at(place)
    }

    /// The elements from the place on, as far as they stand together in memory: a walk goes on behind the last of them.
    pub fn run_from(&self, place: usize) -> &[T]
        requires { place < length self.now.elements }
        ensures { IsRun place self.now.elements result.now }
    {
        self.list.run_from(place)
    }

    /// Where the key belongs: the elements before the place have smaller keys, and those from it on have not.
    pub fn place_of(&self, key: &T::Key) -> usize
        ensures within { result ≤ length self.now.elements }
        ensures place { IsPlaceOf T.Key.cmp T.key_of key.now self.now.elements result }
    {
        self.list.spot_of(key).place
    }

    // The spot of the element with the key. `Err` has where the key belongs, where there is no such element.
    fn seek(&self, key: &T::Key) -> Result<Spot, Spot>
        ensures found { IfOk result (λ spot. HasKeyAt T.Key.cmp T.key_of key.now self.now.elements spot.place) }
        ensures none { OnErr result (¬ (HasKey T.Key.cmp T.key_of key.now self.now.elements)) }
        ensures within { IfErr result (λ spot. spot.place ≤ length self.now.elements) }
        ensures place { IfErr result (λ spot. PartsAt T.Key.cmp T.key_of key.now self.now.elements spot.place) }
    {
        let spot = self.list.spot_of(key);
        if spot.place < self.list.len() && has_key(self.list.at_spot(spot), key) {
            return Ok(spot);
        }
        Err(spot)
    }

    /// The spot of the element with the key. `None` where there is no such element.
    pub fn find(&self, key: &T::Key) -> Option<Spot>
        ensures none { IsNone result ↔ (¬ (HasKey T.Key.cmp T.key_of key.now self.now.elements)) }
        ensures found { IfSome result (λ spot. HasKeyAt T.Key.cmp T.key_of key.now self.now.elements spot.place) }
    {
        self.seek(key).ok()
    }

    /// The element at the spot.
    pub fn at_spot(&self, spot: Spot) -> &T
        requires { spot.place < length self.now.elements }
        ensures { result.now ≡ slice_index_or self.now.elements spot.place result.now }
    {
        self.list.at_spot(spot)
    }

    /// Puts in an element whose key no other has, which can't fail.
    pub fn insert(&mut self, element: T)
        requires room { 0 < self.old.spare }
        requires new { ¬ (HasKey T.Key.cmp T.key_of (T.key_of element) self.old.elements) }
        ensures inserted { IsInserted element self.old.elements self.new.elements }
        ensures ordered { AreOrdered T.Key.cmp T.key_of self.new.elements }
        ensures spare { self.new.spare + 1 ≡ self.old.spare }
    {
        let key = element.key();
        let spot = self.list.spot_of(&key);
        self.list.insert_at(spot, element);
    }

    /// Puts in an element where no other has its key, which can't fail, and tells whether it did.
    pub fn add(&mut self, element: T) -> bool
        requires room { 0 < self.old.spare }
        ensures there { (result ≡ false) ↔ HasKey T.Key.cmp T.key_of (T.key_of element) self.old.elements }
        ensures inserted { result ≡ true → IsInserted element self.old.elements self.new.elements }
        ensures unchanged { result ≡ false → self.new ≡ self.old }
        ensures ordered { AreOrdered T.Key.cmp T.key_of self.new.elements }
        ensures spare { self.old.spare ≤ self.new.spare + 1 }
    {
        let key = element.key();
        match self.seek(&key) {
            Ok(_) => false,
            Err(spot) => {
                self.list.insert_at(spot, element);
                true
            }
        }
    }

    /// Takes out the element with the key. `None` where there is no such element. As many adds are sure as before.
    pub fn remove(&mut self, key: &T::Key) -> Option<T>
        ensures none { IsNone result ↔ (¬ (HasKey T.Key.cmp T.key_of key.now self.old.elements)) }
        ensures removed { IfSome result (λ element. IsRemoved element self.old.elements self.new.elements) }
        ensures key { IfSome result (λ element. T.Key.cmp (T.key_of element) key.now ≡ Equal) }
        ensures unchanged { IfNone result (self.new ≡ self.old) }
        ensures ordered { AreOrdered T.Key.cmp T.key_of self.new.elements }
        ensures spare { self.new.spare ≡ self.old.spare }
    {
        let spot = self.find(key)?;
        Some(self.list.remove_at(spot))
    }

    /// Puts another element of the same key at the spot, and gives the one that stood there. It needs no room.
    pub fn replace_at(&mut self, spot: Spot, element: T) -> T
        requires within { spot.place < length self.old.elements }
        requires same { HoldsAt (λ other. T.key_of element ≡ T.key_of other) self.old.elements spot.place }
        ensures value { result ≡ slice_index_or self.old.elements spot.place result }
        ensures elements { self.new.elements ≡ set self.old.elements spot.place element }
        ensures ordered { AreOrdered T.Key.cmp T.key_of self.new.elements }
        ensures spare { self.new.spare ≡ self.old.spare }
    {
        self.list.replace_at(spot, element)
    }
}
