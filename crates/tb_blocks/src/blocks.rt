//! A list that is read and changed by place.
ghost use Rattle.std.specs.Prelude.{◌≡◌, ℕ, ◌+◌, ◌<◌, ◌≤◌, [], length, set, OnOk, IsOk, OnErr, IfOk, slice_index_or, vec_capacity, vec_len};
ghost use Rattle.std.specs.List.{insert, remove};
ghost use Rattle.tb_blocks.specs.Sizes.{block_size};
ghost use Rattle.tb_blocks.specs.Lists.{IsRun};
ghost use Rattle.tb_blocks.specs.Orders.{PartsAt};

use crate::block::BLOCK;
use crate::large::Large;
use crate::room::MOST_ADDS;
use crate::search::{Keyed, Spot, place_in};
use std::alloc::{AllocError, Global};
use std::marker::Model;
use std::mem;

/// A list. Contracts see its elements, and how many adds are sure: so many may follow wherever they go, whatever is
/// taken out between them.
#[derive(Drop)]
pub struct Blocks<T> {
    // A list that never needed more than one block stands in the vector, which grows as vectors do.
    small: Vec<T>,
    spare: usize,
    large: Option<Box<Large<T>>>,
    alloc: Global,
}

impl<T> Model for Blocks<T> {
    ghost use Rattle.std.specs.Prelude.{◌+◌, ◌≤◌, vec_len, vec_capacity};
    ghost use Rattle.tb_blocks.specs.Sizes.{block_size};
    ghost use Rattle.tb_blocks.specs.Lists.{Listed, seen};

    ghost Value = { Listed T };

    ghost view = { λ list. seen list.small.items list.spare list.large };

    ghost invariant = { λ list.
        (vec_len list.small + list.spare ≤ vec_capacity list.small) × (vec_len list.small + list.spare ≤ block_size) };
}

impl<T: Copy + Drop> Blocks<T> {
    /// An empty list, which takes no memory.
    pub fn new(alloc: Global) -> Blocks<T>
        ensures elements { result.elements ≡ [] }
        ensures spare { result.spare ≡ 0 }
    {
        Blocks {
            small: Vec::new(alloc),
            spare: 0,
            large: None,
            alloc,
        }
    }

    /// How many elements there are.
    pub fn len(&self) -> usize
        ensures { result ≡ length self.now.elements }
    {
        match &self.large {
            None => self.small.len(),
            Some(large) => large.len(),
        }
    }

    /// How many adds are sure.
    pub fn spare(&self) -> usize
        ensures { result ≡ self.now.spare }
    {
        match &self.large {
            None => self.spare,
            Some(large) => large.spare(),
        }
    }

    /// Makes so many adds sure. No other call takes memory: a list of one block grows as a vector does, a longer one
    /// takes the fewest blocks that the adds can need, or one for each of them where it has as many.
    pub fn reserve(&mut self, more: usize) -> Result<(), AllocError>
        ensures spare { OnOk result (more ≤ self.new.spare) }
        // Where the room is there already it succeeds.
        ensures there { more ≤ self.old.spare → IsOk result }
        // The elements stay, and no room is lost, whatever the result.
        ensures elements { self.new.elements ≡ self.old.elements }
        ensures room { self.old.spare ≤ self.new.spare }
    {
        if let Some(large) = &mut self.large {
            return large.reserve(more);
        }
        if more <= self.spare {
            return Ok(());
        }
        let few = self.small.len();
        if more <= BLOCK - few {
            self.small.reserve(more)?;
            self.spare = more;
            return Ok(());
        }
        let large = enlarged(&mut self.small, more, self.alloc)?;
        self.small = Vec::new(self.alloc);
        self.spare = 0;
        self.large = Some(large);
        Ok(())
    }

    /// The element at the place.
    pub fn at(&self, place: usize) -> &T
        requires { place < length self.now.elements }
        ensures { result.now ≡ slice_index_or self.now.elements place result.now }
    {
        self.at_spot(Spot::at(place))
    }

    /// The element at the spot.
    pub fn at_spot(&self, spot: Spot) -> &T
        requires { spot.place < length self.now.elements }
        ensures { result.now ≡ slice_index_or self.now.elements spot.place result.now }
    {
        match &self.large {
            None => &self.small[spot.place],
            Some(large) => large.at(spot.place, spot.block),
        }
    }

    /// The elements from the place on, as far as they stand together in memory: a walk goes on behind the last of them.
    pub fn run_from(&self, place: usize) -> &[T]
        requires { place < length self.now.elements }
        ensures { IsRun place self.now.elements result.now }
    {
        match &self.large {
            None => &self.small[place..],
            Some(large) => large.run_from(place),
        }
    }

    /// Puts the element at the spot, which can't fail.
    pub fn insert_at(&mut self, spot: Spot, element: T)
        requires room { 0 < self.old.spare }
        requires within { spot.place ≤ length self.old.elements }
        ensures elements { self.new.elements ≡ insert self.old.elements spot.place element }
        ensures spare { self.new.spare + 1 ≡ self.old.spare }
    {
        match &mut self.large {
            None => {
                self.small.insert(spot.place, element).unwrap();
                self.spare -= 1;
            }
            Some(large) => large.insert(spot.place, spot.block, element),
        }
    }

    /// Takes the element at the spot out. As many adds are sure as before.
    pub fn remove_at(&mut self, spot: Spot) -> T
        requires { spot.place < length self.old.elements }
        ensures value { result ≡ slice_index_or self.old.elements spot.place result }
        ensures elements { self.new.elements ≡ remove self.old.elements spot.place }
        ensures spare { self.new.spare ≡ self.old.spare }
    {
        match &mut self.large {
            None => self.small.remove(spot.place),
            Some(large) => large.remove(spot.place, spot.block),
        }
    }

    /// Puts another element at the spot, and gives the one that stood there.
    pub fn replace_at(&mut self, spot: Spot, element: T) -> T
        requires { spot.place < length self.old.elements }
        ensures value { result ≡ slice_index_or self.old.elements spot.place result }
        ensures elements { self.new.elements ≡ set self.old.elements spot.place element }
        ensures spare { self.new.spare ≡ self.old.spare }
    {
        match &mut self.large {
            None => mem::replace(&mut self.small[spot.place], element),
            Some(large) => large.replace(spot.place, spot.block, element),
        }
    }
}

impl<T: Keyed + Copy + Drop> Blocks<T> {
    /// The spot before which the elements stand before the key, where those come first.
    pub fn spot_of(&self, key: &T::Key) -> Spot
        ensures within { result.place ≤ length self.now.elements }
        ensures place { PartsAt T.Key.cmp T.key_of key.now self.now.elements result.place }
    {
        match &self.large {
            None => Spot::at(place_in(&self.small, key)),
            Some(large) => large.spot_of(key),
        }
    }
}

// The list of the vector in blocks, where so many adds are sure. The vector is empty then.
fn enlarged<T: Copy + Drop>(
    small: &mut Vec<T>,
    more: usize,
    alloc: Global,
) -> Result<Box<Large<T>>, AllocError>
    requires { vec_len small.old ≤ block_size }
    ensures elements { IfOk result (λ large. large.value.elements ≡ small.old.items) }
    ensures spare { IfOk result (λ large. more ≤ large.value.spare) }
    ensures unchanged { OnErr result (small.new ≡ small.old) }
{
    if more > MOST_ADDS {
        return Err(AllocError);
    }
    let mut large = Box::new(alloc, Large::new(alloc)?)?;
    large.reserve(more + small.len())?;
    move_all(small, &mut large);
    Ok(large)
}

// Moves all elements of the vector into an empty list, in which so many adds are sure.
fn move_all<T: Copy + Drop>(small: &mut Vec<T>, large: &mut Large<T>)
    requires empty { large.old.elements ≡ [] }
    requires room { vec_len small.old ≤ large.old.spare }
    ensures elements { large.new.elements ≡ small.old.items }
    ensures spare { large.new.spare + vec_len small.old ≡ large.old.spare }
    ensures none { small.new.items ≡ [] }
{
    small.reverse();
    while let Some(element) = small.pop() {
        let end = large.len();
        large.insert(end, 0, element);
    }
}
