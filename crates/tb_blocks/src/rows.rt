//! The blocks of a list, with the number of elements before each.
ghost use Rattle.std.specs.Prelude.{◌≡◌, true, ℕ, ◌+◌, ◌-◌, ◌*◌, ◌^◌, ◌<◌, ◌≤◌, ◌++◌, ◌∷◌, [], OnOk, length, set, take, drop, slice_index, slice_index_or, vec_len, vec_capacity};
ghost use Rattle.std.specs.List.{insert, remove};
ghost use Rattle.tb_blocks.specs.Sizes.{block_size, group_size, half_size, most_blocks, full_of};
ghost use Rattle.tb_blocks.specs.Rows.{joined, before, block_at, halves, put_in, taken_from, replaced_in, AreRows};
ghost use Rattle.tb_blocks.specs.Lists.{HasPlaces, IsRun};

use crate::block::Block;
use crate::counts::{GROUP, count_from, lower, raise};
use std::alloc::{AllocError, Global};

/// The blocks of a list.
#[derive(Drop)]
pub struct Rows<T> {
    pub blocks: Vec<Block<T>>,
    starts: Vec<usize>,
    groups: Vec<usize>,
    // So many blocks are full.
    pub full: usize,
    // So many blocks have places.
    pub room: usize,
    ghost rows: { AreRows groups.items starts.items blocks.items },
    ghost fullness: { full ≡ full_of blocks.items },
    ghost places: { HasPlaces (length blocks.items) room
        (vec_capacity blocks) (vec_capacity starts) (vec_capacity groups) },
}

// Puts an element into a vector that has room for it.
fn insert_reserved<X: Drop>(vector: &mut Vec<X>, at: usize, element: X)
    requires within { at ≤ length vector.old.items }
    requires room { length vector.old.items < vec_capacity vector.old }
    ensures items { vector.new.items ≡ insert vector.old.items at element }
    ensures capacity { vec_capacity vector.new ≡ vec_capacity vector.old }
{
    vector.insert(at, element).unwrap();
}

impl<T: Copy + Drop> Rows<T> {
    /// No blocks.
    pub fn new(alloc: Global) -> Rows<T>
        ensures blocks { result.blocks.items ≡ [] }
        ensures room { result.room ≡ 0 }
    {
        Rows {
            blocks: Vec::new(alloc),
            starts: Vec::new(alloc),
            groups: Vec::new(alloc),
            full: 0,
            room: 0,
        }
    }

    /// Sees that there are places for so many blocks more.
    pub fn reserve(&mut self, more: usize) -> Result<(), AllocError>
        requires { more ≤ most_blocks }
        ensures room { OnOk result (length self.old.blocks.items + more ≤ self.new.room) }
        ensures same { self.new.blocks.items ≡ self.old.blocks.items }
        ensures kept { self.old.room ≤ self.new.room }
    {
        let count = self.blocks.len();
        self.blocks.reserve(more)?;
        self.starts.reserve(more)?;
        self.groups
            .reserve((count + more).saturating_sub(self.groups.len()))?;
        self.room = self.room.max(count + more);
        Ok(())
    }

    /// How many elements stand before the block.
    pub fn start(&self, at: usize) -> usize
        requires { at < length self.now.blocks.items }
        ensures start { result ≡ before at self.now.blocks.items }
        ensures fits { result ≤ block_size * most_blocks }
    {
        self.groups[at / GROUP] + self.starts[at]
    }

    // How many elements stand before the group.
    fn group_start(&self, group: usize) -> usize
        requires { group_size * group ≤ length self.now.blocks.items }
        ensures start { result ≡ before (group_size * group) self.now.blocks.items }
        ensures group { group ≤ length self.now.groups.items }
        ensures fits { result ≤ block_size * most_blocks }
    {
        if group < self.groups.len() {
            self.groups[group]
        } else {
            self.len()
        }
    }

    // Whether there is such a block, and the place is in it.
    fn is_in(&self, block: usize, place: usize) -> bool
        ensures { result ≡ true → (block < length self.now.blocks.items) × (before block self.now.blocks.items ≤ place)
            × (place < before (block + 1) self.now.blocks.items) }
    {
        if block >= self.blocks.len() {
            return false;
        }
        let start = self.start(block);
        start <= place && place - start < self.blocks[block].len()
    }

    /// The block that holds the place, or that an element at the place goes into. The one that is guessed is looked at
    /// first.
    pub fn block_of(&self, place: usize, guess: usize) -> usize
        requires some { 0 < length self.now.blocks.items }
        requires within { place ≤ length (joined self.now.blocks.items) }
        ensures at { result < length self.now.blocks.items }
        ensures low { before result self.now.blocks.items ≤ place }
        ensures high { place ≤ before (result + 1) self.now.blocks.items }
        ensures inside { place < length (joined self.now.blocks.items)
            → place < before (result + 1) self.now.blocks.items }
    {
        if self.is_in(guess, place) {
            return guess;
        }
        let (mut low, mut high) = (0, self.blocks.len());
        // The last block is looked at first: elements often go in behind all others.
        let mut middle = high - 1;
        while high - low > 1 {
            if self.start(middle) <= place {
                low = middle;
            } else {
                high = middle;
            }
            middle = low + (high - low) / 2;
        }
        low
    }

    pub fn len(&self) -> usize
        ensures { result ≡ length (joined self.now.blocks.items) }
    {
        match self.blocks.len() {
            0 => 0,
            count => self.start(count - 1) + self.blocks[count - 1].len(),
        }
    }

    /// The element at the place, and a guess at its block.
    pub fn at(&self, place: usize, guess: usize) -> &T
        requires { place < length (joined self.now.blocks.items) }
        ensures { result.now ≡ slice_index_or (joined self.now.blocks.items) place result.now }
    {
        let at = self.block_of(place, guess);
        self.blocks[at].at(place - self.start(at))
    }

    /// The elements of the place's block from the place on.
    pub fn run_from(&self, place: usize) -> &[T]
        requires { place < length (joined self.now.blocks.items) }
        ensures { IsRun place (joined self.now.blocks.items) result.now }
    {
        let at = self.block_of(place, 0);
        &self.blocks[at].elements()[place - self.start(at)..]
    }

    /// Puts the element into a block that isn't full.
    pub fn put(&mut self, at: usize, place: usize, element: T)
        requires at { at < length self.old.blocks.items }
        requires low { before at self.old.blocks.items ≤ place }
        requires high { place ≤ before (at + 1) self.old.blocks.items }
        requires room { length (block_at at self.old.blocks.items) < block_size }
        ensures blocks { self.new.blocks.items ≡ put_in at place element self.old.blocks.items }
        ensures room { self.new.room ≡ self.old.room }
    {
        let start = self.start(at);
        self.blocks[at].insert(place - start, element);
        self.full += self.blocks[at].full_count();
        let group = at / GROUP;
        let end = self.starts.len().min((group + 1) * GROUP);
        raise(&mut self.starts, at + 1, end);
        let groups = self.groups.len();
        raise(&mut self.groups, group + 1, groups);
    }

    /// Takes the element at the place out of its block.
    pub fn take(&mut self, at: usize, place: usize) -> T
        requires at { at < length self.old.blocks.items }
        requires low { before at self.old.blocks.items ≤ place }
        requires inside { place < before (at + 1) self.old.blocks.items }
        ensures value { result ≡ slice_index_or (block_at at self.old.blocks.items)
            (place - before at self.old.blocks.items) result }
        ensures blocks { self.new.blocks.items ≡ taken_from at place self.old.blocks.items }
        ensures room { self.new.room ≡ self.old.room }
    {
        let start = self.start(at);
        self.full -= self.blocks[at].full_count();
        let element = self.blocks[at].remove(place - start);
        let group = at / GROUP;
        let end = self.starts.len().min((group + 1) * GROUP);
        lower(&mut self.starts, at + 1, end);
        let groups = self.groups.len();
        lower(&mut self.groups, group + 1, groups);
        element
    }

    /// Puts another element at the place.
    pub fn replace(&mut self, at: usize, place: usize, element: T) -> T
        requires at { at < length self.old.blocks.items }
        requires low { before at self.old.blocks.items ≤ place }
        requires inside { place < before (at + 1) self.old.blocks.items }
        ensures value { result ≡ slice_index_or (block_at at self.old.blocks.items)
            (place - before at self.old.blocks.items) result }
        ensures blocks { self.new.blocks.items ≡ replaced_in at place element self.old.blocks.items }
        ensures room { self.new.room ≡ self.old.room }
    {
        let start = self.start(at);
        self.blocks[at].replace(place - start, element)
    }

    /// Puts an empty block in before the one at the place, or behind the last.
    pub fn open(&mut self, at: usize, block: Block<T>)
        requires at { at ≤ length self.old.blocks.items }
        requires empty { block ≡ [] }
        requires room { length self.old.blocks.items < self.old.room }
        requires few { length self.old.blocks.items < most_blocks }
        ensures blocks { self.new.blocks.items ≡ insert self.old.blocks.items at block }
        ensures room { self.new.room ≡ self.old.room }
    {
        let group = at / GROUP;
        let elements = self.group_start(group);
        insert_reserved(&mut self.blocks, at, block);
        count_from(
            &self.blocks,
            &mut self.starts,
            &mut self.groups,
            group,
            elements,
        );
    }

    /// Splits a full block: its upper half goes into the empty block, which comes behind it.
    pub fn split(&mut self, at: usize, mut upper: Block<T>)
        requires at { at < length self.old.blocks.items }
        requires full { length (block_at at self.old.blocks.items) ≡ block_size }
        requires empty { upper ≡ [] }
        requires room { length self.old.blocks.items < self.old.room }
        requires few { length self.old.blocks.items < most_blocks }
        ensures blocks { self.new.blocks.items ≡ halves self.old.blocks.items at }
        ensures room { self.new.room ≡ self.old.room }
    {
        let group = at / GROUP;
        let elements = self.group_start(group);
        self.blocks[at].split_into(&mut upper);
        insert_reserved(&mut self.blocks, at + 1, upper);
        self.full -= 1;
        count_from(
            &self.blocks,
            &mut self.starts,
            &mut self.groups,
            group,
            elements,
        );
    }

    /// Gives up an empty block.
    pub fn give_up(&mut self, at: usize) -> Block<T>
        requires at { at < length self.old.blocks.items }
        requires empty { block_at at self.old.blocks.items ≡ [] }
        ensures empty { result ≡ [] }
        ensures blocks { self.new.blocks.items ≡ remove self.old.blocks.items at }
        ensures room { self.new.room ≡ self.old.room }
    {
        let group = at / GROUP;
        let elements = self.group_start(group);
        let block = self.blocks.remove(at);
        count_from(
            &self.blocks,
            &mut self.starts,
            &mut self.groups,
            group,
            elements,
        );
        block
    }
}
