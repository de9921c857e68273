//! One block of a list, with room for a fixed number of elements.
ghost use Rattle.std.specs.Prelude.{◌≡◌, ◌+◌, ◌-◌, ◌<◌, ◌≤◌, ◌↔◌, [], ◌++◌, IfOk, IsTrue, length, set, take, drop, slice_get, slice_index_or, vec_len, vec_capacity};
ghost use Rattle.std.specs.List.{insert, remove};
ghost use Rattle.tb_blocks.specs.Sizes.{block_size, half_size, progress};

use std::alloc::{AllocError, Global};
use std::marker::Model;
use std::mem;

/// The most elements of a block.
pub const BLOCK: usize = 256;

/// The elements that a full block keeps when it is split.
pub const HALF: usize = 128;

/// A block. Contracts see the list of its elements.
#[derive(Drop)]
pub struct Block<T> {
    elements: Vec<T>,
    // The first element again: a search over blocks looks at nothing else of them, and here it needn't go to where each
    // has its elements.
    first: Option<T>,
}

impl<T> Model for Block<T> {
    ghost use Rattle.std.specs.Prelude.{List, ◌≡◌, ◌≤◌, slice_get, vec_len, vec_capacity};
    ghost use Rattle.tb_blocks.specs.Sizes.{block_size};

    ghost Value = { List T };

    ghost view = { λ block. block.elements.items };

    ghost invariant = { λ block. (vec_len block.elements ≤ block_size) × (block_size ≤ vec_capacity block.elements)
        × (block.first ≡ slice_get block.elements.items 0) };
}

impl<T: Copy + Drop> Block<T> {
    pub fn new(alloc: Global) -> Result<Block<T>, AllocError>
        ensures { IfOk result (λ block. block ≡ []) }
    {
        let elements = Vec::with_capacity(alloc, BLOCK)?;
        Ok(Block {
            elements,
            first: None,
        })
    }

    pub fn len(&self) -> usize
        ensures len { result ≡ length self.now }
        ensures most { result ≤ block_size }
    {
        self.elements.len()
    }

    /// One for a full block, and else none.
    pub fn full_count(&self) -> usize
        ensures { result ≡ progress 2 self.now }
    {
        if self.elements.len() == BLOCK { 1 } else { 0 }
    }

    pub fn elements(&self) -> &[T]
        ensures { result.now ≡ self.now }
    {
        &self.elements
    }

    pub fn at(&self, place: usize) -> &T
        requires { place < length self.now }
        ensures { result.now ≡ slice_index_or self.now place result.now }
    {
        &self.elements[place]
    }

    /// The first element.
    pub fn first(&self) -> T
        requires { 0 < length self.now }
        ensures { result ≡ slice_index_or self.now 0 result }
    {
        self.first.unwrap()
    }

    pub fn insert(&mut self, place: usize, element: T)
        requires within { place ≤ length self.old }
        requires room { length self.old < block_size }
        ensures { self.new ≡ insert self.old place element }
    {
        if place == 0 {
            self.first = Some(element);
        }
        self.elements.insert(place, element).unwrap();
    }

    pub fn remove(&mut self, place: usize) -> T
        requires { place < length self.old }
        ensures value { result ≡ slice_index_or self.old place result }
        ensures rest { self.new ≡ remove self.old place }
    {
        let element = self.elements.remove(place);
        self.first = first_of(&self.elements);
        element
    }

    pub fn replace(&mut self, place: usize, element: T) -> T
        requires { place < length self.old }
        ensures value { result ≡ slice_index_or self.old place result }
        ensures rest { self.new ≡ set self.old place element }
    {
        if place == 0 {
            self.first = Some(element);
        }
        mem::replace(&mut self.elements[place], element)
    }

    /// Moves the upper half into an empty block.
    pub fn split_into(&mut self, upper: &mut Block<T>)
        requires full { length self.old ≡ block_size }
        requires empty { upper.old ≡ [] }
        ensures lower { self.new ≡ take half_size self.old }
        ensures upper { upper.new ≡ drop half_size self.old }
    {
        move_tail(&mut self.elements, &mut upper.elements, HALF);
        self.first = first_of(&self.elements);
        upper.first = first_of(&upper.elements);
    }
}

// The first of the elements.
fn first_of<T: Copy>(elements: &[T]) -> Option<T>
    ensures { result ≡ slice_get elements.now 0 }
{
    elements.first().copied()
}

// Moves what stands behind the first `kept` elements into an empty vector that has room for it.
fn move_tail<T: Copy + Drop>(from: &mut Vec<T>, into: &mut Vec<T>, kept: usize)
    requires some { kept ≤ vec_len from.old }
    requires empty { into.old.items ≡ [] }
    requires room { vec_len from.old ≤ kept + vec_capacity into.old }
    ensures kept { from.new.items ≡ take kept from.old.items }
    ensures moved { into.new.items ≡ drop kept from.old.items }
    ensures len { vec_len from.new ≡ kept }
    ensures into_len { vec_len into.new + kept ≡ vec_len from.old }
    ensures capacity { vec_capacity from.new ≡ vec_capacity from.old }
    ensures into_capacity { vec_capacity into.new ≡ vec_capacity into.old }
{
    while from.len() > kept {
        into.push_reserved(from.pop().unwrap());
    }
    into.reverse();
}
