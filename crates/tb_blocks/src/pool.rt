//! Free blocks.
ghost use Rattle.std.specs.Prelude.{◌≡◌, ℕ, ◌+◌, ◌<◌, ◌≤◌, [], OnOk, length, slice_index_or, vec_capacity};
ghost use Rattle.tb_blocks.specs.Sizes.{most_blocks};

use crate::block::Block;
use std::alloc::{AllocError, Global};

/// Free blocks, which are empty.
#[derive(Drop)]
pub struct Pool<T> {
    pub free: Vec<Block<T>>,
    ghost empty: { (k : ℕ) → slice_index_or free.items k [] ≡ [] },
}

impl<T: Copy + Drop> Pool<T> {
    /// No blocks.
    pub fn new(alloc: Global) -> Pool<T>
        ensures free { result.free.items ≡ [] }
        ensures room { vec_capacity result.free ≡ 0 }
    {
        Pool {
            free: Vec::new(alloc),
        }
    }

    /// Sees that there are places for so many blocks.
    pub fn reserve(&mut self, room: usize) -> Result<(), AllocError>
        ensures room { OnOk result (room ≤ vec_capacity self.new.free) }
        ensures same { self.new.free.items ≡ self.old.free.items }
        ensures kept { vec_capacity self.old.free ≤ vec_capacity self.new.free }
    {
        self.free.reserve(room.saturating_sub(self.free.len()))
    }

    /// Takes a block out.
    pub fn take(&mut self) -> Block<T>
        requires some { 0 < length self.old.free.items }
        ensures empty { result ≡ [] }
        ensures fewer { length self.new.free.items + 1 ≡ length self.old.free.items }
        ensures capacity { vec_capacity self.new.free ≡ vec_capacity self.old.free }
    {
        self.free.pop().unwrap()
    }

    /// Takes a block back.
    pub fn give(&mut self, block: Block<T>)
        requires empty { block ≡ [] }
        requires room { length self.old.free.items < vec_capacity self.old.free }
        ensures more { length self.new.free.items ≡ length self.old.free.items + 1 }
        ensures capacity { vec_capacity self.new.free ≡ vec_capacity self.old.free }
    {
        self.free.push_reserved(block);
    }
}
