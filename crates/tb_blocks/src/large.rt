//! A list of more than one block.
ghost use Rattle.std.specs.Prelude.{◌≡◌, ℕ, ◌+◌, ◌*◌, ◌-◌, ◌<◌, ◌≤◌, List, [], ◌∷◌, length, set, take, drop, min, OnOk, IsOk, OnErr, IfOk, IfSome, slice_index_or, vec_len, vec_capacity};
ghost use Rattle.std.specs.List.{insert, remove};
ghost use Rattle.tb_blocks.specs.Sizes.{block_size, half_size, most_blocks, progress_of};
ghost use Rattle.tb_blocks.specs.Rows.{joined, before, block_at, halves, IsWay, AreFilled};
ghost use Rattle.tb_blocks.specs.Lists.{IsSure, IsSureAfter, IsPace, HasRoom, IsRun};
ghost use Rattle.tb_blocks.specs.Orders.{PartsAt};

use crate::block::{BLOCK, Block, HALF};
use crate::pool::Pool;
use crate::room::{MOST_ADDS, fill, needed, pace_for, progress_at, progress_of};
use crate::rows::Rows;
use crate::search::{Keyed, Spot};
use std::alloc::{AllocError, Global};
use std::marker::Model;

/// A list. Contracts see its elements and the number of adds that are sure.
#[derive(Drop)]
pub struct Large<T> {
    rows: Rows<T>,
    pool: Pool<T>,
    // So many adds are promised, each free block counting for so many of them.
    spare: usize,
    pace: usize,
    alloc: Global,
}

impl<T> Model for Large<T> {
    ghost use Rattle.std.specs.Prelude.{length, vec_capacity};
    ghost use Rattle.tb_blocks.specs.Rows.{joined};
    ghost use Rattle.tb_blocks.specs.Lists.{Listed, IsReady, HasRoom};

    ghost Value = { Listed T };

    ghost view = { λ list. record { elements = joined list.rows.blocks.items; spare = list.spare } };

    ghost invariant = { λ list.
        IsReady list.pace list.spare list.rows.blocks.items (length list.pool.free.items)
        × HasRoom (length list.rows.blocks.items) (length list.pool.free.items)
        list.rows.room (vec_capacity list.pool.free) };
}

impl<T: Copy + Drop> Large<T> {
    /// An empty list with an empty block.
    pub fn new(alloc: Global) -> Result<Large<T>, AllocError>
        ensures { IfOk result (λ list. list.elements ≡ []) }
    {
        let (mut rows, mut pool) = (Rows::new(alloc), Pool::new(alloc));
        rows.reserve(1)?;
        pool.reserve(1)?;
        rows.open(0, Block::new(alloc)?);
        Ok(Large {
            rows,
            pool,
            spare: 0,
            pace: 1,
            alloc,
        })
    }

    pub fn len(&self) -> usize
        ensures { result ≡ length self.now.elements }
    {
        self.rows.len()
    }

    /// How many adds are sure.
    pub fn spare(&self) -> usize
        ensures { result ≡ self.now.spare }
    {
        self.spare
    }

    /// Makes so many adds sure.
    pub fn reserve(&mut self, more: usize) -> Result<(), AllocError>
        ensures spare { OnOk result (more ≤ self.new.spare) }
        // Where the room is there already it succeeds.
        ensures there { more ≤ self.old.spare → IsOk result }
        // The elements stay, and no room is lost, whatever the result.
        ensures elements { self.new.elements ≡ self.old.elements }
        ensures room { self.old.spare ≤ self.new.spare }
    {
        if more <= self.spare {
            return Ok(());
        }
        if more > MOST_ADDS {
            return Err(AllocError);
        }
        let pace = pace_for(&self.rows, self.pool.free.len(), more);
        let progress = progress_at(&self.rows, pace);
        fill(
            &mut self.rows,
            &mut self.pool,
            needed(more, progress, pace),
            self.alloc,
        )?;
        self.spare = pace + pace.min(HALF) * self.pool.free.len() - 1 - progress;
        self.pace = pace;
        Ok(())
    }

    /// How many blocks there are, free ones too.
    #[cfg(test)]
    pub fn blocks(&self) -> usize {
        let free = self.pool.free.len();
        self.rows.blocks.len() + free
    }

    /// The element at the place, and a guess at its block.
    pub fn at(&self, place: usize, guess: usize) -> &T
        requires { place < length self.now.elements }
        ensures { result.now ≡ slice_index_or self.now.elements place result.now }
    {
        self.rows.at(place, guess)
    }

    /// The elements from the place on, as far as they stand together.
    pub fn run_from(&self, place: usize) -> &[T]
        requires { place < length self.now.elements }
        ensures { IsRun place self.now.elements result.now }
    {
        self.rows.run_from(place)
    }

    /// Puts the element at the place, whose block is guessed, which can't fail.
    pub fn insert(&mut self, place: usize, guess: usize, element: T)
        requires room { 0 < self.old.spare }
        requires within { place ≤ length self.old.elements }
        ensures elements { self.new.elements ≡ insert self.old.elements place element }
        ensures spare { self.new.spare + 1 ≡ self.old.spare }
    {
        let at = self.rows.block_of(place, guess);
        let way = make_way(
            &mut self.rows,
            &mut self.pool,
            at,
            place,
            self.pace,
            self.spare,
        );
        self.rows.put(way.at, place, element);
        self.pace = way.pace;
        self.spare -= 1;
    }

    /// Takes the element at the place out, whose block is guessed. As many adds are sure as before.
    pub fn remove(&mut self, place: usize, guess: usize) -> T
        requires { place < length self.old.elements }
        ensures value { result ≡ slice_index_or self.old.elements place result }
        ensures elements { self.new.elements ≡ remove self.old.elements place }
        ensures spare { self.new.spare ≡ self.old.spare }
    {
        let at = self.rows.block_of(place, guess);
        let element = self.rows.take(at, place);
        free_empty(&mut self.rows, &mut self.pool, at);
        element
    }

    /// Puts another element at the place, whose block is guessed, and gives the one that stood there.
    pub fn replace(&mut self, place: usize, guess: usize, element: T) -> T
        requires { place < length self.old.elements }
        ensures value { result ≡ slice_index_or self.old.elements place result }
        ensures elements { self.new.elements ≡ set self.old.elements place element }
        ensures spare { self.new.spare ≡ self.old.spare }
    {
        let at = self.rows.block_of(place, guess);
        self.rows.replace(at, place, element)
    }
}

impl<T: Keyed + Copy + Drop> Large<T> {
    /// The place before which the elements stand before the key, where those come first.
    pub fn spot_of(&self, key: &T::Key) -> Spot
        ensures within { result.place ≤ length self.now.elements }
        ensures place { PartsAt T.Key.cmp T.key_of key.now self.now.elements result.place }
    {
        self.rows.spot_of(key)
    }
}

// The block that an element goes into, and the pace from then on.
#[derive(Clone, Copy)]
struct Way {
    at: usize,
    pace: usize,
}

// Makes way for an element at the place, which goes into this block.
fn make_way<T: Copy + Drop>(
    rows: &mut Rows<T>,
    pool: &mut Pool<T>,
    at: usize,
    place: usize,
    pace: usize,
    spare: usize,
) -> Way
    requires at { at < length rows.old.blocks.items }
    requires low { before at rows.old.blocks.items ≤ place }
    requires high { place ≤ before (at + 1) rows.old.blocks.items }
    requires filled { AreFilled rows.old.blocks.items }
    requires positive { 0 < spare }
    requires pace { IsPace pace }
    requires sure { IsSure pace spare rows.old.blocks.items (length pool.old.free.items) }
    requires room { HasRoom (length rows.old.blocks.items) (length pool.old.free.items)
        rows.old.room (vec_capacity pool.old.free) }
    ensures way { IsWay place result.at rows.old.blocks.items rows.new.blocks.items }
    ensures pace { IsPace result.pace }
    ensures room { HasRoom (length rows.new.blocks.items) (length pool.new.free.items)
        rows.new.room (vec_capacity pool.new.free) }
    ensures filled { (block : List T) → 0 < length block → AreFilled (set rows.new.blocks.items result.at block) }
    ensures sure { IsSureAfter result.at result.pace (spare - 1) rows.new.blocks.items (length pool.new.free.items) }
{
    if rows.blocks[at].len() < BLOCK {
        return Way { at, pace };
    }
    let free = pool.free.len();
    let pace = pace.min(HALF);
    match end_at(rows, at, place) {
        Some(fresh) if spare + progress_of(pace, &rows.blocks) <= pace * free => {
            rows.open(fresh, pool.take());
            Way { at: fresh, pace }
        }
        _ => Way {
            at: split(rows, pool, at, place),
            pace,
        },
    }
}

// Where the place is an end of the list: the place of a new block there.
fn end_at<T: Copy + Drop>(rows: &Rows<T>, at: usize, place: usize) -> Option<usize>
    requires at { at < length rows.now.blocks.items }
    requires low { before at rows.now.blocks.items ≤ place }
    requires high { place ≤ before (at + 1) rows.now.blocks.items }
    ensures at { IfSome result (λ fresh. fresh ≤ length rows.now.blocks.items) }
    ensures before { IfSome result (λ fresh. before fresh rows.now.blocks.items ≡ place) }
{
    if place == 0 {
        return Some(at);
    }
    if place == rows.len() {
        return Some(at + 1);
    }
    None
}

// Splits the full block, and gives the half that the place is in.
fn split<T: Copy + Drop>(rows: &mut Rows<T>, pool: &mut Pool<T>, at: usize, place: usize) -> usize
    requires at { at < length rows.old.blocks.items }
    requires low { before at rows.old.blocks.items ≤ place }
    requires high { place ≤ before (at + 1) rows.old.blocks.items }
    requires full { length (block_at at rows.old.blocks.items) ≡ block_size }
    requires free { 0 < length pool.old.free.items }
    requires room { HasRoom (length rows.old.blocks.items) (length pool.old.free.items)
        rows.old.room (vec_capacity pool.old.free) }
    ensures blocks { rows.new.blocks.items ≡ halves rows.old.blocks.items at }
    ensures free { length pool.new.free.items + 1 ≡ length pool.old.free.items }
    ensures side { result ≤ at + 1 }
    ensures other { at ≤ result }
    ensures low { before result rows.new.blocks.items ≤ place }
    ensures high { place ≤ before (result + 1) rows.new.blocks.items }
    ensures half { length (block_at result rows.new.blocks.items) ≡ half_size }
    ensures room { HasRoom (length rows.new.blocks.items) (length pool.new.free.items)
        rows.new.room (vec_capacity pool.new.free) }
{
    rows.split(at, pool.take());
    if place <= rows.start(at + 1) {
        at
    } else {
        at + 1
    }
}

// Gives an empty block back, but for a list's only one.
fn free_empty<T: Copy + Drop>(rows: &mut Rows<T>, pool: &mut Pool<T>, at: usize)
    requires at { at < length rows.old.blocks.items }
    requires room { HasRoom (length rows.old.blocks.items) (length pool.old.free.items)
        rows.old.room (vec_capacity pool.old.free) }
    requires filled { (k : ℕ) → (k ≡ at → ⊥) → k < length rows.old.blocks.items
        → 0 < length (block_at k rows.old.blocks.items) }
    ensures same { joined rows.new.blocks.items ≡ joined rows.old.blocks.items }
    ensures some { 0 < length rows.new.blocks.items }
    ensures filled { AreFilled rows.new.blocks.items }
    ensures room { HasRoom (length rows.new.blocks.items) (length pool.new.free.items)
        rows.new.room (vec_capacity pool.new.free) }
    ensures sure { (pace spare : ℕ)
        → IsSure pace spare rows.old.blocks.items (length pool.old.free.items)
        → IsSure pace spare rows.new.blocks.items (length pool.new.free.items) }
{
    if rows.blocks[at].len() > 0 || rows.blocks.len() == 1 {
        return;
    }
    pool.give(rows.give_up(at));
}
